//! What a mirror answered to a report, and what it holds.

ghost use Rattle.std.specs.Prelude.{◌≡◌, ◌≢◌, ◌≤◌, ◌∷◌, ◌++◌, [], IfOk, OnOk, length, string_bytes};
ghost use Rattle.std.specs.Fmt.{decimal};
ghost use Rattle.swima_model.specs.declared.report.Kind.TheVariants as kinds;
ghost use Rattle.command_text.specs.Text.{body_text, content_words, line, lines_between, listed, mirror_head, mirror_text, model_text, record_line, skipped_line, took};

use crate::numbered_lines::{one_number, three_numbers, two_numbers, words};
use crate::refusal_lines::from_string;
use itoa::Buffer;
use sha2::{Digest, Sha256};
use std::alloc::Global;
use swima_model::{Content, Kind, Model, Point, Record};
use validator_core::{Mirror, Taken};
use wire_base::{Memory, Octets, put_escaped};

/// The word with which an answer to a report begins.
const TOOK: &str = "took";

/// The line that says what a mirror answered to a report of that many records or events at a point;
/// `Memory` has none.
pub fn took_line(alloc: Global, point: Point, count: usize, taken: Taken) -> Result<Octets, Memory>
    ensures line { IfOk result (λ made. made ≡ took point count taken) }
    ensures answered { OnOk result (taken ≢ Taken.Memory) }
{
    match taken {
        Taken::WrongKind => words(alloc, TOOK, "wrong-kind"),
        Taken::Stale => words(alloc, TOOK, "stale"),
        Taken::Doubled { id } => one_number(alloc, TOOK, "doubled", id as u64),
        Taken::Large { count, octets } => {
            two_numbers(alloc, TOOK, "large", count as u64, octets)
        }
        Taken::Adopted => {
            let Point { epoch, eid } = point;
            three_numbers(
                alloc,
                TOOK,
                "adopted",
                epoch as u64,
                eid as u64,
                count as u64,
            )
        }
        Taken::OtherEpoch { have, got } => other_epoch(alloc, have, got as u64),
        Taken::Gap { have, got } => two_numbers(alloc, TOOK, "gap", have as u64, got as u64),
        Taken::Contradiction { eid } => one_number(alloc, TOOK, "contradiction", eid as u64),
        Taken::Advanced { from, to } => {
            two_numbers(alloc, TOOK, "advanced", from as u64, to as u64)
        }
        Taken::Memory => Err(Memory),
    }
}

fn other_epoch(alloc: Global, have: Option<u32>, got: u64) -> Result<Octets, Memory>
    ensures line { IfOk result (λ made.
        made ≡ took (record { epoch = 0; eid = 0 }) 0 (Taken.OtherEpoch have got)) }
{
    match have {
        None => Ok(from_string(format!(in alloc; "{TOOK} other-epoch none {got}\n")?)),
        Some(have) => two_numbers(alloc, TOOK, "other-epoch", have as u64, got),
    }
}

/// The line of an attribute that was skipped.
pub fn skipped_line(alloc: Global, vendor: u32, attr_type: u32) -> Result<Octets, Memory>
    ensures line { IfOk result (λ made. made ≡ skipped_line vendor attr_type) }
{
    Ok(from_string(format!(in alloc; "skipped {vendor} {attr_type}\n")?))
}

/// What a mirror holds: its first line, and a line for each record.
pub fn mirror_text(alloc: Global, mirror: &Mirror) -> Result<Octets, Memory>
    ensures text { IfOk result (λ made. made ≡ mirror_text mirror.now) }
{
    let mut out = mirror_head(alloc, mirror)?;
    put_records(&mut out, mirror, 0, listed_count(mirror))?;
    Ok(out)
}

/// The first line of what a mirror holds: its point and how many records, or that it has no point
/// yet.
pub fn mirror_head(alloc: Global, mirror: &Mirror) -> Result<Octets, Memory>
    ensures line { IfOk result
        (λ made. made ≡ mirror_head mirror.now.point (length mirror.now.records)) }
{
    let Some(point) = mirror.point() else {
        return Ok(from_string(format!(in alloc; "mirror none\n")?));
    };
    let epoch = point.epoch;
    let eid = point.eid;
    let count = mirror.count();
    Ok(from_string(format!(in alloc; "mirror {epoch} {eid} {count}\n")?))
}

/// How many records of a mirror have a line: all, or none where it has no point yet.
pub fn listed_count(mirror: &Mirror) -> u32
    ensures count { result ≡ length (listed mirror.now.point mirror.now.records) }
{
    match mirror.point() {
        None => 0,
        Some(_) => mirror.count(),
    }
}

/// Puts a line for each record of a mirror at the end of `out`, from the record at the place
/// `start` up to the place `end`, which is left out.
pub fn put_records(out: &mut Octets, mirror: &Mirror, start: u32, end: u32) -> Result<(), Memory>
    requires order { start ≤ end }
    ensures appended { OnOk result (out.new ≡ out.old ++ lines_between start end mirror.now) }
{
    for place in start..end {
        if let Some(record) = mirror.record_at(place) {
            put_record(out, mirror.kind(), record)?;
        }
    }
    Ok(())
}

#[tactic(auto, unfolding(crate::specs::Text::record_line))]
fn put_record(out: &mut Octets, kind: Kind, added: &Record) -> Result<(), Memory>
    ensures appended { OnOk result (out.new ≡ out.old ++ record_line kind added.now) }
{
    out.extend(b"record ")?;
    put_number(out, added.id as u64)?;
    out.push(b' ')?;
    put_model(out, added.content.model)?;
    out.push(b' ')?;
    put_content(out, kind, &added.content)
}

/// Puts the end of a record's line at the end of `out`: the words after that of its data model.
fn put_content(out: &mut Octets, kind: Kind, added: &Content) -> Result<(), Memory>
    ensures appended { OnOk result (out.new ≡ out.old ++ line (content_words kind added.now)) }
{
    put_number(out, added.source as u64)?;
    out.push(b' ')?;
    put_escaped(out, added.ident.bytes())?;
    out.push(b' ')?;
    put_escaped(out, added.locator.bytes())?;
    put_body(out, kind, added.body.bytes())
}

fn put_model(out: &mut Octets, model: Model) -> Result<(), Memory>
    ensures appended { OnOk result (out.new ≡ out.old ++ model_text model) }
{
    put_number(out, model.pen as u64)?;
    out.push(b'/')?;
    put_number(out, model.kind as u64)
}

/// Puts the last word of a record's line at the end of `out`, with the space before it and the line
/// feed after it.
fn put_body(out: &mut Octets, kind: Kind, body: &[u8]) -> Result<(), Memory>
    ensures appended { OnOk result (out.new ≡ out.old ++ 32 ∷ (body_text kind body.now ++ 10 ∷ [])) }
{
    match kind {
        Kind::Ids => out.extend(b" -\n"),
        Kind::Full => put_digest(out, body),
    }
}

/// Puts the length and the digest of a body at the end of `out`, with the space before them and the
/// line feed after.
fn put_digest(out: &mut Octets, body: &[u8]) -> Result<(), Memory>
    ensures appended { OnOk result (out.new ≡ out.old ++ 32 ∷ (body_text kinds.Full body.now ++ 10 ∷ [])) }
{
    let mut digest = [0u8; 64];
    hex::encode_to_slice(Sha256::digest(body), &mut digest).unwrap();
    out.push(b' ')?;
    put_number(out, body.len() as u64)?;
    out.push(b':')?;
    out.extend(&digest)?;
    out.push(b'\n')
}

fn put_number(out: &mut Octets, number: u64) -> Result<(), Memory>
    ensures appended { OnOk result (out.new ≡ out.old ++ decimal number) }
{
    // Most numbers of a record's line have one digit, and that needs no buffer.
    if number < 10 {
        return out.push(b'0' + number as u8);
    }
    let mut buffer = Buffer::new();
    out.extend(buffer.format(number).as_bytes())
}
