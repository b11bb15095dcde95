//! The summary of a day.

ghost use Rattle.command_text.specs.Text.{mirror_text, refusal};
ghost use Rattle.std.specs.Prelude.{◌≡◌, ◌++◌, IfOk, OnOk, codes};
ghost use Rattle.session_day.specs.Day.{IsCount, MakeTells, count_of, digest_line, is_full, is_report, point_line, summary};
ghost use Rattle.session_day.specs.Days.{IsMorning};

use crate::day::{Day, morning};
use command_text::{from_string, mirror_text, refusal};
use session_world::Telling;
use sha2::{Digest, Sha256};
use std::alloc::Global;
use swima_model::Point;
use validator_core::{Mirror, Taken};
use wire_base::{List, Memory, Octets};

/// What is printed of a day of an endpoint with that many packages: a summary; `Memory` where there
/// is no room.
pub fn day_text(alloc: Global, count: u32) -> Result<Octets, Memory>
    requires count { IsCount count }
    ensures told { IfOk result (λ made. MakeTells count made) }
{
    let mut day = morning(alloc, count)?;
    played_text(alloc, count, &mut day)
}

/// Plays a day from its morning on. What is printed of it.
fn played_text(alloc: Global, count: u32, day: &mut Day) -> Result<Octets, Memory>
    requires count { IsCount count }
    requires morning { IsMorning count day.old }
    ensures told { IfOk result (λ made. MakeTells count made) }
{
    day.play(alloc, count)?;
    summary(alloc, count, day)
}

/// What is printed of the day of that many packages.
fn summary(alloc: Global, count: u32, day: &Day) -> Result<Octets, Memory>
    ensures summary { IfOk result (λ made.
        made ≡ summary count day.now.told day.now.carried day.now.world.mirror) }
{
    let mut out = List::new(alloc);
    put_summary(alloc, count, day, &mut out)?;
    Ok(out)
}

/// Puts what is printed of that day, line by line.
fn put_summary(alloc: Global, count: u32, day: &Day, out: &mut Octets) -> Result<(), Memory>
    ensures appended { OnOk result (
        out.new ≡ out.old ++ summary count day.now.told day.now.carried day.now.world.mirror) }
{
    let told = day.told.as_slice();
    let mirror = day.world.mirror();
    put_number(alloc, "make", u64::from(count), out)?;
    put_number(alloc, "reports", reports(told), out)?;
    put_number(alloc, "full", adopted(told), out)?;
    put_point(alloc, mirror.point(), out)?;
    put_number(alloc, "records", u64::from(mirror.count()), out)?;
    put_digest(out, "octets", day.carried.as_slice())?;
    put_mirror_digest(alloc, mirror, out)?;
    Ok(())
}

/// How many reports were taken.
fn reports(told: &[Telling]) -> u64
    ensures count { result ≡ count_of is_report told.now }
{
    told.iter().filter(|one| is_report(one)).count() as u64
}

fn is_report(told: &Telling) -> bool
    ensures is { result ≡ is_report told.now }
{
    matches!(told, Telling::Took { .. })
}

/// How many reports were adopted.
fn adopted(told: &[Telling]) -> u64
    ensures count { result ≡ count_of is_full told.now }
{
    told.iter().filter(|one| is_full(one)).count() as u64
}

fn is_full(told: &Telling) -> bool
    ensures is { result ≡ is_full told.now }
{
    matches!(
        told,
        Telling::Took {
            answer: Taken::Adopted,
            ..
        }
    )
}

/// Puts a line of a word and a number.
fn put_number(alloc: Global, word: &str, number: u64, out: &mut Octets) -> Result<(), Memory>
    ensures appended { OnOk result (out.new ≡ out.old ++ refusal word.now number) }
{
    let line = refusal(alloc, word, number)?;
    out.extend(line.as_slice())
}

/// Puts the line of the mirror's point.
fn put_point(alloc: Global, point: Option<Point>, out: &mut Octets) -> Result<(), Memory>
    ensures appended { OnOk result (out.new ≡ out.old ++ point_line point) }
{
    let line = point_line(alloc, point)?;
    out.extend(line.as_slice())
}

fn point_line(alloc: Global, point: Option<Point>) -> Result<Octets, Memory>
    ensures line { IfOk result (λ made. made ≡ point_line point) }
{
    match point {
        None => Ok(from_string(format!(in alloc; "point none\n")?)),
        Some(point) => {
            let epoch = point.epoch;
            let eid = point.eid;
            Ok(from_string(format!(in alloc; "point {epoch} {eid}\n")?))
        }
    }
}

/// Puts the digest of the mirror's text.
fn put_mirror_digest(alloc: Global, mirror: &Mirror, out: &mut Octets) -> Result<(), Memory>
    ensures appended { OnOk result (out.new ≡ out.old ++ digest_line (codes "digest") (mirror_text mirror.now)) }
{
    let text = mirror_text(alloc, mirror)?;
    put_digest(out, "digest", text.as_slice())
}

/// Puts a word and the digest of octets.
fn put_digest(out: &mut Octets, word: &str, octets: &[u8]) -> Result<(), Memory>
    ensures appended { OnOk result (out.new ≡ out.old ++ digest_line word.now octets.now) }
{
    let mut digest = [0u8; 64];
    hex::encode_to_slice(Sha256::digest(octets), &mut digest).unwrap();
    out.extend(word.as_bytes())?;
    out.push(b' ')?;
    out.extend(&digest)?;
    out.push(b'\n')
}
