//! The text that the command `tag` prints of a tag.

ghost use Rattle.std.specs.Prelude.{◌≡◌, ◌≤◌, ◌<◌, ◌++◌, IfOk, OnOk, length};
ghost use Rattle.std.specs.List.{flat_map};
ghost use Rattle.cbor_det.specs.Canonical.{canon};
ghost use Rattle.cbor_det.specs.Term.{depth};
ghost use Rattle.coswid_codec.specs.Items.{tag_item};
ghost use Rattle.coswid_codec.specs.SizesFit.{SizesFit};
ghost use Rattle.coswid_codec.specs.TagText.{canonical_line, finding_line, identifier_line, kind_line, summary_text, tag_text};
ghost use Rattle.coswid_tag.specs.Findings.{findings};
ghost use Rattle.coswid_tag.specs.Identifier.{identifier_of};

use crate::write::write_tag;
use coswid_tag::{Findings, IdentRefused, Tag, TagKind, constraints, kind, software_identifier};
use std::alloc::Global;
use wire_base::{List, Memory, Octets, put_escaped};

/// The lines of the command `tag`: the kind, the software identifier, each finding, and the
/// canonical spelling; `Memory` where there is no room.
#[tactic(auto, unfolding(crate::specs::TagText::tag_text))]
pub fn tag_text(alloc: Global, tag: &Tag) -> Result<Octets, Memory>
    requires depth { depth (tag_item tag.now) ≤ 64 }
    requires sizes { SizesFit tag.now }
    ensures text { IfOk result (λ made. made ≡ tag_text tag.now) }
{
    let mut out = List::new(alloc);
    put_summary(alloc, &mut out, tag)?;
    put_canonical(alloc, &mut out, tag)?;
    Ok(out)
}

/// Puts the lines of a tag except its canonical spelling at the end of `out`: the kind, the
/// software identifier and each finding. Gives the findings; `Memory` where there is no room.
pub fn put_summary(alloc: Global, out: &mut Octets, tag: &Tag) -> Result<Findings, Memory>
    ensures appended { OnOk result (out.new ≡ out.old ++ summary_text tag.now) }
    ensures findings { IfOk result (λ found. found ≡ findings tag.now) }
{
    put_kind(out, kind(tag))?;
    put_identifier(alloc, out, tag)?;
    let found = constraints(alloc, tag)?;
    put_findings(alloc, out, found.as_slice())?;
    Ok(found)
}

/// Puts the line of a tag's canonical spelling at the end of `out`; `Memory` where there is no
/// room.
pub fn put_canonical(alloc: Global, out: &mut Octets, tag: &Tag) -> Result<(), Memory>
    requires depth { depth (tag_item tag.now) ≤ 64 }
    requires sizes { SizesFit tag.now }
    ensures appended { OnOk result (out.new ≡ out.old ++ canonical_line (canon (tag_item tag.now))) }
{
    let octets = write_tag(alloc, tag)?;
    let len = octets.len();
    let digits = hex::encode(alloc, octets.as_slice())?;
    let line = format!(in alloc; "canonical {len} {digits}\n")?;
    out.extend(line.as_bytes())
}

fn put_kind(out: &mut Octets, kind: TagKind) -> Result<(), Memory>
    ensures appended { OnOk result (out.new ≡ out.old ++ kind_line kind) }
{
    match kind {
        TagKind::Corpus => out.extend(b"tag corpus\n"),
        TagKind::Patch => out.extend(b"tag patch\n"),
        TagKind::Supplemental => out.extend(b"tag supplemental\n"),
        TagKind::Primary => out.extend(b"tag primary\n"),
    }
}

fn put_identifier(alloc: Global, out: &mut Octets, tag: &Tag) -> Result<(), Memory>
    ensures appended { OnOk result (out.new ≡ out.old ++ identifier_line (identifier_of tag.now)) }
{
    match software_identifier(alloc, tag) {
        Ok(text) => put_told(out, text.as_slice()),
        Err(IdentRefused::NoCreator) => out.extend(b"ident none\n"),
        Err(IdentRefused::TooLong { len }) => {
            let line = format!(in alloc; "ident long {len}\n")?;
            out.extend(line.as_bytes())
        }
        Err(IdentRefused::Memory) => Err(Memory),
    }
}

/// Puts the line of an identifier that a record has room for.
fn put_told(out: &mut Octets, text: &[u8]) -> Result<(), Memory>
    requires { length text.now ≤ 65535 }
    ensures appended { OnOk result (out.new ≡ out.old ++ identifier_line (Some text.now)) }
{
    out.extend(b"ident ")?;
    put_escaped(out, text)?;
    out.push(b'\n')
}

fn put_findings(alloc: Global, out: &mut Octets, found: &[u8]) -> Result<(), Memory>
    ensures appended { OnOk result (out.new ≡ out.old ++ flat_map finding_line found.now) }
{
    for number in found {
        put_finding(alloc, out, *number)?;
    }
    Ok(())
}

fn put_finding(alloc: Global, out: &mut Octets, number: u8) -> Result<(), Memory>
    ensures appended { OnOk result (out.new ≡ out.old ++ finding_line number) }
{
    let line = format!(in alloc; "finding F{number}\n")?;
    out.extend(line.as_bytes())
}
