//! CoSWID tags (RFC 9393): read and written again, and the text of one.

ghost use Rattle.std.specs.Prelude.{◌≤◌};
ghost use Rattle.cbor_det.specs.Term.{depth};
ghost use Rattle.coswid_codec.specs.Items.{tag_item};
ghost use Rattle.coswid_codec.specs.SizesFit.{SizesFit};

use crate::cbor::fault_text;
use conformance_words::{digits_of, octets_of, one_line, push_text};
use coswid_codec::{TagRefused, put_summary, read_tag, tag_text, write_tag};
use coswid_res::FormFault;
use coswid_tag::Tag;
use std::alloc::Global;
use std::str::from_utf8;
use wire_base::List;

/// `tag HEX`: `tag HEX`, with the canonical spelling of the tag that the octets begin with, or what
/// is wrong.
pub fn tag(alloc: Global, words: &str) -> Option<String> {
    let octets = octets_of(alloc, words)?;
    match read_tag(alloc, octets.as_slice()) {
        Ok((tag, _)) => written(alloc, &tag),
        Err(refused) => refusal_text(alloc, refused),
    }
}

fn written(alloc: Global, tag: &Tag) -> Option<String>
    requires depth { depth (tag_item tag.now) ≤ 64 }
    requires sizes { SizesFit tag.now }
{
    let written = write_tag(alloc, tag).ok()?;
    let digits = digits_of(alloc, written.as_slice())?;
    format!(in alloc; "tag {digits}").ok()
}

/// `tag_text HEX`: the text of the tag, or what is wrong.
pub fn text(alloc: Global, words: &str) -> Option<String> {
    let octets = octets_of(alloc, words)?;
    match read_tag(alloc, octets.as_slice()) {
        Ok((tag, _)) => whole_text(alloc, &tag),
        Err(refused) => refusal_text(alloc, refused),
    }
}

fn whole_text(alloc: Global, tag: &Tag) -> Option<String>
    requires depth { depth (tag_item tag.now) ≤ 64 }
    requires sizes { SizesFit tag.now }
{
    let text = tag_text(alloc, tag).ok()?;
    one_line(alloc, from_utf8(text.as_slice()).ok()?)
}

/// `tag_summary HEX`: the lines of the tag except that of its canonical spelling, or what is wrong.
pub fn summary(alloc: Global, words: &str) -> Option<String> {
    let octets = octets_of(alloc, words)?;
    match read_tag(alloc, octets.as_slice()) {
        Ok((tag, _)) => summary_text(alloc, &tag),
        Err(refused) => refusal_text(alloc, refused),
    }
}

fn summary_text(alloc: Global, tag: &Tag) -> Option<String> {
    let mut lines = List::new(alloc);
    put_summary(alloc, &mut lines, tag).ok()?;
    one_line(alloc, from_utf8(lines.as_slice()).ok()?)
}

/// `fault KIND PLACE` or `form KIND/STEP/STEP`; `None` where memory ran out.
fn refusal_text(alloc: Global, refused: TagRefused) -> Option<String> {
    match refused {
        TagRefused::Cbor(fault) => fault_text(alloc, fault),
        TagRefused::Form(fault) => form_text(alloc, &fault),
        TagRefused::Memory => None,
    }
}

fn form_text(alloc: Global, fault: &FormFault) -> Option<String> {
    let kind = fault.kind;
    let mut out = format!(in alloc; "form {kind}").ok()?;
    for step in fault.path.as_slice() {
        push_text(&mut out, format!(in alloc; "/{step}").ok())?;
    }
    Some(out)
}
