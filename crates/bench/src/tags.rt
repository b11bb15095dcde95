//! Tags one after another, read and written again.

ghost use Rattle.std.specs.Prelude.{◌<◌, ◌≤◌, IfOk, length};
ghost use Rattle.cbor_det.specs.Term.{depth};
ghost use Rattle.coswid_codec.specs.Items.{tag_item};
ghost use Rattle.coswid_codec.specs.SizesFit.{SizesFit};

use crate::figures::Figures;
use crate::reading::all_input;
use crate::trouble::Trouble;
use coswid_codec::{read_tag, write_tag};
use coswid_tag::Tag;
use std::alloc::Global;

/// How many tags standard input has.
pub(crate) fn read(rt: &HostRuntime) -> Result<u64, Trouble> {
    let octets = all_input(rt)?;
    tags_read(rt.alloc(), octets.as_slice())
}

/// How many octets the canonical spellings of the tags of standard input have.
pub(crate) fn write(rt: &HostRuntime) -> Result<u64, Trouble> {
    let octets = all_input(rt)?;
    octets_written(rt.alloc(), octets.as_slice())
}

/// What `read` and `write` give.
pub(crate) fn both(rt: &HostRuntime) -> Result<Figures, Trouble> {
    let octets = all_input(rt)?;
    let tags = tags_read(rt.alloc(), octets.as_slice())?;
    let written = octets_written(rt.alloc(), octets.as_slice())?;
    Ok(Figures::Two(tags, written))
}

fn tags_read(alloc: Global, octets: &[u8]) -> Result<u64, Trouble> {
    let mut rest = octets;
    let mut tags: u64 = 0;
    while !rest.is_empty() {
        let (_, used) = first(alloc, rest)?;
        tags = tags.saturating_add(1);
        rest = &rest[used..];
    }
    Ok(tags)
}

fn octets_written(alloc: Global, octets: &[u8]) -> Result<u64, Trouble> {
    let mut rest = octets;
    let mut written: u64 = 0;
    while !rest.is_empty() {
        let (count, used) = first_written(alloc, rest)?;
        written = written.saturating_add(count);
        rest = &rest[used..];
    }
    Ok(written)
}

/// How many octets the canonical spelling of the first tag has, and how many spell it here.
fn first_written(alloc: Global, octets: &[u8]) -> Result<(u64, usize), Trouble>
    ensures some { IfOk result (λ written. 0 < written.1) }
    ensures within { IfOk result (λ written. written.1 ≤ length octets.now) }
{
    let (tag, used) = first(alloc, octets)?;
    Ok((octets_of(alloc, &tag)?, used))
}

/// The tag that the octets begin with, and how many of them spell it.
pub(crate) fn first(alloc: Global, octets: &[u8]) -> Result<(Tag, usize), Trouble>
    ensures some { IfOk result (λ read. 0 < read.1) }
    ensures within { IfOk result (λ read. read.1 ≤ length octets.now) }
    ensures shallow { IfOk result (λ read. depth (tag_item read.0) ≤ 64) }
    ensures sizes { IfOk result (λ read. SizesFit read.0) }
{
    let (tag, used) = read_tag(alloc, octets)?;
    if used == 0 || octets.len() < used {
        return Err(Trouble::Tag);
    }
    Ok((tag, used))
}

/// How many octets the canonical spelling of the tag has.
fn octets_of(alloc: Global, tag: &Tag) -> Result<u64, Trouble>
    requires shallow { depth (tag_item tag.now) ≤ 64 }
    requires sizes { SizesFit tag.now }
{
    let spelled = write_tag(alloc, tag)?;
    Ok(spelled.len() as u64)
}
