//! Lines of a source, one after another, and the tags of their last words alone.

use crate::reading::all_input;
use crate::trouble::Trouble;
use coswid_codec::read_tag;
use hex::FromHexError;
use memchr::memchr;
use source_lines::LineSource;
use source_set::{TagSource, Told};
use std::alloc::Global;
use wire_base::StdinSource;

/// How many of the first `count` lines of standard input are items: all, or it says why not.
pub(crate) fn items(rt: &HostRuntime, count: u32) -> Result<u64, Trouble> {
    let mut source = LineSource::new(rt.alloc(), StdinSource::new(rt.stdin()))?;
    let mut items: u64 = 0;
    for _ in 0..count {
        is_item(&source.next())?;
        items = items.saturating_add(1);
    }
    Ok(items)
}

/// Whether a line is an item, or why not.
fn is_item(told: &Told) -> Result<(), Trouble> {
    match told {
        Told::Memory => Err(Trouble::Memory),
        Told::Failed => Err(Trouble::Input),
        Told::Bad { .. } | Told::Quiet => Err(Trouble::Line),
        _ => Ok(()),
    }
}

/// How many of the first `count` lines of standard input are the digits of a tag: all, or it says
/// why not.
pub(crate) fn digits(rt: &HostRuntime, count: u32) -> Result<u64, Trouble> {
    let octets = all_input(rt)?;
    tags_in(rt.alloc(), octets.as_slice(), count)
}

/// How many of the first `count` lines of the octets are the digits of a tag.
fn tags_in(alloc: Global, octets: &[u8], count: u32) -> Result<u64, Trouble> {
    let mut rest = octets;
    let mut tags: u64 = 0;
    for _ in 0..count {
        let Some(place) = memchr(b'\n', rest) else {
            return Err(Trouble::Line);
        };
        let (line, _) = rest.split_at(place);
        let (_, after) = rest.split_at(place + 1);
        tag_of(alloc, line)?;
        tags = tags.saturating_add(1);
        rest = after;
    }
    Ok(tags)
}

/// Reads the tag whose digits these are.
fn tag_of(alloc: Global, digits: &[u8]) -> Result<(), Trouble> {
    match hex::decode(alloc, digits) {
        Ok(octets) => {
            read_tag(alloc, octets.as_slice())?;
            Ok(())
        }
        Err(FromHexError::OutOfMemory) => Err(Trouble::Memory),
        Err(_) => Err(Trouble::Line),
    }
}
