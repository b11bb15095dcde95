//! Items one after another, read whole, written again, and fed in pieces.

ghost use Rattle.std.specs.Prelude.{◌<◌, ◌≤◌, IfOk, length};
ghost use Rattle.cbor_det.specs.Term.{depth};
ghost use Rattle.cbor_det.specs.View.{view};

use crate::reading::all_input;
use crate::trouble::Trouble;
use cbor_det::{CborFed, CborFeed, Item, LARGEST, read_item, write_item};
use std::alloc::Global;

/// How many items standard input has.
pub(crate) fn read(rt: &HostRuntime) -> Result<u64, Trouble> {
    let octets = all_input(rt)?;
    items_read(rt.alloc(), octets.as_slice())
}

/// How many octets the canonical spellings of the items of standard input have.
pub(crate) fn write(rt: &HostRuntime) -> Result<u64, Trouble> {
    let octets = all_input(rt)?;
    octets_written(rt.alloc(), octets.as_slice())
}

/// How many items a feed answers to standard input in pieces of the size.
pub(crate) fn feed(rt: &HostRuntime, size: usize) -> Result<u64, Trouble>
    requires { 0 < size }
{
    let octets = all_input(rt)?;
    items_fed(rt.alloc(), octets.as_slice(), size)
}

fn items_read(alloc: Global, octets: &[u8]) -> Result<u64, Trouble> {
    let mut rest = octets;
    let mut items: u64 = 0;
    while !rest.is_empty() {
        let (_, used) = first(alloc, rest)?;
        items = items.saturating_add(1);
        rest = &rest[used..];
    }
    Ok(items)
}

fn octets_written(alloc: Global, octets: &[u8]) -> Result<u64, Trouble> {
    let mut rest = octets;
    let mut written: u64 = 0;
    while !rest.is_empty() {
        let (item, used) = first(alloc, rest)?;
        written = written.saturating_add(octets_of(alloc, &item)?);
        rest = &rest[used..];
    }
    Ok(written)
}

/// The item that the octets begin with, and how many of them spell it.
fn first(alloc: Global, octets: &[u8]) -> Result<(Item, usize), Trouble>
    ensures some { IfOk result (λ read. 0 < read.1) }
    ensures within { IfOk result (λ read. read.1 ≤ length octets.now) }
    ensures shallow { IfOk result (λ read. depth (view read.0) ≤ 64) }
{
    Ok(read_item(alloc, octets, LARGEST)?)
}

/// How many octets the canonical spelling of the item has.
fn octets_of(alloc: Global, item: &Item) -> Result<u64, Trouble>
    requires shallow { depth (view item.now) ≤ 64 }
{
    let spelled = write_item(alloc, item)?;
    Ok(spelled.len() as u64)
}

fn items_fed(alloc: Global, octets: &[u8], size: usize) -> Result<u64, Trouble>
    requires { 0 < size }
{
    let mut feed = CborFeed::new(alloc, LARGEST);
    let mut items: u64 = 0;
    for piece in octets.chunks(size) {
        let more = items_of(&mut feed, piece)?;
        items = items.saturating_add(more);
    }
    Ok(items)
}

/// How many items end in the piece.
fn items_of(feed: &mut CborFeed, piece: &[u8]) -> Result<u64, Trouble> {
    let mut rest = piece;
    let mut items: u64 = 0;
    while !rest.is_empty() {
        match feed.feed(rest) {
            CborFed::More => return Ok(items),
            CborFed::Done(_, used) => {
                items = items.saturating_add(1);
                rest = &rest[used..];
            }
            CborFed::Fault(_) => return Err(Trouble::Item),
            CborFed::Memory => return Err(Trouble::Memory),
        }
    }
    Ok(items)
}
