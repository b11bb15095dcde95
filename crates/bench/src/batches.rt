//! 16 MiB of batches, fed in pieces of one size.

ghost use Rattle.std.specs.Prelude.{◌<◌};

use crate::trouble::Trouble;
use pb_batch::{BatchFed, BatchFeed};
use std::alloc::Global;
use wire_base::{List, Memory, Octets};

/// The octets that are fed, as many as the largest batch has.
const OCTETS: usize = 16_777_216;

/// How many batches come of one large batch.
pub(crate) fn large(alloc: Global, size: usize) -> Result<u64, Trouble>
    requires { 0 < size }
{
    let octets = large_batch(alloc)?;
    batches_in(alloc, octets.as_slice(), size)
}

/// How many batches come of batches of 8 octets.
pub(crate) fn small(alloc: Global, size: usize) -> Result<u64, Trouble>
    requires { 0 < size }
{
    let octets = small_batches(alloc)?;
    batches_in(alloc, octets.as_slice(), size)
}

/// One batch with one message.
fn large_batch(alloc: Global) -> Result<Octets, Memory> {
    let mut octets = List::with_capacity(alloc, OCTETS)?;
    octets.extend(&[2, 0x80, 0, 2, 1, 0, 0, 0])?;
    octets.extend(&[0, 0, 0, 9, 0, 0, 0, 1, 0, 0xff, 0xff, 0xf8])?;
    for _ in 20..OCTETS {
        octets.push(0)?;
    }
    Ok(octets)
}

/// Batches without messages.
fn small_batches(alloc: Global) -> Result<Octets, Memory> {
    let mut octets = List::with_capacity(alloc, OCTETS)?;
    for _ in 0..OCTETS / 8 {
        octets.extend(&[2, 0x80, 0, 2, 0, 0, 0, 8])?;
    }
    Ok(octets)
}

/// How many batches a feed answers to the octets in pieces of the size.
fn batches_in(alloc: Global, octets: &[u8], size: usize) -> Result<u64, Trouble>
    requires { 0 < size }
{
    let mut feed = BatchFeed::new(alloc, true);
    let mut batches: u64 = 0;
    for piece in octets.chunks(size) {
        let more = batches_of(&mut feed, piece)?;
        batches = batches.saturating_add(more);
    }
    Ok(batches)
}

/// How many batches a feed answers to one piece.
fn batches_of(feed: &mut BatchFeed, piece: &[u8]) -> Result<u64, Trouble> {
    let mut rest = piece;
    let mut batches: u64 = 0;
    while !rest.is_empty() {
        match feed.feed(rest) {
            BatchFed::More => return Ok(batches),
            BatchFed::Done(_, used) => {
                batches = batches.saturating_add(1);
                rest = &rest[used..];
            }
            BatchFed::Fault(_) => return Err(Trouble::Batch),
            BatchFed::Memory => return Err(Trouble::Memory),
        }
    }
    Ok(batches)
}
