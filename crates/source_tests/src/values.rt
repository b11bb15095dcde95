//! What tests sweep, and how they look at books.

use crate::listed::{Listed, Step};
use collector_core::Book;
use source_lines::LineSource;
use source_set::{SourceSet, SweepError, Swept, TagSource};
use std::alloc::Global;
use swima_model::{Content, Point};
use wire_base::{MemSource, Memory, Octets, is_stamp};

/// The moment of each change.
pub(crate) const STAMP: [u8; 20] = *b"2026-02-03T04:05:06Z";

/// A set of one source in a box.
pub(crate) fn set_of(alloc: Global, steps: &[Step]) -> Result<SourceSet, Memory> {
    let mut boxes: Vec<Box<dyn TagSource + Send>> = Vec::new(alloc);
    boxes.push(Box::new(alloc, Listed::new(alloc, steps)?)?)?;
    SourceSet::new(alloc, boxes)
}

/// A set of two sources in boxes.
pub(crate) fn set_of_two(alloc: Global, one: &[Step], other: &[Step]) -> Result<SourceSet, Memory> {
    let mut boxes: Vec<Box<dyn TagSource + Send>> = Vec::new(alloc);
    boxes.push(Box::new(alloc, Listed::new(alloc, one)?)?)?;
    boxes.push(Box::new(alloc, Listed::new(alloc, other)?)?)?;
    SourceSet::new(alloc, boxes)
}

/// A set of one source in a box, which reads lines.
pub(crate) fn set_of_lines(alloc: Global, input: &[u8]) -> Result<SourceSet, Memory> {
    let mut boxes: Vec<Box<dyn TagSource + Send>> = Vec::new(alloc);
    boxes.push(Box::new(alloc, lines(alloc, input, &[])?)?)?;
    SourceSet::new(alloc, boxes)
}

/// A set of two sources in boxes, which read lines.
pub(crate) fn set_of_two_lines(
    alloc: Global,
    one: &[u8],
    other: &[u8],
) -> Result<SourceSet, Memory> {
    let mut boxes: Vec<Box<dyn TagSource + Send>> = Vec::new(alloc);
    boxes.push(Box::new(alloc, lines(alloc, one, &[])?)?)?;
    boxes.push(Box::new(alloc, lines(alloc, other, &[])?)?)?;
    SourceSet::new(alloc, boxes)
}

/// A source of the lines of octets in memory; the calls with these numbers fail.
pub(crate) fn lines(
    alloc: Global,
    octets: &[u8],
    failing: &[u64],
) -> Result<LineSource<MemSource>, Memory> {
    let octets = Octets::from_slice(alloc, octets)?;
    LineSource::new(alloc, MemSource::new(alloc, octets, failing)?)
}

/// A book at epoch 7 without records, which keeps 400 events.
pub(crate) fn empty_book(alloc: Global) -> Result<Book, Memory> {
    Book::new(alloc, 7, 400, &[]).map_err(|_| Memory)
}

/// Whether a sweep does this and answers so.
pub(crate) fn sweeps(
    set: &mut SourceSet,
    book: &mut Book,
    done: Swept,
    answer: Result<(), SweepError>,
) -> bool {
    if !is_stamp(&STAMP) {
        return false;
    }
    set.sweep(book, &STAMP) == (done, answer)
}

/// Numbers of a sweep.
pub(crate) fn counts(added: u32, changed: u32, gone: u32, dropped: u32) -> Swept {
    Swept {
        added,
        changed,
        gone,
        dropped,
    }
}

/// Whether a book of epoch 7 has this last event and that many records.
pub(crate) fn is_at(book: &Book, eid: u32, count: u32) -> bool {
    (book.point() == Point { epoch: 7, eid }) & (book.count() == count)
}

/// Whether the content has this source and this letter as its identifier.
pub(crate) fn says(content: &Content, source: u8, letter: u8) -> bool {
    (content.source == source) & (content.ident.bytes() == [letter].as_slice())
}
