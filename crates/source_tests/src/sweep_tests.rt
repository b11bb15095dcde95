//! Sweeps over sources that report what is listed.

use crate::listed::Step;
use crate::values::{
    STAMP, counts, empty_book, is_at, says, set_of, set_of_lines, set_of_two, set_of_two_lines,
    sweeps,
};
use collector_core::{Book, BookError};
use source_set::{SourceSet, SweepError};
use std::alloc::Global;
use swima_model::{Body, Content, Ident, Locator, Model};
use wire_base::{Memory, is_stamp};

/// Whether the first source ends with what it added, and the second reports a key that is not held.
fn leaves_nothing(mut set: SourceSet, mut book: Book) -> bool {
    let unknown = SweepError::UnknownKey { source: 1, key: 4 };
    let first = sweeps(&mut set, &mut book, counts(1, 0, 1, 1), Err(unknown));
    let left = is_at(&book, 2, 0);
    first & left & sweeps(&mut set, &mut book, counts(0, 0, 0, 0), Ok(()))
}

/// What `leaves_nothing` answers for two listed sources.
fn listed_leaves_nothing(alloc: Global) -> Result<bool, Memory> {
    let one = [Step::Add(1, b'a'), Step::Ended];
    let set = set_of_two(alloc, &one, &[Step::Gone(4)])?;
    Ok(leaves_nothing(set, empty_book(alloc)?))
}

#[test]
fn an_ended_source_leaves_nothing(rt: HostRuntime) -> Result<(), Memory> {
    assert!(rt; listed_leaves_nothing(rt.alloc())?);
    Ok(())
}

/// A tag's line, and the end.
const ADD_AND_END: &[u8] = b"add 1 /opt/a da53574944a400616101616202a2181f61631821010c00\nend\n";

/// What `leaves_nothing` answers for two sources of lines.
fn lines_leave_nothing(alloc: Global) -> Result<bool, Memory> {
    let set = set_of_two_lines(alloc, ADD_AND_END, b"gone 4\n")?;
    Ok(leaves_nothing(set, empty_book(alloc)?))
}

#[test]
fn lines_that_end_leave_nothing(rt: HostRuntime) -> Result<(), Memory> {
    assert!(rt; lines_leave_nothing(rt.alloc())?);
    Ok(())
}

/// Whether the record 1 of a book is of this source, with this letter.
fn has_letter(book: &Book, source: u8, letter: u8) -> bool {
    match book.record(1) {
        Some(record) => says(&record.content, source, letter),
        None => false,
    }
}

/// Whether a source adds a record and changes it to this letter until it is quiet, and then takes
/// it away.
fn goes_on(mut set: SourceSet, mut book: Book, source: u8, letter: u8) -> bool {
    let quiet = sweeps(&mut set, &mut book, counts(1, 1, 0, 0), Ok(()));
    let changed = has_letter(&book, source, letter);
    let gone = sweeps(&mut set, &mut book, counts(0, 0, 1, 0), Ok(()));
    quiet & changed & gone & is_at(&book, 3, 0)
}

/// What `goes_on` answers for a listed source after an empty one.
fn listed_goes_on(alloc: Global) -> Result<bool, Memory> {
    let steps = [
        Step::Add(1, b'a'),
        Step::Add(1, b'b'),
        Step::Quiet,
        Step::Gone(1),
    ];
    let set = set_of_two(alloc, &[], &steps)?;
    Ok(goes_on(set, empty_book(alloc)?, 1, b'b'))
}

#[test]
fn a_source_goes_on_where_it_was_quiet(rt: HostRuntime) -> Result<(), Memory> {
    assert!(rt; listed_goes_on(rt.alloc())?);
    Ok(())
}

/// Lines of one record, which comes, changes and goes.
const COMES_AND_GOES: &[u8] = b"xml 1 i \\e -\nxml 1 j \\e 00\nquiet\ngone 1\n";

/// What `goes_on` answers for a source of lines.
fn lines_go_on(alloc: Global) -> Result<bool, Memory> {
    let set = set_of_lines(alloc, COMES_AND_GOES)?;
    Ok(goes_on(set, empty_book(alloc)?, 0, b'j'))
}

#[test]
fn lines_go_on_where_they_were_quiet(rt: HostRuntime) -> Result<(), Memory> {
    assert!(rt; lines_go_on(rt.alloc())?);
    Ok(())
}

/// Whether a sweep stops where the first source fails, and the next one goes on after that.
fn stops_and_goes_on(mut set: SourceSet, mut book: Book) -> bool {
    let failed = SweepError::SourceFailed { source: 0 };
    let first = sweeps(&mut set, &mut book, counts(1, 0, 0, 0), Err(failed));
    let stopped = is_at(&book, 1, 1);
    let then = sweeps(&mut set, &mut book, counts(1, 1, 0, 0), Ok(()));
    first & stopped & then & is_at(&book, 3, 2)
}

/// What `stops_and_goes_on` answers for two listed sources.
fn listed_stops_and_goes_on(alloc: Global) -> Result<bool, Memory> {
    let one = [Step::Add(1, b'a'), Step::Failed, Step::Change(1, b'b')];
    let set = set_of_two(alloc, &one, &[Step::Add(1, b'c')])?;
    Ok(stops_and_goes_on(set, empty_book(alloc)?))
}

#[test]
fn a_failed_source_stops_the_sweep(rt: HostRuntime) -> Result<(), Memory> {
    assert!(rt; listed_stops_and_goes_on(rt.alloc())?);
    Ok(())
}

/// Whether a sweep stops at each of three steps that are no items, and the fourth adds a record.
fn keeps_the_item_alone(mut set: SourceSet, mut book: Book) -> bool {
    let bad = SweepError::BadLine { source: 0, line: 7 };
    let unknown = SweepError::UnknownKey { source: 0, key: 2 };
    let none = counts(0, 0, 0, 0);
    sweeps(&mut set, &mut book, none, Err(bad))
        & sweeps(&mut set, &mut book, none, Err(SweepError::Memory))
        & sweeps(&mut set, &mut book, none, Err(unknown))
        & sweeps(&mut set, &mut book, counts(1, 0, 0, 0), Ok(()))
}

/// What `keeps_the_item_alone` answers for a listed source.
fn listed_keeps_the_item_alone(alloc: Global) -> Result<bool, Memory> {
    let steps = [
        Step::Bad(7),
        Step::Memory,
        Step::Change(2, b'a'),
        Step::Add(2, b'a'),
    ];
    let set = set_of(alloc, &steps)?;
    Ok(keeps_the_item_alone(set, empty_book(alloc)?))
}

#[test]
fn what_is_no_item_is_not_kept(rt: HostRuntime) -> Result<(), Memory> {
    assert!(rt; listed_keeps_the_item_alone(rt.alloc())?);
    Ok(())
}

/// A source that adds a record and changes it 1024 times.
fn set_of_1025(alloc: Global) -> Result<SourceSet, Memory> {
    let mut steps = Vec::with_capacity(alloc, 1025)?;
    push_steps(&mut steps)?;
    set_of(alloc, steps.as_slice())
}

/// Pushes an addition and 1024 changes.
fn push_steps(steps: &mut Vec<Step>) -> Result<(), Memory> {
    steps.push(Step::Add(1, b'a'))?;
    for _ in 0..1024 {
        steps.push(Step::Change(1, b'b'))?;
    }
    Ok(())
}

/// Whether the first sweep takes 1024 items, and the second the one that is left.
fn takes_1024(mut set: SourceSet, mut book: Book) -> bool {
    sweeps(&mut set, &mut book, counts(1, 1023, 0, 0), Ok(()))
        & sweeps(&mut set, &mut book, counts(0, 1, 0, 0), Ok(()))
}

/// What `takes_1024` answers for a source of 1025 items.
fn takes_1024_of_1025(alloc: Global) -> Result<bool, Memory> {
    let set = set_of_1025(alloc)?;
    Ok(takes_1024(set, empty_book(alloc)?))
}

#[test]
fn a_sweep_takes_1024_items_of_a_source(rt: HostRuntime) -> Result<(), Memory> {
    assert!(rt; takes_1024_of_1025(rt.alloc())?);
    Ok(())
}

/// A book at epoch 7 of as many records as it may have.
fn full_book(alloc: Global) -> Result<Book, Memory> {
    let mut base = Vec::with_capacity(alloc, 65536)?;
    push_contents(alloc, &mut base)?;
    Book::new(alloc, 7, 400, base.as_slice()).map_err(|_| Memory)
}

/// Pushes 65536 contents of empty parts.
fn push_contents(alloc: Global, base: &mut Vec<Content>) -> Result<(), Memory> {
    for _ in 0..65536 {
        base.push(Content {
            model: Model { pen: 0, kind: 2 },
            source: 9,
            ident: Ident::empty(alloc),
            locator: Locator::empty(alloc),
            body: Body::empty(alloc),
        })?;
    }
    Ok(())
}

/// Whether a book deletes its record 1.
fn deletes_one(book: &mut Book) -> bool {
    if !is_stamp(&STAMP) {
        return false;
    }
    book.delete(&STAMP, 1) == Ok(())
}

/// Whether a full book refuses an item, and a sweep adds it once there is room.
fn is_done_next_time(mut set: SourceSet, mut book: Book) -> bool {
    let full = SweepError::Book(BookError::RecordsFull { count: 65536 });
    let refused = sweeps(&mut set, &mut book, counts(0, 0, 0, 0), Err(full));
    let deleted = deletes_one(&mut book);
    refused & deleted & sweeps(&mut set, &mut book, counts(1, 0, 0, 0), Ok(()))
}

/// What `is_done_next_time` answers for a source of one item and a full book.
fn item_is_done_next_time(alloc: Global) -> Result<bool, Memory> {
    let set = set_of(alloc, &[Step::Add(1, b'a')])?;
    Ok(is_done_next_time(set, full_book(alloc)?))
}

#[test]
fn a_refused_item_is_done_next_time(rt: HostRuntime) -> Result<(), Memory> {
    assert!(rt; item_is_done_next_time(rt.alloc())?);
    Ok(())
}
