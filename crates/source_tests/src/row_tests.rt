//! Sweeps in a row, each with the stamp of a moment that a clock gives.

use crate::listed::Step;
use crate::values::{counts, empty_book, is_at, set_of};
use collector_core::Book;
use source_set::SourceSet;
use source_sweeps::{SweepStop, Tally, sweep_beside, sweep_once};
use std::alloc::Global;
use wire_base::{List, MemClock, Memory};

/// Whether a sweep adds an item, and of two more the second finds that its source has ended.
fn adds_and_ends(mut set: SourceSet, mut book: Book, mut clock: MemClock) -> bool {
    let (swept, stopped) = sweep_once(&mut book, &mut set, &mut clock);
    let first = (swept, stopped) == (counts(1, 0, 0, 0), None);
    let mut tally = Tally { swept, stopped };
    sweep_beside(&mut book, &mut set, &mut clock, 2, &mut tally);
    let all = (tally.swept, tally.stopped) == (counts(1, 0, 1, 1), None);
    first & all & is_at(&book, 2, 0)
}

/// What `adds_and_ends` answers for a source that adds an item, is quiet, and ends.
fn listed_adds_and_ends(alloc: Global) -> Result<bool, Memory> {
    let set = set_of(alloc, &[Step::Add(1, b'a'), Step::Quiet, Step::Ended])?;
    let clock = MemClock::new(List::new(alloc), 0);
    Ok(adds_and_ends(set, empty_book(alloc)?, clock))
}

#[test]
fn sweeps_follow_one_another(rt: HostRuntime) -> Result<(), Memory> {
    assert!(rt; listed_adds_and_ends(rt.alloc())?);
    Ok(())
}

/// Whether a sweep stops at the first moment of the clock, and three more do nothing.
fn stops_each(mut set: SourceSet, mut book: Book, mut clock: MemClock) -> bool {
    let (swept, stopped) = sweep_once(&mut book, &mut set, &mut clock);
    let range = SweepStop::ClockRange {
        secs: 4_294_967_296,
    };
    let first = (swept, stopped) == (counts(0, 0, 0, 0), Some(range));
    let mut tally = Tally { swept, stopped };
    sweep_beside(&mut book, &mut set, &mut clock, 3, &mut tally);
    let all = (tally.swept, tally.stopped) == (counts(0, 0, 0, 0), Some(range));
    first & all & is_at(&book, 0, 0)
}

/// What `stops_each` answers for a clock whose first moment has no stamp.
fn late_clock_stops_each(alloc: Global) -> Result<bool, Memory> {
    let set = set_of(alloc, &[Step::Add(1, b'a')])?;
    let book = empty_book(alloc)?;
    let late = List::from_slice(alloc, &[4_294_967_296])?;
    Ok(stops_each(set, book, MemClock::new(late, 0)))
}

#[test]
fn a_moment_without_a_stamp_stops_the_sweeping(rt: HostRuntime) -> Result<(), Memory> {
    assert!(rt; late_clock_stops_each(rt.alloc())?);
    Ok(())
}
