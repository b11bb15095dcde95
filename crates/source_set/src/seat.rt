//! A source of a set in its seat, asked for items, which are done at a desk.

ghost use Rattle.std.specs.Prelude.{◌≡◌, Some, true, MatchOption};
ghost use Rattle.wire_base.specs.Stamp.{IsStamp};
ghost use Rattle.source_set.specs.Asking.{Asks, AsksOnce, HasCauseAt, Hears, IsItem, NoItem, Tries, asked_failed, left_by, numbered, stand, stop_of, without_item};
ghost use Rattle.source_set.specs.Deeds.{count, gives_up};

use crate::doing::{Undone, perform};
use crate::keys::Keys;
use crate::swept::{SweepError, Swept};
use crate::told::{TagSource, Told};
use collector_core::{BookError, Desk};
use std::alloc::Global;
use swima_model::Content;
use wire_base::Memory;

/// How many items one sweep takes of one source at most.
const MOST_ITEMS: u32 = 1024;

/// A source, unless it was given up, and the records of its keys.
#[derive(Drop)]
pub(crate) struct Seat<S: Drop> {
    /// The source.
    pub(crate) source: Option<S>,
    /// The keys that it holds.
    pub(crate) keys: Keys,
}

/// Why a source was asked no further, and its item where that is to be done first next time.
#[derive(Debug, Drop)]
pub(crate) struct Stop {
    /// The error.
    pub(crate) error: SweepError,
    /// The item.
    pub(crate) item: Option<Told>,
}

/// Asks a source until it is quiet, has ended or has reported 1024 items.
pub(crate) fn ask<S: TagSource, D: Desk>(
    alloc: Global,
    seat: &mut Seat<S>,
    number: u8,
    desk: &mut D,
    stamp: &[u8; 20],
    swept: &mut Swept,
) -> Result<(), Stop>
    requires takes { D.takes desk.old ≡ true }
    requires stamp { IsStamp stamp.now }
    ensures asked { Asks S.reports D.stands D.went stamp.now number
        (stand seat.old desk.old swept.old) (stand seat.new desk.new swept.new) result }
    ensures cause { HasCauseAt S.faults seat.old.source seat.new.source (asked_failed number result) }
    ensures takes { D.takes desk.new ≡ true }
{
    for _asked in 0..MOST_ITEMS {
        match ask_once(alloc, seat, number, desk, stamp, swept) {
            Ok(more) => {
                if !more {
                    return Ok(());
                }
            }
            Err(stop) => return Err(stop),
        }
    }
    Ok(())
}

/// Asks a source once. Whether it may be asked for more.
fn ask_once<S: TagSource, D: Desk>(
    alloc: Global,
    seat: &mut Seat<S>,
    number: u8,
    desk: &mut D,
    stamp: &[u8; 20],
    swept: &mut Swept,
) -> Result<bool, Stop>
    requires takes { D.takes desk.old ≡ true }
    requires stamp { IsStamp stamp.now }
    ensures asked { AsksOnce S.reports D.stands D.went stamp.now number
        (stand seat.old desk.old swept.old) (stand seat.new desk.new swept.new) result }
    ensures cause { HasCauseAt S.faults seat.old.source seat.new.source (asked_failed number result) }
    ensures takes { D.takes desk.new ≡ true }
{
    let Some(source) = &mut seat.source else {
        return Ok(false);
    };
    let told = numbered(source.next(), number);
    hear(alloc, seat, number, told, desk, stamp, swept)
}

/// Does what a source reports. Whether it may be asked for more.
fn hear<S: Drop, D: Desk>(
    alloc: Global,
    seat: &mut Seat<S>,
    number: u8,
    told: Told,
    desk: &mut D,
    stamp: &[u8; 20],
    swept: &mut Swept,
) -> Result<bool, Stop>
    requires takes { D.takes desk.old ≡ true }
    requires stamp { IsStamp stamp.now }
    ensures heard { Hears D.stands D.went stamp.now told number
        (stand seat.old desk.old swept.old) (stand seat.new desk.new swept.new) result }
    ensures takes { D.takes desk.new ≡ true }
{
    match no_item(&told, number) {
        Some(answer) => answer,
        None => match do_item(alloc, seat, number, told, desk, stamp, swept) {
            Ok(()) => Ok(true),
            Err(stop) => Err(stop),
        },
    }
}

/// What is answered of what is no item.
fn no_item(told: &Told, number: u8) -> Option<Result<bool, Stop>>
    ensures answer { MatchOption result (IsItem told.now) (λ answer. NoItem number told.now answer) }
{
    match told {
        Told::Quiet => Some(Ok(false)),
        Told::Bad { line } => Some(Err(without_item(SweepError::BadLine {
            source: number,
            line: *line,
        }))),
        Told::Failed => Some(Err(without_item(SweepError::SourceFailed { source: number }))),
        Told::Memory => Some(Err(without_item(SweepError::Memory))),
        Told::Add { .. } => None,
        Told::Change { .. } => None,
        Told::Gone { .. } => None,
        Told::Ended => None,
    }
}

/// Why a source is asked no further, where no item is kept.
fn without_item(error: SweepError) -> Stop
    ensures stop { result ≡ without_item error }
{
    Stop { error, item: None }
}

/// Does an item of a source, and gives the source up where it ended.
pub(crate) fn do_item<S: Drop, D: Desk>(
    alloc: Global,
    seat: &mut Seat<S>,
    number: u8,
    item: Told,
    desk: &mut D,
    stamp: &[u8; 20],
    swept: &mut Swept,
) -> Result<(), Stop>
    requires takes { D.takes desk.old ≡ true }
    requires stamp { IsStamp stamp.now }
    ensures tried { Tries D.stands D.went stamp.now item number
        (stand seat.old desk.old swept.old) (stand seat.new desk.new swept.new) result }
    ensures takes { D.takes desk.new ≡ true }
{
    match perform(alloc, &mut seat.keys, desk, stamp, &item, swept) {
        Ok(()) => {
            end_item(seat, item, swept);
            Ok(())
        }
        Err(undone) => Err(stop_of(number, item, undone)),
    }
}

/// Why a source is asked no further, where its item was not done. The item is kept, except where
/// its key is unknown.
fn stop_of(number: u8, item: Told, undone: Undone) -> Stop
    ensures stop { result ≡ stop_of number item undone }
{
    match undone {
        Undone::UnknownKey { key } => without_item(SweepError::UnknownKey {
            source: number,
            key,
        }),
        Undone::Book(BookError::Memory) => with_item(SweepError::Memory, item),
        Undone::Book(error) => with_item(SweepError::Book(error), item),
    }
}

/// Why a source is asked no further, where its item is kept.
fn with_item(error: SweepError, item: Told) -> Stop
    ensures stop { result ≡ record { error = error; item = Some item } }
{
    Stop {
        error,
        item: Some(item),
    }
}

/// Ends an item that was done. The source is given up where the item is that it ended.
fn end_item<S: Drop>(seat: &mut Seat<S>, item: Told, swept: &mut Swept)
    ensures source { seat.new.source ≡ left_by item seat.old.source }
    ensures keys { seat.new.keys ≡ seat.old.keys }
    ensures counted { swept.new ≡ count swept.old (gives_up item) }
{
    if let Told::Ended = item {
        seat.source = None;
        swept.dropped = swept.dropped.saturating_add(1);
    }
}

/// The item with the number of its source in its content.
fn numbered(item: Told, source: u8) -> Told
    ensures item { result ≡ numbered source item }
{
    match item {
        Told::Add { key, content } => Told::Add {
            key,
            content: of_source(content, source),
        },
        Told::Change { key, content } => Told::Change {
            key,
            content: of_source(content, source),
        },
        other => other,
    }
}

fn of_source(content: Content, source: u8) -> Content
    ensures content { result ≡ record content { source = source } }
{
    Content { source, ..content }
}
