//! The sources of an inventory, and a sweep over them.

ghost use Rattle.std.specs.Prelude.{◌≡◌, ◌≤◌, true, IfOk, length};
ghost use Rattle.wire_base.specs.Outside.{HasCause};
ghost use Rattle.wire_base.specs.Stamp.{IsStamp};
ghost use Rattle.source_set.specs.Sweeping.{AsksAll, DoesKept, HaveCauses, IsSeated, Sweeps, SweepsSeats, WorksInAll, fresh, is_failed_at, is_source_failed, kept_of, row, seated, stopped_failed, sweep_failed};

use crate::keys::Keys;
use crate::seat::{Seat, Stop, ask, do_item};
use crate::swept::{SweepError, Swept};
use crate::told::{TagSource, Told};
use collector_core::Desk;
use std::alloc::Global;
use std::marker::Model;
use wire_base::Memory;

/// The sources of an inventory in boxes.
pub type SourceSet = Sources<Box<dyn TagSource + Send>>;

/// An item that was reported and is not done, and the number of its source.
#[derive(Debug, Drop)]
pub(crate) struct Kept {
    /// The number of the source.
    pub(crate) source: u8,
    /// The item.
    pub(crate) item: Told,
}

/// The number of the source that a sweep stopped at, and why it stopped.
#[derive(Debug, Drop)]
struct Stopped {
    source: u8,
    stop: Stop,
}

/// The sources of an inventory, numbered from 0, with the record of each key that they hold.
#[derive(Drop)]
pub struct Sources<S: Drop> {
    seats: Vec<Seat<S>>,
    kept: Option<Kept>,
    faults: u64,
}

impl<S: Drop> Model for Sources<S> {
    ghost use Rattle.std.specs.Prelude.{◌≤◌, length};
    ghost use Rattle.source_set.specs.Sweeping.{IsSeated, SetView};

    ghost Value = { SetView S };

    ghost view = { λ set. record { seats = set.seats.items; kept = set.kept; faults = set.faults } };

    ghost invariant = { λ set. (length set.seats.items ≤ 255)
        × IsSeated (length set.seats.items) set.kept };
}

impl<S: TagSource> Sources<S> {
    /// The set of these sources, at most 255, which hold no key yet.
    pub fn new(alloc: Global, sources: Vec<S>) -> Result<Self, Memory>
        requires few { length sources.items ≤ 255 }
        ensures made { IfOk result (λ made. made ≡ fresh sources.items) }
    {
        Ok(Sources {
            seats: seated(alloc, sources)?,
            kept: None,
            faults: 0,
        })
    }

    /// Does the item that was kept, and then asks each source in order, until it is quiet, has
    /// ended or has reported 1024 items, and does what it reports at the desk.
    pub fn sweep<D: Desk>(
        &mut self,
        desk: &mut D,
        stamp: &[u8; 20],
    ) -> (Swept, Result<(), SweepError>)
        requires takes { D.takes desk.old ≡ true }
        requires stamp { IsStamp stamp.now }
        ensures swept { Sweeps S.reports D.stands D.went stamp.now
            self.old self.new desk.old desk.new result.0 result.1 }
        ensures works { WorksInAll S.reports D.stands D.went stamp.now desk.old desk.new result.0 }
        ensures causes { HaveCauses S.faults self.old.seats self.new.seats
            (λ number. is_failed_at number result.1) }
        ensures cause { HasCause self.old.faults self.new.faults (sweep_failed result.1) }
        ensures takes { D.takes desk.new ≡ true }
    {
        let alloc = *self.seats.allocator();
        let kept = self.kept.take();
        let mut swept = Swept::NOTHING;
        match sweep_seats(alloc, &mut self.seats, kept, desk, stamp, &mut swept) {
            Ok(()) => (swept, Ok(())),
            Err(Stopped { source, stop }) => {
                keep(&mut self.kept, source, stop.item);
                self.faults = counted(self.faults, &stop.error);
                (swept, Err(stop.error))
            }
        }
    }
}

/// A seat for each source, with no key.
fn seated<S: Drop>(alloc: Global, sources: Vec<S>) -> Result<Vec<Seat<S>>, Memory>
    ensures seated { IfOk result (λ made. made.items ≡ seated sources.items) }
{
    let mut seats = Vec::with_capacity(alloc, sources.len())?;
    for source in sources {
        seats.push(Seat {
            source: Some(source),
            keys: Keys::new(alloc),
        })?;
    }
    Ok(seats)
}

/// Keeps an item that is to be done first next time, where there is one.
fn keep(kept: &mut Option<Kept>, source: u8, item: Option<Told>)
    ensures kept { kept.new ≡ kept_of source item }
{
    *kept = match item {
        Some(item) => Some(Kept { source, item }),
        None => None,
    };
}

/// The count of faults after a sweep that stopped.
fn counted(faults: u64, error: &SweepError) -> u64
    ensures cause { HasCause faults result (is_source_failed error.now) }
{
    if let SweepError::SourceFailed { .. } = error {
        faults.saturating_add(1)
    } else {
        faults
    }
}

/// Does the item that was kept, and then asks each source in order.
fn sweep_seats<S: TagSource, D: Desk>(
    alloc: Global,
    seats: &mut Vec<Seat<S>>,
    kept: Option<Kept>,
    desk: &mut D,
    stamp: &[u8; 20],
    swept: &mut Swept,
) -> Result<(), Stopped>
    requires few { length seats.old.items ≤ 255 }
    requires seated { IsSeated (length seats.old.items) kept }
    requires takes { D.takes desk.old ≡ true }
    requires stamp { IsStamp stamp.now }
    ensures swept { SweepsSeats S.reports D.stands D.went stamp.now kept
        (row seats.old.items desk.old swept.old) (row seats.new.items desk.new swept.new) result }
    ensures causes { HaveCauses S.faults seats.old.items seats.new.items
        (λ number. stopped_failed number result) }
    ensures takes { D.takes desk.new ≡ true }
{
    match do_kept(alloc, seats, kept, desk, stamp, swept) {
        Ok(()) => ask_all(alloc, seats, desk, stamp, swept),
        Err(stopped) => Err(stopped),
    }
}

/// Does the item that was kept, where there is one.
fn do_kept<S: TagSource, D: Desk>(
    alloc: Global,
    seats: &mut Vec<Seat<S>>,
    kept: Option<Kept>,
    desk: &mut D,
    stamp: &[u8; 20],
    swept: &mut Swept,
) -> Result<(), Stopped>
    requires seated { IsSeated (length seats.old.items) kept }
    requires takes { D.takes desk.old ≡ true }
    requires stamp { IsStamp stamp.now }
    ensures done { DoesKept S.reports D.stands D.went stamp.now kept
        (row seats.old.items desk.old swept.old) (row seats.new.items desk.new swept.new) result }
    ensures causes { HaveCauses S.faults seats.old.items seats.new.items
        (λ number. stopped_failed number result) }
    ensures takes { D.takes desk.new ≡ true }
{
    let Some(Kept { source, item }) = kept else {
        return Ok(());
    };
    let place = source as usize;
    match do_item(alloc, &mut seats[place], source, item, desk, stamp, swept) {
        Ok(()) => Ok(()),
        Err(stop) => Err(Stopped { source, stop }),
    }
}

/// Asks each source in order.
fn ask_all<S: TagSource, D: Desk>(
    alloc: Global,
    seats: &mut Vec<Seat<S>>,
    desk: &mut D,
    stamp: &[u8; 20],
    swept: &mut Swept,
) -> Result<(), Stopped>
    requires few { length seats.old.items ≤ 255 }
    requires takes { D.takes desk.old ≡ true }
    requires stamp { IsStamp stamp.now }
    ensures asked { AsksAll S.reports D.stands D.went stamp.now 0
        seats.old.items desk.old swept.old seats.new.items desk.new swept.new result }
    ensures causes { HaveCauses S.faults seats.old.items seats.new.items
        (λ number. stopped_failed number result) }
    ensures takes { D.takes desk.new ≡ true }
{
    for place in 0..seats.len() {
        let source = place as u8;
        match ask(alloc, &mut seats[place], source, desk, stamp, swept) {
            Ok(()) => {}
            Err(stop) => return Err(Stopped { source, stop }),
        }
    }
    Ok(())
}
