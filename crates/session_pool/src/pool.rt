//! An inventory that is served at several doors at once, while sources change it.

ghost use Rattle.std.specs.List.{All};
ghost use Rattle.std.specs.Prelude.{◌≡◌, ◌<◌, ◌≤◌, ◌+◌, ◌^◌, ◌++◌, ◌∷◌, [], IsSome, Some, false, true, length, vec_capacity, vec_len};
ghost use Rattle.book_lock.specs.Passes.{PassStands, PassWent, split_from};
ghost use Rattle.session_door.specs.Serving.{IsWithin};
ghost use Rattle.session_door.specs.Visits.{door_state};
ghost use Rattle.session_pool.specs.Rooms.{ArePassed, GivePasses, GivesPass, HasRoom, IsOutcomeOf};
ghost use Rattle.session_pool.specs.Servers.{LeavesOutcome, ServesAll};
ghost use Rattle.session_pool.specs.Stands.{AreReady};
ghost use Rattle.source_sweeps.specs.Sweepings.{SweepsOnce, stopped_failed, sweeping};
ghost use Rattle.wire_base.specs.Outside.{HasCause};

use crate::beside::work_over;
use crate::config::PoolConfig;
use crate::outcome::{Bools, DoorEnds, Outcome};
use crate::stand::Stand;
use crate::watch::Watch;
use book_lock::{Pass, Shelf};
use session_door::Work;
use source_set::{Sources, Swept, TagSource};
use source_sweeps::{SweepStop, Tally, sweep_once};
use std::alloc::Global;
use std::mem;
use std::sync::Wait;
use std::thread::Threads;
use wire_base::{Clock, Door, Memory};

/// What came of a pool that serves.
#[derive(Debug, Drop)]
pub struct Served {
    /// What is noted of the sessions of each door.
    pub ends: DoorEnds,
    /// Whether each door failed.
    pub door_failed: Bools,
    /// What all sweeps did.
    pub swept: Swept,
    /// Why sweeping stopped, if it did.
    pub stopped: Option<SweepStop>,
}

/// Serves an inventory at each door, by a worker each, while sources change it.
///
/// The first sweep is made before any worker begins, and the others beside the workers. A worker
/// holds its sessions one after another, over a clerk of a pass of its own that may not change.
/// `Memory` comes in two cases. There is no room for the outcome: nothing was done. A worker has no
/// room to note one more session: what was done stays.
pub fn serve_all<
    D: Door + Send,
    C: Clock + Send,
    W: Watch + Sync,
    S: TagSource + Send,
    R: Threads + Wait + Sync,
>(
    alloc: Global,
    rt: &R,
    shelf: &Shelf,
    pass: &mut Pass,
    doors: &mut [Stand<D>],
    sources: &mut Sources<S>,
    clock: &mut C,
    watch: &W,
    config: &PoolConfig,
) -> Result<Served, Memory>
where
    D::L: Send,
    requires within { IsWithin config.now.serve }
    requires sessions { 0 < config.now.sessions }
    requires sweeps { 0 < config.now.sweeps }
    requires here { pass.old.shelf ≡ shelf.now }
    requires may { pass.old.may_change ≡ true }
    requires few { length doors.old < 2 ^ 32 }
    requires ready { AreReady D.out doors.old }
    ensures served { ServesAll D.L.taken D.L.given D.L.faults (door_state D.left D.returned D.last D.faults) S.reports S.faults config.now
        (sweeping sources.old pass.old (C.moments clock.old)) doors.old (sweeping sources.new pass.new (C.moments clock.new)) doors.new result }
    ensures ready { AreReady D.out doors.new }
    ensures here { pass.new.shelf ≡ shelf.now }
    ensures may { pass.new.may_change ≡ true }
{
    let passes = Vec::with_capacity(alloc, doors.len())?;
    let mut outcome = Outcome::with_room(alloc, doors.len())?;
    let tally = serve_with_room(
        alloc,
        rt,
        shelf,
        pass,
        doors,
        sources,
        clock,
        watch,
        config,
        passes,
        &mut outcome,
    );
    let (ends, door_failed) = outcome.whole()?;
    Ok(Served {
        ends,
        door_failed,
        swept: tally.swept,
        stopped: tally.stopped,
    })
}

/// Serves an inventory at each door, where there is room for what comes of it: for the passes of
/// the workers, and for the outcome. Gives what all sweeps did.
fn serve_with_room<
    D: Door + Send,
    C: Clock + Send,
    W: Watch + Sync,
    S: TagSource + Send,
    R: Threads + Wait + Sync,
>(
    alloc: Global,
    rt: &R,
    shelf: &Shelf,
    pass: &mut Pass,
    doors: &mut [Stand<D>],
    sources: &mut Sources<S>,
    clock: &mut C,
    watch: &W,
    config: &PoolConfig,
    passes: Vec<Pass>,
    outcome: &mut Outcome,
) -> Tally
where
    D::L: Send,
    requires within { IsWithin config.now.serve }
    requires sessions { 0 < config.now.sessions }
    requires sweeps { 0 < config.now.sweeps }
    requires here { pass.old.shelf ≡ shelf.now }
    requires may { pass.old.may_change ≡ true }
    requires few { length doors.old < 2 ^ 32 }
    requires ready { AreReady D.out doors.old }
    requires empty { (passes.items ≡ []) × (vec_len passes ≡ 0) }
    requires spare { length doors.old ≤ vec_capacity passes }
    requires none { IsOutcomeOf [] outcome.old }
    requires room { HasRoom (length doors.old) outcome.old }
    ensures leaves { LeavesOutcome D.L.taken D.L.given D.L.faults (door_state D.left D.returned D.last D.faults) S.reports S.faults config.now
        (sweeping sources.old pass.old (C.moments clock.old)) doors.old (sweeping sources.new pass.new (C.moments clock.new)) doors.new result.swept result.stopped outcome.new }
    ensures ready { AreReady D.out doors.new }
    ensures here { pass.new.shelf ≡ shelf.now }
    ensures may { pass.new.may_change ≡ true }
{
    let reader = shelf.split(pass, false);
    let whole = mem::replace(pass, reader);
    let (last, tally) = serve_over(
        alloc, rt, shelf, whole, doors, sources, clock, watch, config, passes, outcome,
    );
    *pass = last;
    tally
}

/// Serves an inventory at each door, over the pass. Gives the pass back, which has met the passes
/// of the workers by then, and what all sweeps did.
fn serve_over<
    D: Door + Send,
    C: Clock + Send,
    W: Watch + Sync,
    S: TagSource + Send,
    R: Threads + Wait + Sync,
>(
    alloc: Global,
    rt: &R,
    shelf: &Shelf,
    pass: Pass,
    doors: &mut [Stand<D>],
    sources: &mut Sources<S>,
    clock: &mut C,
    watch: &W,
    config: &PoolConfig,
    mut passes: Vec<Pass>,
    outcome: &mut Outcome,
) -> (Pass, Tally)
where
    D::L: Send,
    requires within { IsWithin config.now.serve }
    requires sessions { 0 < config.now.sessions }
    requires sweeps { 0 < config.now.sweeps }
    requires here { pass.shelf ≡ shelf.now }
    requires may { pass.may_change ≡ true }
    requires few { length doors.old < 2 ^ 32 }
    requires ready { AreReady D.out doors.old }
    requires empty { (passes.items ≡ []) × (vec_len passes ≡ 0) }
    requires spare { length doors.old ≤ vec_capacity passes }
    requires none { IsOutcomeOf [] outcome.old }
    requires room { HasRoom (length doors.old) outcome.old }
    ensures leaves { LeavesOutcome D.L.taken D.L.given D.L.faults (door_state D.left D.returned D.last D.faults) S.reports S.faults config.now
        (sweeping sources.old pass (C.moments clock.old)) doors.old (sweeping sources.new result.0 (C.moments clock.new)) doors.new result.1.swept result.1.stopped outcome.new }
    ensures ready { AreReady D.out doors.new }
    ensures here { result.0.shelf ≡ shelf.now }
    ensures may { result.0.may_change ≡ true }
{
    let (mut first, mut tally) = sweep_first(rt, shelf, pass, sources, clock);
    seat(shelf, &mut first, doors);
    let mut last = work_over(
        alloc, rt, shelf, first, doors, watch, config, sources, clock, &mut tally,
    );
    clear(doors, &mut passes, outcome);
    shelf.meet_all(&mut last, passes);
    (last, tally)
}

/// Makes the first sweep, over a clerk of the pass. Gives the pass back, with what was done.
fn sweep_first<C: Clock, S: TagSource, R: Wait>(
    rt: &R,
    shelf: &Shelf,
    pass: Pass,
    sources: &mut Sources<S>,
    clock: &mut C,
) -> (Pass, Tally)
    requires here { pass.shelf ≡ shelf.now }
    requires may { pass.may_change ≡ true }
    ensures once { SweepsOnce S.reports S.faults PassStands PassWent (sweeping sources.old pass (C.moments clock.old))
        (sweeping sources.new result.0 (C.moments clock.new)) result.1.swept result.1.stopped }
    ensures cause { HasCause sources.old.faults sources.new.faults (stopped_failed result.1.stopped) }
    ensures here { result.0.shelf ≡ shelf.now }
    ensures may { result.0.may_change ≡ true }
{
    let mut clerk = shelf.clerk(rt, pass);
    let (swept, stopped) = sweep_once(&mut clerk, sources, clock);
    (clerk.done(), Tally { swept, stopped })
}

/// Puts a pass into each stand, split from this one.
fn seat<D>(shelf: &Shelf, pass: &mut Pass, doors: &mut [Stand<D>])
    requires here { pass.old.shelf ≡ shelf.now }
    ensures kept { pass.new ≡ pass.old }
    ensures passed { ArePassed (split_from pass.old false) doors.old doors.new }
{
    for place in 0..doors.len() {
        seat_one(shelf, pass, &mut doors[place]);
    }
}

/// Puts a pass into a stand, split from this one.
fn seat_one<D>(shelf: &Shelf, pass: &mut Pass, stand: &mut Stand<D>)
    requires here { pass.old.shelf ≡ shelf.now }
    ensures kept { pass.new ≡ pass.old }
    ensures passed { stand.new ≡ record stand.old { pass = Some (split_from pass.old false) } }
{
    stand.pass = Some(shelf.split(pass, false));
}

/// Takes the passes out of the stands, and what came of their workers.
fn clear<D>(doors: &mut [Stand<D>], passes: &mut Vec<Pass>, outcome: &mut Outcome)
    requires passes { All (λ stand. IsSome stand.pass) doors.old }
    requires works { All (λ stand. IsSome stand.work) doors.old }
    requires empty { (passes.old.items ≡ []) × (vec_len passes.old ≡ 0) }
    requires spare { length doors.old ≤ vec_capacity passes.old }
    requires none { IsOutcomeOf [] outcome.old }
    requires room { HasRoom (length doors.old) outcome.old }
    ensures gives { GivePasses doors.old passes.new.items doors.new outcome.new }
{
    for place in 0..doors.len() {
        let (pass, work) = clear_one(&mut doors[place]);
        put(passes, pass);
        outcome.add(work);
    }
}

/// Puts a pass at the end, where there is room.
fn put(passes: &mut Vec<Pass>, pass: Pass)
    requires room { vec_len passes.old < vec_capacity passes.old }
    ensures appended { passes.new.items ≡ passes.old.items ++ pass ∷ [] }
    ensures len { vec_len passes.new ≡ vec_len passes.old + 1 }
    ensures room { vec_capacity passes.old ≤ vec_capacity passes.new }
{
    passes.push(pass).unwrap();
}

/// Takes the pass out of a stand, and what came of its worker.
fn clear_one<D>(stand: &mut Stand<D>) -> (Pass, Work)
    requires pass { IsSome stand.old.pass }
    requires work { IsSome stand.old.work }
    ensures gives { GivesPass stand.old result.0 stand.new result.1 }
{
    let pass = stand.take_pass();
    (pass, stand.take_work())
}
