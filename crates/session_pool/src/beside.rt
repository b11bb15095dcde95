//! Workers in threads, with sweeps beside them.

ghost use Rattle.std.specs.List.{All};
ghost use Rattle.std.specs.Prelude.{◌≡◌, ◌<◌, ◌+◌, ◌^◌, IfSome, IsSome, None, false, true, length};
ghost use Rattle.book_lock.specs.Passes.{PassStands, PassWent};
ghost use Rattle.session_door.specs.Serving.{IsWithin};
ghost use Rattle.session_door.specs.Visits.{door_state};
ghost use Rattle.session_pool.specs.Stands.{AtEach, ServesAt};
ghost use Rattle.source_sweeps.specs.Sweepings.{GoesOn, stopped_failed, sweeping};
ghost use Rattle.wire_base.specs.Outside.{HasCause};

use crate::at_stand::serve_stand;
use crate::config::PoolConfig;
use crate::stand::Stand;
use crate::watch::{Watch, tell_stop};
use book_lock::{Clerk, Pass, Shelf};
use session_door::Gate;
use source_set::{Sources, TagSource};
use source_sweeps::{Tally, sweep_beside};
use std::alloc::Global;
use std::sync::Wait;
use std::thread;
use std::thread::{Threads, join_mut};
use wire_base::{Clock, Door};

/// Makes the sweeps after the first, over a clerk of the pass, beside the workers. Gives the pass
/// back.
pub(crate) fn work_over<
    D: Door + Send,
    C: Clock + Send,
    W: Watch + Sync,
    S: TagSource + Send,
    R: Threads + Wait + Sync,
>(
    alloc: Global,
    rt: &R,
    shelf: &Shelf,
    first: Pass,
    doors: &mut [Stand<D>],
    watch: &W,
    config: &PoolConfig,
    sources: &mut Sources<S>,
    clock: &mut C,
    tally: &mut Tally,
) -> Pass
where
    D::L: Send,
    requires within { IsWithin config.now.serve }
    requires sessions { 0 < config.now.sessions }
    requires sweeps { 0 < config.now.sweeps }
    requires few { length doors.old < 2 ^ 32 }
    requires home { All (λ stand. D.out stand.door ≡ false) doors.old }
    requires passes { All (λ stand. IsSome stand.pass) doors.old }
    requires here { All (λ stand. IfSome stand.pass (λ pass. pass.shelf ≡ shelf.now)) doors.old }
    requires first_here { first.shelf ≡ shelf.now }
    requires may { first.may_change ≡ true }
    ensures on { GoesOn S.reports S.faults PassStands PassWent config.now.sweeps (sweeping sources.old first (C.moments clock.old)) tally.old.swept tally.old.stopped
        (sweeping sources.new result (C.moments clock.new)) tally.new.swept tally.new.stopped }
    ensures cause { tally.old.stopped ≡ None → HasCause sources.old.faults sources.new.faults (stopped_failed tally.new.stopped) }
    ensures may { result.may_change ≡ true }
    ensures serves { AtEach (ServesAt D.L.taken D.L.given D.L.faults (door_state D.left D.returned D.last D.faults) D.out config.now.serve config.now.sessions) doors.old doors.new }
{
    let mut clerk = shelf.clerk(rt, first);
    work_beside(
        alloc, rt, shelf, doors, watch, config, &mut clerk, sources, clock, tally,
    );
    clerk.done()
}

/// Makes the sweeps after the first beside the workers, which serve at each stand.
fn work_beside<
    D: Door + Send,
    C: Clock + Send,
    W: Watch + Sync,
    S: TagSource + Send,
    R: Threads + Wait + Sync,
>(
    alloc: Global,
    rt: &R,
    shelf: &Shelf,
    doors: &mut [Stand<D>],
    watch: &W,
    config: &PoolConfig,
    clerk: &mut Clerk<'_, R>,
    sources: &mut Sources<S>,
    clock: &mut C,
    tally: &mut Tally,
)
where
    D::L: Send,
    requires within { IsWithin config.now.serve }
    requires sessions { 0 < config.now.sessions }
    requires sweeps { 0 < config.now.sweeps }
    requires few { length doors.old < 2 ^ 32 }
    requires home { All (λ stand. D.out stand.door ≡ false) doors.old }
    requires passes { All (λ stand. IsSome stand.pass) doors.old }
    requires here { All (λ stand. IfSome stand.pass (λ pass. pass.shelf ≡ shelf.now)) doors.old }
    requires may { clerk.old.may_change ≡ true }
    ensures on { GoesOn S.reports S.faults PassStands PassWent config.now.sweeps (sweeping sources.old clerk.old (C.moments clock.old)) tally.old.swept tally.old.stopped
        (sweeping sources.new clerk.new (C.moments clock.new)) tally.new.swept tally.new.stopped }
    ensures cause { tally.old.stopped ≡ None → HasCause sources.old.faults sources.new.faults (stopped_failed tally.new.stopped) }
    ensures may { clerk.new.may_change ≡ true }
    ensures serves { AtEach (ServesAt D.L.taken D.L.given D.L.faults (door_state D.left D.returned D.last D.faults) D.out config.now.serve config.now.sessions) doors.old doors.new }
{
    join_mut(
        rt,
        &mut || sweep_on(clerk, sources, clock, config.sweeps, tally, watch),
        &mut ||
            requires { IsWithin config.now.serve × (0 < config.now.sessions) × (length doors.now < 2 ^ 32) × All (λ stand. D.out stand.door ≡ false) doors.now
                × All (λ stand. IsSome stand.pass) doors.now × All (λ stand. IfSome stand.pass (λ pass. pass.shelf ≡ shelf.now)) doors.now }
            ensures { AtEach (ServesAt D.L.taken D.L.given D.L.faults (door_state D.left D.returned D.last D.faults) D.out config.entry.now.serve config.entry.now.sessions) doors.entry.now doors.exit.now }
        { serve_stands(alloc, rt, shelf, doors, watch, config) },
    );
}

/// Makes the sweeps after the first, unless that one stopped the sweeping. Then reports why it
/// stopped, if it did.
fn sweep_on<C: Clock, W: Watch, S: TagSource, R: Wait>(
    clerk: &mut Clerk<'_, R>,
    sources: &mut Sources<S>,
    clock: &mut C,
    sweeps: u32,
    tally: &mut Tally,
    watch: &W,
)
    requires some { 0 < sweeps }
    requires may { clerk.old.may_change ≡ true }
    ensures on { GoesOn S.reports S.faults PassStands PassWent sweeps (sweeping sources.old clerk.old (C.moments clock.old)) tally.old.swept tally.old.stopped
        (sweeping sources.new clerk.new (C.moments clock.new)) tally.new.swept tally.new.stopped }
    ensures cause { tally.old.stopped ≡ None → HasCause sources.old.faults sources.new.faults (stopped_failed tally.new.stopped) }
    ensures may { clerk.new.may_change ≡ true }
{
    sweep_beside(clerk, sources, clock, sweeps, tally);
    tell_stop(watch, tally.stopped);
}

/// Serves at each stand, in a thread each where one can be made.
fn serve_stands<D: Door + Send, G: Gate + Sync, R: Threads + Wait + Sync>(
    alloc: Global,
    rt: &R,
    shelf: &Shelf,
    doors: &mut [Stand<D>],
    gate: &G,
    config: &PoolConfig,
)
where
    D::L: Send,
    requires within { IsWithin config.now.serve }
    requires sessions { 0 < config.now.sessions }
    requires few { length doors.old < 2 ^ 32 }
    requires home { All (λ stand. D.out stand.door ≡ false) doors.old }
    requires passes { All (λ stand. IsSome stand.pass) doors.old }
    requires here { All (λ stand. IfSome stand.pass (λ pass. pass.shelf ≡ shelf.now)) doors.old }
    ensures serves { AtEach (ServesAt D.L.taken D.L.given D.L.faults (door_state D.left D.returned D.last D.faults) D.out config.now.serve config.now.sessions) doors.old doors.new }
{
    // At least one is asked for, also for no doors.
    let threads = doors.len().max(1);
    thread::for_each_mut(
        rt,
        doors,
        threads,
        &|place: usize, stand: &mut Stand<D>|
            requires { (place + 1 < 2 ^ 32) × IsWithin config.now.serve × (0 < config.now.sessions) × (D.out stand.old.door ≡ false) × IsSome stand.old.pass
                × IfSome stand.old.pass (λ pass. pass.shelf ≡ shelf.now) }
            ensures { ServesAt D.L.taken D.L.given D.L.faults (door_state D.left D.returned D.last D.faults) D.out config.entry.now.serve config.entry.now.sessions stand.old stand.new }
        { serve_stand(alloc, rt, shelf, stand, place as u32 + 1, gate, config) },
    );
}
