//! Sweeps over the sources of an inventory, one after another.

ghost use Rattle.std.specs.Prelude.{◌≡◌, ◌<◌, None, is_none, true};
ghost use Rattle.wire_base.specs.Outside.{HasCause};
ghost use Rattle.source_sweeps.specs.Sweepings.{GoesOn, SweepsNext, SweepsOn, SweepsOnce, added, stop_of, stopped_failed, sweeping};

use collector_core::Desk;
use source_set::{Sources, SweepError, Swept, TagSource};
use thiserror::Error;
use wire_base::{Clock, stamp_text};

/// Why sweeping stopped.
#[derive(Clone, Copy, Debug, PartialEq, Eq, Error)]
pub enum SweepStop {
    /// A sweep answered this.
    #[error("{0}")]
    Sweep(SweepError),
    /// The clock gave a moment that has no stamp.
    #[error("second {secs} is too late for a stamp")]
    ClockRange {
        /// The moment, in seconds since 1970-01-01T00:00:00Z.
        secs: u64,
    },
}

/// What the sweeps did so far, and why sweeping stopped, if it did.
#[derive(Clone, Copy, Debug, PartialEq, Eq)]
pub struct Tally {
    /// The sums of what they did.
    pub swept: Swept,
    /// Why sweeping stopped, if it did.
    pub stopped: Option<SweepStop>,
}

/// Makes one sweep, with the stamp of the moment that the clock gives.
pub fn sweep_once<K: Desk, S: TagSource, C: Clock>(
    desk: &mut K,
    sources: &mut Sources<S>,
    clock: &mut C,
) -> (Swept, Option<SweepStop>)
    requires takes { K.takes desk.old ≡ true }
    ensures once { SweepsOnce S.reports S.faults K.stands K.went (sweeping sources.old desk.old (C.moments clock.old))
        (sweeping sources.new desk.new (C.moments clock.new)) result.0 result.1 }
    ensures cause { HasCause sources.old.faults sources.new.faults (stopped_failed result.1) }
    ensures takes { K.takes desk.new ≡ true }
{
    let secs = clock.now();
    match stamp_text(secs) {
        Ok(stamp) => {
            let (swept, done) = sources.sweep(desk, &stamp);
            (swept, stop_of(done))
        }
        Err(range) => (
            Swept::NOTHING,
            Some(SweepStop::ClockRange { secs: range.secs }),
        ),
    }
}

/// Why a sweep stopped the sweeping, if it did.
fn stop_of(done: Result<(), SweepError>) -> Option<SweepStop>
    ensures stop { result ≡ stop_of done }
{
    match done {
        Ok(()) => None,
        Err(error) => Some(SweepStop::Sweep(error)),
    }
}

/// Makes the sweeps after the first, which was noted in `tally`, unless that one stopped the
/// sweeping.
pub fn sweep_beside<K: Desk, S: TagSource, C: Clock>(
    desk: &mut K,
    sources: &mut Sources<S>,
    clock: &mut C,
    sweeps: u32,
    tally: &mut Tally,
)
    requires takes { K.takes desk.old ≡ true }
    requires some { 0 < sweeps }
    ensures on { GoesOn S.reports S.faults K.stands K.went sweeps (sweeping sources.old desk.old (C.moments clock.old)) tally.old.swept tally.old.stopped
        (sweeping sources.new desk.new (C.moments clock.new)) tally.new.swept tally.new.stopped }
    ensures cause { tally.old.stopped ≡ None → HasCause sources.old.faults sources.new.faults (stopped_failed tally.new.stopped) }
    ensures takes { K.takes desk.new ≡ true }
{
    if tally.stopped.is_none() {
        sweep_on(desk, sources, clock, sweeps - 1, tally);
    }
}

/// Makes that many further sweeps, unless one stops the sweeping. Rests before the first of them
/// and after each.
fn sweep_on<K: Desk, S: TagSource, C: Clock>(
    desk: &mut K,
    sources: &mut Sources<S>,
    clock: &mut C,
    count: u32,
    tally: &mut Tally,
)
    requires takes { K.takes desk.old ≡ true }
    requires going { tally.old.stopped ≡ None }
    ensures on { SweepsOn S.reports S.faults K.stands K.went count (sweeping sources.old desk.old (C.moments clock.old)) tally.old.swept
        (sweeping sources.new desk.new (C.moments clock.new)) tally.new.swept tally.new.stopped }
    ensures cause { HasCause sources.old.faults sources.new.faults (stopped_failed tally.new.stopped) }
    ensures takes { K.takes desk.new ≡ true }
{
    clock.rest();
    for _ in 0..count {
        let goes_on = sweep_next(desk, sources, clock, tally);
        if !goes_on {
            return;
        }
    }
}

/// Makes one further sweep, and rests. Whether the sweeping goes on.
fn sweep_next<K: Desk, S: TagSource, C: Clock>(
    desk: &mut K,
    sources: &mut Sources<S>,
    clock: &mut C,
    tally: &mut Tally,
) -> bool
    requires takes { K.takes desk.old ≡ true }
    ensures next { SweepsNext S.reports S.faults K.stands K.went (sweeping sources.old desk.old (C.moments clock.old)) tally.old.swept
        (sweeping sources.new desk.new (C.moments clock.new)) tally.new.swept tally.new.stopped }
    ensures goes { result ≡ is_none tally.new.stopped }
    ensures cause { HasCause sources.old.faults sources.new.faults (stopped_failed tally.new.stopped) }
    ensures takes { K.takes desk.new ≡ true }
{
    let (swept, stopped) = sweep_once(desk, sources, clock);
    clock.rest();
    tally.swept = added(tally.swept, swept);
    tally.stopped = stopped;
    stopped.is_none()
}

/// The sums of the counts, each of which stops at 4294967295.
fn added(one: Swept, other: Swept) -> Swept
    ensures sums { result ≡ added one other }
{
    Swept {
        added: one.added.saturating_add(other.added),
        changed: one.changed.saturating_add(other.changed),
        gone: one.gone.saturating_add(other.gone),
        dropped: one.dropped.saturating_add(other.dropped),
    }
}
