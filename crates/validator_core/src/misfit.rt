//! The first event that does not fit: it contradicts what is live before it, or too much is live
//! after it.

ghost use Rattle.std.specs.Prelude.{◌≡◌, [], None, IfOk};
ghost use Rattle.validator_core.specs.Following.{events_above, first_misfit};
ghost use Rattle.validator_core.specs.Tally.{AreFew, IsTally};

use crate::mirror::Taken;
use crate::tally::Tally;
use swima_model::Event;
use wire_base::Memory;

/// What is said of the first event above the event identifier `eid` that does not fit, where the
/// events above it follow in turn on the records of a tally before any event. Where all fit, the
/// tally is of what is live after them.
pub(crate) fn first_misfit<'a>(
    tally: &mut Tally<'a>,
    eid: u32,
    events: &'a [Event],
) -> Result<Option<Taken>, Memory>
    requires begins { IsTally tally.old.records.now [] tally.old }
    requires few { AreFew tally.old }
    ensures first { IfOk result (λ found.
        found ≡ first_misfit tally.old.records.now (events_above eid events.now)) }
    ensures tally { IfOk result (λ found. found ≡ None
        → IsTally tally.old.records.now (events_above eid events.now) tally.new) }
    ensures few { IfOk result (λ found. found ≡ None → AreFew tally.new) }
{
    for event in events {
        if event.eid <= eid {
            continue;
        }
        let misfit = tally.follow(event)?;
        if misfit.is_some() {
            return Ok(misfit);
        }
    }
    Ok(None)
}
