//! Whether the events of a report follow on the one that a mirror holds (RFC 8412, section 3.7.3).

ghost use Rattle.std.specs.Prelude.{◌≡◌, ◌≤◌};
ghost use Rattle.validator_core.specs.Following.{gap};

use swima_model::Event;

/// The first gap between the event identifier `held` and `consulted`, which is not below it. That
/// is the first event identifier above `held` that is not the next one up to `consulted`, or 0
/// where the events end before `consulted`. Events that are not above `held` are passed over. It
/// takes no memory.
pub(crate) fn gap(held: u32, consulted: u32, events: &[Event]) -> Option<u32>
    requires behind { held ≤ consulted }
    ensures gap { result ≡ gap held consulted events.now }
{
    let mut last = held;
    for event in events {
        if event.eid <= held {
            continue;
        }
        if last == consulted || event.eid != last + 1 {
            return Some(event.eid);
        }
        last = event.eid;
    }
    if last < consulted {
        return Some(0);
    }
    None
}
