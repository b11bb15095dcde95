//! Whether something that is asked for has changed.

ghost use Rattle.std.specs.Prelude.{◌≡◌, ◌<◌, ◌++◌, [], option_to_list};
ghost use Rattle.std.specs.List.{list_any};
ghost use Rattle.std.specs.Str.{bytes_eq};
ghost use Rattle.arrayvec.specs.ArrayVec.{array_vec_len};
ghost use Rattle.event_log.specs.Log.{event_at};
ghost use Rattle.collector_core.specs.Answering.{is_later};
ghost use Rattle.collector_core.specs.Borrowed.{values};
ghost use Rattle.collector_core.specs.Later.{idents, later_idents};
ghost use Rattle.collector_core.specs.OctetOrder.{Rises};

use crate::targets::is_among;
use arrayvec::ArrayVec;
use event_log::EventLog;
use swima_request::Idents;

/// The most events that a log keeps.
const MOST_EVENTS: usize = 4096;

/// Whether the log keeps an event after `after` that is asked for. It takes no memory.
pub(crate) fn has_later(log: &EventLog, after: u32, targets: &Idents) -> bool
    ensures later { result ≡ list_any (is_later after targets.now) log.now.events }
{
    if targets.is_empty() {
        return keeps_later(log, after);
    }
    let mut later = later_idents(log, after);
    later.sort_unstable();
    has_one_of(later.as_slice(), targets)
}

/// Whether the log keeps any event after `after`.
fn keeps_later(log: &EventLog, after: u32) -> bool
    ensures later { result ≡ list_any (is_later after []) log.now.events }
{
    let first = (log.first() as u64).max(after as u64 + 1);
    first <= log.last() as u64
}

/// The software identifiers of the events after `after`.
fn later_idents(log: &EventLog, after: u32) -> ArrayVec<&[u8], MOST_EVENTS>
    ensures idents { values result.items ≡ later_idents after log.now.events }
{
    let mut later = ArrayVec::new();
    let first = (log.first() as u64).max(after as u64 + 1);
    for eid in first..log.last() as u64 + 1 {
        push_ident(&mut later, log, eid as u32);
    }
    later
}

/// Puts the software identifier of the event at the end, where the log keeps it.
fn push_ident<'a>(later: &mut ArrayVec<&'a [u8], MOST_EVENTS>, log: &'a EventLog, eid: u32)
    requires room { array_vec_len later.old < 4096 }
    ensures appended { values later.new.items ≡ values later.old.items ++ idents (option_to_list (event_at log.now eid)) }
{
    if let Some(event) = log.get(eid) {
        later.push(event.subject.content.ident.bytes());
    }
}

/// Whether one of the targets is among the octets that stand in their order.
fn has_one_of(rising: &[&[u8]], targets: &Idents) -> bool
    requires rising { Rises rising.now }
    ensures any { result ≡ list_any (λ target. list_any (λ ident. bytes_eq ident target) (values rising.now)) targets.now }
{
    for target in targets.as_slice() {
        if is_among(rising, target.bytes()) {
            return true;
        }
    }
    false
}
