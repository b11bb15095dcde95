//! A log of the latest events of an epoch.

ghost use Rattle.std.specs.Prelude.{◌≡◌};

use conformance_words::push_text;
use event_log::EventLog;
use std::alloc::Global;
use swima_model::{Action, Body, Content, Event, Ident, Locator, Model, Record};

/// `log new ROOM`, `log push`, which pushes the next event, `log trim EVENT` or `log clear`. The
/// answer is the event that was dropped for it, the first event and the last, and those below 9
/// that are kept.
pub fn step(alloc: Global, log: &mut EventLog, words: &str) -> Option<String> {
    match words {
        "push" => push(alloc, log),
        "clear" => {
            log.clear();
            state_text(alloc, log)
        }
        words => {
            let (word, number) = words.split_once(' ')?;
            step_of(alloc, log, word, number.parse().ok()?)
        }
    }
}

/// A step with a number.
fn step_of(alloc: Global, log: &mut EventLog, word: &str, number: u32) -> Option<String> {
    match word {
        "new" if 0 < number && number <= 4096 => {
            *log = EventLog::new(alloc, number as usize).ok()?;
            state_text(alloc, log)
        }
        "trim" if number as u64 <= log.last() as u64 + 1 => {
            log.trim(number);
            state_text(alloc, log)
        }
        _ => None,
    }
}

/// Pushes the next event.
fn push(alloc: Global, log: &mut EventLog) -> Option<String> {
    let dropped = push_next(alloc, log)?;
    let state = state_text(alloc, log)?;
    match dropped {
        None => Some(state),
        Some(eid) => format!(in alloc; "dropped {eid}; {state}").ok(),
    }
}

/// Pushes the next event, and gives the one that was dropped for it. `None` where there is no next.
fn push_next(alloc: Global, log: &mut EventLog) -> Option<Option<u32>> {
    let last = log.last();
    if last == u32::MAX {
        return None;
    }
    match log.push(event(alloc, last + 1)) {
        None => Some(None),
        Some(oldest) => Some(Some(oldest.eid)),
    }
}

/// The event of this identifier, which creates a record of the same identifier.
fn event(alloc: Global, eid: u32) -> Event
    ensures eid { result.eid ≡ eid }
{
    let content = Content {
        model: Model { pen: 0, kind: 0 },
        source: 0,
        ident: Ident::empty(alloc),
        locator: Locator::empty(alloc),
        body: Body::empty(alloc),
    };
    Event {
        eid,
        stamp: *b"2026-02-03T04:05:06Z",
        action: Action::Creation,
        subject: Record { id: eid, content },
    }
}

fn state_text(alloc: Global, log: &EventLog) -> Option<String> {
    let (first, last) = (log.first(), log.last());
    let mut out = format!(in alloc; "first {first}, last {last}, kept").ok()?;
    push_kept(alloc, &mut out, log)?;
    Some(out)
}

/// The events below 9 that are kept.
fn push_kept(alloc: Global, out: &mut String, log: &EventLog) -> Option<()> {
    for eid in 0..9 {
        if let Some(event) = log.get(eid) {
            let kept = event.eid;
            push_text(out, format!(in alloc; " {kept}").ok())?;
        }
    }
    Some(())
}
