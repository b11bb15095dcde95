//! Reports that tests give a mirror. `None` comes where there is too much, or memory ran out.

ghost use Rattle.std.specs.Prelude.{◌<◌, ◌^◌, IfSome};
ghost use Rattle.swima_model.specs.Size.{report_count};

use std::alloc::Global;
use swima_model::{
    Action, Body, Content, Event, Events, Ident, Kind, Locator, Model, Point, Record, Records,
    Report,
};

/// A record with these parts alone.
pub(crate) fn record(alloc: Global, id: u32, locator: Locator, body: Body) -> Record {
    Record {
        id,
        content: Content {
            model: Model { pen: 9, kind: 1 },
            source: 0,
            ident: Ident::empty(alloc),
            locator,
            body,
        },
    }
}

/// Pushes a record with a locator.
pub(crate) fn push_record(
    alloc: Global,
    records: &mut Records,
    id: u32,
    locator: &[u8],
) -> Option<()> {
    let locator = Locator::new(alloc, locator).ok()?;
    let record = record(alloc, id, locator, Body::empty(alloc));
    records.push(record).ok()
}

/// Pushes an event of a record with a locator.
pub(crate) fn push_event(
    alloc: Global,
    events: &mut Events,
    eid: u32,
    action: Action,
    id: u32,
    locator: &[u8],
) -> Option<()> {
    let locator = Locator::new(alloc, locator).ok()?;
    let event = Event {
        eid,
        stamp: *b"2026-02-03T04:05:06Z",
        action,
        subject: record(alloc, id, locator, Body::empty(alloc)),
    };
    events.push(event).ok()
}

/// An inventory of these records at the event 1 of the epoch 1; `None` where there are more than
/// 65537.
pub(crate) fn inventory(records: Records) -> Option<Report>
    ensures few { IfSome result (λ report. report_count report < 2 ^ 32) }
{
    if records.len() > 65_537 {
        return None;
    }
    Some(Report::Inventory {
        kind: Kind::Full,
        fulfil: false,
        id: 1,
        point: Point { epoch: 1, eid: 1 },
        records,
    })
}

/// A report of these events, which were consulted up to `eid`; `None` where there are more than
/// 4096.
pub(crate) fn report_of(events: Events, eid: u32) -> Option<Report>
    ensures few { IfSome result (λ report. report_count report < 2 ^ 32) }
{
    if events.len() > 4096 {
        return None;
    }
    Some(Report::Events {
        kind: Kind::Full,
        fulfil: false,
        id: 1,
        point: Point { epoch: 1, eid },
        consulted: eid,
        events,
    })
}
