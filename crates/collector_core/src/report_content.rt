//! What reports of a kind carry of records and events, and how many octets that takes.

ghost use Rattle.std.specs.Prelude.{◌≡◌, ◌≤◌, ◌*◌, ◌^◌, IfOk, length};
ghost use Rattle.std.specs.List.{sum_by};
ghost use Rattle.swima_model.specs.Kinds.{body_of_kind, events_of_kind, record_of_kind, records_of_kind};
ghost use Rattle.collector_core.specs.Borrowed.{values};
ghost use Rattle.collector_core.specs.ReportContent.{event_of_kind};

use std::alloc::Global;
use swima_model::{Body, Content, Event, Events, Kind, Record, Records, ReportEntry, size_of_all};
use wire_base::{List, Memory, TryCopy};

/// Copies of the records as reports of a kind carry them.
pub(crate) fn records_of_kind(
    alloc: Global,
    kind: Kind,
    records: &[&Record],
) -> Result<Records, Memory>
    ensures carried { IfOk result (λ made. made ≡ records_of_kind kind (values records.now)) }
{
    let mut carried = Vec::with_capacity(alloc, records.len())?;
    for held in records {
        carried.push(record_of_kind(alloc, kind, *held)?)?;
    }
    Ok(List::from_vec(carried))
}

/// Copies of the events as reports of a kind carry them.
pub(crate) fn events_of_kind(alloc: Global, kind: Kind, events: &[&Event]) -> Result<Events, Memory>
    ensures carried { IfOk result (λ made. made ≡ events_of_kind kind (values events.now)) }
{
    let mut carried = Vec::with_capacity(alloc, events.len())?;
    for event in events {
        carried.push(event_of_kind(alloc, kind, *event)?)?;
    }
    Ok(List::from_vec(carried))
}

/// How many octets the records or events take in a report of a kind.
pub(crate) fn size_of_lent<T: ReportEntry>(kind: Kind, entries: &[&T]) -> u64
    requires few { length entries.now ≤ 65536 }
    ensures size { result ≡ sum_by (T.entry_size kind) (values entries.now) }
    ensures within { result ≤ 2 ^ 21 * length entries.now }
{
    size_of_all(kind, entries)
}

/// The event as reports of a kind carry it.
fn event_of_kind(alloc: Global, kind: Kind, event: &Event) -> Result<Event, Memory>
    ensures carried { IfOk result (λ made. made ≡ event_of_kind kind event.now) }
{
    Ok(Event {
        eid: event.eid,
        stamp: event.stamp,
        action: event.action,
        subject: record_of_kind(alloc, kind, &event.subject)?,
    })
}

/// The record as reports of a kind carry it.
fn record_of_kind(alloc: Global, kind: Kind, held: &Record) -> Result<Record, Memory>
    ensures carried { IfOk result (λ made. made ≡ record_of_kind kind held.now) }
{
    let content = &held.content;
    Ok(Record {
        id: held.id,
        content: Content {
            model: content.model,
            source: content.source,
            ident: content.ident.copy()?,
            locator: content.locator.copy()?,
            body: body_of_kind(alloc, kind, &content.body)?,
        },
    })
}

/// The body as reports of a kind carry it.
fn body_of_kind(alloc: Global, kind: Kind, body: &Body) -> Result<Body, Memory>
    ensures carried { IfOk result (λ made. made ≡ body_of_kind kind body.now) }
{
    match kind {
        Kind::Ids => Ok(Body::empty(alloc)),
        Kind::Full => body.copy(),
    }
}
