//! Reports as values: their copies, their sizes, and their flag.

ghost use Rattle.std.specs.Prelude.{◌<◌, ◌^◌, IfOk};
ghost use Rattle.swima_model.specs.Size.{report_count};

use std::alloc::Global;
use std::test::Fail;
use swima_model::{
    Action, Body, Content, Event, Events, Ident, Kind, Locator, LongRefused, Model, Point, Record,
    Records, Report, size_of,
};
use wire_base::{List, Memory, TryCopy};

const MODEL: Model = Model {
    pen: 16_777_215,
    kind: 9,
};

const POINT: Point = Point { epoch: 5, eid: 6 };

const STAMP: [u8; 20] = *b"2026-02-03T04:05:06Z";

fn record(alloc: Global, id: u32, ident: &[u8]) -> Result<Record, LongRefused> {
    let content = Content {
        model: MODEL,
        source: 3,
        ident: Ident::new(alloc, ident)?,
        locator: Locator::new(alloc, b"/opt")?,
        body: Body::new(alloc, b"<SoftwareIdentity/>")?,
    };
    Ok(Record { id, content })
}

/// Whether that is the record of this identifier and this software.
fn is_record(record: &Record, id: u32, ident: &[u8]) -> bool {
    let content = &record.content;
    let fixed = (record.id, content.model, content.source) == (id, MODEL, 3);
    let named = (content.ident.bytes() == ident) & (content.locator.bytes() == b"/opt".as_slice());
    fixed & named & (content.body.bytes() == b"<SoftwareIdentity/>".as_slice())
}

fn inventory(alloc: Global) -> Result<Report, LongRefused>
    ensures few { IfOk result (λ report. report_count report < 2 ^ 32) }
{
    let mut records = List::new(alloc);
    records.push(record(alloc, 7, b"first")?)?;
    records.push(record(alloc, 4_294_967_295, b"second")?)?;
    Ok(Report::Inventory {
        kind: Kind::Full,
        fulfil: true,
        id: 11,
        point: POINT,
        records,
    })
}

fn are_records(records: &Records) -> bool {
    match records.as_slice() {
        [first, second] => {
            is_record(first, 7, b"first") & is_record(second, 4_294_967_295, b"second")
        }
        _ => false,
    }
}

fn event(alloc: Global, eid: u32, action: Action) -> Result<Event, LongRefused> {
    Ok(Event {
        eid,
        stamp: STAMP,
        action,
        subject: record(alloc, 7, b"swid")?,
    })
}

/// Whether that is the event of this identifier and this action.
fn is_event(event: &Event, eid: u32, action: Action) -> bool {
    let fixed = (event.eid, event.action, event.stamp) == (eid, action, STAMP);
    fixed & is_record(&event.subject, 7, b"swid")
}

fn events(alloc: Global) -> Result<Report, LongRefused>
    ensures few { IfOk result (λ report. report_count report < 2 ^ 32) }
{
    let mut events = List::new(alloc);
    events.push(event(alloc, 8, Action::Creation)?)?;
    events.push(event(alloc, 9, Action::Alteration)?)?;
    events.push(event(alloc, 10, Action::Deletion)?)?;
    Ok(Report::Events {
        kind: Kind::Ids,
        fulfil: true,
        id: 12,
        point: POINT,
        consulted: 4,
        events,
    })
}

fn are_events(events: &Events) -> bool {
    match events.as_slice() {
        [first, second, third] => {
            is_event(first, 8, Action::Creation)
                & is_event(second, 9, Action::Alteration)
                & is_event(third, 10, Action::Deletion)
        }
        _ => false,
    }
}

/// Whether a copy of the report is the one of `inventory`.
fn is_copied_inventory(report: Report) -> Result<bool, Memory> {
    Ok(match report.copy()? {
        Report::Inventory {
            kind,
            fulfil,
            id,
            point,
            records,
        } => (kind, fulfil, id, point) == (Kind::Full, true, 11, POINT) && are_records(&records),
        Report::Events { .. } => false,
    })
}

/// Whether a copy of the report is the one of `events`.
fn is_copied_events(report: Report) -> Result<bool, Memory> {
    Ok(match report.copy()? {
        Report::Inventory { .. } => false,
        Report::Events {
            kind,
            fulfil,
            id,
            point,
            consulted,
            events,
        } => {
            let head = (kind, fulfil, id, point) == (Kind::Ids, true, 12, POINT);
            head && (consulted == 4) && are_events(&events)
        }
    })
}

#[test]
fn a_copy_of_a_report_equals_it(rt: HostRuntime) -> Result<(), Fail> {
    let of_records = is_copied_inventory(inventory(rt.alloc())?)?;
    let of_events = is_copied_events(events(rt.alloc())?)?;
    assert!(rt; of_records & of_events);
    Ok(())
}

/// Whether a copy of a content, of which there is no report, equals it.
fn is_copied_content(record: Record) -> Result<bool, Memory> {
    let content = record.content.copy()?;
    Ok(is_record(&Record { id: 7, content }, 7, b"swid"))
}

/// Whether copies of parts that own no memory equal them.
fn plain_parts_are_copied() -> Result<bool, Memory> {
    let parts = (MODEL.copy()?, Kind::Ids.copy()?, POINT.copy()?);
    let action = Action::Alteration.copy()?;
    Ok((parts == (MODEL, Kind::Ids, POINT)) & (action == Action::Alteration))
}

#[test]
fn parts_of_reports_are_copied(rt: HostRuntime) -> Result<(), Fail> {
    let content = is_copied_content(record(rt.alloc(), 7, b"swid")?)?;
    let plain = plain_parts_are_copied()?;
    assert!(rt; content & plain);
    Ok(())
}

/// How many octets the value of the attribute has that carries the report.
fn size(report: Report) -> u64
    requires few { report_count report < 2 ^ 32 }
{
    size_of(&report)
}

/// The octets of what a record holds, and of the record in reports of each kind.
fn record_sizes(record: Record) -> (u64, u64, u64) {
    (
        record.content.octets(),
        record.size(Kind::Ids),
        record.size(Kind::Full),
    )
}

/// The octets of an event in reports of each kind.
fn event_sizes(event: Event) -> (u64, u64) {
    (event.size(Kind::Ids), event.size(Kind::Full))
}

#[test]
fn sizes_are_those_of_the_layouts(rt: HostRuntime) -> Result<(), Fail> {
    let alloc = rt.alloc();
    let of_record = record_sizes(record(alloc, 7, b"swid")?)
        == (4 + 4 + 19, 14 + 4 + 4, 18 + 4 + 4 + 19);
    let of_event = event_sizes(event(alloc, 8, Action::Creation)?) == (38 + 4 + 4, 42 + 4 + 4 + 19);
    let of_records = size(inventory(alloc)?) == 16 + 18 + 5 + 4 + 19 + 18 + 6 + 4 + 19;
    let of_events = size(events(alloc)?) == 20 + 3 * (38 + 4 + 4);
    assert!(rt; of_record & of_event & of_records & of_events);
    Ok(())
}

/// Whether the report fulfils a subscription.
fn fulfils(report: Report) -> bool {
    match report {
        Report::Inventory { fulfil, .. } | Report::Events { fulfil, .. } => fulfil,
    }
}

/// Whether an inventory without the flag has it once it is to fulfil.
fn inventory_fulfils(alloc: Global) -> bool {
    let inventory = Report::Inventory {
        kind: Kind::Full,
        fulfil: false,
        id: 11,
        point: POINT,
        records: List::new(alloc),
    };
    fulfils(inventory.fulfilling())
}

/// Whether events without the flag have it once they are to fulfil.
fn events_fulfil(alloc: Global) -> bool {
    let events = Report::Events {
        kind: Kind::Ids,
        fulfil: false,
        id: 12,
        point: POINT,
        consulted: 4,
        events: List::new(alloc),
    };
    fulfils(events.fulfilling())
}

#[test]
fn a_fulfilling_report_has_the_flag_set(rt: HostRuntime) {
    let of_records = inventory_fulfils(rt.alloc());
    let of_events = events_fulfil(rt.alloc());
    assert!(rt; of_records & of_events);
}
