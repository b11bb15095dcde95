//! What is written of reports that are made by hand, and reports as large as they may be. The
//! values are worked out by hand from the figures of RFC 8412, sections 5.7 to 5.10.

ghost use Rattle.std.specs.Prelude.{◌≡◌, ◌<◌, ◌≤◌, ◌^◌, IfSome, IfOk, length};
ghost use Rattle.swima_model.specs.Reports.{ConsultsWithin, HasStamps};
ghost use Rattle.swima_model.specs.Size.{report_count};
ghost use Rattle.swima_model.specs.declared.event.Event.{Event as EventValue};
ghost use Rattle.wire_base.specs.Stamp.{IsStamp};

use std::alloc::Global;
use std::test::Fail;
use swima_model::{
    Action, Body, Content, Event, Events, Ident, Kind, Locator, LongRefused, Model, Point, Record,
    Records, Report, size_of,
};
use swima_reports::{SOFTWARE_EVENTS, SOFTWARE_INVENTORY, read_report, write_report};
use wire_base::{FieldRefused, Memory, Octets, is_stamp};

/// An inventory with one record.
const ONE: [u8; 33] = [
    0x00, 0, 0, 1, // flags, record count
    0, 0, 0, 5, // request
    0, 0, 0, 7, // epoch
    0, 0, 1, 2, // last event
    0, 0, 2, 0, // record identifier
    0, 0, 9, 4, // data model
    3, 0, // source, reserved
    0, 2, b'a', b'b', // software identifier
    0, 1, b'/', // software locator
];

/// Events with a creation of that record.
const EVENT: [u8; 61] = [
    0x00, 0, 0, 1, // flags, event count
    0, 0, 0, 5, // request
    0, 0, 0, 7, // epoch
    0, 0, 1, 2, // last event
    0, 0, 1, 1, // last consulted event
    0, 0, 1, 0, // event
    b'2', b'0', b'2', b'4', b'-', b'0', b'2', b'-', b'2', b'9', // date
    b'T', b'2', b'3', b':', b'5', b'9', b':', b'6', b'0', b'Z', // time of day
    0, 0, 2, 0, // record identifier
    0, 0, 9, 4, // data model
    3, 1, // source, action
    0, 2, b'a', b'b', // software identifier
    0, 1, b'/', // software locator
];

/// The body of that record, after its length.
const BODY: [u8; 7] = [0, 0, 0, 3, b'x', 0, b'y'];

/// The record in `ONE`, with another identifier and a body.
fn record(alloc: Global, id: u32, body: &[u8]) -> Result<Record, LongRefused> {
    let content = Content {
        model: Model { pen: 9, kind: 4 },
        source: 3,
        ident: Ident::new(alloc, b"ab")?,
        locator: Locator::new(alloc, b"/")?,
        body: Body::new(alloc, body)?,
    };
    Ok(Record { id, content })
}

/// An inventory of a kind, of these records.
fn inventory(kind: Kind, records: Records) -> Report
    ensures records { report_count result ≡ length records }
    ensures stamps { HasStamps result }
    ensures consulted { ConsultsWithin result }
{
    Report::Inventory {
        kind,
        fulfil: false,
        id: 5,
        point: Point { epoch: 7, eid: 258 },
        records,
    }
}

/// The octets of a report; `None` where they are too many, or memory ran out.
fn written(alloc: Global, report: Report) -> Option<Octets>
    requires count { report_count report < 2 ^ 24 }
    requires stamps { HasStamps report }
    requires consulted { ConsultsWithin report }
{
    if size_of(&report) > 16_777_000 {
        return None;
    }
    write_report(alloc, &report).ok()
}

/// Whether the octets are these two parts.
fn are(octets: Option<Octets>, prefix: &[u8], rest: &[u8]) -> bool {
    match octets {
        Some(octets) => octets.as_slice().strip_prefix(prefix) == Some(rest),
        None => false,
    }
}

/// Whether the octets of `ONE` and then these are written of its inventory of the kind.
fn is_inventory_written(alloc: Global, kind: Kind, rest: &[u8]) -> Result<bool, LongRefused> {
    let mut records = Records::new(alloc);
    records.push(record(alloc, 512, b"x\0y")?)?;
    Ok(are(written(alloc, inventory(kind, records)), &ONE, rest))
}

/// Of identifiers the body is left out.
#[test]
fn an_inventory_is_written(rt: HostRuntime) -> Result<(), Fail> {
    let of_ids = is_inventory_written(rt.alloc(), Kind::Ids, &[])?;
    let whole = is_inventory_written(rt.alloc(), Kind::Full, &BODY)?;
    assert!(rt; of_ids & whole);
    Ok(())
}

/// The event in `EVENT`, with another action and a body; `None` where its stamp is none.
fn event(subject: Record, action: Action) -> Option<Event>
    ensures stamp { IfSome result (λ (event : EventValue). IsStamp event.stamp) }
{
    let stamp = *b"2024-02-29T23:59:60Z";
    if !is_stamp(&stamp) {
        return None;
    }
    Some(Event {
        eid: 256,
        stamp,
        action,
        subject,
    })
}

/// What is written of the events in `EVENT`, of a kind, with another action.
fn events_written(alloc: Global, kind: Kind, action: Action) -> Option<Octets> {
    let subject = record(alloc, 512, b"x\0y").ok()?;
    let mut events = Events::new(alloc);
    events.push(event(subject, action)?).ok()?;
    let report = Report::Events {
        kind,
        fulfil: false,
        id: 5,
        point: Point { epoch: 7, eid: 258 },
        consulted: 257,
        events,
    };
    written(alloc, report)
}

/// Whether events of each kind are written of an action of this number.
fn is_action_written(alloc: Global, action: Action, number: u8) -> bool {
    let mut prefix = EVENT;
    prefix[53] = number;
    let of_ids = are(events_written(alloc, Kind::Ids, action), &prefix, &[]);
    of_ids & are(events_written(alloc, Kind::Full, action), &prefix, &BODY)
}

#[test]
fn events_are_written(rt: HostRuntime) {
    let creation = is_action_written(rt.alloc(), Action::Creation, 1);
    let deletion = is_action_written(rt.alloc(), Action::Deletion, 2);
    let alteration = is_action_written(rt.alloc(), Action::Alteration, 3);
    assert!(rt; creation & deletion & alteration);
}

/// The body of that many octets.
fn body_of(alloc: Global, octets: usize) -> Result<Vec<u8>, Memory> {
    let mut body = Vec::new(alloc);
    body.resize(octets, 7)?;
    Ok(body)
}

/// That many records, each with a body of that many octets.
fn records_with(alloc: Global, count: u32, octets: usize) -> Result<Records, LongRefused> {
    let body = body_of(alloc, octets)?;
    let mut records = Records::new(alloc);
    for id in 0..count {
        records.push(record(alloc, id, &body)?)?;
    }
    Ok(records)
}

/// How many octets are written of an inventory of at most 65536 records.
fn octets_written(alloc: Global, kind: Kind, records: Records) -> Option<usize> {
    if records.len() > 65_536 {
        return None;
    }
    let octets = written(alloc, inventory(kind, records))?;
    Some(octets.len())
}

/// Whether the largest report that may be written is written whole.
fn writes_the_largest(alloc: Global) -> Result<bool, LongRefused> {
    let records = records_with(alloc, 24, 699_020)?;
    Ok(octets_written(alloc, Kind::Full, records) == Some(16_777_000))
}

#[test]
fn the_largest_report(rt: HostRuntime) -> Result<(), Fail> {
    assert!(rt; writes_the_largest(rt.alloc())?);
    Ok(())
}

/// Whether 65536 records are written.
fn writes_many(alloc: Global) -> Result<bool, LongRefused> {
    let records = records_with(alloc, 65_536, 1)?;
    Ok(octets_written(alloc, Kind::Ids, records) == Some(1_114_128))
}

#[test]
fn many_records(rt: HostRuntime) -> Result<(), Fail> {
    assert!(rt; writes_many(rt.alloc())?);
    Ok(())
}

/// The place of a value's first octet in its message.
const BASE: u32 = 20;

/// The octets before the length of a body, that length, and that many octets of a body.
fn with_body(alloc: Global, prefix: &[u8], len: u32, octets: usize) -> Result<Vec<u8>, Memory>
    requires prefix { length prefix.now ≤ 61 }
    requires few { octets ≤ 1048577 }
    ensures short { IfOk result (λ made. length made.items ≤ 2 ^ 21) }
{
    let mut made = Vec::from_slice(alloc, prefix)?;
    made.extend_from_slice(&len.to_be_bytes())?;
    made.resize(prefix.len() + 4 + octets, 7)?;
    Ok(made)
}

/// How many octets the body of the first record has that is read of a value.
fn body_read(alloc: Global, attr_type: u32, value: &[u8]) -> Result<usize, FieldRefused>
    requires first { 14 ≤ attr_type }
    requires last { attr_type ≤ 17 }
    requires places { length value.now ≤ 2 ^ 21 }
{
    let report = read_report(alloc, attr_type, value, BASE)?;
    Ok(first_body(&report))
}

/// How many octets the body of the first record has.
fn first_body(report: &Report) -> usize {
    match report {
        Report::Inventory { records, .. } => match records.as_slice() {
            [first, ..] => body_octets(first),
            [] => 0,
        },
        Report::Events { events, .. } => match events.as_slice() {
            [first, ..] => body_octets(&first.subject),
            [] => 0,
        },
    }
}

fn body_octets(record: &Record) -> usize {
    record.content.body.bytes().len()
}

/// Whether a body of 1048576 octets is read, and one that is to have one more is a fault, whether
/// that one is there or not.
fn takes_the_longest_body(alloc: Global, attr_type: u32, prefix: &[u8]) -> Result<bool, Memory>
    requires first { 14 ≤ attr_type }
    requires last { attr_type ≤ 17 }
    requires prefix { length prefix.now ≤ 61 }
{
    let place = BASE + prefix.len() as u32;
    let fault = Err(FieldRefused::Fault { offset: place });
    let longest = with_body(alloc, prefix, 1_048_576, 1_048_576)?;
    let taken = body_read(alloc, attr_type, &longest) == Ok(1_048_576);
    let cut = with_body(alloc, prefix, 1_048_577, 1_048_576)?;
    let cut_refused = body_read(alloc, attr_type, &cut) == fault;
    let longer = with_body(alloc, prefix, 1_048_577, 1_048_577)?;
    Ok(taken & cut_refused & (body_read(alloc, attr_type, &longer) == fault))
}

#[test]
fn the_longest_body(rt: HostRuntime) -> Result<(), Fail> {
    let of_records = takes_the_longest_body(rt.alloc(), SOFTWARE_INVENTORY, &ONE)?;
    let of_events = takes_the_longest_body(rt.alloc(), SOFTWARE_EVENTS, &EVENT)?;
    assert!(rt; of_records & of_events);
    Ok(())
}
