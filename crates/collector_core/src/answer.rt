//! Answers to requests (RFC 8412, sections 3.5, 3.7 and 5.6 to 5.10).

ghost use Rattle.std.specs.Prelude.{◌≡◌, ◌≤◌, IfOk, length};
ghost use Rattle.swima_model.specs.declared.report.Point.{Point};
ghost use Rattle.collector_core.specs.Answering.{consulted_before, front_fits, if_fits, longest, told};
ghost use Rattle.collector_core.specs.BookAnswer.{inventory_of};
ghost use Rattle.collector_core.specs.Borrowed.{values};

use crate::report_content::{events_of_kind, records_of_kind, size_of_lent};
use std::alloc::Global;
use swima_model::{Event, Point, Record, Report};
use swima_request::Request;
use wire_base::Memory;

/// What a collector answers to a request.
#[derive(Debug, Drop)]
pub enum Answer {
    /// A report.
    Report(Report),
    /// The report is too large. Where events were asked for, it is that of the first alone.
    TooLarge {
        /// How many octets the report has.
        size: u64,
        /// How many it may have at most.
        max: u32,
    },
    /// Out of memory.
    Memory,
}

/// The inventory of these records, or its size where that passes the most octets.
pub(crate) fn inventory(
    alloc: Global,
    request: &Request,
    point: Point,
    records: &[&Record],
    most: u32,
) -> Result<Answer, Memory>
    requires few { length records.now ≤ 65536 }
    ensures answer { IfOk result (λ answer. answer ≡ if_fits most (inventory_of request.now point (values records.now))) }
{
    let size = 16 + size_of_lent(request.kind, records);
    if size > most as u64 {
        return Ok(Answer::TooLarge { size, max: most });
    }
    Ok(Answer::Report(Report::Inventory {
        kind: request.kind,
        fulfil: false,
        id: request.id,
        point,
        records: records_of_kind(alloc, request.kind, records)?,
    }))
}

/// As many of these events from the start as fit, or the size of the report of the first alone.
pub(crate) fn told(
    alloc: Global,
    request: &Request,
    point: Point,
    events: &[&Event],
    most: u32,
) -> Result<Answer, Memory>
    requires few { length events.now ≤ 4096 }
    ensures answer { IfOk result (λ answer. answer ≡ if_fits most (told request.now point (values events.now) most)) }
{
    let count = fitting(request, events, most).max(1).min(events.len());
    let front = &events[..count];
    let size = 20 + size_of_lent(request.kind, front);
    if size > most as u64 {
        return Ok(Answer::TooLarge { size, max: most });
    }
    Ok(Answer::Report(Report::Events {
        kind: request.kind,
        fulfil: false,
        id: request.id,
        point,
        consulted: consulted_before(&events[count..], point.eid),
        events: events_of_kind(alloc, request.kind, front)?,
    }))
}

/// How many of these events fit, from the start.
fn fitting(request: &Request, events: &[&Event], most: u32) -> usize
    ensures count { (point : Point)
        → result ≡ longest (front_fits request.now point (values events.now) most) (length (values events.now)) }
{
    let mut size = 20;
    let mut count = 0;
    for event in events {
        size += event.size(request.kind);
        if size > most as u64 {
            return count;
        }
        count += 1;
    }
    count
}

/// The event identifier before the first event that is left out, or the last where none is.
fn consulted_before(left_out: &[&Event], last: u32) -> u32
    ensures consulted { result ≡ consulted_before (values left_out.now) last }
{
    match left_out.first() {
        None => last,
        Some(event) => event.eid.saturating_sub(1),
    }
}
