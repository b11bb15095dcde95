//! Reading reports.

ghost use Rattle.std.specs.Prelude.{◌≡◌, ◌+◌, ◌<◌, ◌≤◌, ◌^◌, Ok, IfOk, length};
ghost use Rattle.swima_model.specs.declared.report.Report.{Report as ReportValue};
ghost use Rattle.swima_reports.specs.ReportForm.{ReportFault, ReportForm};
ghost use Rattle.swima_reports.specs.ReportReading.{read_events, read_inventory, read_report};
ghost use Rattle.swima_reports.specs.ReportType.{IsReportType};
ghost use Rattle.wire_base.specs.FirstFault.{OnFault};
ghost use Rattle.wire_base.specs.Reading.{Gives, value_alone, whole};

use crate::attribute_types::{
    SOFTWARE_IDENTIFIER_EVENTS, SOFTWARE_IDENTIFIER_INVENTORY, SOFTWARE_INVENTORY,
};
use crate::entry::{EventReader, FEWEST_EVENT_OCTETS, FEWEST_RECORD_OCTETS, RecordReader};
use crate::fields::{FULFIL, consulted};
use std::alloc::Global;
use swima_model::{Kind, Point, Report};
use wire_base::{Cursor, FieldRefused, read_several};

/// The report that is the value of an attribute of a type from 14 to 17 (RFC 8412, sections 5.7 to
/// 5.10).
///
/// `Fault` comes exactly where the value has no form; its offset is the place of the first fault,
/// counted from `base`, the place of the value's first octet.
pub fn read_report(
    alloc: Global,
    attr_type: u32,
    value: &[u8],
    base: u32,
) -> Result<Report, FieldRefused>
    requires kind { IsReportType attr_type }
    requires places { base + length value.now < 2 ^ 32 }
    ensures found { IfOk result (λ report. ReportForm attr_type report value.now) }
    ensures only { (report : ReportValue) → ReportForm attr_type report value.now
        → Gives (λ read. read) result (Ok report) }
    ensures fault { OnFault result (λ place. ReportFault attr_type base value.now place) }
    ensures exact { Gives (λ read. read) result (whole (read_report attr_type) base value.now) }
{
    by_type(alloc, attr_type, Cursor::new(base, value))
}

/// The report of an attribute of the type.
fn by_type(alloc: Global, attr_type: u32, cursor: Cursor) -> Result<Report, FieldRefused>
    ensures report { Gives (λ read. read) result (value_alone (read_report attr_type cursor.entry)) }
{
    match attr_type {
        SOFTWARE_IDENTIFIER_INVENTORY => inventory(alloc, cursor, Kind::Ids),
        SOFTWARE_IDENTIFIER_EVENTS => events(alloc, cursor, Kind::Ids),
        SOFTWARE_INVENTORY => inventory(alloc, cursor, Kind::Full),
        _ => events(alloc, cursor, Kind::Full),
    }
}

#[tactic(auto, unfolding(crate::specs::ReportReading::read_inventory))]
fn inventory(alloc: Global, mut cursor: Cursor, kind: Kind) -> Result<Report, FieldRefused>
    ensures report { Gives (λ read. read) result (value_alone (read_inventory kind cursor.entry)) }
{
    let flags = cursor.u8()?;
    let count = cursor.u24()?;
    let id = cursor.u32()?;
    let epoch = cursor.u32()?;
    let eid = cursor.u32()?;
    let reader = RecordReader { kind };
    let records = read_several(alloc, &mut cursor, &reader, count, FEWEST_RECORD_OCTETS)?;
    cursor.end()?;
    Ok(Report::Inventory {
        kind,
        fulfil: flags & FULFIL != 0,
        id,
        point: Point { epoch, eid },
        records,
    })
}

#[tactic(auto, unfolding(crate::specs::ReportReading::read_events))]
fn events(alloc: Global, mut cursor: Cursor, kind: Kind) -> Result<Report, FieldRefused>
    ensures report { Gives (λ read. read) result (value_alone (read_events kind cursor.entry)) }
{
    let flags = cursor.u8()?;
    let count = cursor.u24()?;
    let id = cursor.u32()?;
    let epoch = cursor.u32()?;
    let eid = cursor.u32()?;
    let consulted = consulted(&mut cursor, eid)?;
    let reader = EventReader { kind };
    let events = read_several(alloc, &mut cursor, &reader, count, FEWEST_EVENT_OCTETS)?;
    cursor.end()?;
    Ok(Report::Events {
        kind,
        fulfil: flags & FULFIL != 0,
        id,
        point: Point { epoch, eid },
        consulted,
        events,
    })
}
