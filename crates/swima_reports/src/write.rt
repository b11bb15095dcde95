//! Writing reports.

ghost use Rattle.std.specs.Prelude.{◌≡◌, ◌≤◌, ◌<◌, ◌^◌, ◌++◌, ◌∷◌, [], All, IfOk, OnOk, length};
ghost use Rattle.swima_model.specs.Reports.{ConsultsWithin, HasStamps};
ghost use Rattle.swima_model.specs.Size.{report_count, report_size};
ghost use Rattle.swima_model.specs.declared.event.Event.{Event as EventValue};
ghost use Rattle.swima_model.specs.declared.report.Report.TheVariants.{Inventory, Events as Changes};
ghost use Rattle.swima_reports.specs.ReportForm.{ReportForm};
ghost use Rattle.swima_reports.specs.ReportType.{report_type};
ghost use Rattle.swima_reports.specs.Written.{IsWritable, carried, written_report};
ghost use Rattle.wire_base.specs.Stamp.{IsStamp};

use crate::fields::FULFIL;
use crate::writable::put_entries;
use std::alloc::Global;
use swima_model::{Events, Kind, Point, Records, Report, size_of};
use wire_base::{List, Memory, Octets, flag, put_u24, put_u32};

/// The octets of a report: the value of the attribute that carries it, of the type that
/// `report_type` gives (RFC 8412, sections 5.7 to 5.10). The reserved octets and the flags that
/// have no meaning are 0.
///
/// Of a report of kind `Ids` no body is written. There are as many octets as `size_of` says, and
/// `read_report` gives the report back, of kind `Ids` without bodies.
pub fn write_report(alloc: Global, report: &Report) -> Result<Octets, Memory>
    requires count { report_count report.now < 2 ^ 24 }
    requires within { report_size report.now ≤ 16777000 }
    requires stamps { HasStamps report.now }
    requires consulted { ConsultsWithin report.now }
    ensures octets { IfOk result (λ made. made ≡ written_report report.now) }
    ensures size { IfOk result (λ made. length made ≡ report_size report.now) }
    ensures form { IfOk result (λ made. ReportForm (report_type report.now) (carried report.now) made) }
{
    let mut out = List::with_capacity(alloc, size_of(report) as usize)?;
    put_report(&mut out, report)?;
    Ok(out)
}

/// Puts the octets of a report at the end.
fn put_report(out: &mut Octets, report: &Report) -> Result<(), Memory>
    requires count { report_count report.now < 2 ^ 24 }
    requires stamps { HasStamps report.now }
    requires consulted { ConsultsWithin report.now }
    ensures appended { OnOk result (out.new ≡ out.old ++ written_report report.now) }
    ensures writable { OnOk result (IsWritable report.now) }
{
    match report {
        Report::Inventory {
            kind,
            fulfil,
            id,
            point,
            records,
        } => put_inventory(out, *kind, *fulfil, *id, *point, records),
        Report::Events {
            kind,
            fulfil,
            id,
            point,
            consulted,
            events,
        } => put_events(out, *kind, *fulfil, *id, *point, *consulted, events),
    }
}

#[tactic(auto, unfolding(wire_base::specs::Written::written))]
fn put_inventory(
    out: &mut Octets,
    kind: Kind,
    fulfil: bool,
    id: u32,
    point: Point,
    records: &Records,
) -> Result<(), Memory>
    requires count { length records.now < 2 ^ 24 }
    ensures appended { OnOk result (out.new ≡ out.old ++ written_report (Inventory kind fulfil id point records.now)) }
    ensures writable { OnOk result (IsWritable (Inventory kind fulfil id point records.now)) }
{
    out.push(flag(fulfil, FULFIL))?;
    put_u24(out, records.len() as u32)?;
    put_u32(out, id)?;
    put_u32(out, point.epoch)?;
    put_u32(out, point.eid)?;
    put_entries(out, kind, records)
}

#[tactic(auto, unfolding(wire_base::specs::Written::written))]
fn put_events(
    out: &mut Octets,
    kind: Kind,
    fulfil: bool,
    id: u32,
    point: Point,
    consulted: u32,
    events: &Events,
) -> Result<(), Memory>
    requires count { length events.now < 2 ^ 24 }
    requires stamps { All (λ (e : EventValue). IsStamp e.stamp) events.now }
    requires consulted { consulted ≤ point.eid }
    ensures appended { OnOk result (out.new ≡ out.old ++ written_report (Changes kind fulfil id point consulted events.now)) }
    ensures writable { OnOk result (IsWritable (Changes kind fulfil id point consulted events.now)) }
{
    out.push(flag(fulfil, FULFIL))?;
    put_u24(out, events.len() as u32)?;
    put_u32(out, id)?;
    put_u32(out, point.epoch)?;
    put_u32(out, point.eid)?;
    put_u32(out, consulted)?;
    put_entries(out, kind, events)
}
