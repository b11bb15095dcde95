//! Writing records and events, which stand in a report one after another.

ghost use Rattle.std.specs.Prelude.{◌≡◌, ◌++◌, All, List, OnOk};
ghost use Rattle.std.specs.List.{flat_map};
ghost use Rattle.swima_model.specs.Kinds.{body_of_kind};
ghost use Rattle.swima_model.specs.declared.event.Event.{Event as EventValue};
ghost use Rattle.swima_model.specs.declared.record.Record.{Record as RecordValue};
ghost use Rattle.swima_model.specs.declared.report.Kind.{Kind as KindValue};
ghost use Rattle.swima_reports.specs.ReportForm.{MayCarry, body_fields, event_fields, record_fields};
ghost use Rattle.swima_reports.specs.Written.{EventHasRoom, RecordHasRoom, origin_fields, software_fields};
ghost use Rattle.wire_base.specs.Layout.{Field};
ghost use Rattle.wire_base.specs.Written.{Fit, written};

use crate::fields::action_number;
use swima_model::{Body, Event, Kind, Record};
use wire_base::{List, Memory, Octets, put_counted_u16, put_counted_u32, put_u8, put_u24, put_u32};

/// What is written in a report one after another.
pub(crate) trait Writable: Drop + Sized {
    /// The fields of one in a report of the kind.
    ghost entry_fields: { KindValue → Self → List Field };

    /// These have room, and the body is none that is too long.
    ghost has_room: { KindValue → Self → Type 0 };

    /// Puts its octets in a report of the kind at the end.
    fn put(&self, out: &mut Octets, kind: Kind) -> Result<(), Memory>
        ensures appended { OnOk result (out.new ≡ out.old ++ written (entry_fields kind self.now)) }
        ensures room { OnOk result (has_room kind self.now) };
}

/// Puts the octets of all `entries` at the end.
pub(crate) fn put_entries<T: Writable>(
    out: &mut Octets,
    kind: Kind,
    entries: &List<T>,
) -> Result<(), Memory>
    ensures appended { OnOk result (out.new ≡ out.old ++ written (flat_map (T.entry_fields kind) entries.now)) }
    ensures room { OnOk result (All (T.has_room kind) entries.now) }
{
    for entry in entries.as_slice() {
        entry.put(out, kind)?;
    }
    Ok(())
}

impl Writable for Record {
    ghost entry_fields = { record_fields };

    ghost has_room = { RecordHasRoom };

    /// A record (RFC 8412, sections 5.7 and 5.9).
    #[tactic(auto, unfolding(wire_base::specs::Written::written))]
    fn put(&self, out: &mut Octets, kind: Kind) -> Result<(), Memory> {
        put_origin(out, self)?;
        out.push(RESERVED)?;
        put_software(out, kind, self)
    }
}

impl Writable for Event {
    ghost entry_fields = { event_fields };

    ghost has_room = { EventHasRoom };

    /// An event (RFC 8412, sections 5.8 and 5.10).
    #[tactic(auto, unfolding(wire_base::specs::Written::written))]
    fn put(&self, out: &mut Octets, kind: Kind) -> Result<(), Memory> {
        put_u32(out, self.eid)?;
        out.extend(&self.stamp)?;
        put_origin(out, &self.subject)?;
        put_u8(out, action_number(self.action))?;
        put_software(out, kind, &self.subject)
    }
}

/// What is written in an octet that is reserved.
const RESERVED: u8 = 0;

/// Puts the identifier of a record, its data model and the number of its source at the end.
#[tactic(auto, unfolding(wire_base::specs::Written::written))]
fn put_origin(out: &mut Octets, subject: &Record) -> Result<(), Memory>
    ensures appended { OnOk result (out.new ≡ out.old ++ written (origin_fields subject.now)) }
    ensures fits { OnOk result (Fit (origin_fields subject.now)) }
{
    put_u32(out, subject.id)?;
    put_u24(out, subject.content.model.pen)?;
    put_u8(out, subject.content.model.kind)?;
    put_u8(out, subject.content.source)
}

/// Puts the software identifier of a record, its locator and its body at the end.
#[tactic(auto, unfolding(wire_base::specs::Written::written))]
fn put_software(out: &mut Octets, kind: Kind, subject: &Record) -> Result<(), Memory>
    ensures appended { OnOk result (out.new ≡ out.old ++ written (software_fields kind subject.now)) }
    ensures fits { OnOk result (Fit (software_fields kind subject.now)) }
    ensures within { OnOk result (MayCarry kind (body_of_kind kind subject.now.content.body)) }
{
    put_counted_u16(out, subject.content.ident.bytes())?;
    put_counted_u16(out, subject.content.locator.bytes())?;
    put_body(out, kind, &subject.content.body)
}

/// Puts the body of a record at the end, which stands in reports of whole records alone (RFC 8412,
/// sections 5.9 and 5.10).
#[tactic(auto, unfolding(wire_base::specs::Written::written))]
fn put_body(out: &mut Octets, kind: Kind, body: &Body) -> Result<(), Memory>
    ensures appended { OnOk result (out.new ≡ out.old ++ written (body_fields kind body.now)) }
    ensures fits { Fit (body_fields kind body.now) }
    ensures within { MayCarry kind (body_of_kind kind body.now) }
{
    let octets = body.bytes();
    match kind {
        Kind::Ids => Ok(()),
        Kind::Full => put_counted_u32(out, octets),
    }
}
