//! Records and events, which stand in a report one after another.

ghost use Rattle.std.specs.Prelude.{◌≡◌};
ghost use Rattle.swima_reports.specs.ReportReading.{read_event, read_origin, read_record, read_software, record_from};
ghost use Rattle.wire_base.specs.Reading.{Gives, GivesExactly};

use crate::fields::{action, body, bounded, stamp};
use std::alloc::Global;
use swima_model::{Body, Content, Event, Ident, Kind, Locator, Model, Record};
use wire_base::{Cursor, FieldReader, FieldRefused};

/// The fewest octets of a record.
pub(crate) const FEWEST_RECORD_OCTETS: usize = 14;

/// Reads a record of a report of the kind.
#[derive(Drop)]
pub(crate) struct RecordReader {
    /// The kind of the report.
    pub(crate) kind: Kind,
}

impl FieldReader for RecordReader {
    type Value = Record;

    ghost reading = { λ reader. read_record reader.kind };

    /// A record (RFC 8412, sections 5.7 and 5.9).
    #[tactic(auto, unfolding(crate::specs::ReportReading::read_record))]
    fn read(&self, alloc: Global, cursor: &mut Cursor) -> Result<Record, FieldRefused> {
        let origin = read_origin(cursor)?;
        cursor.octets(1)?;
        let software = read_software(alloc, cursor, self.kind)?;
        Ok(record_from(origin, software))
    }
}

/// The fewest octets of an event.
pub(crate) const FEWEST_EVENT_OCTETS: usize = 38;

/// Reads an event of a report of the kind.
#[derive(Drop)]
pub(crate) struct EventReader {
    /// The kind of the report.
    pub(crate) kind: Kind,
}

impl FieldReader for EventReader {
    type Value = Event;

    ghost reading = { λ reader. read_event reader.kind };

    /// An event (RFC 8412, sections 5.8 and 5.10).
    #[tactic(auto, unfolding(crate::specs::ReportReading::read_event))]
    fn read(&self, alloc: Global, cursor: &mut Cursor) -> Result<Event, FieldRefused> {
        let eid = cursor.u32()?;
        let stamp = stamp(cursor)?;
        let origin = read_origin(cursor)?;
        let action = action(cursor)?;
        let software = read_software(alloc, cursor, self.kind)?;
        Ok(Event {
            eid,
            stamp,
            action,
            subject: record_from(origin, software),
        })
    }
}

/// What a record begins with, in a report of records or of events.
#[derive(Clone, Copy, Debug)]
pub(crate) struct Origin {
    /// The record identifier.
    id: u32,
    /// The data model of the body.
    model: Model,
    /// The number of the source that gave the record.
    source: u8,
}

/// What a record ends with, in a report of records or of events.
#[derive(Debug, Drop)]
pub(crate) struct Software {
    /// The software identifier.
    ident: Ident,
    /// The software locator.
    locator: Locator,
    /// The body; empty in reports of identifiers only.
    body: Body,
}

/// Reads what a record begins with.
#[tactic(auto, unfolding(crate::specs::ReportReading::read_origin))]
fn read_origin(cursor: &mut Cursor) -> Result<Origin, FieldRefused>
    ensures origin { GivesExactly (λ read. (read, cursor.new)) result (read_origin cursor.old) }
{
    let id = cursor.u32()?;
    let pen = cursor.u24()?;
    let kind = cursor.u8()?;
    let source = cursor.u8()?;
    Ok(Origin {
        id,
        model: Model { pen, kind },
        source,
    })
}

/// Reads what a record ends with.
#[tactic(auto, unfolding(crate::specs::ReportReading::read_software))]
fn read_software(alloc: Global, cursor: &mut Cursor, kind: Kind) -> Result<Software, FieldRefused>
    ensures software { Gives (λ read. (read, cursor.new)) result (read_software kind cursor.old) }
{
    let ident = bounded(alloc, cursor)?;
    let locator = bounded(alloc, cursor)?;
    let body = body(alloc, cursor, kind)?;
    Ok(Software {
        ident,
        locator,
        body,
    })
}

/// The record that is made of both.
fn record_from(origin: Origin, software: Software) -> Record
    ensures record { result ≡ record_from origin software }
{
    Record {
        id: origin.id,
        content: Content {
            model: origin.model,
            source: origin.source,
            ident: software.ident,
            locator: software.locator,
            body: software.body,
        },
    }
}
