//! The texts of reports and of what they hold.

use crate::words::digits_of;
use std::alloc::Global;
use std::str::from_utf8;
use swima_model::{Action, Event, Kind, Record, Report};
use swima_reports::report_type;

/// The word for a kind of report.
pub fn kind_word(kind: Kind) -> &'static str {
    match kind {
        Kind::Ids => "ids",
        Kind::Full => "full",
    }
}

/// The kind that the word names.
pub fn kind_of(word: &str) -> Option<Kind> {
    match word {
        "ids" => Some(Kind::Ids),
        "full" => Some(Kind::Full),
        _ => None,
    }
}

/// The type of the attribute that carries the report; its kind, its flag, and the numbers at its
/// head; and its records or events.
pub fn report_text(alloc: Global, report: &Report) -> Option<String> {
    let attr_type = report_type(report);
    match report {
        Report::Inventory {
            kind,
            fulfil,
            id,
            point,
            records,
        } => {
            let mut out = head_text(alloc, attr_type, *kind, *fulfil)?;
            let (epoch, eid) = (point.epoch, point.eid);
            let text = format!(in alloc; "{id} {epoch} {eid}").ok()?;
            out.push_str(text.as_str()).ok()?;
            push_records(alloc, &mut out, records.as_slice())?;
            Some(out)
        }
        Report::Events {
            kind,
            fulfil,
            id,
            point,
            consulted,
            events,
        } => {
            let mut out = head_text(alloc, attr_type, *kind, *fulfil)?;
            let (epoch, eid) = (point.epoch, point.eid);
            let text = format!(in alloc; "{id} {epoch} {eid} {consulted}").ok()?;
            out.push_str(text.as_str()).ok()?;
            push_events(alloc, &mut out, events.as_slice())?;
            Some(out)
        }
    }
}

fn head_text(alloc: Global, attr_type: u32, kind: Kind, fulfil: bool) -> Option<String> {
    let kind = kind_word(kind);
    let flag = if fulfil { "fulfils" } else { "-" };
    format!(in alloc; "{attr_type} {kind} {flag} ").ok()
}

fn push_records(alloc: Global, out: &mut String, records: &[Record]) -> Option<()> {
    for record in records {
        let text = record_text(alloc, record)?;
        out.push_str("; ").ok()?;
        out.push_str(text.as_str()).ok()?;
    }
    Some(())
}

fn push_events(alloc: Global, out: &mut String, events: &[Event]) -> Option<()> {
    for event in events {
        let text = event_text(alloc, event)?;
        out.push_str("; ").ok()?;
        out.push_str(text.as_str()).ok()?;
    }
    Some(())
}

/// The identifier of a record, its data model, its source, its software identifier, its locator and
/// its body.
pub fn record_text(alloc: Global, record: &Record) -> Option<String> {
    let content = &record.content;
    let ident = digits_of(alloc, content.ident.bytes())?;
    let locator = digits_of(alloc, content.locator.bytes())?;
    let body = digits_of(alloc, content.body.bytes())?;
    let (id, pen, kind, source) = (
        record.id,
        content.model.pen,
        content.model.kind,
        content.source,
    );
    format!(in alloc; "{id} {pen}/{kind} {source} {ident} {locator} {body}").ok()
}

/// The identifier of an event, its stamp, its action and its record.
fn event_text(alloc: Global, event: &Event) -> Option<String> {
    let record = record_text(alloc, &event.subject)?;
    let action = action_word(event.action);
    let stamp = from_utf8(event.stamp.as_slice()).ok()?;
    let eid = event.eid;
    format!(in alloc; "{eid} {stamp} {action} {record}").ok()
}

/// The action that the word names.
pub fn action_of(word: &str) -> Option<Action> {
    match word {
        "creation" => Some(Action::Creation),
        "deletion" => Some(Action::Deletion),
        "alteration" => Some(Action::Alteration),
        _ => None,
    }
}

/// The word for an action.
fn action_word(action: Action) -> &'static str {
    match action {
        Action::Creation => "creation",
        Action::Deletion => "deletion",
        Action::Alteration => "alteration",
    }
}
