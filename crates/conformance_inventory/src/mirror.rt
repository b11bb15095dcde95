//! A mirror and the reports that it takes, one after another.

use crate::fields::{five, four};
use conformance_words::{action_of, kind_of, kind_word, push_text, word_list};
use std::alloc::Global;
use swima_model::{
    Action, Body, Content, Event, Events, Ident, Kind, Locator, Model, Point, Record, Records,
    Report,
};
use validator_core::{Mirror, Taken, Want};
use wire_base::List;

/// The most records and events of a report in a row.
const MOST: usize = 100;

/// `mirror new KIND`, `mirror inventory KIND EPOCH EVENT RECORDS` or
/// `mirror events KIND EPOCH EVENT CONSULTED EVENTS`, each event `EVENT:ACTION:RECORD`: the answer
/// to the report, and the mirror then. `mirror source PLACE`: the source of a record.
///
/// A record is its identifier, then what it has of these: `+sN` the source, `+pN` and `+mN` the two
/// numbers of the data model, `+iTEXT` the software identifier, `+lTEXT` the locator, `+bTEXT` the
/// body.
pub fn step(alloc: Global, mirror: &mut Mirror, words: &str) -> Option<String> {
    let (word, rest) = words.split_once(' ')?;
    match word {
        "new" => begin(alloc, mirror, kind_of(rest)?),
        "inventory" => inventory(alloc, mirror, rest),
        "events" => events(alloc, mirror, rest),
        "source" => source(alloc, mirror, rest.parse().ok()?),
        _ => None,
    }
}

/// Begins a mirror anew.
fn begin(alloc: Global, mirror: &mut Mirror, kind: Kind) -> Option<String> {
    *mirror = Mirror::new(alloc, kind);
    let kind = kind_word(mirror.kind());
    let state = state_text(alloc, mirror)?;
    format!(in alloc; "{kind}; {state}").ok()
}

/// Takes an inventory of records.
fn inventory(alloc: Global, mirror: &mut Mirror, words: &str) -> Option<String> {
    let (kind, epoch, eid, records) = four(words)?;
    let point = point_of(epoch, eid)?;
    let taken = take_inventory(mirror, kind_of(kind)?, point, records_of(alloc, records)?)?;
    answer_text(alloc, taken, mirror)
}

/// The answer to an inventory that is lent; `None` where it has too many records for a row.
fn take_inventory(
    mirror: &mut Mirror,
    kind: Kind,
    point: Point,
    records: Records,
) -> Option<Taken> {
    if records.len() > MOST {
        return None;
    }
    Some(mirror.take(&Report::Inventory {
        kind,
        fulfil: false,
        id: 1,
        point,
        records,
    }))
}

/// Takes events.
fn events(alloc: Global, mirror: &mut Mirror, words: &str) -> Option<String> {
    let (kind, epoch, eid, consulted, events) = five(words)?;
    let kind = kind_of(kind)?;
    let point = point_of(epoch, eid)?;
    let consulted = consulted.parse().ok()?;
    let taken = take_events(mirror, kind, point, consulted, events_of(alloc, events)?)?;
    answer_text(alloc, taken, mirror)
}

/// The answer to events that are given up; `None` where they are too many for a row.
fn take_events(
    mirror: &mut Mirror,
    kind: Kind,
    point: Point,
    consulted: u32,
    events: Events,
) -> Option<Taken> {
    if events.len() > MOST {
        return None;
    }
    Some(mirror.take_owned(Report::Events {
        kind,
        fulfil: false,
        id: 1,
        point,
        consulted,
        events,
    }))
}

/// The source of the record at the place: unless a row says another, the event identifier of the
/// creation or alteration that carried it, or 0.
fn source(alloc: Global, mirror: &Mirror, place: u32) -> Option<String> {
    let source = mirror.record_at(place)?.content.source;
    format!(in alloc; "{source}").ok()
}

fn point_of(epoch: &str, eid: &str) -> Option<Point> {
    Some(Point {
        epoch: epoch.parse().ok()?,
        eid: eid.parse().ok()?,
    })
}

/// Records, from the source 0 unless they say another.
fn records_of(alloc: Global, list: &str) -> Option<Records> {
    let words = word_list(alloc, list)?;
    let mut records = List::new(alloc);
    push_records(alloc, &mut records, &words)?;
    Some(records)
}

fn push_records(alloc: Global, records: &mut Records, words: &[&str]) -> Option<()> {
    for word in words {
        records.push(record_of(alloc, word, 0)?).ok()?;
    }
    Some(())
}

fn events_of(alloc: Global, list: &str) -> Option<Events> {
    let words = word_list(alloc, list)?;
    let mut events = List::new(alloc);
    push_events(alloc, &mut events, &words)?;
    Some(events)
}

fn push_events(alloc: Global, events: &mut Events, words: &[&str]) -> Option<()> {
    for word in words {
        events.push(event_of(alloc, word)?).ok()?;
    }
    Some(())
}

/// The event of a word. Its record has the event identifier as its source, and that of a deletion
/// 0, unless the word says another.
fn event_of(alloc: Global, word: &str) -> Option<Event> {
    let (eid, rest) = word.split_once(':')?;
    let (action, record) = rest.split_once(':')?;
    let eid: u32 = eid.parse().ok()?;
    let action = action_of(action)?;
    let source = match action {
        Action::Deletion => 0,
        Action::Creation | Action::Alteration => (eid % 256) as u8,
    };
    Some(Event {
        eid,
        stamp: *b"2026-02-03T04:05:06Z",
        action,
        subject: record_of(alloc, record, source)?,
    })
}

/// The record of a word, from this source unless the word says another.
fn record_of(alloc: Global, word: &str, source: u8) -> Option<Record> {
    let mut parts = word.split('+');
    let id: u32 = parts.next()?.parse().ok()?;
    let mut content = Content {
        model: Model { pen: 9, kind: 1 },
        source,
        ident: Ident::empty(alloc),
        locator: Locator::empty(alloc),
        body: Body::empty(alloc),
    };
    set_parts(alloc, &mut content, word)?;
    Some(Record { id, content })
}

/// Sets what the parts of a word after the first say.
fn set_parts(alloc: Global, content: &mut Content, word: &str) -> Option<()> {
    let mut parts = word.split('+');
    parts.next()?;
    for part in parts {
        set_part(alloc, content, part)?;
    }
    Some(())
}

/// Sets what a part of a word says.
fn set_part(alloc: Global, content: &mut Content, part: &str) -> Option<()> {
    let (field, text) = part.split_at_checked(1)?;
    match field {
        "s" | "p" | "m" => set_number(content, field, text.parse().ok()?),
        _ => set_octets(alloc, content, field, text.as_bytes()),
    }
}

fn set_number(content: &mut Content, field: &str, number: u32) -> Option<()> {
    let Model { pen, kind } = content.model;
    match field {
        "s" => content.source = u8::try_from(number).ok()?,
        "p" => content.model = model_of(number, kind)?,
        _ => content.model = model_of(pen, u8::try_from(number).ok()?)?,
    }
    Some(())
}

fn set_octets(alloc: Global, content: &mut Content, field: &str, octets: &[u8]) -> Option<()> {
    match field {
        "i" => content.ident = Ident::new(alloc, octets).ok()?,
        "l" => content.locator = Locator::new(alloc, octets).ok()?,
        "b" => content.body = Body::new(alloc, octets).ok()?,
        _ => return None,
    }
    Some(())
}

/// The data model of two numbers, where the first is below 2^24.
fn model_of(pen: u32, kind: u8) -> Option<Model> {
    if pen > 0xff_ffff {
        return None;
    }
    Some(Model { pen, kind })
}

/// The answer, and the mirror then.
fn answer_text(alloc: Global, taken: Taken, mirror: &Mirror) -> Option<String> {
    let answer = taken_text(alloc, taken)?;
    let state = state_text(alloc, mirror)?;
    format!(in alloc; "{answer}; {state}").ok()
}

/// The name of an answer, and its numbers; `None` where memory ran out.
pub fn taken_text(alloc: Global, taken: Taken) -> Option<String> {
    match taken {
        Taken::WrongKind => String::from_str(alloc, "wrong kind").ok(),
        Taken::Stale => String::from_str(alloc, "stale").ok(),
        Taken::Doubled { id } => format!(in alloc; "doubled {id}").ok(),
        Taken::Large { count, octets } => format!(in alloc; "large {count} {octets}").ok(),
        Taken::Adopted => String::from_str(alloc, "adopted").ok(),
        Taken::OtherEpoch { have: None, got } => format!(in alloc; "other epoch none {got}").ok(),
        Taken::OtherEpoch {
            have: Some(have),
            got,
        } => format!(in alloc; "other epoch {have} {got}").ok(),
        Taken::Gap { have, got } => format!(in alloc; "gap {have} {got}").ok(),
        Taken::Contradiction { eid } => format!(in alloc; "contradiction {eid}").ok(),
        Taken::Advanced { from, to } => format!(in alloc; "advanced {from} {to}").ok(),
        Taken::Memory => None,
    }
}

/// The point of the mirror, the identifiers of its records, whether its mark is set, and what it
/// wants.
pub fn state_text(alloc: Global, mirror: &Mirror) -> Option<String> {
    let mut out = point_text(alloc, mirror.point())?;
    push_state(alloc, &mut out, mirror)?;
    Some(out)
}

fn point_text(alloc: Global, point: Option<Point>) -> Option<String> {
    match point {
        None => String::from_str(alloc, "no point; records").ok(),
        Some(Point { epoch, eid }) => format!(in alloc; "point {epoch} {eid}; records").ok(),
    }
}

fn push_state(alloc: Global, out: &mut String, mirror: &Mirror) -> Option<()> {
    push_ids(alloc, out, mirror)?;
    out.push_str(if mirror.off() { "; marked" } else { "" })
        .ok()?;
    push_text(out, want_text(alloc, mirror.want()))
}

fn want_text(alloc: Global, want: Want) -> Option<String> {
    match want {
        Want::Full => String::from_str(alloc, "; wants an inventory").ok(),
        Want::EventsFrom(eid) => format!(in alloc; "; wants events from {eid}").ok(),
        Want::Spent => String::from_str(alloc, "; wants nothing").ok(),
    }
}

fn push_ids(alloc: Global, out: &mut String, mirror: &Mirror) -> Option<()> {
    for place in 0..mirror.count() {
        let id = mirror.record_at(place)?.id;
        push_text(out, format!(in alloc; " {id}").ok())?;
    }
    Some(())
}
