//! A book whose log is full.

ghost use Rattle.std.specs.Prelude.{◌≤◌};
ghost use Rattle.wire_base.specs.Stamp.{IsStamp};

use crate::trouble::Trouble;
use collector_core::{Answer, Book};
use std::alloc::Global;
use swima_model::{Body, Content, Ident, Kind, Locator, Model};
use swima_request::{Idents, Request};
use wire_base::{List, is_stamp};

/// How many events the book keeps.
pub(crate) const KEPT: u32 = 4096;

/// How many events are asked for.
const EVENTS: u32 = 100;

/// The moment of each change.
pub(crate) const STAMP: [u8; 20] = *b"2026-02-03T04:05:06Z";

/// The body of each record at first.
const BODY: [u8; 64] = [0; 64];

/// The body of a record that was altered.
const OTHER_BODY: [u8; 65] = [0; 65];

/// How many software identifiers a request with targets has.
const TARGETS: u32 = 100;

/// What is asked of the book.
#[derive(Clone, Copy)]
pub(crate) enum Work {
    /// The inventory of all records.
    Answer,
    /// The inventory of the records of 100 software identifiers.
    Targets,
    /// The latest 100 events.
    Events,
    /// An alteration of the first record.
    Change,
    /// An alteration of the first record that gives it another software identifier.
    Rename,
    /// A creation of one more record.
    Create,
    /// A deletion of the first record, and a creation of another.
    First,
    /// A deletion of the record in the middle, and a creation of another.
    Middle,
    /// A deletion of the last record, and a creation of another.
    Last,
    /// A deletion of the first record.
    Delete,
    /// A deletion of the first record of the upper half.
    Upper,
}

impl Work {
    /// The work of this name.
    pub(crate) fn from_name(name: &str) -> Result<Self, Trouble> {
        match name {
            "answer" => Ok(Work::Answer),
            "targets" => Ok(Work::Targets),
            "events" => Ok(Work::Events),
            "change" => Ok(Work::Change),
            "rename" => Ok(Work::Rename),
            "create" => Ok(Work::Create),
            "first" => Ok(Work::First),
            "middle" => Ok(Work::Middle),
            "last" => Ok(Work::Last),
            "delete" => Ok(Work::Delete),
            "upper" => Ok(Work::Upper),
            _ => Err(Trouble::Words),
        }
    }
}

/// Does the work that many times on a book of that many records, at least 1. It gives the number of
/// records or events of all answers, or the number of changes.
pub(crate) fn done(alloc: Global, records: u32, work: Work, times: u32) -> Result<u64, Trouble> {
    let mut book = full_book(alloc, records)?;
    done_on(alloc, &mut book, work, times)
}

/// Does the work that many times on a book.
fn done_on(alloc: Global, book: &mut Book, work: Work, times: u32) -> Result<u64, Trouble> {
    let count = book.count();
    match work {
        Work::Answer => latest_answers(alloc, book, 0, times),
        Work::Targets => targeted_answers(alloc, book, times),
        Work::Events => latest_answers(alloc, book, KEPT - EVENTS + 1, times),
        Work::Change => alterations(alloc, book, times),
        Work::Rename => renames(alloc, book, times),
        Work::Create => creations(alloc, book, times),
        Work::First => exchanges(alloc, book, 1, times),
        Work::Middle => exchanges(alloc, book, count / 2 + 1, times),
        Work::Last => exchanges(alloc, book, count, times),
        Work::Delete => deletions(book, 1, times),
        Work::Upper => deletions(book, count / 2 + 1, times),
    }
}

/// A book of that many records whose log is full.
pub(crate) fn full_book(alloc: Global, records: u32) -> Result<Book, Trouble> {
    let mut book = book_of(alloc, records, KEPT)?;
    alterations(alloc, &mut book, KEPT)?;
    Ok(book)
}

/// A book of that many records, which keeps that many events. Each record has a software identifier
/// of its own.
pub(crate) fn book_of(alloc: Global, records: u32, kept: u32) -> Result<Book, Trouble>
    requires some { 1 ≤ kept }
    requires few { kept ≤ 4096 }
{
    let mut base = List::new(alloc);
    push_contents(alloc, &mut base, records)?;
    Ok(Book::new(alloc, 1, kept as usize, base.as_slice())?)
}

/// Pushes that many contents, each with a software identifier of its own.
fn push_contents(alloc: Global, base: &mut List<Content>, records: u32) -> Result<(), Trouble> {
    for number in 0..records {
        let ident = ident_of(alloc, number)?;
        base.push(content_with(alloc, ident, &BODY)?)?;
    }
    Ok(())
}

/// The software identifier of this number.
fn ident_of(alloc: Global, number: u32) -> Result<Ident, Trouble> {
    let Ok(name) = format!(in alloc; "example.com__org.example.software_{number}") else {
        return Err(Trouble::Memory);
    };
    Ok(Ident::new(alloc, name.as_bytes())?)
}

/// A content with this body.
pub(crate) fn content(alloc: Global, body: &[u8]) -> Result<Content, Trouble> {
    let ident = Ident::new(alloc, b"example.com__org.example.software_1.0")?;
    content_with(alloc, ident, body)
}

/// A content with this software identifier and body.
fn content_with(alloc: Global, ident: Ident, body: &[u8]) -> Result<Content, Trouble> {
    let locator = Locator::new(alloc, b"/opt/example/software")?;
    Ok(Content {
        model: Model { pen: 0, kind: 2 },
        source: 1,
        ident,
        locator,
        body: Body::new(alloc, body)?,
    })
}

/// Alters the first record that many times, and gives how often that was done.
pub(crate) fn alterations(alloc: Global, book: &mut Book, times: u32) -> Result<u64, Trouble> {
    let other = content(alloc, &OTHER_BODY)?;
    alter_times(book, &other, times)
}

/// Gives the first record a content that many times, and gives how often that was done.
fn alter_times(book: &mut Book, content: &Content, times: u32) -> Result<u64, Trouble> {
    let mut done: u64 = 0;
    for _ in 0..times {
        alter(book, content)?;
        done = done.saturating_add(1);
    }
    Ok(done)
}

/// Alters the first record.
fn alter(book: &mut Book, content: &Content) -> Result<(), Trouble> {
    if !is_stamp(&STAMP) {
        return Err(Trouble::Book);
    }
    Ok(book.alter(&STAMP, 1, content)?)
}

/// Gives the first record another software identifier that many times, and gives how often that was
/// done.
fn renames(alloc: Global, book: &mut Book, times: u32) -> Result<u64, Trouble> {
    let one = content(alloc, &BODY)?;
    let other = content_with(alloc, ident_of(alloc, u32::MAX)?, &BODY)?;
    alter_in_turns(book, &one, &other, times)
}

/// Gives the first record one of two contents in turns, the second at first, that many times, and
/// gives how often that was done.
fn alter_in_turns(
    book: &mut Book,
    one: &Content,
    other: &Content,
    times: u32,
) -> Result<u64, Trouble> {
    let mut done: u64 = 0;
    for turn in 0..times {
        alter(book, if turn % 2 == 0 { other } else { one })?;
        done = done.saturating_add(1);
    }
    Ok(done)
}

/// Creates that many records, and gives how many.
fn creations(alloc: Global, book: &mut Book, times: u32) -> Result<u64, Trouble> {
    let other = content(alloc, &BODY)?;
    create_times(book, &other, times)
}

/// Creates that many records of this content, and gives how many.
fn create_times(book: &mut Book, content: &Content, times: u32) -> Result<u64, Trouble> {
    for _ in 0..times {
        create(book, content)?;
    }
    Ok(times as u64)
}

/// Creates a record of this content.
fn create(book: &mut Book, content: &Content) -> Result<(), Trouble> {
    if !is_stamp(&STAMP) {
        return Err(Trouble::Book);
    }
    book.create(&STAMP, content)?;
    Ok(())
}

/// Deletes that many records, of the identifier `first` and of those above it, and gives how many.
fn deletions(book: &mut Book, first: u32, times: u32) -> Result<u64, Trouble> {
    for before in 0..times {
        delete(book, first.saturating_add(before))?;
    }
    Ok(times as u64)
}

/// Deletes the record of this identifier.
fn delete(book: &mut Book, id: u32) -> Result<(), Trouble> {
    if !is_stamp(&STAMP) {
        return Err(Trouble::Book);
    }
    Ok(book.delete(&STAMP, id)?)
}

/// Deletes a record and creates another, that many times, and gives how often that was done. The
/// first that is deleted has this identifier, and each further one the identifier above, so that
/// each stands at the place of the first.
fn exchanges(alloc: Global, book: &mut Book, first: u32, times: u32) -> Result<u64, Trouble> {
    let other = content(alloc, &BODY)?;
    exchange_from(book, first, &other, times)
}

/// Deletes a record and creates one of this content, that many times.
fn exchange_from(
    book: &mut Book,
    first: u32,
    content: &Content,
    times: u32,
) -> Result<u64, Trouble> {
    let mut done: u64 = 0;
    for further in 0..times {
        exchange(book, first.saturating_add(further), content)?;
        done = done.saturating_add(1);
    }
    Ok(done)
}

/// Deletes the record of this identifier, and creates another.
fn exchange(book: &mut Book, id: u32, content: &Content) -> Result<(), Trouble> {
    delete(book, id)?;
    create(book, content)
}

/// How many records or events that many answers have, of whole records and from this event on.
pub(crate) fn latest_answers(
    alloc: Global,
    book: &Book,
    earliest: u32,
    times: u32,
) -> Result<u64, Trouble> {
    let request = latest(alloc, earliest);
    answers(book, &request, times)
}

/// How many records that many answers to a request for 100 software identifiers have.
fn targeted_answers(alloc: Global, book: &Book, times: u32) -> Result<u64, Trouble> {
    let request = targeted(alloc, book.count())?;
    answers(book, &request, times)
}

/// How many records or events that many answers to a request have.
fn answers(book: &Book, request: &Request, times: u32) -> Result<u64, Trouble> {
    let mut counted: u64 = 0;
    for _ in 0..times {
        counted = counted.saturating_add(count_of(book.answer(request, u32::MAX))?);
    }
    Ok(counted)
}

/// A request for the whole records of 100 software identifiers, of that many records.
fn targeted(alloc: Global, records: u32) -> Result<Request, Trouble> {
    let mut request = latest(alloc, 0);
    push_targets(alloc, &mut request.targets, records / TARGETS)?;
    Ok(request)
}

/// Pushes 100 software identifiers of records that many apart.
fn push_targets(alloc: Global, targets: &mut Idents, apart: u32) -> Result<(), Trouble> {
    for turn in 0..TARGETS {
        targets.push(ident_of(alloc, turn.saturating_mul(apart))?)?;
    }
    Ok(())
}

/// A request for whole records, from this event on.
pub(crate) fn latest(alloc: Global, earliest: u32) -> Request {
    Request {
        clear: false,
        subscribe: false,
        kind: Kind::Full,
        id: 1,
        earliest,
        targets: List::new(alloc),
    }
}

/// How many records or events the answer has.
pub(crate) fn count_of(answer: Answer) -> Result<u64, Trouble> {
    match &answer {
        Answer::Report(report) => Ok(report.count() as u64),
        Answer::TooLarge { .. } => Err(Trouble::Book),
        Answer::Memory => Err(Trouble::Memory),
    }
}
