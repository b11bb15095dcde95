//! A book, its changes, and what it answers.

ghost use Rattle.std.specs.Prelude.{◌≤◌};

use crate::fields::{five, three};
use collector_core::{Answer, Book, BookError, Changed, Edit};
use conformance_words::{kind_of, record_text, report_text, word_list};
use std::alloc::Global;
use swima_model::{Body, Content, Ident, Locator, Model, Point};
use swima_request::{Idents, Request};
use wire_base::{List, is_stamp};

/// The moment of each change.
const STAMP: [u8; 20] = *b"2026-02-03T04:05:06Z";

/// The most octets of a body in a row.
const MOST: usize = 4096;

/// A step of a book.
///
/// - `book new EPOCH ROOM CONTENTS`, each content `IDENTIFIER:OCTETS` with the octets of its body;
/// - `book create CONTENT`, `book alter ID CONTENT`, `book delete ID`, `book epoch EPOCH`,
///   `book trim EVENT`: what the change gives, and the book then;
/// - `book edit` before one of these words: the same change, by `apply`;
/// - `book record ID`; `book moved EPOCH EVENT IDENTIFIERS`;
/// - `book ask KIND ID EARLIEST MOST IDENTIFIERS`: the answer to a request.
pub fn step(alloc: Global, book: &mut Book, words: &str) -> Option<String> {
    let (word, rest) = words.split_once(' ')?;
    match word {
        "new" => begin(alloc, book, rest),
        "edit" => edit(alloc, book, rest),
        "record" => record(alloc, book, rest.parse().ok()?),
        "moved" => moved(alloc, book, rest),
        "ask" => ask(alloc, book, rest),
        word => change(alloc, book, word, rest),
    }
}

/// Begins a book anew.
fn begin(alloc: Global, book: &mut Book, words: &str) -> Option<String> {
    let (epoch, room, contents) = three(words)?;
    let epoch: u32 = epoch.parse().ok()?;
    let room: usize = room.parse().ok()?;
    if epoch == 0 || room == 0 || room > 4096 {
        return None;
    }
    *book = new_book(alloc, epoch, room, contents)?;
    state_text(alloc, book)
}

/// A book of these contents at an epoch, which keeps that many events.
fn new_book(alloc: Global, epoch: u32, room: usize, list: &str) -> Option<Book>
    requires epoch { 1 ≤ epoch }
    requires some { 1 ≤ room }
    requires few { room ≤ 4096 }
{
    let base = contents_of(alloc, list)?;
    Book::new(alloc, epoch, room, base.as_slice()).ok()
}

fn contents_of(alloc: Global, list: &str) -> Option<Vec<Content>> {
    let words = word_list(alloc, list)?;
    let mut contents = Vec::new(alloc);
    push_contents(alloc, &mut contents, &words)?;
    Some(contents)
}

fn push_contents(alloc: Global, contents: &mut Vec<Content>, words: &[&str]) -> Option<()> {
    for word in words {
        contents.push(content_of(alloc, word)?).ok()?;
    }
    Some(())
}

/// The content of a word, from source 3.
fn content_of(alloc: Global, word: &str) -> Option<Content> {
    let (ident, octets) = word.split_once(':')?;
    let octets: usize = octets.parse().ok()?;
    if octets > MOST {
        return None;
    }
    let ident = Ident::new(alloc, ident.as_bytes()).ok()?;
    Some(Content {
        model: Model { pen: 0, kind: 2 },
        source: 3,
        ident,
        locator: Locator::empty(alloc),
        body: zeros(alloc, octets)?,
    })
}

/// A body of that many octets.
fn zeros(alloc: Global, octets: usize) -> Option<Body> {
    let mut body = Vec::new(alloc);
    body.resize(octets, 0).ok()?;
    Body::new(alloc, body.as_slice()).ok()
}

/// Makes a change by the call of its name.
pub fn change(alloc: Global, book: &mut Book, word: &str, rest: &str) -> Option<String> {
    match word {
        "create" => created_text(alloc, create(alloc, book, rest)?, book),
        "alter" => done_text(alloc, alter(alloc, book, rest)?, book),
        "delete" => done_text(alloc, delete(book, rest.parse().ok()?)?, book),
        "epoch" => done_text(alloc, book.begin_epoch(rest.parse().ok()?), book),
        "trim" => done_text(alloc, book.trim(rest.parse().ok()?), book),
        _ => None,
    }
}

fn create(alloc: Global, book: &mut Book, word: &str) -> Option<Result<u32, BookError>> {
    if !is_stamp(&STAMP) {
        return None;
    }
    let content = content_of(alloc, word)?;
    Some(book.create(&STAMP, &content))
}

fn alter(alloc: Global, book: &mut Book, words: &str) -> Option<Result<(), BookError>> {
    if !is_stamp(&STAMP) {
        return None;
    }
    let (id, word) = words.split_once(' ')?;
    let id: u32 = id.parse().ok()?;
    let content = content_of(alloc, word)?;
    Some(book.alter(&STAMP, id, &content))
}

fn delete(book: &mut Book, id: u32) -> Option<Result<(), BookError>> {
    if !is_stamp(&STAMP) {
        return None;
    }
    Some(book.delete(&STAMP, id))
}

/// Makes a change that is a value.
fn edit(alloc: Global, book: &mut Book, words: &str) -> Option<String> {
    let (word, rest) = words.split_once(' ')?;
    let changed = match word {
        "create" => apply_creation(alloc, book, rest)?,
        "alter" => apply_alteration(alloc, book, rest)?,
        word => apply_short(book, word, rest.parse().ok()?)?,
    };
    changed_text(alloc, changed, book)
}

fn apply_creation(
    alloc: Global,
    book: &mut Book,
    word: &str,
) -> Option<Result<Changed, BookError>> {
    let stamp = &STAMP;
    if !is_stamp(stamp) {
        return None;
    }
    let content = content_of(alloc, word)?;
    Some(book.apply(Edit::Create {
        stamp,
        content: &content,
    }))
}

fn apply_alteration(
    alloc: Global,
    book: &mut Book,
    words: &str,
) -> Option<Result<Changed, BookError>> {
    let stamp = &STAMP;
    if !is_stamp(stamp) {
        return None;
    }
    let (id, word) = words.split_once(' ')?;
    let id: u32 = id.parse().ok()?;
    let content = content_of(alloc, word)?;
    Some(book.apply(Edit::Alter {
        stamp,
        id,
        content: &content,
    }))
}

/// Makes a change that has no content.
fn apply_short(book: &mut Book, word: &str, number: u32) -> Option<Result<Changed, BookError>> {
    let stamp = &STAMP;
    if !is_stamp(stamp) {
        return None;
    }
    match word {
        "delete" => Some(book.apply(Edit::Delete { stamp, id: number })),
        "epoch" => Some(book.apply(Edit::BeginEpoch { epoch: number })),
        "trim" => Some(book.apply(Edit::Trim { first: number })),
        _ => None,
    }
}

fn changed_text(alloc: Global, changed: Result<Changed, BookError>, book: &Book) -> Option<String> {
    match changed {
        Ok(Changed { point, id }) => {
            let (epoch, eid) = (point.epoch, point.eid);
            let state = state_text(alloc, book)?;
            format!(in alloc; "changed {id} at {epoch} {eid}; {state}").ok()
        }
        Err(error) => error_text(alloc, error, book),
    }
}

fn done_text(alloc: Global, done: Result<(), BookError>, book: &Book) -> Option<String> {
    match done {
        Ok(()) => {
            let state = state_text(alloc, book)?;
            format!(in alloc; "done; {state}").ok()
        }
        Err(error) => error_text(alloc, error, book),
    }
}

fn error_text(alloc: Global, error: BookError, book: &Book) -> Option<String> {
    let state = state_text(alloc, book)?;
    format!(in alloc; "{error}; {state}").ok()
}

fn created_text(alloc: Global, created: Result<u32, BookError>, book: &Book) -> Option<String> {
    match created {
        Ok(id) => {
            let state = state_text(alloc, book)?;
            format!(in alloc; "record {id}; {state}").ok()
        }
        Err(error) => error_text(alloc, error, book),
    }
}

/// The point of the book, the first event that it keeps, and how many records are live.
fn state_text(alloc: Global, book: &Book) -> Option<String> {
    let Point { epoch, eid } = book.point();
    let (first, count) = (book.first(), book.count());
    format!(in alloc; "point {epoch} {eid}, first {first}, {count} records").ok()
}

fn record(alloc: Global, book: &Book, id: u32) -> Option<String> {
    match book.record(id) {
        None => String::from_str(alloc, "none").ok(),
        Some(record) => record_text(alloc, record),
    }
}

fn moved(alloc: Global, book: &Book, words: &str) -> Option<String> {
    let (epoch, eid, targets) = three(words)?;
    let after = Point {
        epoch: epoch.parse().ok()?,
        eid: eid.parse().ok()?,
    };
    let targets = idents_of(alloc, targets)?;
    let moved = book.moved(after, &targets);
    String::from_str(alloc, if moved { "yes" } else { "no" }).ok()
}

/// The software identifiers between commas; a `-` is none. An identifier may be empty.
fn idents_of(alloc: Global, list: &str) -> Option<Idents> {
    let words = word_list(alloc, list)?;
    let mut idents = List::new(alloc);
    push_idents(alloc, &mut idents, &words)?;
    Some(idents)
}

fn push_idents(alloc: Global, idents: &mut Idents, words: &[&str]) -> Option<()> {
    for word in words {
        idents.push(Ident::new(alloc, word.as_bytes()).ok()?).ok()?;
    }
    Some(())
}

fn ask(alloc: Global, book: &Book, words: &str) -> Option<String> {
    let answer = answered(alloc, book, words)?;
    match &answer {
        Answer::Report(report) => report_text(alloc, report),
        Answer::TooLarge { size, max } => large_text(alloc, *size, *max),
        Answer::Memory => None,
    }
}

fn large_text(alloc: Global, size: u64, max: u32) -> Option<String> {
    format!(in alloc; "too large {size} {max}").ok()
}

/// The answer to the request of these words.
fn answered(alloc: Global, book: &Book, words: &str) -> Option<Answer> {
    let (kind, id, earliest, most, targets) = five(words)?;
    let kind = kind_of(kind)?;
    let id = id.parse().ok()?;
    let earliest = earliest.parse().ok()?;
    let most = most.parse().ok()?;
    let targets = idents_of(alloc, targets)?;
    let request = Request {
        clear: false,
        subscribe: false,
        kind,
        id,
        earliest,
        targets,
    };
    Some(book.answer(&request, most))
}
