//! A book through the calls of a desk, from code over any desk.

ghost use Rattle.std.specs.Prelude.{◌≡◌, true};
ghost use Rattle.wire_base.specs.Stamp.{IsStamp};

use crate::books::{STAMP, content, created, request, six_created};
use collector_core::{Answer, Book, BookError, Desk, answers_in_turn};
use std::alloc::Global;
use swima_model::{Content, Point};
use swima_request::{Idents, Request};
use wire_base::{List, is_stamp};

/// Creates a record at any desk.
fn create_at<D: Desk>(desk: &mut D, stamp: &[u8; 20], content: &Content) -> Result<u32, BookError>
    requires takes { D.takes desk.old ≡ true }
    requires stamp { IsStamp stamp.now }
{
    desk.create(stamp, content)
}

/// Replaces the content of a record at any desk.
fn alter_at<D: Desk>(
    desk: &mut D,
    stamp: &[u8; 20],
    id: u32,
    content: &Content,
) -> Result<(), BookError>
    requires takes { D.takes desk.old ≡ true }
    requires stamp { IsStamp stamp.now }
{
    desk.alter(stamp, id, content)
}

/// Deletes a record at any desk.
fn delete_at<D: Desk>(desk: &mut D, stamp: &[u8; 20], id: u32) -> Result<(), BookError>
    requires takes { D.takes desk.old ≡ true }
    requires stamp { IsStamp stamp.now }
{
    desk.delete(stamp, id)
}

/// The point of any desk, and whether something has moved since another.
fn ask_at<D: Desk>(desk: &mut D, after: Point, targets: &Idents) -> (Point, bool) {
    (desk.point(), desk.moved(after, targets))
}

/// Whether the live record has the software identifier.
fn has_ident(book: &Book, id: u32, ident: &[u8]) -> bool {
    match book.record(id) {
        Some(record) => record.content.ident.bytes() == ident,
        None => false,
    }
}

/// Whether a desk gives a record its identifier, and then another content.
fn creates_and_alters(alloc: Global) -> Option<bool> {
    let mut book = created(alloc, &[])?;
    let first = creates(alloc, &mut book) == Some(true);
    let altered = alters(alloc, &mut book) == Some(true);
    Some(first & altered & has_ident(&book, 1, b"b"))
}

/// Whether a new record gets the identifier 1.
fn creates(alloc: Global, book: &mut Book) -> Option<bool> {
    if !is_stamp(&STAMP) {
        return None;
    }
    let one = content(alloc, b"a", 3)?;
    Some(matches!(create_at(book, &STAMP, &one), Ok(1)))
}

/// Whether record 1 gets another content.
fn alters(alloc: Global, book: &mut Book) -> Option<bool> {
    if !is_stamp(&STAMP) {
        return None;
    }
    let other = content(alloc, b"b", 0)?;
    Some(alter_at(book, &STAMP, 1, &other).is_ok())
}

/// Whether a desk deletes a record once.
fn deletes(alloc: Global) -> Option<bool> {
    let mut book = six_created(alloc)?;
    Some(deletes_2_once(&mut book) & (book.count() == 5))
}

/// Whether a desk deletes record 2, and refuses to delete it again.
fn deletes_2_once(book: &mut Book) -> bool {
    if !is_stamp(&STAMP) {
        return false;
    }
    let deleted = delete_at(book, &STAMP, 2).is_ok();
    let again = delete_at(book, &STAMP, 2);
    deleted & matches!(again, Err(BookError::UnknownRecord { id: 2 }))
}

#[test]
fn a_desk_takes_changes(rt: HostRuntime) {
    let altered = creates_and_alters(rt.alloc()) == Some(true);
    let deleted = deletes(rt.alloc()) == Some(true);
    assert!(rt; altered & deleted);
}

const POINT: Point = Point { epoch: 1, eid: 6 };

const EARLIER: Point = Point { epoch: 1, eid: 5 };

/// Whether a desk has its point, and has moved since an earlier one alone.
fn has_its_point(alloc: Global) -> Option<bool> {
    let mut book = six_created(alloc)?;
    let all = List::new(alloc);
    let same = ask_at(&mut book, POINT, &all) == (POINT, false);
    Some(same & (ask_at(&mut book, EARLIER, &all) == (POINT, true)))
}

#[test]
fn a_desk_has_a_point(rt: HostRuntime) {
    assert!(rt; has_its_point(rt.alloc()) == Some(true));
}

/// Whether a report is too large: it has that many octets, and may have that many.
fn is_too_large(answer: &Answer, size: u64, max: u32) -> bool {
    match answer {
        Answer::TooLarge {
            size: has,
            max: most,
        } => (*has, *most) == (size, max),
        _ => false,
    }
}

/// Whether two answers to a request for the last event are that it has 68 octets, and not 67.
fn answers_twice(alloc: Global) -> Option<bool> {
    let mut book = six_created(alloc)?;
    let request = request(6, List::new(alloc));
    Some(answers_too_large_twice(&mut book, &request))
}

/// Whether both answers to a request are that 68 octets are too many for 67.
fn answers_too_large_twice(book: &mut Book, request: &Request) -> bool {
    let (first, second) = answers_in_turn(book, request, request, 67);
    is_too_large(&first, 68, 67) & is_too_large(&second, 68, 67)
}

#[test]
fn a_desk_answers_in_turn(rt: HostRuntime) {
    assert!(rt; answers_twice(rt.alloc()) == Some(true));
}
