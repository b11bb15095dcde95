//! Books that tests begin with. `None` comes where a call refused, or memory ran out.

use collector_core::Book;
use std::alloc::Global;
use swima_model::{Body, Content, Ident, Kind, Locator, Model, Point};
use swima_request::{Idents, Request};
use wire_base::is_stamp;

/// The moment of each change.
pub(crate) const STAMP: [u8; 20] = *b"2026-02-03T04:05:06Z";

/// A content with that many octets of a body.
pub(crate) fn content(alloc: Global, ident: &[u8], octets: usize) -> Option<Content> {
    let ident = Ident::new(alloc, ident).ok()?;
    Some(Content {
        model: Model { pen: 0, kind: 2 },
        source: 3,
        ident,
        locator: Locator::empty(alloc),
        body: zeros(alloc, octets)?,
    })
}

/// A body of that many octets.
fn zeros(alloc: Global, octets: usize) -> Option<Body> {
    let mut body = Vec::new(alloc);
    body.resize(octets, 0).ok()?;
    Body::new(alloc, body.as_slice()).ok()
}

/// Creates a record of this identifier, with a body of five octets.
pub(crate) fn create(alloc: Global, book: &mut Book, ident: &[u8]) -> Option<u32> {
    if !is_stamp(&STAMP) {
        return None;
    }
    let content = content(alloc, ident, 5)?;
    book.create(&STAMP, &content).ok()
}

/// Alters a record.
pub(crate) fn alter(book: &mut Book, id: u32, content: &Content) -> Option<()> {
    if !is_stamp(&STAMP) {
        return None;
    }
    book.alter(&STAMP, id, content).ok()
}

/// Deletes a record.
pub(crate) fn delete(book: &mut Book, id: u32) -> Option<()> {
    if !is_stamp(&STAMP) {
        return None;
    }
    book.delete(&STAMP, id).ok()
}

/// A book at epoch 1 that keeps four events, in which records of these identifiers were created.
pub(crate) fn created(alloc: Global, idents: &[&str]) -> Option<Book> {
    let mut book = Book::new(alloc, 1, 4, &[]).ok()?;
    create_all(alloc, &mut book, idents)?;
    Some(book)
}

/// Creates records of these identifiers.
fn create_all(alloc: Global, book: &mut Book, idents: &[&str]) -> Option<()> {
    for ident in idents {
        create(alloc, book, ident.as_bytes())?;
    }
    Some(())
}

/// A book at epoch 1 that keeps four events, with six records that were created.
pub(crate) fn six_created(alloc: Global) -> Option<Book> {
    created(alloc, &["a", "b", "c", "d", "e", "f"])
}

/// A request for whole records, from this event on, or for those of these software identifiers.
pub(crate) fn request(earliest: u32, targets: Idents) -> Request {
    Request {
        clear: false,
        subscribe: false,
        kind: Kind::Full,
        id: 5,
        earliest,
        targets,
    }
}

/// Whether a book of epoch 1 has this last event, keeps events from this first on, and has that
/// many live records.
pub(crate) fn is_at(book: &Book, eid: u32, first: u32, count: u32) -> bool {
    let point = book.point() == Point { epoch: 1, eid };
    point & ((book.first(), book.count()) == (first, count))
}
