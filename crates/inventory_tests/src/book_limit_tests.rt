//! How many records, octets and events a book may have.

use crate::books::{STAMP, alter, content, create, is_at};
use collector_core::{Book, BookError};
use std::alloc::Global;
use swima_model::Content;
use wire_base::{TryCopy, is_stamp};

/// That many contents, each with that many octets of a body.
fn contents(alloc: Global, count: usize, octets: usize) -> Option<Vec<Content>> {
    let one = content(alloc, b"", octets)?;
    let mut contents = Vec::with_capacity(alloc, count).ok()?;
    push_copies(&mut contents, &one, count)?;
    Some(contents)
}

/// Pushes that many copies of a content.
fn push_copies(contents: &mut Vec<Content>, one: &Content, count: usize) -> Option<()> {
    for _ in 0..count {
        contents.push(one.copy().ok()?).ok()?;
    }
    Some(())
}

/// A book of that many contents, each with that many octets of a body.
fn book_of(alloc: Global, count: usize, octets: usize) -> Option<Book> {
    let base = contents(alloc, count, octets)?;
    Book::new(alloc, 1, 4, base.as_slice()).ok()
}

/// Why no book is made of that many contents, each with that many octets of a body, and one of the
/// identifier `a`.
fn base_refused(alloc: Global, count: usize, octets: usize) -> Option<BookError> {
    let mut base = contents(alloc, count, octets)?;
    push_a(alloc, &mut base)?;
    Book::new(alloc, 1, 4, base.as_slice()).err()
}

/// Pushes a content of the identifier `a`.
fn push_a(alloc: Global, contents: &mut Vec<Content>) -> Option<()> {
    contents.push(content(alloc, b"a", 0)?).ok()
}

/// Why a book does not create a record of the identifier `a`, without a body.
fn creation_refused(alloc: Global, book: &mut Book) -> Option<BookError> {
    if !is_stamp(&STAMP) {
        return None;
    }
    let one = content(alloc, b"a", 0)?;
    book.create(&STAMP, &one).err()
}

/// Why record 1 of a book does not get the identifier `a` and that many octets of a body.
fn alteration_refused(alloc: Global, book: &mut Book, octets: usize) -> Option<BookError> {
    if !is_stamp(&STAMP) {
        return None;
    }
    let other = content(alloc, b"a", octets)?;
    book.alter(&STAMP, 1, &other).err()
}

/// What a book of 65536 records answers to one more, and whether it is as it was.
fn of_most_records(alloc: Global) -> Option<(BookError, bool)> {
    let mut book = book_of(alloc, 65_536, 0)?;
    let refused = creation_refused(alloc, &mut book)?;
    Some((refused, is_at(&book, 0, 1, 65_536)))
}

#[test]
fn a_book_has_so_many_records(rt: HostRuntime) {
    let full = BookError::RecordsFull { count: 65_536 };
    let of_book = of_most_records(rt.alloc()) == Some((full, true));
    let of_base = base_refused(rt.alloc(), 65_536, 0) == Some(full);
    assert!(rt; of_book & of_base);
}

/// What a book of 268435456 octets answers to a record of one more, and to a body in which there is
/// one more, and whether it is as it was.
fn of_most_octets(alloc: Global) -> Option<(BookError, BookError, bool)> {
    let mut book = book_of(alloc, 256, 1_048_576)?;
    refuses_octets(alloc, &mut book)
}

/// What `of_most_octets` answers for its book.
fn refuses_octets(alloc: Global, book: &mut Book) -> Option<(BookError, BookError, bool)> {
    let more = creation_refused(alloc, book)?;
    let longer = alteration_refused(alloc, book, 1_048_576)?;
    Some((more, longer, is_at(book, 0, 1, 256)))
}

#[test]
fn a_book_has_so_many_octets(rt: HostRuntime) {
    let more = BookError::BytesFull {
        held: 268_435_456,
        given: 1,
    };
    let longer = BookError::BytesFull {
        held: 267_386_880,
        given: 1_048_577,
    };
    assert!(rt; of_most_octets(rt.alloc()) == Some((more, longer, true)));
}

#[test]
fn a_base_has_so_many_octets(rt: HostRuntime) {
    let whole = BookError::BytesFull {
        held: 0,
        given: 268_435_457,
    };
    assert!(rt; base_refused(rt.alloc(), 256, 1_048_576) == Some(whole));
}

/// Alters record 1 that many times.
fn alter_times(alloc: Global, book: &mut Book, times: u32) -> Option<()> {
    let other = content(alloc, b"b", 0)?;
    alter_to(book, &other, times)
}

/// Alters record 1 that many times, to one content.
fn alter_to(book: &mut Book, content: &Content, times: u32) -> Option<()> {
    for _ in 0..times {
        alter(book, 1, content)?;
    }
    Some(())
}

/// Whether a book that keeps 4096 events keeps the first that many, and then the last.
fn keeps_4096_events(alloc: Global) -> Option<bool> {
    let mut book = Book::new(alloc, 1, 4096, &[]).ok()?;
    fills_and_passes(alloc, &mut book)
}

/// What `keeps_4096_events` answers for its book.
fn fills_and_passes(alloc: Global, book: &mut Book) -> Option<bool> {
    create(alloc, book, b"a")?;
    alter_times(alloc, book, 4095)?;
    let all = is_at(book, 4096, 1, 1);
    alter_times(alloc, book, 4)?;
    Some(all & is_at(book, 4100, 5, 1))
}

#[test]
fn a_log_of_4096_events_keeps_as_many(rt: HostRuntime) {
    assert!(rt; keeps_4096_events(rt.alloc()) == Some(true));
}
