//! Records that are deleted one after another, and the others beside them.

use crate::books::{STAMP, create, delete, six_created};
use collector_core::{Book, BookError};
use std::alloc::Global;
use wire_base::is_stamp;

/// Deletes a record, and says whether a second deletion is refused since it is unknown by then.
fn deletes_once(book: &mut Book, id: u32) -> Option<bool> {
    delete(book, id)?;
    if !is_stamp(&STAMP) {
        return None;
    }
    match book.delete(&STAMP, id) {
        Err(BookError::UnknownRecord { id: unknown }) => Some(unknown == id),
        _ => Some(false),
    }
}

/// Whether the records of a book are those of these identifiers, of the identifiers from 1 to 8.
fn has_exactly(book: &Book, ids: &[u32]) -> bool {
    for id in 1..9 {
        if book.record(id).is_some() != ids.contains(&id) {
            return false;
        }
    }
    book.count() as usize == ids.len()
}

/// Whether each other record of six stays, wherever one is deleted, and a new record gets the next
/// identifier.
fn others_stay(alloc: Global, book: &mut Book) -> Option<bool> {
    let middle = deletes_once(book, 3)? & has_exactly(book, &[1, 2, 4, 5, 6]);
    let first = deletes_once(book, 1)? & has_exactly(book, &[2, 4, 5, 6]);
    let added = create(alloc, book, b"g")? == 7;
    let more = added & has_exactly(book, &[2, 4, 5, 6, 7]);
    let last = deletes_once(book, 7)? & has_exactly(book, &[2, 4, 5, 6]);
    Some(middle & first & more & last)
}

/// What `others_stay` answers for a new book.
fn others_stay_in_new_book(alloc: Global) -> Option<bool> {
    let mut book = six_created(alloc)?;
    others_stay(alloc, &mut book)
}

#[test]
fn the_others_stay_where_records_are_deleted(rt: HostRuntime) {
    assert!(rt; others_stay_in_new_book(rt.alloc()) == Some(true));
}
