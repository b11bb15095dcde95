//! Records that are asked for by their software identifiers.

use crate::books::{alter, content, create, created, delete, request};
use collector_core::{Answer, Book};
use std::alloc::Global;
use swima_model::{Ident, Record, Report};
use swima_request::Idents;
use wire_base::List;

/// Whether the inventory for the software identifiers has the records of these identifiers, in
/// this order.
fn has_exactly(alloc: Global, book: &Book, idents: &[&str], ids: &[u32]) -> bool {
    match targets(alloc, idents) {
        Some(targets) => answers(book, targets, ids),
        None => false,
    }
}

/// The software identifiers.
fn targets(alloc: Global, idents: &[&str]) -> Option<Idents> {
    let mut targets = List::new(alloc);
    for ident in idents {
        push_target(alloc, &mut targets, ident)?;
    }
    Some(targets)
}

fn push_target(alloc: Global, targets: &mut Idents, ident: &str) -> Option<()> {
    targets.push(Ident::new(alloc, ident.as_bytes()).ok()?).ok()
}

/// Whether the inventory for these targets has the records of these identifiers, in this order.
fn answers(book: &Book, targets: Idents, ids: &[u32]) -> bool {
    let request = request(0, targets);
    match &book.answer(&request, u32::MAX) {
        Answer::Report(Report::Inventory { records, .. }) => are(records.as_slice(), ids),
        _ => false,
    }
}

/// Whether the records have these identifiers, in this order.
fn are(records: &[Record], ids: &[u32]) -> bool {
    for (held, id) in records.iter().zip(ids.iter()) {
        if held.id != *id {
            return false;
        }
    }
    records.len() == ids.len()
}

/// Gives a record another software identifier.
fn rename(alloc: Global, book: &mut Book, id: u32, ident: &[u8]) -> Option<()> {
    let other = content(alloc, ident, 5)?;
    alter(book, id, &other)
}

/// Whether each request to a book of the records `a`, `b` and `a` for some software identifiers is
/// answered with what has them by then.
fn follows_changes(alloc: Global, book: &mut Book) -> Option<bool> {
    let first = has_exactly(alloc, book, &["a"], &[1, 3])
        & has_exactly(alloc, book, &["b"], &[2])
        & has_exactly(alloc, book, &["b", "a", "b"], &[1, 2, 3]);
    rename(alloc, book, 2, b"a")?;
    let renamed = has_exactly(alloc, book, &["a"], &[1, 2, 3])
        & has_exactly(alloc, book, &["b"], &[]);
    delete(book, 1)?;
    let last = has_exactly(alloc, book, &["a"], &[2, 3])
        & has_exactly(alloc, book, &["b", "c"], &[])
        & has_exactly(alloc, book, &[], &[2, 3]);
    Some(first & renamed & last & (book.first() == 2))
}

/// What `follows_changes` answers for a new book.
fn new_book_follows_changes(alloc: Global) -> Option<bool> {
    let mut book = created(alloc, &["a", "b", "a"])?;
    follows_changes(alloc, &mut book)
}

#[test]
fn the_inventory_of_targets_follows_changes(rt: HostRuntime) {
    assert!(rt; new_book_follows_changes(rt.alloc()) == Some(true));
}

/// Creates a hundred records with one software identifier, and notes their identifiers.
fn create_hundred(alloc: Global, book: &mut Book, ids: &mut [u32; 100]) -> Option<()> {
    for id in ids.iter_mut() {
        *id = create(alloc, book, b"one")?;
    }
    Some(())
}

/// Whether a hundred records with one software identifier are found by it, and one of them that
/// gets another is found by that one alone.
fn finds_a_hundred(alloc: Global, book: &mut Book) -> Option<bool> {
    let mut ids = [0; 100];
    create_hundred(alloc, book, &mut ids)?;
    let all = has_exactly(alloc, book, &["one"], &ids);
    rename(alloc, book, 50, b"other")?;
    let other = has_exactly(alloc, book, &["other"], &[50])
        & has_exactly(alloc, book, &["other", "one"], &ids);
    let left = without(alloc, &ids, 49)?;
    Some(all & other & has_exactly(alloc, book, &["one"], left.as_slice()))
}

/// The identifiers except the one at a place.
fn without(alloc: Global, ids: &[u32], place: usize) -> Option<Vec<u32>> {
    let mut left = Vec::new(alloc);
    for (at, id) in ids.iter().enumerate() {
        if at != place {
            left.push(*id).ok()?;
        }
    }
    Some(left)
}

/// What `finds_a_hundred` answers for an empty book.
fn new_book_finds_a_hundred(alloc: Global) -> Option<bool> {
    let mut book = created(alloc, &[])?;
    finds_a_hundred(alloc, &mut book)
}

#[test]
fn a_hundred_records_of_one_software_identifier_are_found(rt: HostRuntime) {
    assert!(rt; new_book_finds_a_hundred(rt.alloc()) == Some(true));
}

/// Two software identifiers with one digest.
const ALIKE: [&str; 2] = ["qlpexd", "atppaw"];

/// Whether two software identifiers that the index can't tell apart are told apart in answers, by a
/// book of a record of each.
fn tells_apart(alloc: Global, book: &mut Book) -> Option<bool> {
    let one = has_exactly(alloc, book, &[ALIKE[0]], &[1]);
    let other = has_exactly(alloc, book, &[ALIKE[1]], &[2]);
    let both = has_exactly(alloc, book, &[ALIKE[1], ALIKE[0]], &[1, 2]);
    rename(alloc, book, 1, ALIKE[1].as_bytes())?;
    let renamed = has_exactly(alloc, book, &[ALIKE[1]], &[1, 2]);
    Some(one & other & both & renamed & has_exactly(alloc, book, &[ALIKE[0]], &[]))
}

/// What `tells_apart` answers for a new book.
fn new_book_tells_apart(alloc: Global) -> Option<bool> {
    let mut book = created(alloc, &ALIKE)?;
    tells_apart(alloc, &mut book)
}

#[test]
fn software_identifiers_of_one_digest_are_told_apart(rt: HostRuntime) {
    assert!(rt; new_book_tells_apart(rt.alloc()) == Some(true));
}
