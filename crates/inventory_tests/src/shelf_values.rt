//! What tests put into books, and how they look at answers. `None` comes where a call refused, or
//! memory ran out.

ghost use Rattle.std.specs.Prelude.{◌≡◌, IfSome, true};

use crate::books::{STAMP, request};
use book_lock::{Pass, Shelf};
use collector_core::{Answer, Book, Edit};
use std::alloc::Global;
use std::sync::Wait;
use swima_model::{Body, Content, Ident, Locator, Model, Point, Report};
use swima_request::Request;
use wire_base::{List, is_stamp};

/// A shelf of a book at epoch 7 without records, which keeps 400 events, and its pass.
pub(crate) fn opened(alloc: Global) -> Option<(Shelf, Pass)>
    ensures here { IfSome result (λ made. made.1.shelf ≡ made.0) }
    ensures may { IfSome result (λ made. made.1.may_change ≡ true) }
{
    let book = Book::new(alloc, 7, 400, &[]).ok()?;
    match Shelf::open(alloc, book) {
        Ok(made) => Some(made),
        Err(_) => None,
    }
}

/// Creates a record in the turn of a pass.
pub(crate) fn create<R: Wait>(
    wait: &R,
    shelf: &Shelf,
    pass: &mut Pass,
    content: &Content,
) -> Option<u32>
    requires here { pass.old.shelf ≡ shelf.now }
    requires may { pass.old.may_change ≡ true }
    ensures here { pass.new.shelf ≡ shelf.now }
    ensures may { pass.new.may_change ≡ true }
{
    if !is_stamp(&STAMP) {
        return None;
    }
    let creation = Edit::Create {
        stamp: &STAMP,
        content,
    };
    match shelf.change(wait, pass, creation) {
        Ok(changed) => Some(changed.id),
        Err(_) => None,
    }
}

/// A content with this software identifier, from this source.
pub(crate) fn content(alloc: Global, ident: &[u8], source: u8) -> Option<Content> {
    Some(Content {
        model: Model { pen: 0, kind: 2 },
        source,
        ident: Ident::new(alloc, ident).ok()?,
        locator: Locator::empty(alloc),
        body: Body::empty(alloc),
    })
}

/// A request for the inventory of all records.
pub(crate) fn inventory(alloc: Global) -> Request {
    request(0, List::new(alloc))
}

/// How many records of a source an inventory has.
pub(crate) fn count_from(answer: &Answer, source: u8) -> Option<u32> {
    match answer {
        Answer::Report(Report::Inventory { records, .. }) => {
            let mut count: u32 = 0;
            for record in records.as_slice() {
                if record.content.source == source {
                    count = count.saturating_add(1);
                }
            }
            Some(count)
        }
        _ => None,
    }
}

/// Whether a book of epoch 7 has this last event and that many records.
pub(crate) fn is_at(book: &Book, eid: u32, count: u32) -> bool {
    (book.point() == Point { epoch: 7, eid }) & (book.count() == count)
}
