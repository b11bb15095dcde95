//! A pass through the calls of a desk, from code over any desk.

ghost use Rattle.std.specs.Prelude.{◌≡◌, true};

use crate::books::STAMP;
use crate::shelf_values::{content, count_from, inventory, opened};
use book_lock::Clerk;
use collector_core::{BookError, Desk};
use std::alloc::Global;
use std::sync::Wait;
use swima_model::{Content, Point};
use swima_request::Request;
use wire_base::is_stamp;

/// Whether any desk that takes changes creates the record 1.
fn creates_at<D: Desk>(desk: &mut D, content: &Content) -> bool
    requires takes { D.takes desk.old ≡ true }
{
    if !is_stamp(&STAMP) {
        return false;
    }
    desk.create(&STAMP, content) == Ok(1)
}

/// Whether any desk that takes changes alters the record 1.
fn alters_at<D: Desk>(desk: &mut D, content: &Content) -> bool
    requires takes { D.takes desk.old ≡ true }
{
    if !is_stamp(&STAMP) {
        return false;
    }
    desk.alter(&STAMP, 1, content) == Ok(())
}

/// Whether any desk that takes changes answers so to a deletion of the record 1.
fn deletes_at<D: Desk>(desk: &mut D, answer: Result<(), BookError>) -> bool
    requires takes { D.takes desk.old ≡ true }
{
    if !is_stamp(&STAMP) {
        return false;
    }
    desk.delete(&STAMP, 1) == answer
}

/// Whether any desk is at event 3, has moved since event 2, and has no record of source 0.
fn reads_at<D: Desk>(desk: &mut D, request: &Request) -> bool {
    let point = desk.point();
    let moved = desk.moved(Point { epoch: 7, eid: 2 }, &request.targets);
    let answer = desk.answer(request, u32::MAX);
    (point == Point { epoch: 7, eid: 3 }) & moved & (count_from(&answer, 0) == Some(0))
}

/// The answer where no record 1 is live.
const UNKNOWN: Result<(), BookError> = Err(BookError::UnknownRecord { id: 1 });

/// Whether a clerk creates a record, alters it, deletes it, and deletes it no second time.
fn changes<R: Wait>(clerk: &mut Clerk<'_, R>, one: &Content, other: &Content) -> Option<bool> {
    if !clerk.pass.may_change() {
        return None;
    }
    let created = creates_at(clerk, one);
    if !clerk.pass.may_change() {
        return None;
    }
    let altered = alters_at(clerk, other);
    if !clerk.pass.may_change() {
        return None;
    }
    let deleted = deletes_at(clerk, Ok(()));
    if !clerk.pass.may_change() {
        return None;
    }
    Some(created & altered & deleted & deletes_at(clerk, UNKNOWN))
}

/// Whether a clerk changes and reads as a book does, and hands its pass back.
fn clerk_works<R: Wait>(
    mut clerk: Clerk<'_, R>,
    alloc: Global,
    one: &Content,
    other: &Content,
) -> bool {
    let changed = changes(&mut clerk, one, other) == Some(true);
    let read = reads_at(&mut clerk, &inventory(alloc));
    let pass = clerk.done();
    changed & read & pass.may_change()
}

/// What `clerk_works` answers for the clerk of a new shelf.
fn new_clerk_works<R: Wait>(wait: &R, alloc: Global) -> Option<bool> {
    let one = content(alloc, b"a", 0)?;
    let other = content(alloc, b"b", 0)?;
    let (shelf, pass) = opened(alloc)?;
    Some(clerk_works(shelf.clerk(wait, pass), alloc, &one, &other))
}

#[test]
fn a_clerk_is_a_desk(rt: HostRuntime) {
    assert!(rt; new_clerk_works(&rt, rt.alloc()) == Some(true));
}
