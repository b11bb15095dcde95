//! One pass, and one beside it that may not change.

ghost use Rattle.std.specs.Prelude.{◌≡◌, true};

use crate::books::STAMP;
use crate::shelf_values::{content, count_from, create, inventory, is_at, opened};
use book_lock::{Closed, Pass, Shelf};
use collector_core::{BookError, Changed, Edit};
use std::alloc::Global;
use std::sync::Wait;
use swima_model::{Content, Point};
use wire_base::is_stamp;

/// Whether the book that a shelf left has record 1 alone, by its first event.
fn has_one(closed: &Closed) -> bool {
    is_at(&closed.book, 1, 1) & closed.book.record(1).is_some()
}

/// Whether a deletion of record 9 is refused.
fn refuses<R: Wait>(wait: &R, shelf: &Shelf, pass: &mut Pass) -> bool
    requires here { pass.old.shelf ≡ shelf.now }
    requires may { pass.old.may_change ≡ true }
    ensures here { pass.new.shelf ≡ shelf.now }
    ensures may { pass.new.may_change ≡ true }
{
    if !is_stamp(&STAMP) {
        return false;
    }
    let deletion = Edit::Delete {
        stamp: &STAMP,
        id: 9,
    };
    shelf.change(wait, pass, deletion) == Err(BookError::UnknownRecord { id: 9 })
}

/// Whether a creation is done, and answers as it should.
fn creates<R: Wait>(wait: &R, shelf: &Shelf, pass: &mut Pass, content: &Content) -> bool
    requires here { pass.old.shelf ≡ shelf.now }
    requires may { pass.old.may_change ≡ true }
    ensures here { pass.new.shelf ≡ shelf.now }
{
    if !is_stamp(&STAMP) {
        return false;
    }
    let creation = Edit::Create {
        stamp: &STAMP,
        content,
    };
    let done = Changed {
        point: Point { epoch: 7, eid: 1 },
        id: 1,
    };
    shelf.change(wait, pass, creation) == Ok(done)
}

/// Whether a deletion is refused and a creation done, beside a pass that may not change.
fn changes_beside<R: Wait>(wait: &R, shelf: &Shelf, pass: &mut Pass, content: &Content) -> bool
    requires here { pass.old.shelf ≡ shelf.now }
    requires may { pass.old.may_change ≡ true }
    ensures here { pass.new.shelf ≡ shelf.now }
{
    let second = shelf.split(pass, false);
    let may = second.may_change();
    let refused = refuses(wait, shelf, pass);
    let created = creates(wait, shelf, pass, content);
    shelf.meet(pass, second);
    !may & refused & created
}

/// Whether `changes_beside` holds of a new shelf, and the book that is left has record 1.
fn refuses_and_creates<R: Wait>(wait: &R, alloc: Global) -> Option<bool> {
    let one = content(alloc, b"a", 0)?;
    let (shelf, mut pass) = opened(alloc)?;
    let changed = changes_beside(wait, &shelf, &mut pass, &one);
    let closed = shelf.close(wait, pass);
    Some(changed & has_one(&closed))
}

#[test]
fn a_shelf_refuses_and_creates(rt: HostRuntime) {
    assert!(rt; refuses_and_creates(&rt, rt.alloc()) == Some(true));
}

/// Whether a pass that created a record of source 3 has it in its inventory, and sees that
/// something moved.
fn has_what_it_creates<R: Wait>(
    wait: &R,
    alloc: Global,
    shelf: &Shelf,
    pass: &mut Pass,
    content: &Content,
) -> bool
    requires here { pass.old.shelf ≡ shelf.now }
    requires may { pass.old.may_change ≡ true }
{
    let before = shelf.point(wait, pass);
    let _id = create(wait, shelf, pass, content);
    let request = inventory(alloc);
    let moved = shelf.moved(wait, pass, before, &request.targets);
    let answer = shelf.ask(wait, pass, &request, u32::MAX);
    moved & (count_from(&answer, 3) == Some(1))
}

/// What `has_what_it_creates` answers for a new shelf.
fn asks_after_a_change<R: Wait>(wait: &R, alloc: Global) -> Option<bool> {
    let one = content(alloc, b"a", 3)?;
    let (shelf, mut pass) = opened(alloc)?;
    Some(has_what_it_creates(wait, alloc, &shelf, &mut pass, &one))
}

#[test]
fn a_pass_has_what_it_created(rt: HostRuntime) {
    assert!(rt; asks_after_a_change(&rt, rt.alloc()) == Some(true));
}

/// Looks at the book in the turn of another pass, and drops that pass.
fn drop_one<R: Wait>(wait: &R, shelf: &Shelf, pass: &mut Pass)
    requires here { pass.old.shelf ≡ shelf.now }
    requires may { pass.old.may_change ≡ true }
    ensures here { pass.new.shelf ≡ shelf.now }
    ensures may { pass.new.may_change ≡ true }
{
    let mut second = shelf.split(pass, true);
    let _point = shelf.point(wait, &mut second);
}

/// Whether a shelf goes on where a pass was dropped.
fn goes_on_without<R: Wait>(wait: &R, alloc: Global) -> Option<bool> {
    let one = content(alloc, b"a", 0)?;
    let (shelf, mut pass) = opened(alloc)?;
    drop_one(wait, &shelf, &mut pass);
    let _id = create(wait, &shelf, &mut pass, &one);
    let closed = shelf.close(wait, pass);
    Some(has_one(&closed))
}

#[test]
fn a_pass_that_is_dropped_harms_nobody(rt: HostRuntime) {
    assert!(rt; goes_on_without(&rt, rt.alloc()) == Some(true));
}
