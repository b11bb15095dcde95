//! Passes that change, each by itself, and meet.

ghost use Rattle.std.specs.Prelude.{◌≡◌, true};

use crate::shelf_values::{content, count_from, create, inventory, is_at, opened};
use book_lock::{Pass, Shelf};
use std::alloc::Global;
use std::sync::Wait;
use swima_model::Content;

/// Creates a record in the turn of each of two passes, which then meet. Gives their identifiers.
fn create_and_meet<R: Wait>(
    wait: &R,
    shelf: &Shelf,
    pass: &mut Pass,
    one: &Content,
    two: &Content,
) -> (Option<u32>, Option<u32>)
    requires here { pass.old.shelf ≡ shelf.now }
    requires may { pass.old.may_change ≡ true }
    ensures here { pass.new.shelf ≡ shelf.now }
{
    let mut second = shelf.split(pass, true);
    let first_id = create(wait, shelf, pass, one);
    let second_id = create(wait, shelf, &mut second, two);
    shelf.meet(pass, second);
    (first_id, second_id)
}

/// Whether the inventory of a pass has one record of source 1 and one of source 2.
fn has_both<R: Wait>(wait: &R, alloc: Global, shelf: &Shelf, pass: &mut Pass) -> bool
    requires here { pass.old.shelf ≡ shelf.now }
{
    let request = inventory(alloc);
    let answer = shelf.ask(wait, pass, &request, u32::MAX);
    (count_from(&answer, 1), count_from(&answer, 2)) == (Some(1), Some(1))
}

/// Whether two passes that created a record each, and met, have both.
fn two_meet<R: Wait>(wait: &R, alloc: Global) -> Option<bool> {
    let one = content(alloc, b"a", 1)?;
    let two = content(alloc, b"b", 2)?;
    let (shelf, mut pass) = opened(alloc)?;
    let ids = create_and_meet(wait, &shelf, &mut pass, &one, &two);
    Some((ids == (Some(1), Some(2))) & has_both(wait, alloc, &shelf, &mut pass))
}

#[test]
fn passes_that_met_have_both_records(rt: HostRuntime) {
    assert!(rt; two_meet(&rt, rt.alloc()) == Some(true));
}

/// Creates a record in the turn of one of two further passes, which both meet the pass. Gives
/// whether it then may change.
fn meet_after_creation<R: Wait>(
    wait: &R,
    alloc: Global,
    shelf: &Shelf,
    pass: &mut Pass,
    content: &Content,
) -> Option<bool>
    requires here { pass.old.shelf ≡ shelf.now }
    requires may { pass.old.may_change ≡ true }
    ensures here { pass.new.shelf ≡ shelf.now }
{
    let mut second = shelf.split(pass, true);
    let third = shelf.split(&mut second, false);
    let _id = create(wait, shelf, &mut second, content);
    let mut others = Vec::new(alloc);
    others.push(second).ok()?;
    others.push(third).ok()?;
    shelf.meet_all(pass, others);
    Some(pass.may_change())
}

/// Whether many passes meet in one, which then may change.
fn many_meet<R: Wait>(wait: &R, alloc: Global) -> Option<bool> {
    let one = content(alloc, b"a", 1)?;
    let (shelf, mut pass) = opened(alloc)?;
    let may = meet_after_creation(wait, alloc, &shelf, &mut pass, &one);
    let closed = shelf.close(wait, pass);
    Some((may == Some(true)) & is_at(&closed.book, 1, 1))
}

#[test]
fn many_passes_meet(rt: HostRuntime) {
    assert!(rt; many_meet(&rt, rt.alloc()) == Some(true));
}
