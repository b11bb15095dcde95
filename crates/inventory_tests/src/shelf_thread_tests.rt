//! Two threads that share a book, each with a pass of its own.

ghost use Rattle.std.specs.Prelude.{◌≡◌, true};

use crate::shelf_values::{content, count_from, create, inventory, is_at, opened};
use book_lock::{Pass, Shelf};
use std::alloc::Global;
use std::sync::Wait;
use std::thread;
use std::thread::Threads;

/// How many records each thread creates.
const RECORDS: u8 = 100;

/// Creates a record of a source and asks for the inventory. Gives how many records of the source it
/// has.
fn create_and_ask<R: Wait>(
    wait: &R,
    alloc: Global,
    shelf: &Shelf,
    pass: &mut Pass,
    source: u8,
    number: u8,
) -> Option<u32>
    requires here { pass.old.shelf ≡ shelf.now }
    requires may { pass.old.may_change ≡ true }
    ensures here { pass.new.shelf ≡ shelf.now }
    ensures may { pass.new.may_change ≡ true }
{
    let content = content(alloc, &[source, number], source)?;
    create(wait, shelf, pass, &content)?;
    let request = inventory(alloc);
    let answer = shelf.ask(wait, pass, &request, u32::MAX);
    count_from(&answer, source)
}

/// Creates records of a source one after another, and asks after each: whether each answer has all
/// of them.
fn has_its_own<R: Wait>(wait: &R, alloc: Global, shelf: &Shelf, pass: &mut Pass, source: u8) -> bool
    requires here { pass.old.shelf ≡ shelf.now }
    requires may { pass.old.may_change ≡ true }
    ensures here { pass.new.shelf ≡ shelf.now }
    ensures may { pass.new.may_change ≡ true }
{
    let mut all = true;
    for number in 0..RECORDS {
        let count = create_and_ask(wait, alloc, shelf, pass, source, number);
        all = all & (count == Some(number as u32 + 1));
    }
    all
}

/// One thread's work.
fn work<R: Wait>(wait: &R, alloc: Global, shelf: &Shelf, mut pass: Pass, source: u8) -> (bool, Pass)
    requires here { pass.shelf ≡ shelf.now }
    requires may { pass.may_change ≡ true }
    ensures here { result.1.shelf ≡ shelf.now }
{
    let all = has_its_own(wait, alloc, shelf, &mut pass, source);
    (all, pass)
}

/// Whether two threads each have all that they created, and the book has it all at the end.
fn two_threads<R: Threads + Wait + Sync>(rt: &R, alloc: Global) -> Option<bool> {
    let (shelf, mut pass) = opened(alloc)?;
    let second = shelf.split(&mut pass, true);
    let lent = &shelf;
    let ((one, mut pass), (two, second)) = thread::join(
        rt,
        ||
            requires { (pass.shelf ≡ lent.now) × (pass.may_change ≡ true) }
            ensures { result.1.shelf ≡ lent.entry.now }
        { work(rt, alloc, lent, pass, 1) },
        ||
            requires { (second.shelf ≡ lent.now) × (second.may_change ≡ true) }
            ensures { result.1.shelf ≡ lent.entry.now }
        { work(rt, alloc, lent, second, 2) },
    );
    shelf.meet(&mut pass, second);
    let closed = shelf.close(rt, pass);
    Some(one & two & is_at(&closed.book, 200, 200))
}

#[test]
fn each_thread_has_what_it_created(rt: HostRuntime) {
    assert!(rt; two_threads(&rt, rt.alloc()) == Some(true));
}
