//! What the events of a book carry, and which of them it keeps.

ghost use Rattle.std.specs.Prelude.{◌≤◌};

use crate::books::{alter, content, create, delete, is_at, request};
use collector_core::{Answer, Book};
use std::alloc::Global;
use swima_model::{Action, Event, Report};
use wire_base::List;

/// The answer to a request for whole records, from the earliest event on.
fn asked(alloc: Global, book: &Book, earliest: u32, max: u32) -> Answer {
    let request = request(earliest, List::new(alloc));
    book.answer(&request, max)
}

/// The events of an answer, and the last that was consulted.
fn events_of(answer: &Answer) -> Option<(&[Event], u32)> {
    match answer {
        Answer::Report(
            Report::Events {
                consulted,
                events,
                ..
            },
        ) => Some((events.as_slice(), *consulted)),
        _ => None,
    }
}

/// A book at epoch 1 whose record 1 was created with a body of five octets, and deleted.
fn created_and_deleted(alloc: Global) -> Option<Book> {
    let mut book = Book::new(alloc, 1, 4, &[]).ok()?;
    create_and_delete(alloc, &mut book)?;
    Some(book)
}

/// Creates record 1 and deletes it.
fn create_and_delete(alloc: Global, book: &mut Book) -> Option<()> {
    create(alloc, book, b"a")?;
    delete(book, 1)
}

/// Whether the event deletes record 1 and carries it whole.
fn carries_it_whole(alloc: Global, event: &Event) -> Option<bool> {
    let held = content(alloc, b"a", 5)?;
    let carried = &event.subject.content;
    let of_it = (event.action == Action::Deletion) & (event.subject.id == 1);
    Some(of_it & held.carries(carried) & (carried.body.bytes().len() == 5))
}

/// Whether the last of two events deletes record 1 and carries it whole.
fn ends_in_whole_deletion(alloc: Global, answer: &Answer) -> Option<bool> {
    let (events, consulted) = events_of(answer)?;
    Some(carries_it_whole(alloc, events.get(1)?)? & (consulted == 2))
}

/// Whether the deletion of a record carries it, in a report with room for both events.
fn deletion_carries(alloc: Global) -> Option<bool> {
    let book = created_and_deleted(alloc)?;
    let whole = ends_in_whole_deletion(alloc, &asked(alloc, &book, 1, 116));
    Some((whole == Some(true)) & (book.count() == 0))
}

/// How many events an answer has, and the last that was consulted.
fn counts(answer: &Answer) -> Option<(usize, u32)> {
    let (events, consulted) = events_of(answer)?;
    Some((events.len(), consulted))
}

/// How many events one octet less leaves room for, and the last that was consulted.
fn told_in_less(alloc: Global) -> Option<(usize, u32)> {
    let book = created_and_deleted(alloc)?;
    counts(&asked(alloc, &book, 1, 115))
}

#[test]
fn a_deletion_carries_its_record(rt: HostRuntime) {
    let carried = deletion_carries(rt.alloc()) == Some(true);
    let in_less = told_in_less(rt.alloc()) == Some((1, 1));
    assert!(rt; carried & in_less);
}

/// Gives record 1 of a book the next that many bodies, each with as many octets as the event that
/// brings it has as its identifier.
fn alter_next(alloc: Global, book: &mut Book, times: u32) -> Option<()> {
    for _ in 0..times {
        let eid = book.point().eid.checked_add(1)?;
        let other = content(alloc, b"a", eid as usize)?;
        alter(book, 1, &other)?;
    }
    Some(())
}

/// Whether a book keeps the events from `first` up to `last` and no others, each with its own body.
fn keeps(alloc: Global, book: &Book, first: u32, last: u32) -> bool {
    let answer = asked(alloc, book, first, 1_000_000);
    (has_each(&answer, first, last) == Some(true)) & is_at(book, last, first, 1)
}

/// Whether an answer has the events from `first` up to `last` and no others, each with its own
/// body.
fn has_each(answer: &Answer, first: u32, last: u32) -> Option<bool> {
    let (events, consulted) = events_of(answer)?;
    let mut next = first;
    for event in events {
        if event.eid != next {
            return Some(false);
        }
        if event.subject.content.body.bytes().len() != next as usize {
            return Some(false);
        }
        next = next.checked_add(1)?;
    }
    let all = next == last.checked_add(1)?;
    Some(all & (consulted == last))
}

/// Whether a book that keeps `cap` events keeps the latest after each of `times` changes.
fn keeps_the_latest(alloc: Global, cap: usize, times: u32) -> Option<bool>
    requires some { 1 ≤ cap }
    requires few { cap ≤ 4096 }
{
    let mut book = book_of_one(alloc, cap)?;
    altered_keeps_the_latest(alloc, &mut book, cap as u32, times)
}

/// A book at epoch 1 of one record, which keeps `cap` events.
fn book_of_one(alloc: Global, cap: usize) -> Option<Book>
    requires some { 1 ≤ cap }
    requires few { cap ≤ 4096 }
{
    let one = content(alloc, b"a", 0)?;
    Book::new(alloc, 1, cap, &[one]).ok()
}

/// What `keeps_the_latest` answers for its book.
fn altered_keeps_the_latest(alloc: Global, book: &mut Book, cap: u32, times: u32) -> Option<bool> {
    for last in 1..times.checked_add(1)? {
        alter_next(alloc, book, 1)?;
        let first = last.saturating_sub(cap).checked_add(1)?;
        if !keeps(alloc, book, first, last) {
            return Some(false);
        }
    }
    Some(true)
}

#[test]
fn a_full_log_keeps_the_latest_events(rt: HostRuntime) {
    let one = keeps_the_latest(rt.alloc(), 1, 5) == Some(true);
    let three = keeps_the_latest(rt.alloc(), 3, 14) == Some(true);
    let four = keeps_the_latest(rt.alloc(), 4, 17) == Some(true);
    assert!(rt; one & three & four);
}

/// Whether a log of four events that has turned round keeps what a trim leaves, and then the next
/// events up to four and past that.
fn keeps_after_a_trim(alloc: Global) -> Option<bool> {
    let mut book = book_of_one(alloc, 4)?;
    let trimmed = keeps_what_a_trim_leaves(alloc, &mut book)?;
    Some(trimmed & (keeps_the_next(alloc, &mut book) == Some(true)))
}

/// Whether the log keeps the events 9 and 10 after ten changes and a trim.
fn keeps_what_a_trim_leaves(alloc: Global, book: &mut Book) -> Option<bool> {
    alter_next(alloc, book, 10)?;
    book.trim(9).ok()?;
    Some(keeps(alloc, book, 9, 10))
}

/// Whether the log keeps the next two events, four of the next seven, none after a trim of all, and
/// then the last four of six.
fn keeps_the_next(alloc: Global, book: &mut Book) -> Option<bool> {
    alter_next(alloc, book, 2)?;
    let full = keeps(alloc, book, 9, 12);
    alter_next(alloc, book, 7)?;
    let turned = keeps(alloc, book, 16, 19);
    book.trim(20).ok()?;
    let none = is_at(book, 19, 20, 1);
    alter_next(alloc, book, 6)?;
    Some(full & turned & none & keeps(alloc, book, 22, 25))
}

#[test]
fn a_trimmed_log_turns_round(rt: HostRuntime) {
    assert!(rt; keeps_after_a_trim(rt.alloc()) == Some(true));
}
