//! A book on a shelf, beside the same book alone. It has 1,000 records, of which the first is
//! altered, and a log that keeps one event. So changes and answers are as quick as they can be. For
//! the task `events` its log is as long as it may be.

ghost use Rattle.std.specs.Prelude.{◌≡◌, ◌≤◌, IfOk, true};
ghost use Rattle.std.specs.List.{All};

use crate::book::{KEPT, STAMP, alterations, book_of, content, count_of, latest, latest_answers};
use crate::trouble::Trouble;
use book_lock::{Pass, Shelf};
use collector_core::{Book, Edit};
use std::alloc::Global;
use std::sync::Wait;
use std::thread;
use std::thread::Threads;
use swima_model::Content;
use swima_request::Request;
use wire_base::is_stamp;

/// How many records the book has.
const RECORDS: u32 = 1000;

/// What is asked of it.
#[derive(Clone, Copy)]
pub(crate) enum Task {
    /// An alteration.
    Change,
    /// The latest event.
    Read,
    /// Each in turns.
    Both,
    /// An alteration and then the latest hundred events, in turns.
    Events,
}

impl Task {
    /// The task of this name.
    pub(crate) fn from_name(name: &str) -> Result<Self, Trouble> {
        match name {
            "change" => Ok(Task::Change),
            "read" => Ok(Task::Read),
            "both" => Ok(Task::Both),
            "events" => Ok(Task::Events),
            _ => Err(Trouble::Words),
        }
    }

    /// How many events the log keeps.
    fn kept(self) -> u32
        ensures some { 1 ≤ result }
        ensures few { result ≤ 4096 }
    {
        match self {
            Task::Change | Task::Read | Task::Both => 1,
            Task::Events => KEPT,
        }
    }

    /// The first event that is asked for, before anything is done. After a change a log of one
    /// event is asked what came after the last.
    fn earliest(self) -> u32 {
        match self {
            Task::Change | Task::Read | Task::Events => 1,
            Task::Both => u32::MAX,
        }
    }
}

/// Does a task that many times on a book alone, or in each of 1, 2 or 4 threads on one book of a
/// shelf.
pub(crate) fn done<R: Threads + Wait + Sync>(
    rt: &R,
    alloc: Global,
    place: &str,
    task: Task,
    times: u32,
) -> Result<u64, Trouble> {
    match place {
        "alone" => alone(alloc, task, times),
        _ => shared(rt, alloc, place, task, times),
    }
}

/// Does a task that many times on a book alone.
fn alone(alloc: Global, task: Task, times: u32) -> Result<u64, Trouble> {
    let mut book = small_book(alloc, task)?;
    alone_on(alloc, &mut book, task, times)
}

/// Does a task that many times on a book.
fn alone_on(alloc: Global, book: &mut Book, task: Task, times: u32) -> Result<u64, Trouble> {
    let earliest = task.earliest();
    match task {
        Task::Change => alterations(alloc, book, times),
        Task::Read => latest_answers(alloc, book, earliest, times),
        Task::Both => {
            let changed = alterations(alloc, book, times)?;
            let read = latest_answers(alloc, book, earliest, times)?;
            Ok(changed.saturating_add(read))
        }
        Task::Events => Err(Trouble::Words),
    }
}

/// Does a task that many times in each of 1, 2 or 4 threads, on one book of a shelf.
fn shared<R: Threads + Wait + Sync>(
    rt: &R,
    alloc: Global,
    threads: &str,
    task: Task,
    times: u32,
) -> Result<u64, Trouble> {
    let book = small_book(alloc, task)?;
    let Ok((shelf, pass)) = Shelf::open(alloc, book) else {
        return Err(Trouble::Memory);
    };
    match threads {
        "1" => work(rt, alloc, &shelf, pass, task, times),
        "2" => in_threads(rt, alloc, &shelf, pass, 2, task, times),
        "4" => in_threads(rt, alloc, &shelf, pass, 4, task, times),
        _ => Err(Trouble::Words),
    }
}

/// The book that is measured, with a full log.
fn small_book(alloc: Global, task: Task) -> Result<Book, Trouble> {
    let mut book = book_of(alloc, RECORDS, task.kept())?;
    alterations(alloc, &mut book, task.kept())?;
    Ok(book)
}

/// Does a task that many times in each of that many threads, through a pass for each.
fn in_threads<R: Threads + Wait + Sync>(
    rt: &R,
    alloc: Global,
    shelf: &Shelf,
    pass: Pass,
    threads: u8,
    task: Task,
    times: u32,
) -> Result<u64, Trouble>
    requires here { pass.shelf ≡ shelf.now }
    requires may { pass.may_change ≡ true }
{
    let passes = passes(alloc, shelf, pass, threads)?;
    let Ok(done) = thread::map_vec(
        rt,
        passes,
        &|pass: Pass|
            requires { (pass.shelf ≡ shelf.now) × (pass.may_change ≡ true) }
        { work(rt, alloc, shelf, pass, task, times) },
    ) else {
        return Err(Trouble::Memory);
    };
    let mut sum: u64 = 0;
    for one in done {
        sum = sum.saturating_add(one?);
    }
    Ok(sum)
}

/// That many passes of the shelf, this one among them.
fn passes(alloc: Global, shelf: &Shelf, mut pass: Pass, count: u8) -> Result<Vec<Pass>, Trouble>
    requires here { pass.shelf ≡ shelf.now }
    requires may { pass.may_change ≡ true }
    ensures here { IfOk result (λ passes. All (λ pass. pass.shelf ≡ shelf.now) passes.items) }
    ensures may { IfOk result (λ passes. All (λ pass. pass.may_change ≡ true) passes.items) }
{
    let mut passes = Vec::new(alloc);
    for _ in 1..count {
        passes.push(shelf.split(&mut pass, true))?;
    }
    passes.push(pass)?;
    Ok(passes)
}

/// Does a task that many times through a pass, and gives how often that was done.
fn work<R: Wait>(
    wait: &R,
    alloc: Global,
    shelf: &Shelf,
    mut pass: Pass,
    task: Task,
    times: u32,
) -> Result<u64, Trouble>
    requires here { pass.shelf ≡ shelf.now }
    requires may { pass.may_change ≡ true }
{
    let other = content(alloc, &[0; 65])?;
    let mut request = latest(alloc, task.earliest());
    repeat(wait, shelf, &mut pass, task, &other, &mut request, times)
}

/// Does a task that many times, and gives how many changes and events that were.
fn repeat<R: Wait>(
    wait: &R,
    shelf: &Shelf,
    pass: &mut Pass,
    task: Task,
    other: &Content,
    request: &mut Request,
    times: u32,
) -> Result<u64, Trouble>
    requires here { pass.old.shelf ≡ shelf.now }
    requires may { pass.old.may_change ≡ true }
{
    let mut done: u64 = 0;
    for _ in 0..times {
        let more = once(wait, shelf, pass, task, other, request)?;
        done = done.saturating_add(more);
    }
    Ok(done)
}

/// Does a task once, and gives how many changes and events that were.
fn once<R: Wait>(
    wait: &R,
    shelf: &Shelf,
    pass: &mut Pass,
    task: Task,
    other: &Content,
    request: &mut Request,
) -> Result<u64, Trouble>
    requires here { pass.old.shelf ≡ shelf.now }
    requires may { pass.old.may_change ≡ true }
    ensures here { pass.new.shelf ≡ shelf.now }
    ensures may { pass.new.may_change ≡ true }
{
    if let Task::Events = task {
        request.earliest = shelf.point(wait, pass).eid.saturating_sub(99).max(1);
    }
    match task {
        Task::Change => change(wait, shelf, pass, other),
        Task::Read => count_of(shelf.ask(wait, pass, request, u32::MAX)),
        Task::Both | Task::Events => {
            let changed = change(wait, shelf, pass, other)?;
            let read = count_of(shelf.ask(wait, pass, request, u32::MAX))?;
            Ok(changed.saturating_add(read))
        }
    }
}

/// Alters the first record.
fn change<R: Wait>(
    wait: &R,
    shelf: &Shelf,
    pass: &mut Pass,
    content: &Content,
) -> Result<u64, Trouble>
    requires here { pass.old.shelf ≡ shelf.now }
    requires may { pass.old.may_change ≡ true }
    ensures here { pass.new.shelf ≡ shelf.now }
    ensures may { pass.new.may_change ≡ true }
{
    if !is_stamp(&STAMP) {
        return Err(Trouble::Book);
    }
    let edit = Edit::Alter {
        stamp: &STAMP,
        id: 1,
        content,
    };
    match shelf.change(wait, pass, edit) {
        Ok(_) => Ok(1),
        Err(error) => Err(Trouble::from(error)),
    }
}
