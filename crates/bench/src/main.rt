//! Does once what the scripts of `bench/` measure, and prints how much was done. The words of the
//! command line say what:
//!
//! | words | file | what is done, or on what |
//! |---|---|---|
//! | `book RECORDS WORK TIMES` | `book.rt` | a book of at least 1 record; `Work` has the works |
//! | `batches SIZE large` | `batches.rt` | a feed of one batch of 16 MiB |
//! | `batches SIZE small` | `batches.rt` | a feed of batches of 8 octets |
//! | `shelf alone TASK TIMES` | `shelf.rt` | a book alone |
//! | `shelf THREADS TASK TIMES` | `shelf.rt` | a book on a shelf, in 1, 2 or 4 threads |
//! | `sessions first RECORDS SIZE` | `sessions.rt` | the first session over a book |
//! | `sessions alone RECORDS` | `sessions.rt` | the same report, without a session |
//! | `sessions octets RECORDS` | `sessions.rt` | the same, written and read again |
//! | `sessions update RECORDS EVENTS TIMES` | `sessions.rt` | that many sessions more |
//! | `sessions looks RECORDS TIMES` | `looks.rt` | idle turns of a collector of 16 subscriptions |
//! | `sources ITEMS CHANGES QUIET` | `sources.rt` | sweeps over a source |
//! | `lines items COUNT` | `lines.rt` | lines of standard input, as a source reads them |
//! | `lines digits COUNT` | `lines.rt` | the same lines, as the digits of a tag each |
//! | `cbor read`, `cbor write`, `cbor feed SIZE` | `cbor.rt` | items of standard input |
//! | `links read`, `links check` | `links.rt` | tags of standard input as a list; its findings |
//! | `tags read`, `tags write`, `tags both` | `tags.rt` | tags of standard input |
//!
//! - RECORDS is how many records the book has, COUNT how many lines are read, and TIMES how often
//!   the work is done.
//! - SIZE is how many octets each piece has of what is fed or carried.
//! - TASK is `change`, `read` or `both`, and on a shelf also `events`.
//! - A session of `sessions update` comes after EVENTS events.
//! - ITEMS is how many items a source has at first, CHANGES how many changes come after them, and
//!   QUIET how many quiet sweeps come last.
//! - Items and tags on standard input stand one after another.
//!
//! The other files:
//!
//! | file | what it holds |
//! |---|---|
//! | `main.rt` | what the words ask for |
//! | `figures.rt` | what is printed: one figure or two |
//! | `reading.rt` | the octets of standard input |
//! | `trouble.rt` | why nothing is measured |
//!
//! Where nothing is printed, standard error has the reason.
//!
//! It stands on `collector_session`, `validator_session` and `session_rules`, on `source_lines` and
//! `source_set`, on `book_lock`, `collector_core` and `validator_core`, and on `swima_reports`,
//! `swima_request` and `swima_model`. For octets it stands on `pb_batch`, `coswid_links`,
//! `coswid_codec`, `coswid_tag` and `cbor_det`. Below are `wire_base`, `hex` and `memchr`.
#![tactic(auto)]

mod batches;
mod book;
mod cbor;
mod figures;
mod lines;
mod links;
mod looks;
mod reading;
mod sessions;
mod shelf;
mod sources;
mod tags;
mod trouble;

ghost use Rattle.std.specs.Prelude.{◌<◌, IfOk};

use crate::book::Work;
use crate::figures::Figures;
use crate::shelf::Task;
use crate::trouble::Trouble;
use std::alloc::Global;
use std::env;
use std::process::ExitCode;
use std::sync::Wait;
use std::thread::Threads;

fn main(rt: HostRuntime) -> ExitCode {
    match run(&rt, &rt) {
        Ok(figures) => match println!(rt; "{figures}") {
            Ok(()) => ExitCode::SUCCESS,
            Err(_) => ExitCode::from(3),
        },
        Err(trouble) => match eprintln!(rt; "bench: {trouble}") {
            Ok(()) => ExitCode::FAILURE,
            Err(_) => ExitCode::from(3),
        },
    }
}

/// What the command line asks for. Threads are of `threads`.
fn run<R: Threads + Wait + Sync>(rt: &HostRuntime, threads: &R) -> Result<Figures, Trouble> {
    let owned = words(rt)?;
    let words = borrowed(rt.alloc(), &owned)?;
    measured(rt, threads, &words)
}

/// The words, borrowed.
fn borrowed(alloc: Global, owned: &[String]) -> Result<Vec<&str>, Trouble> {
    let mut words = Vec::new(alloc);
    for word in owned {
        words.push(word.as_str())?;
    }
    Ok(words)
}

/// The words of the command line without the program's name.
fn words(rt: &HostRuntime) -> Result<Vec<String>, Trouble> {
    let mut words = Vec::new(rt.alloc());
    for word in env::args(rt)?.skip(1) {
        words.push(word)?;
    }
    Ok(words)
}

/// What the words ask for.
fn measured<R: Threads + Wait + Sync>(
    rt: &HostRuntime,
    threads: &R,
    words: &[&str],
) -> Result<Figures, Trouble> {
    match words {
        ["shelf", place, task, times] => {
            let (task, times) = (Task::from_name(task)?, number(times)?);
            Ok(Figures::One(shelf::done(threads, rt.alloc(), place, task, times)?))
        }
        ["tags", "both"] => tags::both(rt),
        _ => Ok(Figures::One(figure(rt, words)?)),
    }
}

/// What the words ask for, where that is one figure. The first word names the subject.
fn figure(rt: &HostRuntime, words: &[&str]) -> Result<u64, Trouble> {
    let Some((subject, words)) = words.split_first() else {
        return Err(Trouble::Words);
    };
    match *subject {
        "book" => book_figure(rt.alloc(), words),
        "batches" => batch_figure(rt.alloc(), words),
        "sessions" => session_figure(rt.alloc(), words),
        "sources" => source_figure(rt.alloc(), words),
        "lines" => line_figure(rt, words),
        "cbor" => cbor_figure(rt, words),
        "links" => link_figure(rt, words),
        "tags" => tag_figure(rt, words),
        _ => Err(Trouble::Words),
    }
}

fn book_figure(alloc: Global, words: &[&str]) -> Result<u64, Trouble> {
    match words {
        [records, work, times] => {
            let (records, times) = two(records, times)?;
            book::done(alloc, records, Work::from_name(work)?, times)
        }
        _ => Err(Trouble::Words),
    }
}

fn batch_figure(alloc: Global, words: &[&str]) -> Result<u64, Trouble> {
    match words {
        [piece, "large"] => batches::large(alloc, size(piece)?),
        [piece, "small"] => batches::small(alloc, size(piece)?),
        _ => Err(Trouble::Words),
    }
}

fn session_figure(alloc: Global, words: &[&str]) -> Result<u64, Trouble> {
    match words {
        ["alone", records] => sessions::alone(alloc, number(records)?),
        ["octets", records] => sessions::octets(alloc, number(records)?),
        [task, records, other] => session_of_two(alloc, task, records, other),
        ["update", records, events, times] => {
            let (records, events, times) = three(records, events, times)?;
            sessions::updates(alloc, records, events, times)
        }
        _ => Err(Trouble::Words),
    }
}

/// The figure of a task of sessions that has two numbers.
fn session_of_two(alloc: Global, task: &str, records: &str, other: &str) -> Result<u64, Trouble> {
    match task {
        "first" => sessions::first(alloc, number(records)?, size(other)?),
        "looks" => looks::looks(alloc, number(records)?, number(other)?),
        _ => Err(Trouble::Words),
    }
}

fn source_figure(alloc: Global, words: &[&str]) -> Result<u64, Trouble> {
    match words {
        [items, changes, quiet] => {
            let (items, changes, quiet) = three(items, changes, quiet)?;
            sources::swept(alloc, items, changes, quiet)
        }
        _ => Err(Trouble::Words),
    }
}

fn line_figure(rt: &HostRuntime, words: &[&str]) -> Result<u64, Trouble> {
    match words {
        ["items", count] => lines::items(rt, number(count)?),
        ["digits", count] => lines::digits(rt, number(count)?),
        _ => Err(Trouble::Words),
    }
}

fn cbor_figure(rt: &HostRuntime, words: &[&str]) -> Result<u64, Trouble> {
    match words {
        ["read"] => cbor::read(rt),
        ["write"] => cbor::write(rt),
        ["feed", piece] => cbor::feed(rt, size(piece)?),
        _ => Err(Trouble::Words),
    }
}

fn link_figure(rt: &HostRuntime, words: &[&str]) -> Result<u64, Trouble> {
    match words {
        ["read"] => links::read(rt),
        ["check"] => links::check(rt),
        _ => Err(Trouble::Words),
    }
}

fn tag_figure(rt: &HostRuntime, words: &[&str]) -> Result<u64, Trouble> {
    match words {
        ["read"] => tags::read(rt),
        ["write"] => tags::write(rt),
        _ => Err(Trouble::Words),
    }
}

/// The numbers that two words spell.
fn two(first: &str, second: &str) -> Result<(u32, u32), Trouble> {
    Ok((number(first)?, number(second)?))
}

/// The numbers that three words spell.
fn three(first: &str, second: &str, third: &str) -> Result<(u32, u32, u32), Trouble> {
    Ok((number(first)?, number(second)?, number(third)?))
}

/// The number that the word spells.
fn number(word: &str) -> Result<u32, Trouble> {
    word.parse().ok().ok_or(Trouble::Words)
}

/// The number of octets that the word spells, at least 1.
fn size(word: &str) -> Result<usize, Trouble>
    ensures some { IfOk result (λ octets. 0 < octets) }
{
    match word.parse() {
        Ok(octets) if 0 < octets => Ok(octets),
        _ => Err(Trouble::Words),
    }
}
