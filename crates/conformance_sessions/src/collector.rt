//! The collector's end of a session over a small inventory.

ghost use Rattle.std.specs.Prelude.{◌<◌};

use crate::noted::{Cut, Run, push_counts, push_turn};
use crate::settings::{Serving, serving_of};
use collector_core::Book;
use collector_session::ServeCore;
use conformance_inventory::book::change;
use conformance_words::{digits_of, octets_of, push_text};
use session_rules::SessionRecord;
use std::alloc::Global;

/// The most octets of a piece.
const MOST: usize = 1 << 16;

/// `collector SETTINGS TURN TURN ..`: what a collector writes before the first turn and at each,
/// how its session stands then, and what is noted of it.
///
/// A turn is octets, `idle`, or `end`, at which the link ends; or a change of the inventory, which
/// is empty before: `create:IDENTIFIER:OCTETS`, `delete:ID`, `epoch:EPOCH` or `trim:EVENT`. Octets
/// in pieces of 1, 2 and 3 have to give the same, except that octets after the last batch of a
/// session are not taken then.
pub fn collector(alloc: Global, words: &str) -> Option<String> {
    let (settings, turns) = words.split_once(' ')?;
    let serving = serving_of(settings)?;
    let (mut text, received) = session(alloc, serving, turns, MOST)?;
    for size in 1..4 {
        let (again, _) = session(alloc, serving, turns, size)?;
        if again.as_str() != text.as_str() {
            return format!(in alloc; "{text}, and {again} in pieces of {size}").ok();
        }
    }
    push_text(&mut text, format!(in alloc; "; received {received}").ok())?;
    Some(text)
}

/// What comes of a session in pieces of the size, and how many octets were taken.
fn session(alloc: Global, serving: Serving, turns: &str, size: usize) -> Option<(String, u64)>
    requires some { 0 < size }
{
    let mut book = book_of(alloc, serving)?;
    session_over(alloc, &mut book, serving, turns, size)
}

/// The same over the book.
fn session_over(
    alloc: Global,
    book: &mut Book,
    serving: Serving,
    turns: &str,
    size: usize,
) -> Option<(String, u64)>
    requires some { 0 < size }
{
    let mut core = core_of(alloc, serving)?;
    played(alloc, book, &mut core, turns, size)
}

/// An empty book.
fn book_of(alloc: Global, serving: Serving) -> Option<Book> {
    let (epoch, cap) = (serving.epoch, serving.cap as usize);
    if epoch == 0 || cap == 0 || cap > 4096 {
        return None;
    }
    Book::new(alloc, epoch, cap, &[]).ok()
}

/// A collector at the start of a session.
fn core_of(alloc: Global, serving: Serving) -> Option<ServeCore> {
    let config = serving.config;
    if config.max > 16_000_000 || config.idle == 0 || config.octets == 0 {
        return None;
    }
    ServeCore::new(alloc, &config).ok()
}

/// Takes all turns. Gives what comes of them, and how many octets were taken.
fn played(
    alloc: Global,
    book: &mut Book,
    core: &mut ServeCore,
    turns: &str,
    size: usize,
) -> Option<(String, u64)>
    requires some { 0 < size }
{
    let mut out = String::new(alloc);
    push_written(alloc, &mut out, core)?;
    for turn in turns.split(' ') {
        take(alloc, book, core, turn, size)?;
        out.push_str(" ").ok()?;
        push_written(alloc, &mut out, core)?;
    }
    out.push_str("; ").ok()?;
    push_turn(alloc, &mut out, core.hear(alloc, book, &[]))?;
    push_noted(alloc, &mut out, core.record())?;
    Some((out, core.record().received))
}

/// Takes one turn.
fn take(alloc: Global, book: &mut Book, core: &mut ServeCore, turn: &str, size: usize) -> Option<()>
    requires some { 0 < size }
{
    match turn {
        "idle" => {
            core.idle(alloc, book);
        }
        "end" => {
            core.link_ended();
        }
        turn => match turn.split_once(':') {
            Some((word, rest)) => {
                change(alloc, book, word, rest)?;
            }
            None => hear(alloc, book, core, turn, size)?,
        },
    }
    Some(())
}

/// Hears octets in pieces of the size.
fn hear(
    alloc: Global,
    book: &mut Book,
    core: &mut ServeCore,
    digits: &str,
    size: usize,
) -> Option<()>
    requires some { 0 < size }
{
    let octets = octets_of(alloc, digits)?;
    for piece in octets.chunks(size) {
        core.hear(alloc, book, piece);
    }
    Some(())
}

/// Puts the octets that wait at the end of the text. They are given.
fn push_written(alloc: Global, out: &mut String, core: &mut ServeCore) -> Option<()> {
    let waiting = core.waiting();
    let count = waiting.len();
    push_text(out, digits_of(alloc, waiting))?;
    core.carried(count);
    Some(())
}

/// Puts what is noted of a session at the end of the text, except the octets that were taken.
fn push_noted(alloc: Global, out: &mut String, record: &SessionRecord) -> Option<()> {
    out.push_str("; points").ok()?;
    for point in record.points.as_slice() {
        let (epoch, eid) = (point.epoch, point.eid);
        push_text(out, format!(in alloc; " {epoch}/{eid}").ok())?;
    }
    push_counts(alloc, out, record)
}

/// `collector_cut SETTINGS HEX`: how the session ends, and how many octets it has written, where
/// the link ends after none of the octets, after one, and so on up to all. Consecutive ends within
/// one batch are one entry.
pub fn cut(alloc: Global, words: &str) -> Option<String> {
    let (settings, digits) = words.split_once(' ')?;
    let serving = serving_of(settings)?;
    let octets = octets_of(alloc, digits)?;
    let mut out = String::new(alloc);
    let mut run = Run::new(cut_after(alloc, serving, &[])?);
    for count in 0..octets.len() {
        let next = cut_after(alloc, serving, &octets[..count + 1])?;
        match run.with(next) {
            Some(longer) => run = longer,
            None => {
                run.push(alloc, &mut out)?;
                run = Run::new(next);
            }
        }
    }
    run.push(alloc, &mut out)?;
    Some(out)
}

/// How the session ends where the link ends after the octets.
fn cut_after(alloc: Global, serving: Serving, octets: &[u8]) -> Option<Cut> {
    let mut book = book_of(alloc, serving)?;
    cut_after_over(alloc, &mut book, serving, octets)
}

/// The same over the book.
fn cut_after_over(alloc: Global, book: &mut Book, serving: Serving, octets: &[u8]) -> Option<Cut> {
    let mut core = core_of(alloc, serving)?;
    core.hear(alloc, book, octets);
    let end = core.link_ended();
    Some(Cut {
        end,
        sent: core.waiting().len() as u64,
    })
}
