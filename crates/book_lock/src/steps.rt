//! The steps of a pass on the table of its shelf, of which each is one step on a word or a slot.

ghost use Rattle.std.specs.Prelude.{◌≡◌, ◌≤◌, false, true, None, [], ◌∷◌, ◌++◌};
ghost use Rattle.collector_core.specs.Desks.{entries, own_mark};
ghost use Rattle.book_lock.specs.Logs.{LegalWith, StandsWith};
ghost use Rattle.book_lock.specs.Plays.{HasBook, IsAt, Settled, Stays, committing, drawn, reached, resting};

use crate::rule::{Commit, Draw, Look, PassOn, Said, Settle, Take};
use crate::view::{Board, Place};
use collector_core::{Book, Edit};
use std::snapshot::Snapshot;
use std::sync::Wait;
use std::sync::atomic::AtomicU64;
use std::time::Duration;
use std::{hint, thread};

/// The word that counts the entries.
const COUNT: usize = 0;

/// The word with the next ticket.
const TICKETS: usize = 1;

/// The word with the ticket whose turn it is.
const TURN: usize = 2;

/// The last ticket that is drawn.
const LAST_TICKET: u64 = u64::MAX - 1;

/// The slot of the book.
const BOOK: usize = 0;

/// How many looks spin before the processor is yielded at each.
const SPINS: u32 = 64;

/// How many looks wait until nobody uses the shelf, before a ticket is drawn all the same.
const LOOKS: u32 = 16;

/// How often the processor pauses after the first of these looks; after each later one it pauses
/// twice as often as after the one before.
const FEWEST_PAUSES: u32 = 16;

/// How often it pauses at most. Where it was to pause more often, the thread sleeps.
const MOST_PAUSES: u32 = 512;

/// How long it sleeps, in microseconds.
const SLEEP_MICROSECONDS: u64 = 50;

/// Waits for the turn of the pass, and takes the book.
pub(crate) fn reach<R: Wait>(wait: &R, board: &Board, seat: &mut Place) -> Book
    requires here { IsAt board.now.shared.table_id seat.old.table_id }
    requires idle { seat.old.me.0.stage ≡ 0 }
    requires live { seat.old.me.0.spent ≡ false }
    requires empty { seat.old.me.1 ≡ [] }
    ensures here { Stays seat.old seat.new }
    ensures reached { HasBook seat.old.me.0 seat.new.me result }
{
    await_rest(wait, board);
    let ticket = draw(wait, board, seat);
    await_turn(wait, board, seat, ticket);
    take(board, seat)
}

/// Waits until nobody has the book or a ticket, for that many looks at most. So one whose calls
/// come one after another does several, while the book lies in the memory of its processor.
fn await_rest<R: Wait>(wait: &R, board: &Board)
    requires words { board.now.shared.table_id.words ≡ 3 }
{
    let mut pauses = FEWEST_PAUSES;
    for _ in 0..LOOKS {
        if board.shared.peek(TICKETS) == board.shared.peek(TURN) {
            return;
        }
        rest(wait, pauses);
        pauses = pauses.saturating_mul(2);
    }
}

/// Pauses that many times, and leaves the words of the table to others meanwhile. Where that is too
/// often, it leaves its processor to others too.
fn rest<R: Wait>(wait: &R, pauses: u32) {
    if MOST_PAUSES < pauses {
        // A sleep on a word of its own, which nobody wakes.
        AtomicU64::new(0).park_timeout(wait, 0, Duration::from_micros(SLEEP_MICROSECONDS));
        return;
    }
    for _ in 0..pauses {
        hint::spin_loop();
    }
}

/// Draws the next ticket. After 2^64 - 1 tickets it waits for good, so that no word wraps.
fn draw<R: Wait>(wait: &R, board: &Board, seat: &mut Place) -> u64
    requires here { IsAt board.now.shared.table_id seat.old.table_id }
    requires idle { seat.old.me.0.stage ≡ 0 }
    ensures here { Stays seat.old seat.new }
    ensures drawn { seat.new.me ≡ (drawn seat.old.me.0 result, seat.old.me.1) }
{
    let mut spins = 0;
    for _ in wait.forever() {
        let next = board.shared.peek(TICKETS).min(LAST_TICKET);
        let found = board
            .shared
            .compare_exchange::<Draw>(seat, TICKETS, next, next + 1);
        if found == next {
            return next;
        }
        spins = pause(spins);
    }
    unreachable!()
}

/// Waits until the turn is that of the ticket.
fn await_turn<R: Wait>(wait: &R, board: &Board, seat: &mut Place, ticket: u64)
    requires here { IsAt board.now.shared.table_id seat.old.table_id }
    requires drawn { seat.old.me.0.stage ≡ 1 }
    requires ticket { seat.old.me.0.ticket ≡ ticket }
    ensures here { Stays seat.old seat.new }
    ensures reached { seat.new.me ≡ (reached seat.old.me.0, seat.old.me.1) }
{
    let mut spins = 0;
    for _ in wait.forever() {
        let turn = board.shared.load::<Look>(seat, TURN);
        if turn == ticket {
            return;
        }
        spins = pause(spins);
    }
    unreachable!()
}

/// Pauses between two looks, after that many that spun: a turn is short, so the first looks spin,
/// and later ones yield the processor. Gives how many have spun.
fn pause(spins: u32) -> u32 {
    if spins < SPINS {
        hint::spin_loop();
        return spins + 1;
    }
    thread::yield_now();
    spins
}

/// At the turn of the pass, takes the book.
fn take(board: &Board, seat: &mut Place) -> Book
    requires here { IsAt board.now.shared.table_id seat.old.table_id }
    requires turn { seat.old.me.0.stage ≡ 2 }
    requires live { seat.old.me.0.spent ≡ false }
    requires empty { seat.old.me.1 ≡ [] }
    ensures here { Stays seat.old seat.new }
    ensures taken { HasBook seat.old.me.0 seat.new.me result }
{
    board.shared.load::<Take>(seat, COUNT);
    match board.shared.exchange(seat, BOOK, None) {
        Some(book) => book,
        None => unreachable!(),
    }
}

/// Enters the entry that the edit made of the book before it.
pub(crate) fn commit<E: Said>(
    board: &Board,
    seat: &mut Place,
    _edit: Edit<'_>,
    _before: &Snapshot<Book>,
)
    requires here { IsAt board.now.shared.table_id seat.old.table_id }
    requires holds { seat.old.me.0.stage ≡ 3 }
    requires live { seat.old.me.0.spent ≡ false }
    requires may { seat.old.me.0.may_change ≡ true }
    requires legal { LegalWith seat.old.me.0.start (entries (seat.old.me.0.seen ++ own_mark E.entry ∷ [])) }
    ensures here { Stays seat.old seat.new }
    ensures committed { seat.new.me ≡ (committing seat.old.me.0 E.entry, seat.old.me.1) }
{
    board.shared.fetch_add::<Commit<E>>(seat, COUNT, 1);
}

/// Brings the book back, and passes the turn on.
pub(crate) fn give(board: &Board, seat: &mut Place, book: Book)
    requires here { IsAt board.now.shared.table_id seat.old.table_id }
    requires holds { 3 ≤ seat.old.me.0.stage }
    requires live { seat.old.me.0.spent ≡ false }
    requires taken { seat.old.me.1 ≡ (0, None) ∷ [] }
    requires stands { StandsWith seat.old.me.0.start book (entries seat.old.me.0.seen) }
    ensures here { Stays seat.old seat.new }
    ensures rests { seat.new.me ≡ (resting seat.old.me.0, []) }
{
    board.shared.exchange(seat, BOOK, Some(book));
    board.shared.fetch_add::<PassOn>(seat, TURN, 1);
}

/// Learns what two passes that met had in common.
pub(crate) fn settle(board: &Board, seat: &mut Place)
    requires here { IsAt board.now.shared.table_id seat.old.table_id }
    requires idle { seat.old.me.0.stage ≡ 0 }
    requires live { seat.old.me.0.spent ≡ false }
    ensures here { Stays seat.old seat.new }
    ensures settled { Settled seat.old.me.0 seat.old.me.1 seat.new.me }
{
    board.shared.load::<Settle>(seat, COUNT);
}
