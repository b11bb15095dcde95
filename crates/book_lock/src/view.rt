//! What a pass knows of the table that a shelf stands on. No value of it is made: the types here
//! are for contracts alone.

use crate::rule::Law;
use atomic_table::{Seat, Table};
use collector_core::{Book, Mark};
use std::alloc::Global;
use std::collections::LinkedList;
use std::snapshot::Snapshot;

/// The table of a shelf: three words, and one slot for the book. It is made with the opened book.
pub(crate) type Board = Table<Option<Book>, View, Snapshot<Book>, Law, Global>;

/// The seat of a pass.
pub(crate) type Place = Seat<Option<Book>, View>;

/// What a pass knows.
pub(crate) struct View {
    /// The book that was opened.
    pub(crate) start: Book,
    /// The entries that it has seen, with its own marked.
    pub(crate) seen: LinkedList<Mark>,
    /// What it had seen before the latest `meet`, until that is settled.
    pub(crate) left: LinkedList<Mark>,
    /// What the other pass had seen.
    pub(crate) right: LinkedList<Mark>,
    /// Whether it was sole.
    pub(crate) left_sole: bool,
    /// Whether the other was.
    pub(crate) right_sole: bool,
    /// Whether it may change.
    pub(crate) may_change: bool,
    /// Whether no other pass may change.
    pub(crate) sole: bool,
    /// Whether another pass took it in.
    pub(crate) spent: bool,
    /// How far it is: 0 at rest, 1 with a ticket, 2 at its turn, 3 with the book, 4 committed.
    pub(crate) stage: u64,
    /// Its ticket, while it has one.
    pub(crate) ticket: u64,
}
