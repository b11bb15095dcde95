//! What is true of the table of a shelf between any two steps, and what each step of a pass does.

use crate::view::View;
use atomic_table::{Join, Play, Split, TableRule};
use collector_core::Book;
use std::marker::{Brand, PhantomData};
use std::snapshot::Snapshot;

/// The rule of a shelf.
pub(crate) struct Law;

impl TableRule<Option<Book>, View, Snapshot<Book>> for Law {
    ghost use Rattle.book_lock.specs.Rule.{Kept};
    ghost use Rattle.book_lock.specs.Plays.{newcomer};

    ghost holds = { λ key. Kept key.value };

    ghost first = { λ key. newcomer key.value };
}

/// Draws a ticket.
pub(crate) struct Draw;

impl Play<Option<Book>, View> for Draw {
    ghost use Rattle.book_lock.specs.Plays.{drew};

    ghost then = { drew };
}

/// Looks whether it is the turn of one's ticket.
pub(crate) struct Look;

impl Play<Option<Book>, View> for Look {
    ghost use Rattle.book_lock.specs.Plays.{looked};

    ghost then = { looked };
}

/// Reads, at one's turn, what was entered, and takes the book out of its slot.
pub(crate) struct Take;

impl Play<Option<Book>, View> for Take {
    ghost use Rattle.book_lock.specs.Plays.{took};

    ghost then = { took };
}

/// The entry that a commit enters. Each call picks it.
pub(crate) trait Said {
    ghost use Rattle.collector_core.specs.declared.chronicle.Entry.{Entry};

    ghost entry: { Entry };
}

impl Said for Brand {
    ghost use Rattle.collector_core.specs.declared.chronicle.Entry.TheVariants as entry;

    ghost entry = { entry.Trim 0 };
}

/// Enters an entry.
pub(crate) struct Commit<E> {
    said: PhantomData<E>,
}

impl<E: Said> Play<Option<Book>, View> for Commit<E> {
    ghost use Rattle.book_lock.specs.Plays.{committed};

    ghost then = { committed E.entry };
}

/// Brings the book back, and passes the turn on.
pub(crate) struct PassOn;

impl Play<Option<Book>, View> for PassOn {
    ghost use Rattle.book_lock.specs.Plays.{passed};

    ghost then = { passed };
}

/// Learns what two passes that met had in common.
pub(crate) struct Settle;

impl Play<Option<Book>, View> for Settle {
    ghost use Rattle.book_lock.specs.Plays.{settled};

    ghost then = { settled };
}

/// A new pass that may not change.
pub(crate) struct ToRead;

impl Split<View> for ToRead {
    ghost use Rattle.book_lock.specs.Plays.{reader_of};

    ghost left = { λ view. view };

    ghost right = { reader_of };
}

/// A new pass that may change.
pub(crate) struct ToChange;

impl Split<View> for ToChange {
    ghost use Rattle.book_lock.specs.Plays.{shared, changer_of};

    ghost left = { shared };

    ghost right = { changer_of };
}

/// Two passes as one.
pub(crate) struct Meet;

impl Join<View> for Meet {
    ghost use Rattle.book_lock.specs.Plays.{joined, gone};

    ghost both = { joined };

    ghost spent = { gone };
}
