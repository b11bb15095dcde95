//! A pass: what one who shares a book may do, and what it has seen.

ghost use Rattle.std.specs.Prelude.{◌≡◌};
ghost use Rattle.book_lock.specs.Passes.{IsSound};

use crate::view::Place;
use std::marker::Model;

/// One of those who share a book. It sees one growing list of entries, in which those that it made
/// are marked as its own. A pass that is dropped at rest harms nobody.
#[derive(Drop)]
pub struct Pass {
    pub(crate) seat: Place,
    pub(crate) changes: bool,
}

impl Model for Pass {
    ghost use Rattle.book_lock.specs.Passes.{PassView, pass_coded};

    ghost Value = { PassView };

    ghost coded = { pass_coded };

    ghost use Rattle.std.specs.Prelude.{◌≡◌};
    ghost use Rattle.book_lock.specs.Plays.{Rests, pass_of};

    ghost view = { λ pass. pass_of pass.seat.table_id pass.seat.me.0 };

    ghost invariant = { λ pass. Rests pass.seat.table_id pass.seat.me × (pass.changes ≡ pass.seat.me.0.may_change) };
}

impl Pass {
    /// Whether it may change the book. It takes no memory.
    pub fn may_change(&self) -> bool
        ensures may { result ≡ self.now.may_change }
        ensures sound { IsSound self.now }
    {
        self.changes
    }
}

/// A pass whose shelf was closed: it shows what it had seen at the end.
#[derive(Drop)]
pub struct LastPass {
    pub(crate) seat: Place,
}

impl Model for LastPass {
    ghost use Rattle.book_lock.specs.Passes.{PassView, pass_coded};

    ghost Value = { PassView };

    ghost coded = { pass_coded };

    ghost use Rattle.book_lock.specs.Plays.{pass_of};

    ghost view = { λ last. pass_of last.seat.table_id last.seat.me.0 };
}
