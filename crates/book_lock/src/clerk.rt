//! A pass as a desk.

ghost use Rattle.std.specs.Prelude.{◌≡◌};

use crate::pass::Pass;
use crate::shelf::Shelf;
use collector_core::{Answer, BookError, Desk, Edit};
use std::marker::Model;
use std::sync::Wait;
use swima_model::{Content, Point};
use swima_request::{Idents, Request};

/// Who keeps an inventory that others share: a pass with its shelf. Contracts see its pass.
#[derive(Drop)]
pub struct Clerk<'a, R: Wait> {
    shelf: &'a Shelf,
    wait: &'a R,
    /// The pass.
    pub pass: Pass,
}

impl<'a, R: Wait> Model for Clerk<'a, R> {
    ghost use Rattle.std.specs.Prelude.{◌≡◌};
    ghost use Rattle.book_lock.specs.Passes.{PassView, pass_coded};

    ghost Value = { PassView };

    ghost coded = { pass_coded };

    ghost view = { λ clerk. clerk.pass };

    ghost invariant = { λ clerk. clerk.pass.shelf ≡ clerk.shelf.now };
}

impl Shelf {
    /// The pass as a desk, which takes changes exactly where the pass may change. It takes no
    /// memory.
    pub fn clerk<'a, R: Wait>(&'a self, wait: &'a R, pass: Pass) -> Clerk<'a, R>
        requires here { pass.shelf ≡ self.now }
        ensures pass { result ≡ pass }
    {
        Clerk {
            shelf: self,
            wait,
            pass,
        }
    }
}

impl<'a, R: Wait> Clerk<'a, R> {
    /// The pass. It takes no memory.
    pub fn done(self) -> Pass
        ensures pass { result ≡ self.entry }
    {
        let Clerk {
            shelf: _,
            wait: _,
            pass,
        } = self;
        pass
    }
}

impl<'a, R: Wait> Desk for Clerk<'a, R> {
    ghost use Rattle.book_lock.specs.Passes.{PassStands, PassWent};
    ghost use Rattle.book_lock.specs.PassDesk.{pass_legal, pass_takes_still, pass_went_on, pass_went_with, stays_pass};

    ghost stands = { PassStands };

    ghost went = { PassWent };

    ghost takes = { λ clerk. clerk.may_change };

    ghost stays = { stays_pass };

    ghost follows = { pass_went_on };

    ghost carries = { pass_went_with };

    ghost keeps = { pass_takes_still };

    ghost legal = { pass_legal };

    fn create(&mut self, stamp: &[u8; 20], content: &Content) -> Result<u32, BookError> {
        match self
            .shelf
            .change(self.wait, &mut self.pass, Edit::Create { stamp, content })
        {
            Ok(changed) => Ok(changed.id),
            Err(error) => Err(error),
        }
    }

    fn alter(&mut self, stamp: &[u8; 20], id: u32, content: &Content) -> Result<(), BookError> {
        match self.shelf.change(
            self.wait,
            &mut self.pass,
            Edit::Alter { stamp, id, content },
        ) {
            Ok(_) => Ok(()),
            Err(error) => Err(error),
        }
    }

    fn delete(&mut self, stamp: &[u8; 20], id: u32) -> Result<(), BookError> {
        match self
            .shelf
            .change(self.wait, &mut self.pass, Edit::Delete { stamp, id })
        {
            Ok(_) => Ok(()),
            Err(error) => Err(error),
        }
    }

    fn point(&mut self) -> Point {
        self.shelf.point(self.wait, &mut self.pass)
    }

    fn moved(&mut self, after: Point, targets: &Idents) -> bool {
        self.shelf.moved(self.wait, &mut self.pass, after, targets)
    }

    fn answer(&mut self, request: &Request, max: u32) -> Answer {
        self.shelf.ask(self.wait, &mut self.pass, request, max)
    }
}
