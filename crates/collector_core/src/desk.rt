//! Desks: who keeps an inventory, changes it when asked to and answers of it. Between two calls
//! others may change it too.

ghost use Rattle.std.specs.Prelude.{true};
ghost use Rattle.collector_core.specs.InTurn.{AnswersInTurn};

use crate::answer::Answer;
use crate::book::Book;
use crate::error::BookError;
use swima_model::{Content, Point};
use swima_request::{Idents, Request};

/// Who keeps an inventory: a book, or who shares one with others.
///
/// What it stands for is a relation to chronicles, and what came between two states is a list of
/// entries, its own and others'. Each call says that others' entries came first, if any, and what
/// it did or answered after them.
pub trait Desk {
    ghost use Rattle.std.specs.Prelude.{◌≡◌, [], ◌++◌, Bool, Err, List, true};
    ghost use Rattle.wire_base.specs.Stamp.{IsStamp};
    ghost use Rattle.collector_core.specs.declared.chronicle.Mark.{Mark};
    ghost use Rattle.collector_core.specs.declared.error.BookError.TheVariants as refused;
    ghost use Rattle.collector_core.specs.Answering.{AnswerIs, answer_at, moved_at};
    ghost use Rattle.collector_core.specs.Chronicle.{Chronicle, extended, point_of};
    ghost use Rattle.collector_core.specs.Desks.{Alters, Creates, Deletes, Edits, Reads, alters_not, creates_not, deletes_not, entries};
    ghost use Rattle.collector_core.specs.Legal.{IsLegal};

    /// It stands for the chronicle.
    ghost stands: { Self → Chronicle → Type 0 };

    /// From the one state to the other these entries came.
    ghost went: { Self → List Mark → Self → Type 0 };

    /// Whether it takes changes.
    ghost takes: { Self → Bool };

    /// Creates a record, and gives its identifier. Refusals: `EidsSpent`, `IdsSpent`,
    /// `RecordsFull`, `BytesFull`, `Memory`.
    fn create(&mut self, stamp: &[u8; 20], content: &Content) -> Result<u32, BookError>
        requires takes { takes self.old ≡ true }
        requires stamp { IsStamp stamp.now }
        ensures edits { Edits stands went (Creates stamp.now content.now) (creates_not content.now) self.old self.new result };

    /// Replaces the content of a live record. Refusals: `EidsSpent`, `UnknownRecord`, `BytesFull`,
    /// `Memory`.
    fn alter(&mut self, stamp: &[u8; 20], id: u32, content: &Content) -> Result<(), BookError>
        requires takes { takes self.old ≡ true }
        requires stamp { IsStamp stamp.now }
        ensures edits { Edits stands went (Alters stamp.now id content.now) (alters_not id content.now) self.old self.new result };

    /// Deletes a live record, which moves to its event whole. Refusals: `EidsSpent`,
    /// `UnknownRecord`. It takes no memory.
    fn delete(&mut self, stamp: &[u8; 20], id: u32) -> Result<(), BookError>
        requires takes { takes self.old ≡ true }
        requires stamp { IsStamp stamp.now }
        ensures edits { Edits stands went (Deletes stamp.now id) (deletes_not id) self.old self.new result }
        ensures exact { result ≡ Err refused.Memory → ⊥ };

    /// The current epoch and its last event identifier. It takes no memory.
    fn point(&mut self) -> Point
        ensures reads { Reads stands went self.old self.new (λ chronicle. result ≡ point_of chronicle) };

    /// Whether something that is asked for has changed since a point. It takes no memory.
    fn moved(&mut self, after: Point, targets: &Idents) -> bool
        ensures reads { Reads stands went self.old self.new (λ chronicle. result ≡ moved_at chronicle after targets.now) };

    /// The answer to a request, of at most `max` octets.
    fn answer(&mut self, request: &Request, max: u32) -> Answer
        ensures reads { Reads stands went self.old self.new (λ chronicle. AnswerIs result (answer_at chronicle request.now max)) };

    /// Nothing came from a state to itself.
    ghost stays: { (desk : Self) → went desk [] desk };

    /// What came in two stretches came, one after the other, in both together.
    ghost follows: { (one two three : Self) (first second : List Mark) → went one first two → went two second three
        → went one (first ++ second) three };

    /// After entries that came it stands for each chronicle that it stood for, with these entries
    /// after it.
    ghost carries: { (before after : Self) (marks : List Mark) (chronicle : Chronicle) → went before marks after → stands before chronicle
        → stands after (extended chronicle (entries marks)) };

    /// Whether it takes changes stays as it is.
    ghost keeps: { (before after : Self) (marks : List Mark) → went before marks after → takes after ≡ takes before };

    /// It stands for legal chronicles alone.
    ghost legal: { (desk : Self) (chronicle : Chronicle) → stands desk chronicle → IsLegal chronicle };
}

impl Desk for Book {
    ghost use Rattle.std.specs.Prelude.{true};
    ghost use Rattle.collector_core.specs.BookDesk.{BookWent, stands_legal, stays_book, takes_still, went_on, went_with};
    ghost use Rattle.collector_core.specs.Standing.{Stands};

    ghost stands = { Stands };

    ghost went = { BookWent };

    ghost takes = { λ book. true };

    ghost stays = { stays_book };

    ghost follows = { went_on };

    ghost carries = { went_with };

    ghost keeps = { takes_still };

    ghost legal = { stands_legal };

    fn create(&mut self, stamp: &[u8; 20], content: &Content) -> Result<u32, BookError> {
        Book::create(self, stamp, content)
    }

    fn alter(&mut self, stamp: &[u8; 20], id: u32, content: &Content) -> Result<(), BookError> {
        Book::alter(self, stamp, id, content)
    }

    fn delete(&mut self, stamp: &[u8; 20], id: u32) -> Result<(), BookError> {
        Book::delete(self, stamp, id)
    }

    fn point(&mut self) -> Point {
        Book::point(self)
    }

    fn moved(&mut self, after: Point, targets: &Idents) -> bool {
        Book::moved(self, after, targets)
    }

    fn answer(&mut self, request: &Request, max: u32) -> Answer {
        Book::answer(self, request, max)
    }
}

/// What a desk answers to two requests, one after the other: the second at no earlier place of its
/// chronicle.
pub fn answers_in_turn<D: Desk>(
    desk: &mut D,
    one: &Request,
    two: &Request,
    max: u32,
) -> (Answer, Answer)
    ensures in_turn { AnswersInTurn D.stands D.went desk.old desk.new one.now two.now max result.0 result.1 }
{
    let first = desk.answer(one, max);
    let second = desk.answer(two, max);
    (first, second)
}
