//! A shelf: one book that many passes share, each in its turn.

ghost use Rattle.std.specs.Prelude.{◌≡◌, [], ◌∷◌, Err, IfErr, IfOk, IsSome, Some, false, true};
ghost use Rattle.collector_core.specs.declared.error.BookError.TheVariants as refused;
ghost use Rattle.collector_core.specs.Answering.{AnswerIs, answer_at, moved_at};
ghost use Rattle.collector_core.specs.Chronicle.{Chronicle, point_of};
ghost use Rattle.collector_core.specs.Desks.{Edits, Reads};
ghost use Rattle.collector_core.specs.Edits.{IsStamped, edit_refusal, takes_memory};
ghost use Rattle.collector_core.specs.Standing.{StandsForSome};
ghost use Rattle.book_lock.specs.Passes.{AddsOwn, Closes, IsSound, PassStands, PassWent, Reports};

use crate::pass::{LastPass, Pass};
use crate::steps::{commit, give, reach};
use crate::view::Board;
use atomic_table::{Refused, Table};
use collector_core::{Answer, Book, BookError, Changed, Edit};
use std::alloc::{AllocFailed, Global};
use std::marker::{Brand, Model};
use std::snapshot::Snapshot;
use std::sync::Wait;
use swima_model::Point;
use swima_request::{Idents, Request};

/// One book for many passes. Threads may share it.
#[derive(Drop)]
pub struct Shelf {
    pub(crate) board: Board,
}

impl Model for Shelf {
    ghost use Rattle.atomic_table.specs.Seated.{TableId, table_id_coded};

    ghost Value = { TableId };

    ghost coded = { table_id_coded };

    ghost use Rattle.std.specs.Prelude.{◌≡◌};

    ghost view = { λ shelf. shelf.board.shared.table_id };

    ghost invariant = { λ shelf. (shelf.board.shared.table_id.words ≡ 3) × (shelf.board.shared.table_id.slots ≡ 1) };
}

/// What a shelf leaves when it is closed.
#[derive(Drop)]
pub struct Closed {
    /// The book.
    pub book: Book,
    /// What the pass had seen at the end.
    pub last: LastPass,
}

impl Shelf {
    /// A shelf for a book, and its first pass, which may change and is sole. Where memory runs out
    /// the book comes back.
    pub fn open(alloc: Global, book: Book) -> Result<(Shelf, Pass), Book>
        ensures opened { IfOk result (λ made. made.1 ≡ record { shelf = made.0; start = book; seen = []; may_change = true; sole = true }) }
        ensures here { IfOk result (λ made. made.1.shelf ≡ made.0) }
        ensures may { IfOk result (λ made. made.1.may_change ≡ true) }
        ensures sound { IfOk result (λ made. IsSound made.1) }
        ensures back { IfErr result (λ back. back ≡ book) }
    {
        let _point = book.point();
        let start = Snapshot::of(&book);
        match slot_of(alloc, book) {
            Ok(slots) => Shelf::over(alloc, slots, &start),
            Err(book) => Err(book),
        }
    }

    /// A shelf over the slot of a book.
    fn over(
        alloc: Global,
        slots: Vec<Option<Book>>,
        start: &Snapshot<Book>,
    ) -> Result<(Shelf, Pass), Book>
        requires slot { slots.items ≡ Some start.now.value ∷ [] }
        requires some { StandsForSome start.now.value }
        ensures opened { IfOk result (λ made. made.1 ≡ record { shelf = made.0; start = start.now.value; seen = []; may_change = true; sole = true }) }
        ensures sound { IfOk result (λ made. IsSound made.1) }
        ensures back { IfErr result (λ back. back ≡ start.now.value) }
    {
        match Table::new(alloc, &[0, 0, 0], slots, start) {
            Ok((board, seat)) => Ok((
                Shelf { board },
                Pass {
                    seat,
                    changes: true,
                },
            )),
            Err(Refused { slots }) => Err(taken_back(slots, start)),
        }
    }

    /// Does a change after what the pass then has seen. The refusals are the book's there.
    pub fn change<R: Wait>(
        &self,
        wait: &R,
        pass: &mut Pass,
        edit: Edit<'_>,
    ) -> Result<Changed, BookError>
        requires here { pass.old.shelf ≡ self.now }
        requires may { pass.old.may_change ≡ true }
        requires stamped { IsStamped edit }
        ensures edits { Edits PassStands PassWent (Reports edit.entry) (edit_refusal edit.entry) pass.old pass.new result }
        ensures exact { takes_memory edit.entry ≡ false → result ≡ Err refused.Memory → ⊥ }
        ensures point { (chronicle : Chronicle) → PassStands pass.new chronicle → IfOk result (λ changed. changed.point ≡ point_of chronicle) }
        ensures sole { pass.old.sole ≡ true → AddsOwn pass.old.seen result pass.new.seen }
        ensures here { pass.new.shelf ≡ self.now }
        ensures may { pass.new.may_change ≡ pass.old.may_change }
        ensures sound { IsSound pass.new }
    {
        let mut book = reach(wait, &self.board, &mut pass.seat);
        let before = Snapshot::of(&book);
        match book.apply(edit) {
            Ok(changed) => {
                commit::<Brand>(&self.board, &mut pass.seat, edit, &before);
                give(&self.board, &mut pass.seat, book);
                Ok(changed)
            }
            Err(error) => {
                give(&self.board, &mut pass.seat, book);
                Err(error)
            }
        }
    }

    /// The answer to a request, of at most `max` octets, at what the pass then has seen.
    pub fn ask<R: Wait>(&self, wait: &R, pass: &mut Pass, request: &Request, max: u32) -> Answer
        requires here { pass.old.shelf ≡ self.now }
        ensures reads { Reads PassStands PassWent pass.old pass.new (λ chronicle. AnswerIs result (answer_at chronicle request.now max)) }
        ensures sole { pass.old.sole ≡ true → pass.new.seen ≡ pass.old.seen }
        ensures here { pass.new.shelf ≡ self.now }
        ensures may { pass.new.may_change ≡ pass.old.may_change }
        ensures sound { IsSound pass.new }
    {
        let book = reach(wait, &self.board, &mut pass.seat);
        let answer = book.answer(request, max);
        give(&self.board, &mut pass.seat, book);
        answer
    }

    /// The current epoch and its last event identifier, at what the pass then has seen. It takes no
    /// memory.
    pub fn point<R: Wait>(&self, wait: &R, pass: &mut Pass) -> Point
        requires here { pass.old.shelf ≡ self.now }
        ensures reads { Reads PassStands PassWent pass.old pass.new (λ chronicle. result ≡ point_of chronicle) }
        ensures sole { pass.old.sole ≡ true → pass.new.seen ≡ pass.old.seen }
        ensures here { pass.new.shelf ≡ self.now }
        ensures may { pass.new.may_change ≡ pass.old.may_change }
        ensures sound { IsSound pass.new }
    {
        let book = reach(wait, &self.board, &mut pass.seat);
        let point = book.point();
        give(&self.board, &mut pass.seat, book);
        point
    }

    /// Whether something that is asked for has changed since a point, at what the pass then has
    /// seen. It takes no memory.
    pub fn moved<R: Wait>(&self, wait: &R, pass: &mut Pass, after: Point, targets: &Idents) -> bool
        requires here { pass.old.shelf ≡ self.now }
        ensures reads { Reads PassStands PassWent pass.old pass.new (λ chronicle. result ≡ moved_at chronicle after targets.now) }
        ensures sole { pass.old.sole ≡ true → pass.new.seen ≡ pass.old.seen }
        ensures here { pass.new.shelf ≡ self.now }
        ensures may { pass.new.may_change ≡ pass.old.may_change }
        ensures sound { IsSound pass.new }
    {
        let book = reach(wait, &self.board, &mut pass.seat);
        let moved = book.moved(after, targets);
        give(&self.board, &mut pass.seat, book);
        moved
    }

    /// Takes the book out, in the turn of the pass. What the pass had seen at the end comes with
    /// it. It takes no memory.
    pub fn close<R: Wait>(self, wait: &R, pass: Pass) -> Closed
        requires here { pass.shelf ≡ self }
        ensures closes { Closes pass result.book result.last }
        ensures sole { pass.sole ≡ true → result.last.seen ≡ pass.seen }
        ensures sound { IsSound result.last }
    {
        let Pass {
            mut seat,
            changes: _,
        } = pass;
        let book = reach(wait, &self.board, &mut seat);
        Closed {
            book,
            last: LastPass { seat },
        }
    }
}

/// The slot of a book; the book where memory runs out.
fn slot_of(alloc: Global, book: Book) -> Result<Vec<Option<Book>>, Book>
    ensures slot { IfOk result (λ slots. slots.items ≡ Some book ∷ []) }
    ensures back { IfErr result (λ back. back ≡ book) }
{
    let mut slots = Vec::new(alloc);
    match slots.push(Some(book)) {
        Ok(()) => Ok(slots),
        Err(AllocFailed { value }) => Err(held(value)),
    }
}

/// The book of a slot that came to nothing.
fn taken_back(mut slots: Vec<Option<Book>>, _start: &Snapshot<Book>) -> Book
    requires slot { slots.items ≡ Some _start.now.value ∷ [] }
    ensures back { result ≡ _start.now.value }
{
    held(slots.pop().flatten())
}

/// The book that a slot has.
fn held(slot: Option<Book>) -> Book
    requires some { IsSome slot }
    ensures held { slot ≡ Some result }
{
    match slot {
        Some(book) => book,
        None => unreachable!(),
    }
}
