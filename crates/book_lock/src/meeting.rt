//! How passes come from one another, and meet again.

ghost use Rattle.std.specs.Prelude.{◌≡◌, ◌&&◌, ◌||◌, ◌∷◌, false, not, true};
ghost use Rattle.book_lock.specs.Passes.{Agree, Grows, IsSound, met, split_from};
ghost use Rattle.book_lock.specs.Together.{AreOf, AreReaders, MetAll, one_may};

use crate::pass::Pass;
use crate::rule::{Meet, ToChange, ToRead};
use crate::shelf::Shelf;
use crate::steps::settle;

impl Shelf {
    /// A new pass, which has seen what the old one has and may change exactly where `changes` is
    /// true. The old one stays as it is, but is no longer sole where the new one may change. It
    /// takes no memory.
    pub fn split(&self, pass: &mut Pass, changes: bool) -> Pass
        requires here { pass.old.shelf ≡ self.now }
        requires may { changes ≡ true → pass.old.may_change ≡ true }
        ensures kept { pass.new ≡ record pass.old { sole = pass.old.sole && not changes } }
        ensures made { result ≡ split_from pass.old changes }
        ensures here { pass.new.shelf ≡ self.now }
        ensures made_here { result.shelf ≡ self.now }
        ensures may { pass.new.may_change ≡ pass.old.may_change }
        ensures made_may { result.may_change ≡ changes }
        ensures sound { IsSound pass.new }
        ensures made_sound { IsSound result }
    {
        if changes {
            return self.split_changer(pass);
        }
        self.split_reader(pass)
    }

    /// A new pass that may not change.
    fn split_reader(&self, pass: &mut Pass) -> Pass
        requires here { pass.old.shelf ≡ self.now }
        ensures kept { pass.new ≡ pass.old }
        ensures made { result ≡ split_from pass.old false }
        ensures sound { IsSound pass.new }
        ensures made_sound { IsSound result }
    {
        let seat = self.board.shared.split_seat::<ToRead>(&mut pass.seat);
        Pass {
            seat,
            changes: false,
        }
    }

    /// A new pass that may change.
    fn split_changer(&self, pass: &mut Pass) -> Pass
        requires here { pass.old.shelf ≡ self.now }
        requires may { pass.old.may_change ≡ true }
        ensures kept { pass.new ≡ record pass.old { sole = false } }
        ensures made { result ≡ split_from pass.old true }
        ensures sound { IsSound pass.new }
        ensures made_sound { IsSound result }
    {
        let seat = self.board.shared.split_seat::<ToChange>(&mut pass.seat);
        Pass {
            seat,
            changes: true,
        }
    }

    /// Takes another pass in. The pass then has seen the longer list, and the entries of both are
    /// its own. It may change where either might, and is sole where either was. It takes no memory.
    pub fn meet(&self, pass: &mut Pass, other: Pass)
        requires here { pass.old.shelf ≡ self.now }
        requires other_here { other.shelf ≡ self.now }
        ensures joined { pass.new ≡ met pass.old other }
        ensures agree { Agree pass.old.seen other.seen }
        ensures sole { pass.old.sole ≡ true → pass.new.seen ≡ pass.old.seen }
        ensures other_sole { other.sole ≡ true → pass.new.seen ≡ other.seen }
        ensures reader { other.may_change ≡ false → Grows pass.old pass.new }
        ensures here { pass.new.shelf ≡ self.now }
        ensures may { pass.new.may_change ≡ (pass.old.may_change || other.may_change) }
        ensures sound { IsSound pass.new }
    {
        let Pass { seat, changes } = other;
        self.board.shared.join_seat::<Meet>(&mut pass.seat, seat);
        settle(&self.board, &mut pass.seat);
        pass.changes = pass.changes | changes;
    }

    /// Takes many passes in, one after another. An entry that is then the pass's own was so in
    /// exactly one of them all; where one was sole, each entry that the pass has seen was. It takes
    /// no memory.
    pub fn meet_all(&self, pass: &mut Pass, mut others: Vec<Pass>)
        requires here { pass.old.shelf ≡ self.now }
        requires others_here { AreOf self.now others.items }
        ensures met { MetAll (pass.old ∷ others.items) pass.new }
        ensures sole { pass.old.sole ≡ true → pass.new.seen ≡ pass.old.seen }
        ensures readers { AreReaders others.items → Grows pass.old pass.new }
        ensures here { pass.new.shelf ≡ self.now }
        ensures may { pass.new.may_change ≡ (pass.old.may_change || one_may others.items) }
        ensures start { pass.new.start ≡ pass.old.start }
        ensures sound { IsSound pass.new }
    {
        let _changes = pass.may_change();
        while let Some(other) = others.pop() {
            self.meet(pass, other);
        }
    }
}
