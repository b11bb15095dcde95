//! Where links come from.

ghost use Rattle.std.specs.Option.{option_map};
ghost use Rattle.std.specs.Prelude.{◌≡◌, ◌∷◌, [], true, false, Bool, List, ℕ, Option, nat_lt};
ghost use Rattle.wire_base.specs.Doors.{Comes, LastCame, OnLink, has_failed, is_link, last_of};
ghost use Rattle.wire_base.specs.Outside.{Adds, HasCause};

use crate::outside::link::Link;

/// What a call of `Door::next` answers.
#[derive(Debug, Drop)]
pub enum Came<L> {
    /// The next link.
    Link(L),
    /// No link is left.
    Ended,
    /// The call failed.
    Failed,
}

/// What hands out links one after another. Each goes back before the next one comes.
pub trait Door {
    ghost use Rattle.wire_base.specs.Doors.{LastCame};

    /// The links that come.
    type L: Link;

    /// The links that are left to come, where the door exposes them.
    ghost left: { Self → Option (List Self.L) };

    /// The links that went back, in order, where the door exposes them: each as it was then, with
    /// its turns, with what was given on it, and with its count of faults.
    ghost returned: { Self → Option (List Self.L) };

    /// What the last call of `next` answered, where the door exposes it.
    ghost last: { Self → Option LastCame };

    /// Whether a link is out, which came and did not go back yet.
    ghost out: { Self → Bool };

    /// How many calls failed, together with the faults of the links that went back. It never falls.
    ghost faults: { Self → ℕ };

    /// The next link, which has no fault yet; or that none is left. A call that failed leaves the
    /// links that are left.
    fn next(&mut self) -> Came<Self::L>
        requires home { out self.old ≡ false }
        ensures comes { Comes (left self.old) (left self.new) result }
        ensures fresh { OnLink result (λ link. Self.L.faults link ≡ 0) }
        ensures returned { returned self.new ≡ returned self.old }
        ensures last { last self.new ≡ option_map (λ _. last_of result) (last self.old) }
        ensures out { out self.new ≡ is_link result }
        ensures cause { HasCause (faults self.old) (faults self.new) (has_failed result) };

    /// Takes back the link that is out. It takes no memory.
    fn back(&mut self, link: Self::L)
        requires out { out self.old ≡ true }
        ensures returned { Adds (returned self.old) (returned self.new) (link ∷ []) }
        ensures left { left self.new ≡ left self.old }
        ensures last { last self.new ≡ last self.old }
        ensures home { out self.new ≡ false }
        ensures cause { HasCause (faults self.old) (faults self.new) (nat_lt 0 (Self.L.faults link)) };
}
