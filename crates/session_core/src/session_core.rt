//! A core of either end.

ghost use Rattle.std.specs.Prelude.{◌≡◌, ◌<◌, ◌≤◌, None, length};

use collector_core::Desk;
use collector_session::ServeCore;
use session_rules::{SessionEnd, Turn};
use std::alloc::Global;
use validator_core::Mirror;
use validator_session::FollowCore;

/// An end of a session without input and output. `O` is what it asks or changes beside: the desk of
/// a collector, or the mirror of a validator.
///
/// What comes of turns that it took and of octets that were given is a relation: where it stood for
/// a session, it stands for it with these turns, once these octets were carried too.
pub(crate) trait SessionCore<O> {
    ghost use Rattle.std.specs.Prelude.{◌≡◌, ◌≢◌, ◌<◌, ◌≤◌, ◌++◌, ◌∷◌, [], List, ℕ, Option, None, Some, length, take, drop};
    ghost use Rattle.session_core.specs.Driving.{answer_of};
    ghost use Rattle.session_rules.specs.declared.end.SessionEnd.{SessionEnd as EndValue};
    ghost use Rattle.session_rules.specs.declared.end.SessionEnd.TheVariants as end;
    ghost use Rattle.wire_base.specs.Turns.{Turn as LinkTurn, Ended, Idle, turns_of};

    /// From the one state to the other it took these turns, and these octets were given.
    ghost ran: { Self → O → List LinkTurn → List ℕ → Self → O → Type 0 };

    /// How the session ended, if it has.
    ghost over: { Self → Option EndValue };

    /// How many octets it may still take.
    ghost left: { Self → ℕ };

    /// The octets that wait to be given.
    ghost waits: { Self → List ℕ };

    /// The most turns that it may still take.
    ghost weight: { Self → ℕ };

    /// How many octets of a piece the limit allows.
    fn allowed(&self, len: usize) -> usize
        requires live { over self.now ≡ None }
        ensures left { result ≤ left self.now }
        ensures within { result ≤ len }
        ensures some { 0 < len → 0 < result };

    /// Hears a piece of octets that the limit allows.
    fn hear(&mut self, alloc: Global, beside: &mut O, piece: &[u8]) -> Turn
        requires live { over self.old ≡ None }
        requires some { 0 < length piece.now }
        requires left { length piece.now ≤ left self.old }
        ensures ran { ran self.old beside.old (turns_of piece.now) [] self.new beside.new }
        ensures turn { result ≡ answer_of (over self.new) }
        ensures less { over self.new ≡ None → weight self.new < weight self.old };

    /// Hears an idle turn.
    fn idle(&mut self, alloc: Global, beside: &mut O) -> Turn
        requires live { over self.old ≡ None }
        ensures ran { ran self.old beside.old (Idle ∷ []) [] self.new beside.new }
        ensures turn { result ≡ answer_of (over self.new) }
        ensures less { over self.new ≡ None → weight self.new < weight self.old };

    /// Hears that the link has ended.
    fn link_ended(&mut self) -> SessionEnd
        requires live { over self.old ≡ None }
        ensures ran { (beside : O) → ran self.old beside (Ended ∷ []) [] self.new beside }
        ensures over { over self.new ≡ Some result };

    /// The octets that wait to be given.
    fn waiting(&self) -> &[u8]
        ensures waiting { result.now ≡ waits self.now };

    /// The first `count` of the octets that wait were given.
    fn carried(&mut self, count: usize)
        requires within { count ≤ length (waits self.old) }
        ensures ran { (beside : O) → ran self.old beside [] (take count (waits self.old)) self.new beside }
        ensures rest { waits self.new ≡ drop count (waits self.old) }
        ensures over { over self.new ≡ over self.old }
        ensures weight { weight self.new ≡ weight self.old };

    /// Nothing comes of nothing.
    ghost none: { (core : Self) (beside : O) → ran core beside [] [] core beside };

    /// What came of some turns and octets, and then of others, came of all.
    ghost then: { (one two three : Self) (first second third : O) (turns more : List LinkTurn) (octets rest : List ℕ)
        → ran one first turns octets two second → over two ≢ Some end.Memory → ran two second more rest three third
        → ran one first (turns ++ more) (octets ++ rest) three third };
}

impl<D: Desk> SessionCore<D> for ServeCore {
    ghost use Rattle.std.specs.Prelude.{◌-◌};
    ghost use Rattle.collector_session.specs.Cores as cores;
    ghost use Rattle.session_core.specs.Ran.{ServeRan};
    ghost use Rattle.session_core.specs.RanLaws.{serve_none, serve_then};

    ghost ran = { ServeRan D.stands D.went };

    ghost over = { cores.over };

    ghost left = { λ core. core.end.config.octets - core.end.standing.record.received };

    ghost waits = { λ core. core.end.out };

    ghost weight = { cores.weight };

    ghost none = { serve_none D.stands D.went D.stays D.follows D.carries };

    ghost then = { serve_then D.stands D.went D.stays D.follows D.carries };

    fn allowed(&self, len: usize) -> usize {
        ServeCore::allowed(self, len)
    }

    fn hear(&mut self, alloc: Global, beside: &mut D, piece: &[u8]) -> Turn {
        ServeCore::hear(self, alloc, beside, piece)
    }

    fn idle(&mut self, alloc: Global, beside: &mut D) -> Turn {
        ServeCore::idle(self, alloc, beside)
    }

    fn link_ended(&mut self) -> SessionEnd {
        ServeCore::link_ended(self)
    }

    fn waiting(&self) -> &[u8] {
        ServeCore::waiting(self)
    }

    fn carried(&mut self, count: usize) {
        ServeCore::carried(self, count);
    }
}

impl SessionCore<Mirror> for FollowCore {
    ghost use Rattle.std.specs.Prelude.{◌-◌};
    ghost use Rattle.session_core.specs.Ran.{FollowRan};
    ghost use Rattle.session_core.specs.RanLaws.{follow_none, follow_then};
    ghost use Rattle.validator_session.specs.Core as cores;

    ghost ran = { FollowRan };

    ghost over = { cores.over_of };

    ghost left = { λ core. core.end.config.octets - cores.received_of core };

    ghost waits = { λ core. core.end.out };

    ghost weight = { cores.weight };

    ghost none = { follow_none };

    ghost then = { follow_then };

    fn allowed(&self, len: usize) -> usize {
        FollowCore::allowed(self, len)
    }

    fn hear(&mut self, alloc: Global, beside: &mut Mirror, piece: &[u8]) -> Turn {
        FollowCore::hear(self, alloc, beside, piece)
    }

    fn idle(&mut self, alloc: Global, beside: &mut Mirror) -> Turn {
        FollowCore::idle(self, alloc, beside)
    }

    fn link_ended(&mut self) -> SessionEnd {
        FollowCore::link_ended(self)
    }

    fn waiting(&self) -> &[u8] {
        FollowCore::waiting(self)
    }

    fn carried(&mut self, count: usize) {
        FollowCore::carried(self, count);
    }
}
