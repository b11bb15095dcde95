//! A validator's end of a session, as a core without input and output.

ghost use Rattle.std.specs.Prelude.{◌≡◌, ◌<◌, ◌≤◌, ◌-◌, ◌++◌, ◌∷◌, [], List, Some, ℕ, false, is_some, length, min, take, drop};
ghost use Rattle.std.specs.Option.{option_copied};
ghost use Rattle.session_rules.specs.declared.end.Turn.TheVariants as comes;
ghost use Rattle.validator_core.specs.Held.{Held};
ghost use Rattle.validator_session.specs.Core.{Fell, Rests, StandsOn, Stood, Turned, over_of, received_of, turn_of, weight};
ghost use Rattle.validator_session.specs.Noting.{IsNoted};
ghost use Rattle.wire_base.specs.Turns.{Ended, Idle, Turn as LinkTurn, turns_of};

use crate::inner::Inner;
use crate::notes::TakenReports;
use session_rules::{FollowConfig, SessionEnd, SessionRecord, Turn};
use std::alloc::Global;
use std::marker::Model;
use swima_model::Report;
use validator_core::Mirror;

/// A validator's end of a session. Octets go in by `hear`, and out by `waiting` and `carried`.
#[derive(Debug, Drop)]
pub struct FollowCore {
    inner: Inner,
}

impl Model for FollowCore {
    ghost use Rattle.validator_session.specs.Core.{IsCore};
    ghost use Rattle.validator_session.specs.declared.inner.Inner.{Inner};

    ghost Value = { Inner };

    ghost view = { λ follow. follow.inner };

    ghost invariant = { λ follow. IsCore follow.inner };
}

impl FollowCore {
    /// The core at the start of a session: nothing waits. It takes no memory.
    pub fn new(alloc: Global, config: &FollowConfig) -> Self
        requires rounds { 0 < config.now.rounds }
        requires idle { 0 < config.now.idle }
        requires octets { 0 < config.now.octets }
        ensures stands { (mirror : Held) → Stood config.now mirror [] [] result mirror }
        ensures config { result.end.config ≡ config.now }
    {
        FollowCore {
            inner: Inner::new(alloc, config),
        }
    }

    /// Hears a piece, of which no more is used than the limit on octets leaves.
    pub fn hear(&mut self, alloc: Global, mirror: &mut Mirror, piece: &[u8]) -> Turn
        ensures turned { is_some (over_of self.old) ≡ false
            → Turned self.old mirror.old (turns_of (take (self.old.end.config.octets - received_of self.old) piece.now)) self.new mirror.new }
        ensures rests { Rests self.old mirror.old result self.new mirror.new }
        ensures turn { result ≡ turn_of (over_of self.new) }
        ensures less { is_some (over_of self.new) ≡ false → 0 < length piece.now → weight self.new < weight self.old }
        ensures config { self.new.end.config ≡ self.old.end.config }
    {
        self.inner.hear(alloc, mirror, piece)
    }

    /// How many octets of a piece the limit allows.
    pub fn allowed(&self, len: usize) -> usize
        requires live { is_some (over_of self.now) ≡ false }
        ensures allowed { result ≡ min (self.now.end.config.octets - received_of self.now) len }
        ensures some { 0 < len → 0 < result }
    {
        self.inner.allowed(len)
    }

    /// Hears an idle turn.
    pub fn idle(&mut self, alloc: Global, mirror: &mut Mirror) -> Turn
        ensures turned { is_some (over_of self.old) ≡ false → Turned self.old mirror.old (Idle ∷ []) self.new mirror.new }
        ensures rests { Rests self.old mirror.old result self.new mirror.new }
        ensures turn { result ≡ turn_of (over_of self.new) }
        ensures config { self.new.end.config ≡ self.old.end.config }
        ensures mirror { mirror.new ≡ mirror.old }
        ensures less { is_some (over_of self.new) ≡ false → weight self.new < weight self.old }
    {
        self.inner.idle(alloc, mirror)
    }

    /// Hears that the link has ended.
    pub fn link_ended(&mut self) -> SessionEnd
        ensures stood { (mirror : Held) → is_some (over_of self.old) ≡ false → StandsOn self.old mirror (Ended ∷ []) self.new mirror }
        ensures rests { (mirror : Held) → Rests self.old mirror (comes.Over result) self.new mirror }
        ensures over { over_of self.new ≡ Some result }
        ensures config { self.new.end.config ≡ self.old.end.config }
    {
        self.inner.link_ended()
    }

    /// The octets that wait to be given.
    pub fn waiting(&self) -> &[u8]
        ensures waiting { result.now ≡ self.now.end.out }
    {
        self.inner.waiting()
    }

    /// The first `count` of the octets that wait were given.
    pub fn carried(&mut self, count: usize)
        requires within { count ≤ length self.old.end.out }
        ensures stands { (c : _) (mirror : Held) (turns : List LinkTurn) (carried : List ℕ) (now : Held)
            → Stood c mirror turns carried self.old now → Stood c mirror turns (carried ++ take count self.old.end.out) self.new now }
        ensures falls { (c : _) (mirror : Held) (turns : List LinkTurn) (carried : List ℕ) (now : Held)
            → Fell c mirror turns carried self.old now → Fell c mirror turns (carried ++ take count self.old.end.out) self.new now }
        ensures rest { self.new.end.out ≡ drop count self.old.end.out }
        ensures over { over_of self.new ≡ over_of self.old }
        ensures weight { weight self.new ≡ weight self.old }
        ensures config { self.new.end.config ≡ self.old.end.config }
    {
        self.inner.carried(count);
    }

    /// What is noted of the session.
    pub fn record(&self) -> &SessionRecord
        ensures record { result.now ≡ self.now.end.standing.notes.record }
    {
        self.inner.record()
    }

    /// The reports that the mirror took.
    pub fn reports(&self) -> &TakenReports
        ensures reports { result.now ≡ self.now.end.standing.notes.reports }
    {
        self.inner.reports()
    }

    /// The last of them.
    pub fn last(&self) -> Option<&Report>
        ensures last { option_copied result ≡ self.now.end.standing.notes.last }
    {
        self.inner.last()
    }

    /// What is noted of the session, once it is over.
    pub fn into_record(self) -> SessionRecord
        ensures record { result ≡ self.end.standing.notes.record }
        ensures noted { IsNoted self.end.standing.notes }
    {
        let FollowCore { inner } = self;
        inner.into_record()
    }
}
