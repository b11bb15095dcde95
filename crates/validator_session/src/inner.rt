//! A validator's end of a session: what it keeps, and what each turn does.

ghost use Rattle.std.specs.Prelude.{◌≡◌, ◌==◌, ◌<◌, ◌≤◌, ◌+◌, ◌-◌, ◌++◌, ◌∷◌, [], List, Some, ℕ, false, is_some, length, min, take, drop, if◌then◌else◌};
ghost use Rattle.std.specs.Option.{option_copied};
ghost use Rattle.session_rules.specs.declared.end.SessionEnd.TheVariants as end;
ghost use Rattle.session_rules.specs.declared.end.Turn.TheVariants as comes;
ghost use Rattle.validator_core.specs.Held.{Held};
ghost use Rattle.validator_session.specs.Core.{Fell, IsCore, Rests, StandsOn, Stood, Turned, over_of, received_of, spends, turn_of, weight};
ghost use Rattle.wire_base.specs.Turns.{Ended, Idle, Turn as LinkTurn, turns_of};

use crate::counts::{octets_more, one_more};
use crate::end::FollowEnd;
use crate::notes::TakenReports;
use crate::standing::Standing;
use pb_batch::BatchFeed;
use session_hear::hear_octets;
use session_rules::{FollowConfig, SessionEnd, SessionRecord, Turn};
use std::alloc::Global;
use swima_model::Report;
use validator_core::Mirror;
use wire_base::{List, Memory};

/// What a validator's end keeps of a session.
#[derive(Debug, Drop)]
pub(crate) struct Inner {
    /// The rules, and how it stands by them.
    pub(crate) end: FollowEnd,
    /// The octets of the batch that is not whole yet.
    pub(crate) feed: BatchFeed,
    /// How many turns were idle since the last octet.
    pub(crate) quiet: u32,
}

impl Inner {
    /// The core at the start of a session: nothing waits. It takes no memory.
    pub(crate) fn new(alloc: Global, config: &FollowConfig) -> Self
        requires rounds { 0 < config.now.rounds }
        requires idle { 0 < config.now.idle }
        requires octets { 0 < config.now.octets }
        ensures stands { (mirror : Held) → Stood config.now mirror [] [] result mirror }
        ensures config { result.end.config ≡ config.now }
        ensures core { IsCore result }
    {
        let standing = Standing::new(alloc);
        let out = List::new(alloc);
        let feed = BatchFeed::new(alloc, false);
        let end = FollowEnd {
            config: *config,
            standing,
            out,
        };
        Inner {
            end,
            feed,
            quiet: 0,
        }
    }

    /// Hears a piece, of which no more is used than the limit on octets leaves.
    pub(crate) fn hear(&mut self, alloc: Global, mirror: &mut Mirror, piece: &[u8]) -> Turn
        requires core { IsCore self.old }
        ensures turned { is_some (over_of self.old) ≡ false
            → Turned self.old mirror.old (turns_of (take (self.old.end.config.octets - received_of self.old) piece.now)) self.new mirror.new }
        ensures rests { Rests self.old mirror.old result self.new mirror.new }
        ensures turn { result ≡ turn_of (over_of self.new) }
        ensures less { is_some (over_of self.new) ≡ false → 0 < length piece.now → weight self.new < weight self.old }
        ensures config { self.new.end.config ≡ self.old.end.config }
        ensures core { IsCore self.new }
    {
        if let Some(end) = self.end.standing.over {
            return Turn::Over(end);
        }
        let used = self.allowed(piece.len());
        if used == 0 {
            return Turn::Goes;
        }
        self.take(alloc, mirror, &piece[..used]);
        self.turn()
    }

    /// How many octets of a piece the limit allows.
    pub(crate) fn allowed(&self, len: usize) -> usize
        requires room { received_of self.now ≤ self.now.end.config.octets }
        ensures allowed { result ≡ min (self.now.end.config.octets - received_of self.now) len }
    {
        let left = self.end.config.octets - self.end.standing.notes.record.received;
        left.min(len as u64) as usize
    }

    /// Hears a piece that the limit allows.
    fn take(&mut self, alloc: Global, mirror: &mut Mirror, piece: &[u8])
        requires core { IsCore self.old }
        requires live { is_some (over_of self.old) ≡ false }
        requires some { 0 < length piece.now }
        requires room { received_of self.old + length piece.now ≤ self.old.end.config.octets }
        ensures turned { Turned self.old mirror.old (turns_of piece.now) self.new mirror.new }
        ensures quiet { self.new.quiet ≡ 0 }
        ensures received { received_of self.new ≡ received_of self.old + length piece.now }
        ensures config { self.new.end.config ≡ self.old.end.config }
        ensures core { IsCore self.new }
    {
        let received = self.end.standing.notes.record.received;
        let taken = octets_more(received, piece.len(), self.end.config.octets);
        self.end.standing.notes.record.received = taken;
        self.quiet = 0;
        match hear_octets(alloc, &mut self.end, mirror, &mut self.feed, piece) {
            Ok(()) => {
                let octets = self.end.config.octets;
                spend(&mut self.end.standing, octets);
            }
            Err(Memory) => self.end.standing.over = Some(SessionEnd::Memory),
        }
    }

    /// Hears an idle turn.
    pub(crate) fn idle(&mut self, alloc: Global, mirror: &mut Mirror) -> Turn
        requires core { IsCore self.old }
        ensures turned { is_some (over_of self.old) ≡ false → Turned self.old mirror.old (Idle ∷ []) self.new mirror.new }
        ensures rests { Rests self.old mirror.old result self.new mirror.new }
        ensures turn { result ≡ turn_of (over_of self.new) }
        ensures config { self.new.end.config ≡ self.old.end.config }
        ensures mirror { mirror.new ≡ mirror.old }
        ensures less { is_some (over_of self.new) ≡ false → weight self.new < weight self.old }
        ensures core { IsCore self.new }
    {
        if let Some(end) = self.end.standing.over {
            return Turn::Over(end);
        }
        self.rest(alloc, mirror);
        self.turn()
    }

    /// Hears an idle turn of a session that is not over.
    fn rest(&mut self, alloc: Global, mirror: &Mirror)
        requires core { IsCore self.old }
        requires live { is_some (over_of self.old) ≡ false }
        ensures turned { Turned self.old mirror.now (Idle ∷ []) self.new mirror.now }
        ensures quiet { self.new.quiet ≡ self.old.quiet + 1 }
        ensures received { received_of self.new ≡ received_of self.old }
        ensures config { self.new.end.config ≡ self.old.end.config }
        ensures core { IsCore self.new }
    {
        let turns = one_more(self.quiet, self.end.config.idle);
        self.quiet = turns;
        self.end.idle(alloc, mirror, turns);
    }

    /// Hears that the link has ended.
    pub(crate) fn link_ended(&mut self) -> SessionEnd
        requires core { IsCore self.old }
        ensures stood { (mirror : Held) → is_some (over_of self.old) ≡ false → StandsOn self.old mirror (Ended ∷ []) self.new mirror }
        ensures rests { (mirror : Held) → Rests self.old mirror (comes.Over result) self.new mirror }
        ensures over { over_of self.new ≡ Some result }
        ensures config { self.new.end.config ≡ self.old.end.config }
        ensures core { IsCore self.new }
    {
        if let Some(end) = self.end.standing.over {
            return end;
        }
        let held = self.feed.have();
        let by = cut_end(held);
        self.end.standing.over = Some(by);
        by
    }

    /// The octets that wait to be given.
    pub(crate) fn waiting(&self) -> &[u8]
        ensures waiting { result.now ≡ self.now.end.out }
    {
        self.end.out.as_slice()
    }

    /// The first `count` of the octets that wait were given.
    pub(crate) fn carried(&mut self, count: usize)
        requires core { IsCore self.old }
        requires within { count ≤ length self.old.end.out }
        ensures stands { (c : _) (mirror : Held) (turns : List LinkTurn) (carried : List ℕ) (now : Held)
            → Stood c mirror turns carried self.old now → Stood c mirror turns (carried ++ take count self.old.end.out) self.new now }
        ensures falls { (c : _) (mirror : Held) (turns : List LinkTurn) (carried : List ℕ) (now : Held)
            → Fell c mirror turns carried self.old now → Fell c mirror turns (carried ++ take count self.old.end.out) self.new now }
        ensures rest { self.new.end.out ≡ drop count self.old.end.out }
        ensures over { over_of self.new ≡ over_of self.old }
        ensures weight { weight self.new ≡ weight self.old }
        ensures config { self.new.end.config ≡ self.old.end.config }
        ensures core { IsCore self.new }
    {
        self.end.out.drop_front(count);
        let sent = self.end.standing.notes.record.sent;
        self.end.standing.notes.record.sent = sent.saturating_add(count as u64);
    }

    /// What is noted of the session.
    pub(crate) fn record(&self) -> &SessionRecord
        ensures record { result.now ≡ self.now.end.standing.notes.record }
    {
        &self.end.standing.notes.record
    }

    /// The reports that the mirror took.
    pub(crate) fn reports(&self) -> &TakenReports
        ensures reports { result.now ≡ self.now.end.standing.notes.reports }
    {
        &self.end.standing.notes.reports
    }

    /// The last of them.
    pub(crate) fn last(&self) -> Option<&Report>
        ensures last { option_copied result ≡ self.now.end.standing.notes.last }
    {
        self.end.standing.notes.last.as_ref()
    }

    /// What is noted of the session, once it is over.
    pub(crate) fn into_record(self) -> SessionRecord
        ensures record { result ≡ self.end.standing.notes.record }
    {
        let Inner { end, .. } = self;
        end.into_record()
    }

    /// What the last turn came to.
    fn turn(&self) -> Turn
        ensures turn { result ≡ turn_of (over_of self.now) }
    {
        match self.end.standing.over {
            None => Turn::Goes,
            Some(end) => Turn::Over(end),
        }
    }
}

/// How the session ends where the other end closes, with that many octets of a batch that is not
/// whole.
fn cut_end(have: u64) -> SessionEnd
    ensures end { result ≡ (if have == 0 then end.Ended else end.Torn have) }
{
    if have == 0 {
        SessionEnd::Ended
    } else {
        SessionEnd::Torn { have }
    }
}

/// Ends the session where the last octet was taken that the limit allows.
fn spend(standing: &mut Standing, octets: u64)
    ensures spent { standing.new ≡ spends standing.old (standing.old.notes.record.received == octets) }
{
    if standing.notes.record.received == octets && standing.over.is_none() {
        standing.over = Some(SessionEnd::Enough);
    }
}
