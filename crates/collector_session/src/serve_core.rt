//! A collector's end of a session, as a core without input and output.

ghost use Rattle.std.specs.Prelude.{◌≡◌, ◌≢◌, ◌<◌, ◌≤◌, ◌+◌, ◌-◌, ◌∷◌, [], None, Some, IfOk, IfSome, length, min, drop};
ghost use Rattle.collector_session.specs.Cores.{Begins, Carries, cut_end, Turned, Turns, over, turn_of, used, weight};
ghost use Rattle.collector_session.specs.Sizes.{MOST_ROOM};
ghost use Rattle.session_rules.specs.declared.end.SessionEnd.TheVariants as end;
ghost use Rattle.session_rules.specs.declared.end.Turn.TheVariants as turn;
ghost use Rattle.wire_base.specs.Turns.{Ended, Idle, turns_of};

use crate::end::ServeEnd;
use crate::rules;
use crate::standing::Standing;
use collector_core::Desk;
use pb_batch::BatchFeed;
use session_hear::hear_octets;
use session_rules::{ServeConfig, SessionEnd, SessionRecord, Turn};
use std::alloc::Global;
use std::marker::Model;
use wire_base::{List, Memory};

/// A collector's end of a session. Octets go in by `hear`, and out by `waiting` and `carried`.
#[derive(Debug, Drop)]
pub struct ServeCore {
    end: ServeEnd,
    feed: BatchFeed,
    quiet: u32,
}

impl Model for ServeCore {
    ghost use Rattle.collector_session.specs.Cores.{Core, IsCore};

    ghost Value = { Core };

    ghost view = { λ core. record { end = core.end; feed = core.feed; quiet = core.quiet } };

    ghost invariant = { λ core. IsCore (record { end = core.end; feed = core.feed; quiet = core.quiet }) };
}

impl ServeCore {
    /// The core at the start of a session: its first CDATA waits.
    pub fn new(alloc: Global, config: &ServeConfig) -> Result<Self, Memory>
        requires max { config.now.max ≤ MOST_ROOM }
        requires idle { 0 < config.now.idle }
        requires octets { 0 < config.now.octets }
        ensures stood { IfOk result Begins }
        ensures config { IfOk result (λ core. core.end.config ≡ config.now) }
        ensures live { IfOk result (λ core. over core ≡ None) }
    {
        let standing = Standing::new(alloc);
        let out = List::new(alloc);
        let mut end = ServeEnd {
            config: *config,
            standing,
            out,
        };
        rules::begin(alloc, &mut end.standing.machine, &mut end.out)?;
        let feed = BatchFeed::new(alloc, true);
        Ok(ServeCore {
            end,
            feed,
            quiet: 0,
        })
    }

    /// Hears a piece, of which no more is used than the limit on octets leaves.
    pub fn hear<D: Desk>(&mut self, alloc: Global, desk: &mut D, piece: &[u8]) -> Turn
        ensures over { IfSome (over self.old) (λ by. (result ≡ turn.Over by) × (self.new ≡ self.old) × (desk.new ≡ desk.old)) }
        ensures turned { over self.old ≡ None → Turned D.stands D.went desk.old desk.new self.old (turns_of (used self.old piece.now)) self.new }
        ensures turn { result ≡ turn_of (over self.new) }
        ensures less { over self.new ≡ None → 0 < length piece.now → weight self.new < weight self.old }
        ensures config { self.new.end.config ≡ self.old.end.config }
    {
        if let Some(end) = self.end.standing.over {
            return Turn::Over(end);
        }
        if piece.is_empty() {
            return Turn::Goes;
        }
        let used = self.allowed(piece.len());
        self.take(alloc, desk, &piece[..used]);
        self.turn()
    }

    /// How many octets of a piece the limit allows.
    pub fn allowed(&self, len: usize) -> usize
        requires live { over self.now ≡ None }
        ensures allowed { result ≡ min (self.now.end.config.octets - self.now.end.standing.record.received) len }
        ensures some { 0 < len → 0 < result }
        ensures within { self.now.end.standing.record.received + result ≤ self.now.end.config.octets }
    {
        let left = self.end.config.octets - self.end.standing.record.received;
        left.min(len as u64) as usize
    }

    /// Hears a piece that the limit allows.
    fn take<D: Desk>(&mut self, alloc: Global, desk: &mut D, piece: &[u8])
        requires live { over self.old ≡ None }
        requires some { 0 < length piece.now }
        requires room { self.old.end.standing.record.received + length piece.now ≤ self.old.end.config.octets }
        ensures turned { Turned D.stands D.went desk.old desk.new self.old (turns_of piece.now) self.new }
        ensures less { weight self.new < weight self.old }
        ensures config { self.new.end.config ≡ self.old.end.config }
    {
        let received = self.end.standing.record.received;
        let taken = taken_more(received, piece.len(), self.end.config.octets);
        self.end.standing.record.received = taken;
        self.quiet = 0;
        match hear_octets(alloc, &mut self.end, desk, &mut self.feed, piece) {
            Ok(()) => self.end.spend(),
            Err(Memory) => self.end.standing.over = Some(SessionEnd::Memory),
        }
    }

    /// Hears an idle turn.
    pub fn idle<D: Desk>(&mut self, alloc: Global, desk: &mut D) -> Turn
        ensures over { IfSome (over self.old) (λ by. (result ≡ turn.Over by) × (self.new ≡ self.old) × (desk.new ≡ desk.old)) }
        ensures turned { over self.old ≡ None → Turned D.stands D.went desk.old desk.new self.old (Idle ∷ []) self.new }
        ensures turn { result ≡ turn_of (over self.new) }
        ensures less { over self.new ≡ None → weight self.new < weight self.old }
        ensures config { self.new.end.config ≡ self.old.end.config }
    {
        if let Some(end) = self.end.standing.over {
            return Turn::Over(end);
        }
        self.rest(alloc, desk);
        self.turn()
    }

    /// Hears an idle turn in a session that is not over.
    fn rest<D: Desk>(&mut self, alloc: Global, desk: &mut D)
        requires live { over self.old ≡ None }
        ensures turned { Turned D.stands D.went desk.old desk.new self.old (Idle ∷ []) self.new }
        ensures less { weight self.new < weight self.old }
        ensures config { self.new.end.config ≡ self.old.end.config }
    {
        let turns = idle_more(self.quiet, self.end.config.idle);
        self.quiet = turns;
        match self.end.rest(alloc, desk, turns) {
            Ok(()) => (),
            Err(Memory) => self.end.standing.over = Some(SessionEnd::Memory),
        }
    }

    /// Hears that the link has ended.
    pub fn link_ended(&mut self) -> SessionEnd
        ensures over { IfSome (over self.old) (λ by. (result ≡ by) × (self.new ≡ self.old)) }
        ensures stood { over self.old ≡ None → Turns self.old (Ended ∷ []) self.new }
        ensures ended { over self.new ≡ Some result }
        ensures config { self.new.end.config ≡ self.old.end.config }
    {
        if let Some(end) = self.end.standing.over {
            return end;
        }
        let end = cut(self.feed.have());
        self.end.standing.over = Some(end);
        end
    }

    /// The octets that wait to be given.
    pub fn waiting(&self) -> &[u8]
        ensures waiting { result.now ≡ self.now.end.out }
    {
        self.end.out.as_slice()
    }

    /// The first `count` of the octets that wait were given.
    pub fn carried(&mut self, count: usize)
        requires within { count ≤ length self.old.end.out }
        ensures stands { Carries self.old count self.new }
        ensures rest { self.new.end.out ≡ drop count self.old.end.out }
        ensures over { over self.new ≡ over self.old }
        ensures weight { weight self.new ≡ weight self.old }
        ensures config { self.new.end.config ≡ self.old.end.config }
    {
        self.end.out.drop_front(count);
        let sent = self.end.standing.record.sent;
        self.end.standing.record.sent = sent.saturating_add(count as u64);
    }

    /// What is noted of the session.
    pub fn record(&self) -> &SessionRecord
        ensures record { result.now ≡ self.now.end.standing.record }
    {
        &self.end.standing.record
    }

    /// What is noted of the session, once it is over.
    pub fn into_record(self) -> SessionRecord
        ensures record { result ≡ self.end.standing.record }
        ensures taken { result.taken ≡ [] }
        ensures own { over self ≢ Some end.LinkFault }
    {
        let ServeCore { end, .. } = self;
        end.into_record()
    }

    /// What the last turn came to.
    fn turn(&self) -> Turn
        ensures turn { result ≡ turn_of (over self.now) }
    {
        match self.end.standing.over {
            None => Turn::Goes,
            Some(end) => Turn::Over(end),
        }
    }
}

/// How many octets were taken, with that many more, within the limit.
fn taken_more(taken: u64, more: usize, most: u64) -> u64
    ensures taken { taken + more ≤ most → result ≡ taken + more }
{
    taken.saturating_add(more as u64).min(most)
}

/// How many turns were idle, with one more, within the limit.
fn idle_more(idle: u32, most: u32) -> u32
    ensures idle { idle < most → result ≡ idle + 1 }
{
    idle.saturating_add(1).min(most)
}

/// How a session ends where the link has, with that many octets of a batch that is not whole.
fn cut(have: u64) -> SessionEnd
    ensures cut { result ≡ cut_end have }
{
    if have == 0 {
        SessionEnd::Ended
    } else {
        SessionEnd::Torn { have }
    }
}
