//! A session between the two ends, whose octets are carried by hand.

ghost use Rattle.std.specs.Prelude.{◌≡◌, ◌≤◌, ◌++◌, ◌↔◌, OnOk, IfOk, IsTrue, drop, length, map};
ghost use Rattle.collector_core.specs.Chronicle.{Chronicle};
ghost use Rattle.collector_core.specs.Standing.{BookView};
ghost use Rattle.collector_session.specs.Sizes.{MOST_ROOM};
ghost use Rattle.session_rules.specs.declared.end.SessionEnd.TheVariants as end;
ghost use Rattle.session_world.specs.Lines.{again, collector_rests, downs, ends, ups, validator_rests};
ghost use Rattle.session_world.specs.Standing.{DoesOk, JoinedStands, joined_down, joined_up, joined_view};
ghost use Rattle.session_world.specs.Tellings.{ended_by, taken_telling, TookAgain};
ghost use Rattle.session_world.specs.World.{opened};
ghost use Rattle.session_world.specs.declared.telling.Telling.TheVariants as telling;
ghost use Rattle.session_world.specs.declared.terms.Terms.{Terms as TermsValue};
ghost use Rattle.validator_core.specs.Held.{Held};
ghost use Rattle.validator_core.specs.declared.mirror.Taken.TheVariants as taken;

use crate::telling::{Telling, Tellings};
use crate::terms::Terms;
use collector_core::Book;
use collector_session::ServeCore;
use session_rules::{FollowConfig, ServeConfig, SessionEnd, Turn};
use std::alloc::Global;
use swima_model::Report;
use validator_core::{Mirror, Taken};
use validator_session::{FollowCore, TakenReport};
use wire_base::Memory;

/// The most that both ends wait and take, and the validator follows.
const MOST: u32 = 4_294_967_295;

/// Both ends, and how each ended, if it has.
#[derive(Debug)]
pub(crate) struct Joined {
    serve: ServeCore,
    follow: FollowCore,
    collector: Option<SessionEnd>,
    validator: Option<SessionEnd>,
}

/// Written out, so that what drops a session is proved by one call. A derived drop is proved part
/// by part, again at each place where a session is dropped.
impl Drop for Joined {
    fn drop(self) {
        let Self {
            serve: _,
            follow: _,
            collector: _,
            validator: _,
        } = self;
    }
}

impl Joined {
    /// Both ends at the start of a session.
    pub(crate) fn new(alloc: Global, terms: Terms) -> Result<Self, Memory>
        requires max { terms.max ≤ MOST_ROOM }
        ensures stands { IfOk result (λ made. (chronicle : Chronicle) (mirror : Held) → JoinedStands terms chronicle mirror made (opened terms.subscribe mirror)) }
    {
        let serve = ServeConfig {
            max: terms.max,
            reports: None,
            idle: MOST,
            octets: MOST as u64,
        };
        let follow = FollowConfig {
            subscribe: terms.subscribe,
            rounds: MOST,
            idle: MOST,
            octets: MOST as u64,
        };
        Ok(Joined {
            serve: ServeCore::new(alloc, &serve)?,
            follow: FollowCore::new(alloc, &follow),
            collector: None,
            validator: None,
        })
    }

    /// The octets that wait for the validator.
    pub(crate) fn waiting_up(&self) -> &[u8]
        ensures waiting { result.now ≡ joined_up self.now }
    {
        match self.validator {
            None => self.serve.waiting(),
            Some(_) => &[],
        }
    }

    /// The octets that wait for the collector.
    pub(crate) fn waiting_down(&self) -> &[u8]
        ensures waiting { result.now ≡ joined_down self.now }
    {
        match self.collector {
            None => self.follow.waiting(),
            Some(_) => &[],
        }
    }

    /// Carries that many of the octets that wait to the validator, as one piece.
    pub(crate) fn carry_up(
        &mut self,
        alloc: Global,
        mirror: &mut Mirror,
        count: usize,
        told: &mut Tellings,
    ) -> Result<(), Memory>
        requires within { count ≤ length (joined_up self.old) }
        ensures does { (terms : TermsValue) (book : BookView) → DoesOk (ups count)
            (joined_view terms book mirror.old self.old) told.old (joined_view terms book mirror.new self.new) told.new result }
    {
        if self.validator.is_some() {
            return Ok(());
        }
        let before = self.follow.reports().len();
        let piece = &self.serve.waiting()[..count];
        let turn = self.follow.hear(alloc, mirror, piece);
        self.serve.carried(count);
        self.validator = ended(turn)?;
        self.tell_taken(before, told)?;
        tell_validator_end(self.validator, told)
    }

    /// Carries that many of the octets that wait to the collector, as one piece.
    pub(crate) fn carry_down(
        &mut self,
        alloc: Global,
        book: &mut Book,
        count: usize,
        told: &mut Tellings,
    ) -> Result<(), Memory>
        requires within { count ≤ length (joined_down self.old) }
        ensures does { (terms : TermsValue) (mirror : Held) → DoesOk (downs count)
            (joined_view terms book.old mirror self.old) told.old (joined_view terms book.new mirror self.new) told.new result }
    {
        if self.collector.is_some() {
            return Ok(());
        }
        let piece = &self.follow.waiting()[..count];
        let turn = self.serve.hear(alloc, book, piece);
        self.follow.carried(count);
        self.collector = ended(turn)?;
        tell_collector_end(self.collector, told)
    }

    /// An idle turn of the collector.
    pub(crate) fn rest_collector(
        &mut self,
        alloc: Global,
        book: &mut Book,
        told: &mut Tellings,
    ) -> Result<(), Memory>
        ensures does { (terms : TermsValue) (mirror : Held) → DoesOk collector_rests
            (joined_view terms book.old mirror self.old) told.old (joined_view terms book.new mirror self.new) told.new result }
    {
        if self.collector.is_some() {
            return Ok(());
        }
        let turn = self.serve.idle(alloc, book);
        self.collector = ended(turn)?;
        tell_collector_end(self.collector, told)
    }

    /// An idle turn of the validator.
    pub(crate) fn rest_validator(
        &mut self,
        alloc: Global,
        mirror: &mut Mirror,
        told: &mut Tellings,
    ) -> Result<(), Memory>
        ensures does { (terms : TermsValue) (book : BookView) → DoesOk validator_rests
            (joined_view terms book mirror.old self.old) told.old (joined_view terms book mirror.new self.new) told.new result }
    {
        if self.validator.is_some() {
            return Ok(());
        }
        let before = self.follow.reports().len();
        let turn = self.follow.idle(alloc, mirror);
        self.validator = ended(turn)?;
        self.tell_taken(before, told)?;
        tell_validator_end(self.validator, told)
    }

    /// The mirror takes the last report once more.
    pub(crate) fn take_again(&self, mirror: &mut Mirror, told: &mut Tellings) -> Result<(), Memory>
        ensures does { (terms : TermsValue) (book : BookView) → DoesOk again
            (joined_view terms book mirror.old self.now) told.old (joined_view terms book mirror.new self.now) told.new result }
    {
        match self.follow.last() {
            None => Ok(()),
            Some(report) => take_once_more(report, mirror, told),
        }
    }

    /// Puts the reports that the mirror took, except the first `before`, at the end of `told`.
    fn tell_taken(&self, before: usize, told: &mut Tellings) -> Result<(), Memory>
        ensures told { OnOk result (told.new ≡ told.old ++ map taken_telling (drop before self.now.follow.end.standing.notes.reports)) }
    {
        let reports = self.follow.reports().as_slice();
        let (_, taken) = reports.split_at(before.min(reports.len()));
        for one in taken {
            told.push(took(one))?;
        }
        Ok(())
    }
}

/// A mirror takes a report once more. No report that an attribute holds has 2^32 records.
fn take_once_more(report: &Report, mirror: &mut Mirror, told: &mut Tellings) -> Result<(), Memory>
    ensures took { OnOk result (TookAgain mirror.old report.now told.old mirror.new told.new) }
{
    let point = report.point();
    let Ok(count) = u32::try_from(report.count()) else {
        return Ok(());
    };
    let answer = mirror.take(report);
    if is_memory(answer) {
        return Err(Memory);
    }
    told.push(Telling::Took {
        point,
        count,
        answer,
    })
}

/// Whether the mirror ran out of memory.
fn is_memory(answer: Taken) -> bool
    ensures memory { IsTrue result ↔ (answer ≡ taken.Memory) }
{
    answer == Taken::Memory
}

/// How an end is over after a turn, if it is.
fn ended(turn: Turn) -> Result<Option<SessionEnd>, Memory>
    ensures ended { IfOk result (λ over. ended_by turn over) }
{
    match turn {
        Turn::Goes => Ok(None),
        Turn::Over(end) => {
            if is_out_of_memory(end) {
                return Err(Memory);
            }
            Ok(Some(end))
        }
    }
}

/// Whether memory ran out.
fn is_out_of_memory(by: SessionEnd) -> bool
    ensures memory { IsTrue result ↔ (by ≡ end.Memory) }
{
    by == SessionEnd::Memory
}

fn took(taken: &TakenReport) -> Telling
    ensures took { result ≡ taken_telling taken.now }
{
    Telling::Took {
        point: taken.point,
        count: taken.count,
        answer: taken.answer,
    }
}

fn tell_collector_end(end: Option<SessionEnd>, told: &mut Tellings) -> Result<(), Memory>
    ensures told { OnOk result (told.new ≡ told.old ++ ends telling.CollectorEnds end) }
{
    match end {
        None => Ok(()),
        Some(end) => told.push(Telling::CollectorEnds(end)),
    }
}

fn tell_validator_end(end: Option<SessionEnd>, told: &mut Tellings) -> Result<(), Memory>
    ensures told { OnOk result (told.new ≡ told.old ++ ends telling.ValidatorEnds end) }
{
    match end {
        None => Ok(()),
        Some(end) => told.push(Telling::ValidatorEnds(end)),
    }
}
