//! The world of a script.

ghost use Rattle.std.specs.Prelude.{◌≡◌, ◌≤◌, ◌↔◌, [], OnOk, IsTrue, length};
ghost use Rattle.collector_core.specs.Chronicle.{Chronicle};
ghost use Rattle.collector_core.specs.Edits.{IsStamped};
ghost use Rattle.collector_core.specs.Standing.{Stands};
ghost use Rattle.collector_core.specs.declared.error.BookError.TheVariants as refused;
ghost use Rattle.collector_session.specs.Sizes.{MOST_ROOM};
ghost use Rattle.session_world.specs.Lines.{again, collector_rests, cuts, downs, enters, idles, is_quiet, opens, round, runs, ups, validator_rests};
ghost use Rattle.session_world.specs.Standing.{Does, DoesOk, StandsFor, view_down, view_up};
ghost use Rattle.session_world.specs.Tellings.{ToldOf};
ghost use Rattle.session_world.specs.World.{World as WorldValue, begun, carried_up, is_open, waits_down, waits_up};

use crate::joined::Joined;
use crate::telling::{Telling, Tellings};
use crate::terms::Terms;
use collector_core::{Book, BookError, Changed, Edit};
use std::alloc::Global;
use std::marker::Model;
use swima_model::Kind;
use validator_core::Mirror;
use wire_base::{Memory, Octets};

/// The most rounds that a run takes.
const MOST_ROUNDS: u64 = 8_589_934_590;

/// An inventory, a mirror of it, and at most one session between them.
#[derive(Debug)]
pub struct World {
    terms: Terms,
    book: Book,
    mirror: Mirror,
    joined: Option<Joined>,
}

/// Written out for the same reason as that of a session.
impl Drop for World {
    fn drop(self) {
        let Self {
            terms: _,
            book: _,
            mirror: _,
            joined: _,
        } = self;
    }
}

impl Model for World {
    ghost use Rattle.std.specs.Prelude.{◌≤◌};
    ghost use Rattle.collector_session.specs.Sizes.{MOST_ROOM};
    ghost use Rattle.session_world.specs.Standing.{WorldView};

    ghost Value = { WorldView };

    ghost view = { λ world. record { terms = world.terms; book = world.book; mirror = world.mirror; joined = world.joined } };

    ghost invariant = { λ world. world.terms.max ≤ MOST_ROOM };
}

impl World {
    /// The world of a book, with an empty mirror of the kind and no session. Its sessions keep to
    /// the terms.
    pub fn new(alloc: Global, terms: Terms, book: Book, kind: Kind) -> Self
        requires max { terms.max ≤ MOST_ROOM }
        ensures begins { (chronicle : Chronicle) → Stands book chronicle → StandsFor result (begun terms chronicle kind) }
    {
        World {
            terms,
            book,
            mirror: Mirror::new(alloc, kind),
            joined: None,
        }
    }

    /// The mirror.
    pub fn mirror(&self) -> &Mirror
        ensures mirror { result.now ≡ self.now.mirror }
    {
        &self.mirror
    }

    /// Whether a session is open.
    pub fn is_open(&self) -> bool
        ensures session { (w : WorldValue) → StandsFor self.now w → result ≡ is_open w }
    {
        match &self.joined {
            None => false,
            Some(_) => true,
        }
    }

    /// Changes the inventory, or reports why it refuses the change.
    pub fn enter(&mut self, edit: Edit<'_>, told: &mut Tellings) -> Result<(), Memory>
        requires stamped { IsStamped edit }
        ensures does { DoesOk (enters edit.entry) self.old told.old self.new told.new result }
    {
        let done = self.book.apply(edit);
        tell_refusal(done, told)
    }

    /// Begins another session, and cuts one that is open.
    pub fn open(&mut self, alloc: Global) -> Result<(), Memory>
        ensures does { DoesOk opens self.old [] self.new [] result }
    {
        self.joined = Some(Joined::new(alloc, self.terms)?);
        Ok(())
    }

    /// Cuts the session, and drops all that waits.
    pub fn cut(&mut self)
        ensures does { Does cuts self.old [] self.new [] }
    {
        self.joined = None;
    }

    /// The octets that wait for the validator.
    pub fn waiting_up(&self) -> &[u8]
        ensures waiting { result.now ≡ view_up self.now }
        ensures waits { (w : WorldValue) → StandsFor self.now w → result.now ≡ waits_up w }
    {
        match &self.joined {
            None => &[],
            Some(joined) => joined.waiting_up(),
        }
    }

    /// The octets that wait for the collector.
    pub fn waiting_down(&self) -> &[u8]
        ensures waiting { result.now ≡ view_down self.now }
        ensures waits { (w : WorldValue) → StandsFor self.now w → result.now ≡ waits_down w }
    {
        match &self.joined {
            None => &[],
            Some(joined) => joined.waiting_down(),
        }
    }

    /// Carries at most that many of the octets that wait to the validator, as one piece.
    pub fn up(&mut self, alloc: Global, most: usize, told: &mut Tellings) -> Result<(), Memory>
        ensures does { DoesOk (ups most) self.old told.old self.new told.new result }
    {
        let count = self.waiting_up().len().min(most);
        self.carry_up(alloc, count, told)
    }

    /// Carries at most that many of the octets that wait to the collector, as one piece.
    pub fn down(&mut self, alloc: Global, most: usize, told: &mut Tellings) -> Result<(), Memory>
        ensures does { DoesOk (downs most) self.old told.old self.new told.new result }
    {
        let count = self.waiting_down().len().min(most);
        self.carry_down(alloc, count, told)
    }

    /// Carries all that waits, up and then down.
    pub fn round(&mut self, alloc: Global, told: &mut Tellings) -> Result<(), Memory>
        ensures does { DoesOk (round) self.old told.old self.new told.new result }
    {
        self.carry_up(alloc, self.waiting_up().len(), told)?;
        self.carry_down(alloc, self.waiting_down().len(), told)
    }

    /// Carries all, up and then down, until nothing waits.
    pub fn run(&mut self, alloc: Global, told: &mut Tellings) -> Result<(), Memory>
        ensures does { DoesOk (runs) self.old told.old self.new told.new result }
    {
        for _ in 0..MOST_ROUNDS {
            if self.is_quiet() {
                return Ok(());
            }
            self.round(alloc, told)?;
        }
        Ok(())
    }

    /// The same, and puts all octets that are carried to the validator at the end of `carried`.
    pub fn run_noting(
        &mut self,
        alloc: Global,
        told: &mut Tellings,
        carried: &mut Octets,
    ) -> Result<(), Memory>
        ensures does { DoesOk runs self.old told.old self.new told.new result }
        ensures noted { OnOk result ((w : WorldValue) → StandsFor self.old w
            → carried.old ≡ carried_up w → carried.new ≡ carried_up (runs w).0) }
    {
        for _ in 0..MOST_ROUNDS {
            if self.is_quiet() {
                return Ok(());
            }
            carried.extend(self.waiting_up())?;
            self.round(alloc, told)?;
        }
        Ok(())
    }

    /// Whether nothing waits.
    pub fn is_quiet(&self) -> bool
        ensures quiet { (w : WorldValue) → StandsFor self.now w → result ≡ is_quiet w }
    {
        self.waiting_up().is_empty() && self.waiting_down().is_empty()
    }

    /// An idle turn of the collector, and then one of the validator.
    pub fn idle(&mut self, alloc: Global, told: &mut Tellings) -> Result<(), Memory>
        ensures does { DoesOk (idles) self.old told.old self.new told.new result }
    {
        self.rest_collector(alloc, told)?;
        self.rest_validator(alloc, told)
    }

    /// The mirror takes the session's last report once more.
    pub fn again(&mut self, told: &mut Tellings) -> Result<(), Memory>
        ensures does { DoesOk again self.old told.old self.new told.new result }
    {
        match &self.joined {
            None => Ok(()),
            Some(joined) => joined.take_again(&mut self.mirror, told),
        }
    }

    fn carry_up(&mut self, alloc: Global, count: usize, told: &mut Tellings) -> Result<(), Memory>
        requires within { count ≤ length (view_up self.old) }
        ensures does { DoesOk (ups count) self.old told.old self.new told.new result }
    {
        match &mut self.joined {
            None => Ok(()),
            Some(joined) => joined.carry_up(alloc, &mut self.mirror, count, told),
        }
    }

    fn carry_down(&mut self, alloc: Global, count: usize, told: &mut Tellings) -> Result<(), Memory>
        requires within { count ≤ length (view_down self.old) }
        ensures does { DoesOk (downs count) self.old told.old self.new told.new result }
    {
        match &mut self.joined {
            None => Ok(()),
            Some(joined) => joined.carry_down(alloc, &mut self.book, count, told),
        }
    }

    fn rest_collector(&mut self, alloc: Global, told: &mut Tellings) -> Result<(), Memory>
        ensures does { DoesOk collector_rests self.old told.old self.new told.new result }
    {
        match &mut self.joined {
            None => Ok(()),
            Some(joined) => joined.rest_collector(alloc, &mut self.book, told),
        }
    }

    fn rest_validator(&mut self, alloc: Global, told: &mut Tellings) -> Result<(), Memory>
        ensures does { DoesOk validator_rests self.old told.old self.new told.new result }
    {
        match &mut self.joined {
            None => Ok(()),
            Some(joined) => joined.rest_validator(alloc, &mut self.mirror, told),
        }
    }
}

/// Reports why the inventory refused a change, if it did, unless memory ran out.
fn tell_refusal(done: Result<Changed, BookError>, told: &mut Tellings) -> Result<(), Memory>
    ensures told { OnOk result (ToldOf done told.old told.new) }
{
    match done {
        Ok(_) => Ok(()),
        Err(error) => {
            if is_memory(error) {
                return Err(Memory);
            }
            told.push(Telling::Refused(error))
        }
    }
}

/// Whether memory ran out.
fn is_memory(error: BookError) -> bool
    ensures memory { IsTrue result ↔ (error ≡ refused.Memory) }
{
    error == BookError::Memory
}
