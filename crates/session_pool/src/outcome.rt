//! What came of all workers, with room that was taken before they began.

ghost use Rattle.std.specs.Prelude.{◌≡◌, ◌<◌, ◌≤◌, ◌∷◌, ◌+◌, ◌++◌, ◌||◌, [], IfErr, IfOk, false, true, vec_capacity, vec_len};
ghost use Rattle.session_door.specs.Visits.{is_failed};
ghost use Rattle.session_pool.specs.Outcomes.{ran_out};
ghost use Rattle.session_pool.specs.Rooms.{HasRoom, IsOutcomeOf};

use session_door::{Ends, Stop, Work};
use std::alloc::Global;
use wire_base::{List, Memory};

/// What is noted of the sessions of each door, in the order of the doors.
pub type DoorEnds = List<Ends>;

/// Whether each door failed, in the order of the doors.
pub type Bools = List<bool>;

/// What came of the workers so far.
#[derive(Drop)]
pub(crate) struct Outcome {
    pub(crate) ends: Vec<Ends>,
    pub(crate) door_failed: Vec<bool>,
    pub(crate) ran_out: bool,
}

impl Outcome {
    /// Nothing yet, with room for what comes of that many workers.
    pub(crate) fn with_room(alloc: Global, count: usize) -> Result<Self, Memory>
        ensures none { IfOk result (λ made. IsOutcomeOf [] made) }
        ensures room { IfOk result (λ made. HasRoom count made) }
    {
        Ok(Outcome {
            ends: Vec::with_capacity(alloc, count)?,
            door_failed: Vec::with_capacity(alloc, count)?,
            ran_out: false,
        })
    }

    /// Adds what came of one worker.
    pub(crate) fn add(&mut self, work: Work)
        requires room { (vec_len self.old.ends < vec_capacity self.old.ends) × (vec_len self.old.door_failed < vec_capacity self.old.door_failed) }
        ensures ends { self.new.ends.items ≡ self.old.ends.items ++ work.ends ∷ [] }
        ensures failed { self.new.door_failed.items ≡ self.old.door_failed.items ++ is_failed work.stop ∷ [] }
        ensures ran_out { self.new.ran_out ≡ (self.old.ran_out || ran_out work.stop) }
        ensures len { (vec_len self.new.ends ≡ vec_len self.old.ends + 1) × (vec_len self.new.door_failed ≡ vec_len self.old.door_failed + 1) }
        ensures room { (vec_capacity self.old.ends ≤ vec_capacity self.new.ends) × (vec_capacity self.old.door_failed ≤ vec_capacity self.new.door_failed) }
    {
        let Work { ends, stop } = work;
        self.ends.push(ends).unwrap();
        self.door_failed.push(is_failed(stop)).unwrap();
        self.ran_out |= ran_out(stop);
    }

    /// What came of all workers; `Memory` where one of them had none.
    pub(crate) fn whole(self) -> Result<(DoorEnds, Bools), Memory>
        ensures whole { IfOk result (λ came. (came.0 ≡ self.ends.items) × (came.1 ≡ self.door_failed.items) × (self.ran_out ≡ false)) }
        ensures memory { IfErr result (λ _. self.ran_out ≡ true) }
    {
        let Outcome {
            ends,
            door_failed,
            ran_out,
        } = self;
        if ran_out {
            return Err(Memory);
        }
        Ok((List::from_vec(ends), List::from_vec(door_failed)))
    }
}

/// Whether a worker stopped since its door failed.
fn is_failed(stop: Stop) -> bool
    ensures failed { result ≡ is_failed stop }
{
    stop == Stop::Failed
}

/// Whether a worker stopped since memory ran out.
fn ran_out(stop: Stop) -> bool
    ensures ran_out { result ≡ ran_out stop }
{
    stop == Stop::Memory
}
