//! Where a worker stands: its door, and what it works with there.

ghost use Rattle.std.specs.Prelude.{◌≡◌, IsSome, None, Some};

use book_lock::Pass;
use session_door::Work;
use validator_core::Mirror;

/// A door, and room for what its worker works with. Outside of the calls of this crate the room is
/// empty.
#[derive(Drop)]
pub struct Stand<D> {
    /// The door.
    pub door: D,
    pub(crate) pass: Option<Pass>,
    pub(crate) mirror: Option<Mirror>,
    pub(crate) work: Option<Work>,
}

impl<D> Stand<D> {
    /// A stand at a door, with its room empty. It takes no memory.
    pub fn new(door: D) -> Self
        ensures made { result ≡ record { door = door; pass = None; mirror = None; work = None } }
    {
        Stand {
            door,
            pass: None,
            mirror: None,
            work: None,
        }
    }

    /// Takes the pass.
    pub(crate) fn take_pass(&mut self) -> Pass
        requires some { IsSome self.old.pass }
        ensures pass { self.old.pass ≡ Some result }
        ensures rest { self.new ≡ record self.old { pass = None } }
    {
        self.pass.take().unwrap()
    }

    /// Takes the mirror.
    pub(crate) fn take_mirror(&mut self) -> Mirror
        requires some { IsSome self.old.mirror }
        ensures mirror { self.old.mirror ≡ Some result }
        ensures rest { self.new ≡ record self.old { mirror = None } }
    {
        self.mirror.take().unwrap()
    }

    /// Takes what came of the worker.
    pub(crate) fn take_work(&mut self) -> Work
        requires some { IsSome self.old.work }
        ensures work { self.old.work ≡ Some result }
        ensures rest { self.new ≡ record self.old { work = None } }
    {
        self.work.take().unwrap()
    }
}
