//! The rules of one end of a session, as calls.

ghost use Rattle.std.specs.Prelude.{◌≡◌, ◌∷◌, [], true, false, is_ok, OnOk};
ghost use Rattle.pb_batch.specs.Written.{IsBatch, IsTold};
ghost use Rattle.session_hear.specs.Step.{Came, Faulty};

use pb_batch::{Batch, PbFault};
use std::alloc::Global;
use wire_base::Memory;

/// The rules of one end of a session. It keeps how the end stands and what waits to be given. `O`
/// is what it asks or changes beside: the desk of a collector, or the mirror of a validator.
///
/// What it does is a relation: from the one state to the other it did what the rules say to these
/// steps, to the end, or until memory ran out.
pub trait End<O> {
    ghost use Rattle.std.specs.Prelude.{◌≡◌, ◌++◌, [], Bool, List, true, false};
    ghost use Rattle.session_hear.specs.Step.{Step};

    /// What the rules say to the steps was done, from the one state to the other: to the end, or
    /// until memory ran out.
    ghost did: { Self → O → List Step → Self → O → Bool → Type 0 };

    /// The session is over.
    ghost over: { Self → Bool };

    /// It can take the next batch.
    ghost ready: { Self → Type 0 };

    /// Does what the rules say to a batch.
    fn come(&mut self, alloc: Global, beside: &mut O, batch: &Batch) -> Result<(), Memory>
        requires live { over self.old ≡ false }
        requires ready { ready self.old }
        requires batch { IsBatch batch.now }
        ensures did { did self.old beside.old (Came batch.now ∷ []) self.new beside.new (is_ok result) }
        ensures ready { OnOk result (over self.new ≡ false → ready self.new) };

    /// Does what the rules say to a fault, which ends the session.
    fn refuse(&mut self, alloc: Global, beside: &mut O, fault: PbFault) -> Result<(), Memory>
        requires live { over self.old ≡ false }
        requires ready { ready self.old }
        requires told { IsTold fault.code }
        ensures did { did self.old beside.old (Faulty fault ∷ []) self.new beside.new (is_ok result) }
        ensures over { OnOk result (over self.new ≡ true) };

    /// Whether the session is over.
    fn is_over(&self) -> bool
        ensures over { result ≡ over self.now };

    /// To no steps nothing is done.
    ghost none: { (end : Self) (beside : O) → did end beside [] end beside true };

    /// What was done to some steps, and then to others, was done to both.
    ghost then: { (one two three : Self) (first second third : O) (steps later : List Step) (well : Bool)
        → did one first steps two second true → did two second later three third well → did one first (steps ++ later) three third well };

    /// Memory may run out before the next step.
    ghost stops: { (one two : Self) (first second : O) (steps later : List Step)
        → did one first steps two second true → did one first (steps ++ later) two second false };

    /// Where memory ran out among the first steps, it did among all.
    ghost broke: { (one two : Self) (first second : O) (steps later : List Step)
        → did one first steps two second false → did one first (steps ++ later) two second false };

    /// After the session nothing is done.
    ghost rests: { (end : Self) (beside : O) (steps : List Step) → over end ≡ true → did end beside steps end beside true };
}
