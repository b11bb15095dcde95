//! Where octets come from.

ghost use Rattle.std.specs.Prelude.{◌<◌, ◌≤◌, List, ℕ, Option, length, IfOk, is_err};
ghost use Rattle.wire_base.specs.Outside.{HasCause, Reads};

use thiserror::Error;

/// A call of an object of the outside failed. It comes exactly where the object's count of faults
/// rose in that call.
#[derive(Clone, Copy, Debug, PartialEq, Eq, Error)]
#[error("the call failed")]
pub struct Failed;

/// What gives octets in order, in pieces of its own choice, to an end.
pub trait Source {
    /// The octets that are left, where the source exposes them.
    ghost left: { Self → Option (List ℕ) };

    /// How many calls failed. It never falls.
    ghost faults: { Self → ℕ };

    /// Moves the next octets to the start of `buf`, which is not empty, and says how many; 0 is
    /// the end of the input. `Failed` leaves what is left as it was.
    fn read(&mut self, buf: &mut [u8]) -> Result<usize, Failed>
        requires { 0 < length buf.old }
        ensures within { IfOk result (λ count. count ≤ length buf.new) }
        ensures reads { Reads (left self.old) (left self.new) result buf.new }
        ensures cause { HasCause (faults self.old) (faults self.new) (is_err result) };
}
