//! Where octets go.

ghost use Rattle.std.specs.Prelude.{◌<◌, ◌≤◌, List, ℕ, Option, length, IfOk, is_err};
ghost use Rattle.wire_base.specs.Outside.{HasCause, Writes};

use crate::outside::source::Failed;

/// What takes octets in order, in pieces of its own choice.
pub trait Sink {
    /// The octets that were written, where the sink exposes them.
    ghost written: { Self → Option (List ℕ) };

    /// How many calls failed. It never falls.
    ghost faults: { Self → ℕ };

    /// Takes a prefix of `piece` of at least one octet, and says how many; `piece` is not empty.
    /// `Failed` leaves what was written as it was.
    fn write(&mut self, piece: &[u8]) -> Result<usize, Failed>
        requires { 0 < length piece.now }
        ensures some { IfOk result (λ count. 0 < count) }
        ensures within { IfOk result (λ count. count ≤ length piece.now) }
        ensures writes { Writes (written self.old) (written self.new) result piece.now }
        ensures cause { HasCause (faults self.old) (faults self.new) (is_err result) };
}
