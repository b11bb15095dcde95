//! A connection between two ends, as one end sees it.

ghost use Rattle.std.specs.Prelude.{◌≡◌, ◌<◌, ◌≤◌, List, ℕ, Option, length, IfOk, is_err};
ghost use Rattle.wire_base.specs.Outside.{HasCause, Writes};
ghost use Rattle.wire_base.specs.Turns.{Takes, has_failed, was_idle};

use crate::outside::source::Failed;

/// What a call of `Link::take` answers.
#[derive(Clone, Copy, Debug, PartialEq, Eq)]
pub enum Took {
    /// This many octets came, at least one.
    Bytes(usize),
    /// Nothing came for a while.
    Idle,
    /// The other end has closed, and nothing is left.
    Ended,
    /// The call failed.
    Failed,
}

/// What gives the octets of another end, and takes octets for it, each in order and in pieces of
/// its own choice.
pub trait Link {
    ghost use Rattle.wire_base.specs.Turns.{Turn};

    /// The turns that were taken, where the link exposes them.
    ghost taken: { Self → Option (List Turn) };

    /// The turns that are left to be taken, where the link exposes them.
    ghost left: { Self → Option (List Turn) };

    /// The octets that were given, where the link exposes them.
    ghost given: { Self → Option (List ℕ) };

    /// How many calls failed. It never falls.
    ghost faults: { Self → ℕ };

    /// How many calls were idle turns. It never falls.
    ghost idles: { Self → ℕ };

    /// Moves the next octets to the start of `buf`, which is not empty, and answers how many; or
    /// that nothing came for a while, or that the other end has closed. A call that failed leaves
    /// the turns as they were.
    fn take(&mut self, buf: &mut [u8]) -> Took
        requires { 0 < length buf.old }
        ensures takes { Takes (taken self.old) (taken self.new) (left self.old) (left self.new) result buf.new }
        ensures given { given self.new ≡ given self.old }
        ensures cause { HasCause (faults self.old) (faults self.new) (has_failed result) }
        ensures idle { HasCause (idles self.old) (idles self.new) (was_idle result) };

    /// Gives at least one octet from the start of `piece`, which is not empty, and answers how
    /// many. `Failed` leaves what was given as it was.
    fn give(&mut self, piece: &[u8]) -> Result<usize, Failed>
        requires { 0 < length piece.now }
        ensures some { IfOk result (λ count. 0 < count) }
        ensures within { IfOk result (λ count. count ≤ length piece.now) }
        ensures gives { Writes (given self.old) (given self.new) result piece.now }
        ensures taken { taken self.new ≡ taken self.old }
        ensures left { left self.new ≡ left self.old }
        ensures idles { idles self.new ≡ idles self.old }
        ensures cause { HasCause (faults self.old) (faults self.new) (is_err result) };
}
