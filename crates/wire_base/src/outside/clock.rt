//! The time of day.

ghost use Rattle.std.specs.Option.{option_map};
ghost use Rattle.std.specs.Prelude.{◌≡◌, ℕ, Option, IfSome};
ghost use Rattle.wire_base.specs.Clocks.{Moments, later_moments, this_moment};

/// What gives moments, in seconds since 1970-01-01T00:00:00Z, as it pleases.
pub trait Clock {
    ghost use Rattle.wire_base.specs.Clocks.{Moments};

    /// The moments that the clock will give, where it exposes them.
    ghost moments: { Self → Option Moments };

    /// The moment that comes now.
    fn now(&mut self) -> u64
        ensures moment { IfSome (moments self.old) (λ moments. result ≡ this_moment moments) }
        ensures later { moments self.new ≡ option_map later_moments (moments self.old) };

    /// Waits for as long as the clock pleases.
    fn rest(&mut self)
        ensures moments { moments self.new ≡ moments self.old };
}
