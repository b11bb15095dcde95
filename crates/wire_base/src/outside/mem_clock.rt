//! A clock in memory.

ghost use Rattle.std.specs.Prelude.{◌≡◌, Some};
ghost use Rattle.wire_base.specs.Clocks.{Moments, later_moments, this_moment};

use crate::outside::clock::Clock;
use crate::values::list::List;
use std::collections::VecDeque;
use std::marker::Model;

/// A clock that exposes its moments: each of a list, one a call, and then one moment again and
/// again.
#[derive(Debug, Drop)]
pub struct MemClock {
    next: VecDeque<u64>,
    last: u64,
}

impl Model for MemClock {
    ghost use Rattle.wire_base.specs.Clocks.{Moments};

    ghost Value = { Moments };

    ghost view = { λ clock. record { next = clock.next.items; last = clock.last } };
}

impl MemClock {
    /// A clock that gives `moments` in order, and `last` from then on, in seconds since
    /// 1970-01-01T00:00:00Z. It takes no memory.
    pub fn new(moments: List<u64>, last: u64) -> Self
        ensures made { result ≡ record { next = moments; last = last } }
    {
        MemClock {
            next: VecDeque::from_vec(moments.into_vec()),
            last,
        }
    }
}

impl Clock for MemClock {
    ghost moments = { λ clock. Some clock };

    /// The first of the moments that are left, or the last one where none is.
    fn now(&mut self) -> u64
        ensures moment { result ≡ this_moment self.old }
        ensures later { self.new ≡ later_moments self.old }
    {
        self.next.pop_front().unwrap_or(self.last)
    }

    /// Returns at once.
    fn rest(&mut self)
        ensures moments { self.new ≡ self.old }
    {}
}
