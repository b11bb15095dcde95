//! The clock of the system: the trusted edge. It exposes no moments.

ghost use Rattle.std.specs.Prelude.{◌≡◌, None};

use crate::outside::clock::Clock;
use std::marker::Model;
use std::thread;
use std::time::{Clock as TimeSource, Duration};

/// The clock of the system, and the moment that it gave last.
#[derive(Debug, Drop)]
pub struct SystemClock<R> {
    system: R,
    last: u64,
}

impl<R> Model for SystemClock<R> {
    ghost use Rattle.wire_base.specs.SystemLinks.{ClockAdapter};

    ghost Value = { ClockAdapter R };

    ghost view = { λ clock. record { inner = clock.system; last = clock.last } };
}

impl<R: TimeSource> SystemClock<R> {
    /// The clock of `system`, which gave no moment yet.
    pub fn new(system: R) -> Self
        ensures made { result ≡ record { inner = system; last = 0 } }
    {
        SystemClock { system, last: 0 }
    }
}

impl<R: TimeSource> Clock for SystemClock<R> {
    ghost moments = { λ _. None };

    /// The whole seconds since 1970 by the system. Where it gives no time, or one before 1970, the
    /// moment that came last comes again, which is 0 at first.
    fn now(&mut self) -> u64
        ensures system { self.new.inner ≡ self.old.inner }
        ensures last { self.new.last ≡ result }
    {
        if let Ok(since) = self.system.since_1970() {
            self.last = since.as_secs();
        }
        self.last
    }

    /// Waits for one second.
    fn rest(&mut self)
        ensures same { self.new ≡ self.old }
    {
        thread::sleep(&self.system, Duration::from_secs(1));
    }
}
