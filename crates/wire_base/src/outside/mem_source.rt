//! A source over octets in memory, some of whose calls fail.

ghost use Rattle.std.specs.Prelude.{◌≡◌, ◌<◌, ◌≤◌, if◌then◌else◌, List, ℕ, [], Some, IfOk, is_err, length, min};
ghost use Rattle.wire_base.specs.Counter.{next};
ghost use Rattle.wire_base.specs.InMemory.{SourceInMemory, next_fails};
ghost use Rattle.wire_base.specs.Outside.{HasCause, Reads};

use crate::outside::failing_calls::FailingCalls;
use crate::outside::no_fault_streams::NoFaultSource;
use crate::outside::source::{Failed, Source};
use crate::values::list::Octets;
use crate::values::memory::Memory;
use std::alloc::Global;
use std::marker::Model;

/// A source over octets in memory that exposes what is left; the calls whose numbers it was given
/// fail.
#[derive(Debug, Drop)]
pub struct MemSource {
    octets: NoFaultSource,
    calls: FailingCalls,
}

impl Model for MemSource {
    ghost use Rattle.wire_base.specs.InMemory.{SourceInMemory};

    ghost Value = { SourceInMemory };

    ghost view = { λ source. record { left = source.octets; made = source.calls.made; failing = source.calls.failing; faults = source.calls.faults } };
}

impl MemSource {
    /// A source that has all of `octets` left, and fails at the calls numbered in `failing`, the
    /// first being 1.
    pub fn new(alloc: Global, octets: Octets, failing: &[u64]) -> Result<Self, Memory>
        ensures made { IfOk result (λ source. source
            ≡ record { left = octets; made = 0; failing = failing.now; faults = 0 }) }
    {
        Ok(MemSource {
            octets: NoFaultSource::new(octets),
            calls: FailingCalls::new(alloc, failing)?,
        })
    }
}

impl Source for MemSource {
    ghost left = { λ source. Some source.left };

    ghost faults = { λ source. source.faults };

    /// Moves as many octets as there are and as `buf` has room for, unless the call is one that
    /// fails.
    fn read(&mut self, buf: &mut [u8]) -> Result<usize, Failed>
        requires { 0 < length buf.old }
        ensures within { IfOk result (λ count. count ≤ length buf.new) }
        ensures reads { Reads (Some self.old.left) (Some self.new.left) result buf.new }
        ensures cause { HasCause self.old.faults self.new.faults (is_err result) }
        ensures fails { is_err result ≡ next_fails self.old.made self.old.failing }
        ensures all { IfOk result (λ count. count ≡ min (length buf.new) (length self.old.left)) }
        ensures faults { self.new.faults ≡ (if is_err result then next self.old.faults else self.old.faults) }
        ensures calls { (self.new.made ≡ next self.old.made) × (self.new.failing ≡ self.old.failing) }
    {
        if self.calls.begin_call(false) {
            return Err(Failed);
        }
        Ok(self.octets.take(buf))
    }
}
