//! A source and a sink that never fail.

ghost use Rattle.std.specs.Prelude.{◌≡◌, ◌<◌, ◌≤◌, ◌++◌, List, ℕ, None, Some, Ok, drop, length, min, take, IfOk, is_err};
ghost use Rattle.wire_base.specs.Outside.{HasCause, Reads, Writes};

use crate::outside::sink::Sink;
use crate::outside::source::{Failed, Source};
use crate::values::list::Octets;
use std::marker::Model;

/// A source over octets in memory, none of whose calls fails.
#[derive(Debug, Drop)]
pub struct NoFaultSource {
    octets: Octets,
    place: usize,
}

impl Model for NoFaultSource {
    ghost use Rattle.std.specs.Prelude.{◌≤◌, List, ℕ, drop, length};

    ghost Value = { List ℕ };

    ghost view = { λ source. drop source.place source.octets };

    ghost invariant = { λ source. source.place ≤ length source.octets };
}

impl NoFaultSource {
    /// A source that has all of `octets` left. It takes no memory.
    pub fn new(octets: Octets) -> Self
        ensures left { result ≡ octets }
    {
        NoFaultSource { octets, place: 0 }
    }

    /// Moves as many octets as there are, and as `buf` has room for, to the start of `buf`, and
    /// says how many.
    pub fn take(&mut self, buf: &mut [u8]) -> usize
        ensures count { result ≡ min (length buf.old) (length self.old) }
        ensures moved { self.old ≡ take result buf.new ++ self.new }
    {
        let (_, rest) = self.octets.as_slice().split_at(self.place);
        let count = buf.len().min(rest.len());
        buf[..count].copy_from_slice(&rest[..count]);
        self.place += count;
        count
    }
}

impl Source for NoFaultSource {
    ghost left = { λ source. Some source };

    ghost faults = { λ _. 0 };

    /// Moves as many octets as there are and as `buf` has room for. It never fails.
    fn read(&mut self, buf: &mut [u8]) -> Result<usize, Failed>
        requires { 0 < length buf.old }
        ensures within { IfOk result (λ count. count ≤ length buf.new) }
        ensures reads { Reads (Some self.old) (Some self.new) result buf.new }
        ensures cause { HasCause 0 0 (is_err result) }
        ensures all { result ≡ Ok (min (length buf.old) (length self.old)) }
    {
        Ok(self.take(buf))
    }
}

/// A sink that takes whatever it is given, keeps none of it and exposes nothing of it.
#[derive(Clone, Copy, Debug, PartialEq, Eq)]
pub struct NoFaultSink;

impl Sink for NoFaultSink {
    ghost written = { λ _. None };

    ghost faults = { λ _. 0 };

    /// Takes all of `piece`. It never fails.
    fn write(&mut self, piece: &[u8]) -> Result<usize, Failed>
        requires { 0 < length piece.now }
        ensures some { IfOk result (λ count. 0 < count) }
        ensures within { IfOk result (λ count. count ≤ length piece.now) }
        ensures writes { Writes None None result piece.now }
        ensures cause { HasCause 0 0 (is_err result) }
        ensures all { result ≡ Ok (length piece.now) }
    {
        Ok(piece.len())
    }
}
