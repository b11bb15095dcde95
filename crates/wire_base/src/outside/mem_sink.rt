//! A sink into memory, some of whose calls fail, and which may run full.

ghost use Rattle.std.specs.Prelude.{◌≡◌, ◌<◌, ◌≤◌, ◌+◌, ◌-◌, ◌++◌, ◌||◌, ◌==◌, if◌then◌else◌, List, ℕ, [], Some, IfOk, OnErr, is_err, length, min, take};
ghost use Rattle.wire_base.specs.Counter.{next};
ghost use Rattle.wire_base.specs.InMemory.{SinkInMemory, next_fails};
ghost use Rattle.wire_base.specs.Outside.{HasCause, Writes};

use crate::outside::failing_calls::FailingCalls;
use crate::outside::sink::Sink;
use crate::outside::source::Failed;
use crate::values::memory::Memory;
use std::alloc::Global;
use std::marker::Model;

/// A sink into memory that exposes what was written. The calls whose numbers it was given fail, and
/// so does each call once there is no room left, as on a full device. All its room is taken when it
/// is made.
#[derive(Debug, Drop)]
pub struct MemSink {
    octets: Vec<u8>,
    room: usize,
    calls: FailingCalls,
}

impl Model for MemSink {
    ghost use Rattle.std.specs.Prelude.{◌≤◌, ◌+◌, vec_len, vec_capacity};
    ghost use Rattle.wire_base.specs.InMemory.{SinkInMemory};

    ghost Value = { SinkInMemory };

    ghost view = { λ sink. record { written = sink.octets.items; room = sink.room; made = sink.calls.made; failing = sink.calls.failing; faults = sink.calls.faults } };

    ghost invariant = { λ sink. vec_len sink.octets + sink.room ≤ vec_capacity sink.octets };
}

impl MemSink {
    /// An empty sink with room for `room` octets, that fails at the calls numbered in `failing`,
    /// the first being 1.
    pub fn new(alloc: Global, room: usize, failing: &[u64]) -> Result<Self, Memory>
        ensures made { IfOk result (λ sink. sink
            ≡ record { written = []; room = room; made = 0; failing = failing.now; faults = 0 }) }
    {
        let octets = Vec::with_capacity(alloc, room)?;
        Ok(MemSink {
            octets,
            room,
            calls: FailingCalls::new(alloc, failing)?,
        })
    }

    /// All octets that were written. It takes no memory.
    pub fn written(&self) -> &[u8]
        ensures octets { result.now ≡ self.now.written }
    {
        self.octets.as_slice()
    }
}

impl Sink for MemSink {
    ghost written = { λ sink. Some sink.written };

    ghost faults = { λ sink. sink.faults };

    /// Takes as much of `piece` as there is room for, unless there is none or the call is one that
    /// fails.
    fn write(&mut self, piece: &[u8]) -> Result<usize, Failed>
        requires { 0 < length piece.now }
        ensures some { IfOk result (λ count. 0 < count) }
        ensures within { IfOk result (λ count. count ≤ length piece.now) }
        ensures writes { Writes (Some self.old.written) (Some self.new.written) result piece.now }
        ensures cause { HasCause self.old.faults self.new.faults (is_err result) }
        ensures fails { is_err result ≡ (self.old.room == 0 || next_fails self.old.made self.old.failing) }
        ensures all { IfOk result (λ count. count ≡ min (length piece.now) self.old.room) }
        ensures room { IfOk result (λ count. self.new.room ≡ self.old.room - count) }
        ensures unchanged { OnErr result (self.new.room ≡ self.old.room) }
        ensures faults { self.new.faults ≡ (if is_err result then next self.old.faults else self.old.faults) }
        ensures calls { (self.new.made ≡ next self.old.made) × (self.new.failing ≡ self.old.failing) }
    {
        if self.calls.begin_call(self.room == 0) {
            return Err(Failed);
        }
        let count = piece.len().min(self.room);
        self.octets.extend_from_slice(&piece[..count]).unwrap();
        self.room -= count;
        Ok(count)
    }
}
