//! A link over turns in memory, some of whose calls fail, and which may run full.

ghost use Rattle.std.specs.Prelude.{◌≡◌, ◌<◌, ◌≤◌, ◌+◌, ◌-◌, ◌^◌, ◌==◌, ◌||◌, if◌then◌else◌, [], Some, List, ℕ, IfOk, OnErr, is_err, length, map, min};
ghost use Rattle.wire_base.specs.Counter.{next};
ghost use Rattle.wire_base.specs.InMemory.{LinkInMemory, answer_of, next_fails, turn_of};
ghost use Rattle.wire_base.specs.Outside.{HasCause, Writes};
ghost use Rattle.wire_base.specs.Turns.{Takes, has_ended, has_failed, was_idle};
ghost use Rattle.wire_base.specs.declared.outside.link.Took.TheVariants as took;

use crate::outside::failing_calls::FailingCalls;
use crate::outside::link::{Link, Took};
use crate::outside::no_fault_link::{LinkTurn, NoFaultLink};
use crate::outside::source::Failed;
use crate::values::list::List;
use crate::values::memory::Memory;
use std::alloc::Global;
use std::marker::Model;

/// A link in memory that exposes its turns and what it was given. The calls whose numbers it was
/// given fail; so does each call of `give` once there is no room left, as on a full device, and
/// each call of `take` after 18446744073709551615 ends, which is as far as they are counted. All
/// its room is taken when it is made.
#[derive(Debug, Drop)]
pub struct MemLink {
    turns: NoFaultLink,
    ends: u64,
    given: Vec<u8>,
    room: usize,
    calls: FailingCalls,
}

impl Model for MemLink {
    ghost use Rattle.std.specs.Prelude.{◌≡◌, ◌<◌, ◌≤◌, ◌+◌, ◌++◌, [], replicate, vec_len, vec_capacity};
    ghost use Rattle.wire_base.specs.InMemory.{LinkInMemory};
    ghost use Rattle.wire_base.specs.Turns.{Ended};

    ghost Value = { LinkInMemory };

    ghost view = { λ link. record {
      taken = link.turns.taken ++ replicate link.ends Ended;
      left = link.turns.left;
      most = link.turns.most;
      idles = link.turns.idles;
      ends = link.ends;
      given = link.given.items;
      room = link.room;
      made = link.calls.made;
      failing = link.calls.failing;
      faults = link.calls.faults;
    } };

    ghost invariant = { λ link. (vec_len link.given + link.room ≤ vec_capacity link.given) × (0 < link.ends → link.turns.left ≡ []) };
}

impl MemLink {
    /// A link that has all of `turns` left, moves at most `most` octets in a call, which is at
    /// least 1, has room to be given `room` octets, and fails at the calls numbered in `failing`,
    /// the first being 1.
    pub fn new(
        alloc: Global,
        turns: List<LinkTurn>,
        most: usize,
        room: usize,
        failing: &[u64],
    ) -> Result<Self, Memory>
        requires some { 0 < most }
        ensures made { IfOk result (λ link. link ≡ record {
          taken = [];
          left = map turn_of turns;
          most = most;
          idles = 0;
          ends = 0;
          given = [];
          room = room;
          made = 0;
          failing = failing.now;
          faults = 0;
        }) }
    {
        let given = Vec::with_capacity(alloc, room)?;
        Ok(MemLink {
            turns: NoFaultLink::new(turns, most),
            ends: 0,
            given,
            room,
            calls: FailingCalls::new(alloc, failing)?,
        })
    }

    /// All octets that were given. It takes no memory.
    pub fn given(&self) -> &[u8]
        ensures octets { result.now ≡ self.now.given }
    {
        self.given.as_slice()
    }

    /// How many calls failed.
    pub fn faults(&self) -> u64
        ensures faults { result ≡ self.now.faults }
    {
        self.calls.faults()
    }
}

impl Link for MemLink {
    ghost taken = { λ link. Some link.taken };

    ghost left = { λ link. Some link.left };

    ghost given = { λ link. Some link.given };

    ghost faults = { λ link. link.faults };

    ghost idles = { λ link. link.idles };

    /// Moves the octets up to the next mark, at most as many as `buf` has room for and as a call
    /// moves, or that mark alone, unless the call is one that fails.
    fn take(&mut self, buf: &mut [u8]) -> Took
        requires { 0 < length buf.old }
        ensures takes { Takes (Some self.old.taken) (Some self.new.taken) (Some self.old.left) (Some self.new.left) result buf.new }
        ensures given { Some self.new.given ≡ Some self.old.given }
        ensures cause { HasCause self.old.faults self.new.faults (has_failed result) }
        ensures idle { HasCause self.old.idles self.new.idles (was_idle result) }
        ensures fails { has_failed result ≡ (self.old.ends == 2 ^ 64 - 1 || next_fails self.old.made self.old.failing) }
        ensures answer { result ≡ (if has_failed result then took.Failed else answer_of self.old.left (min (length buf.old) self.old.most)) }
        ensures room { (self.new.room ≡ self.old.room) × (self.new.most ≡ self.old.most) }
        ensures ends { self.new.ends ≡ (if has_ended result then self.old.ends + 1 else self.old.ends) }
        ensures idles { self.new.idles ≡ (if was_idle result then next self.old.idles else self.old.idles) }
        ensures faults { self.new.faults ≡ (if has_failed result then next self.old.faults else self.old.faults) }
        ensures calls { (self.new.made ≡ next self.old.made) × (self.new.failing ≡ self.old.failing) }
    {
        if self.calls.begin_call(self.ends == u64::MAX) {
            return Took::Failed;
        }
        match self.turns.pass(buf) {
            Took::Bytes(count) => Took::Bytes(count),
            Took::Idle => Took::Idle,
            Took::Ended => {
                self.ends += 1;
                Took::Ended
            }
            Took::Failed => Took::Failed,
        }
    }

    /// Takes as much of `piece` as there is room for and as a call moves, unless there is no room
    /// or the call is one that fails.
    fn give(&mut self, piece: &[u8]) -> Result<usize, Failed>
        requires { 0 < length piece.now }
        ensures some { IfOk result (λ count. 0 < count) }
        ensures within { IfOk result (λ count. count ≤ length piece.now) }
        ensures gives { Writes (Some self.old.given) (Some self.new.given) result piece.now }
        ensures taken { Some self.new.taken ≡ Some self.old.taken }
        ensures left { Some self.new.left ≡ Some self.old.left }
        ensures idles { self.new.idles ≡ self.old.idles }
        ensures cause { HasCause self.old.faults self.new.faults (is_err result) }
        ensures fails { is_err result ≡ (self.old.room == 0 || next_fails self.old.made self.old.failing) }
        ensures all { IfOk result (λ count. count ≡ min (min (length piece.now) self.old.room) self.old.most) }
        ensures room { IfOk result (λ count. self.new.room ≡ self.old.room - count) }
        ensures unchanged { OnErr result (self.new.room ≡ self.old.room) }
        ensures ends { (self.new.ends ≡ self.old.ends) × (self.new.most ≡ self.old.most) }
        ensures faults { self.new.faults ≡ (if is_err result then next self.old.faults else self.old.faults) }
        ensures calls { (self.new.made ≡ next self.old.made) × (self.new.failing ≡ self.old.failing) }
    {
        if self.calls.begin_call(self.room == 0) {
            return Err(Failed);
        }
        let count = piece.len().min(self.room).min(self.turns.most());
        self.given.extend_from_slice(&piece[..count]).unwrap();
        self.room -= count;
        Ok(count)
    }
}
