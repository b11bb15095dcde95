//! A link over turns in memory that never fails.

ghost use Rattle.std.specs.Prelude.{◌≡◌, ◌<◌, ◌≤◌, ◌+◌, if◌then◌else◌, [], None, Some, Ok, List, ℕ, IfOk, is_err, length, map, min, take};
ghost use Rattle.wire_base.specs.Counter.{next};
ghost use Rattle.wire_base.specs.InMemory.{Moved, TurnsInMemory, answer_of, octets_ahead, turn_of};
ghost use Rattle.wire_base.specs.Outside.{HasCause, Writes};
ghost use Rattle.wire_base.specs.Turns.{Takes, has_failed, turns_of, was_idle};

use crate::outside::link::{Link, Took};
use crate::outside::source::Failed;
use crate::values::list::List;
use std::marker::Model;

/// A turn that a link in memory will give.
#[derive(Clone, Copy, Debug, PartialEq, Eq)]
pub enum LinkTurn {
    /// An octet.
    Octet(u8),
    /// Nothing for a while.
    Idle,
}

/// A link over turns in memory, none of whose calls fails. It keeps none of what it is given and
/// exposes nothing of it, nor of the turns that were taken; it exposes the turns that are left.
#[derive(Debug, Drop)]
pub struct NoFaultLink {
    turns: List<LinkTurn>,
    place: usize,
    most: usize,
    idles: u64,
}

impl Model for NoFaultLink {
    ghost use Rattle.std.specs.Prelude.{◌<◌, ◌≤◌, drop, length, map, take};
    ghost use Rattle.wire_base.specs.InMemory.{TurnsInMemory, turn_of};

    ghost Value = { TurnsInMemory };

    ghost view = { λ link. record { taken = map turn_of (take link.place link.turns); left = map turn_of (drop link.place link.turns); most = link.most; idles = link.idles } };

    ghost invariant = { λ link. (link.place ≤ length link.turns) × (0 < link.most) };
}

impl NoFaultLink {
    /// A link that has all of `turns` left. A call moves at most `most` octets, which is at least
    /// 1. It takes no memory.
    pub fn new(turns: List<LinkTurn>, most: usize) -> Self
        requires some { 0 < most }
        ensures made { result ≡ record { taken = []; left = map turn_of turns; most = most; idles = 0 } }
    {
        NoFaultLink {
            turns,
            place: 0,
            most,
            idles: 0,
        }
    }

    /// How many octets a call moves at most.
    pub fn most(&self) -> usize
        ensures most { result ≡ self.now.most }
        ensures some { 0 < result }
    {
        self.most
    }

    /// Moves the octets up to the next mark to the start of `buf`, at most as many as it has room
    /// for and as a call moves; or answers that mark, or that nothing is left.
    pub(crate) fn pass(&mut self, buf: &mut [u8]) -> Took
        requires { 0 < length buf.old }
        ensures answer { result ≡ answer_of self.old.left (min (length buf.old) self.old.most) }
        ensures moved { Moved self.old self.new result buf.new }
        ensures most { self.new.most ≡ self.old.most }
        ensures idles { self.new.idles ≡ (if was_idle result then next self.old.idles else self.old.idles) }
        ensures later { self.old.idles ≤ self.new.idles }
    {
        let (_, left) = self.turns.as_slice().split_at(self.place);
        match left.first() {
            None => Took::Ended,
            Some(LinkTurn::Idle) => {
                self.place += 1;
                self.idles = self.idles.saturating_add(1);
                Took::Idle
            }
            Some(LinkTurn::Octet(_)) => {
                let count = copy_octets(left, buf, self.most);
                self.place += count;
                Took::Bytes(count)
            }
        }
    }
}

/// Copies the octets before the first mark to the start of `buf`, at most `most`, and answers how
/// many.
fn copy_octets(turns: &[LinkTurn], buf: &mut [u8], most: usize) -> usize
    ensures count { result ≡ min (min (length buf.old) most) (octets_ahead (map turn_of turns.now)) }
    ensures copied { turns_of (take result buf.new) ≡ take result (map turn_of turns.now) }
    ensures len { length buf.new ≡ length buf.old }
{
    let room = buf.len().min(most);
    let mut count = 0;
    while count < room {
        match turns.get(count) {
            Some(LinkTurn::Octet(octet)) => buf[count] = *octet,
            Some(LinkTurn::Idle) => return count,
            None => return count,
        }
        count += 1;
    }
    count
}

impl Link for NoFaultLink {
    ghost taken = { λ _. None };

    ghost left = { λ link. Some link.left };

    ghost given = { λ _. None };

    ghost faults = { λ _. 0 };

    ghost idles = { λ link. link.idles };

    /// As `MemLink::take` where no call fails.
    fn take(&mut self, buf: &mut [u8]) -> Took
        requires { 0 < length buf.old }
        ensures takes { Takes None None (Some self.old.left) (Some self.new.left) result buf.new }
        ensures cause { HasCause 0 0 (has_failed result) }
        ensures idle { HasCause self.old.idles self.new.idles (was_idle result) }
        ensures answer { result ≡ answer_of self.old.left (min (length buf.old) self.old.most) }
        ensures moved { Moved self.old self.new result buf.new }
        ensures most { self.new.most ≡ self.old.most }
        ensures idles { self.new.idles ≡ (if was_idle result then next self.old.idles else self.old.idles) }
    {
        self.pass(buf)
    }

    /// Takes all of `piece`. It never fails.
    fn give(&mut self, piece: &[u8]) -> Result<usize, Failed>
        requires { 0 < length piece.now }
        ensures some { IfOk result (λ count. 0 < count) }
        ensures within { IfOk result (λ count. count ≤ length piece.now) }
        ensures gives { Writes None None result piece.now }
        ensures stays { self.new ≡ self.old }
        ensures cause { HasCause 0 0 (is_err result) }
        ensures all { result ≡ Ok (length piece.now) }
    {
        Ok(piece.len())
    }
}
