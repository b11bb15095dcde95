//! A door with links in memory, some of whose calls fail.

ghost use Rattle.std.specs.List.{All};
ghost use Rattle.std.specs.Prelude.{◌≡◌, ◌∷◌, ◌+◌, ◌-◌, ◌^◌, if◌then◌else◌, [], true, false, Some, IfOk, min, nat_lt};
ghost use Rattle.wire_base.specs.Counter.{next};
ghost use Rattle.wire_base.specs.Doors.{Comes, NotAsked, OnLink, has_failed, is_link, last_of};
ghost use Rattle.wire_base.specs.InMemory.{DoorInMemory, next_fails};
ghost use Rattle.wire_base.specs.Outside.{Adds, HasCause};

use crate::outside::door::{Came, Door};
use crate::outside::failing_calls::FailingCalls;
use crate::outside::mem_link::MemLink;
use crate::values::list::List;
use crate::values::memory::Memory;
use std::alloc::Global;
use std::collections::VecDeque;
use std::marker::Model;

/// What the last call of `next` answered, if one was made.
#[derive(Clone, Copy, Debug)]
enum LastAnswer {
    NotAsked,
    Link,
    Ended,
    Failed,
}

/// A door that exposes its links, and hands them out in order. The calls of `next` whose numbers it
/// was given fail. All its room is taken when it is made.
#[derive(Debug, Drop)]
pub struct MemDoor {
    left: VecDeque<MemLink>,
    returned: Vec<MemLink>,
    last: LastAnswer,
    out: bool,
    calls: FailingCalls,
}

impl Model for MemDoor {
    ghost use Rattle.std.specs.List.{All};
    ghost use Rattle.std.specs.Prelude.{◌≡◌, ◌<◌, ◌≤◌, ◌+◌, true, vec_len, vec_capacity};
    ghost use Rattle.std.specs.VecDeque.{deque_len};
    ghost use Rattle.wire_base.specs.InMemory.{DoorInMemory, last_is};

    ghost Value = { DoorInMemory };

    ghost view = { λ door. record {
      left = door.left.items;
      returned = door.returned.items;
      last = last_is door.last;
      out = door.out;
      made = door.calls.made;
      failing = door.calls.failing;
      faults = door.calls.faults;
    } };

    ghost invariant = { λ door. All (λ link. link.faults ≡ 0) door.left.items
        × (vec_len door.returned + deque_len door.left ≤ vec_capacity door.returned)
        × (door.out ≡ true → vec_len door.returned + deque_len door.left < vec_capacity door.returned) };
}

impl MemDoor {
    /// A door that will hand out all of `links`, each of which has no fault yet. It fails at the
    /// calls of `next` numbered in `failing`, the first being 1.
    pub fn new(alloc: Global, links: List<MemLink>, failing: &[u64]) -> Result<Self, Memory>
        requires fresh { All (λ link. link.faults ≡ 0) links }
        ensures made { IfOk result (λ door. door ≡ record {
          left = links;
          returned = [];
          last = NotAsked;
          out = false;
          made = 0;
          failing = failing.now;
          faults = 0;
        }) }
    {
        let returned = Vec::with_capacity(alloc, links.len())?;
        let calls = FailingCalls::new(alloc, failing)?;
        Ok(MemDoor {
            left: VecDeque::from_vec(links.into_vec()),
            returned,
            last: LastAnswer::NotAsked,
            out: false,
            calls,
        })
    }

    /// The links that went back, in order, each as it was then. It takes no memory.
    pub fn returned(&self) -> &[MemLink]
        ensures links { result.now ≡ self.now.returned }
    {
        self.returned.as_slice()
    }
}

impl Door for MemDoor {
    type L = MemLink;

    ghost left = { λ door. Some door.left };

    ghost returned = { λ door. Some door.returned };

    ghost last = { λ door. Some door.last };

    ghost out = { λ door. door.out };

    ghost faults = { λ door. door.faults };

    /// The first of the links that are left, unless there is none or the call is one that fails. It
    /// takes no memory.
    fn next(&mut self) -> Came<MemLink>
        requires home { self.old.out ≡ false }
        ensures comes { Comes (Some self.old.left) (Some self.new.left) result }
        ensures fresh { OnLink result (λ link. link.faults ≡ 0) }
        ensures returned { self.new.returned ≡ self.old.returned }
        ensures last { self.new.last ≡ last_of result }
        ensures out { self.new.out ≡ is_link result }
        ensures cause { HasCause self.old.faults self.new.faults (has_failed result) }
        ensures fails { has_failed result ≡ next_fails self.old.made self.old.failing }
        ensures faults { self.new.faults ≡ (if has_failed result then next self.old.faults else self.old.faults) }
        ensures calls { (self.new.made ≡ next self.old.made) × (self.new.failing ≡ self.old.failing) }
    {
        if self.calls.begin_call(false) {
            self.last = LastAnswer::Failed;
            return Came::Failed;
        }
        match self.left.pop_front() {
            Some(link) => {
                self.last = LastAnswer::Link;
                self.out = true;
                Came::Link(link)
            }
            None => {
                self.last = LastAnswer::Ended;
                Came::Ended
            }
        }
    }

    /// Puts the link after those that went back before it, and adds its faults to those of the
    /// door. It takes no memory.
    fn back(&mut self, link: MemLink)
        requires out { self.old.out ≡ true }
        ensures returned { Adds (Some self.old.returned) (Some self.new.returned) (link ∷ []) }
        ensures left { self.new.left ≡ self.old.left }
        ensures last { self.new.last ≡ self.old.last }
        ensures home { self.new.out ≡ false }
        ensures cause { HasCause self.old.faults self.new.faults (nat_lt 0 link.faults) }
        ensures faults { self.new.faults ≡ min (self.old.faults + link.faults) (2 ^ 64 - 1) }
        ensures calls { (self.new.made ≡ self.old.made) × (self.new.failing ≡ self.old.failing) }
    {
        self.calls.add_faults(link.faults());
        self.returned.push(link).unwrap();
        self.out = false;
    }
}
