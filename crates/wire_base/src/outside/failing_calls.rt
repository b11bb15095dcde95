//! The plan of failing calls that the memory forms of the outside keep.

ghost use Rattle.std.specs.Prelude.{◌≡◌, ◌≤◌, ◌+◌, ◌-◌, ◌^◌, if◌then◌else◌, IfOk, [], ◌==◌, ◌||◌, min};
ghost use Rattle.wire_base.specs.Counter.{next};
ghost use Rattle.wire_base.specs.InMemory.{next_fails};

use crate::values::list::List;
use crate::values::memory::Memory;
use std::alloc::Global;

/// How many calls were made, which of them fail (the first has the number 1), and how many did.
#[derive(Debug, Drop)]
pub(crate) struct FailingCalls {
    made: u64,
    failing: List<u64>,
    faults: u64,
}

impl FailingCalls {
    /// No call was made yet, and none will fail. It takes no memory.
    pub(crate) fn none(alloc: Global) -> Self
        ensures made { result.made ≡ 0 }
        ensures failing { result.failing ≡ [] }
        ensures faults { result.faults ≡ 0 }
    {
        FailingCalls {
            made: 0,
            failing: List::new(alloc),
            faults: 0,
        }
    }

    /// No call was made yet, and those whose numbers are in `failing` will fail.
    pub(crate) fn new(alloc: Global, failing: &[u64]) -> Result<Self, Memory>
        ensures made { IfOk result (λ calls. calls.made ≡ 0) }
        ensures failing { IfOk result (λ calls. calls.failing ≡ failing.now) }
        ensures faults { IfOk result (λ calls. calls.faults ≡ 0) }
    {
        let failing = List::from_slice(alloc, failing)?;
        Ok(FailingCalls {
            made: 0,
            failing,
            faults: 0,
        })
    }

    /// How many calls failed.
    pub(crate) fn faults(&self) -> u64
        ensures faults { result ≡ self.now.faults }
    {
        self.faults
    }

    /// Adds `count` faults of objects that this one hands out and takes back.
    pub(crate) fn add_faults(&mut self, count: u64)
        ensures made { self.new.made ≡ self.old.made }
        ensures failing { self.new.failing ≡ self.old.failing }
        ensures faults { self.new.faults ≡ min (self.old.faults + count) (2 ^ 64 - 1) }
        ensures later { self.old.faults ≤ self.new.faults }
    {
        self.faults = self.faults.saturating_add(count);
    }

    /// Counts a call that begins now and says whether it fails: where the object is full, or the
    /// call is one of those that fail. Then it counts the fault.
    pub(crate) fn begin_call(&mut self, is_full: bool) -> bool
        ensures answer { result ≡ (is_full || next_fails self.old.made self.old.failing) }
        ensures made { self.new.made ≡ next self.old.made }
        ensures failing { self.new.failing ≡ self.old.failing }
        ensures faults { self.new.faults ≡ (if result then next self.old.faults else self.old.faults) }
        ensures later { self.old.faults ≤ self.new.faults }
    {
        self.made = self.made.saturating_add(1);
        let fails = is_full | self.failing.as_slice().contains(&self.made);
        if fails {
            self.faults = self.faults.saturating_add(1);
        }
        fails
    }
}
