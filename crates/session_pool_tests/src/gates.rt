//! Gates and clocks that wait for one another, for a bounded number of turns.

use session_pool::{Gate, SessionEnd, SweepStop, Watch};
use std::sync::atomic::{AtomicU64, Ordering};
use std::thread;
use wire_base::Clock;

/// After how many turns a gate waits no longer.
const TURNS: u64 = 10_000_000;

/// What the threads of a test share: how often the clock rested, how many sessions came to the
/// gate, whether that of the second worker is over, and whether somebody waited in vain.
#[derive(Drop)]
pub(crate) struct Shared {
    rests: AtomicU64,
    entered: AtomicU64,
    left: AtomicU64,
    in_vain: AtomicU64,
}

impl Shared {
    /// Before the first turn.
    pub(crate) fn new() -> Self {
        Shared {
            rests: AtomicU64::new(0),
            entered: AtomicU64::new(0),
            left: AtomicU64::new(0),
            in_vain: AtomicU64::new(0),
        }
    }

    /// Whether one session came to the gate, and in time.
    pub(crate) fn came_after(&self) -> bool {
        (self.in_vain.load(Ordering::SeqCst) == 0) & (self.entered.load(Ordering::SeqCst) == 1)
    }

    /// Whether two sessions came to the gate, one waited until the other was over, and in time.
    pub(crate) fn came_together(&self) -> bool {
        (self.in_vain.load(Ordering::SeqCst) == 0)
            & (self.entered.load(Ordering::SeqCst) == 2)
            & (self.left.load(Ordering::SeqCst) == 1)
    }

    /// Waits until a count is at least this.
    fn wait_for(&self, count: &AtomicU64, least: u64) {
        for _ in 0..TURNS {
            if count.load(Ordering::SeqCst) >= least {
                return;
            }
            thread::yield_now();
        }
        self.in_vain.store(1, Ordering::SeqCst);
    }
}

/// A gate that lets the first session of the first worker begin once the clock has rested twice.
#[derive(Drop)]
pub(crate) struct AfterSweeps<'a>(pub(crate) &'a Shared);

impl<'a> Gate for AfterSweeps<'a> {
    fn enter(&self, worker: u32, session: u32) {
        self.0.entered.fetch_add(1, Ordering::SeqCst);
        if (worker, session) == (1, 1) {
            self.0.wait_for(&self.0.rests, 2);
        }
    }

    fn leave(&self, _worker: u32, _session: u32, _end: SessionEnd) {}
}

impl<'a> Watch for AfterSweeps<'a> {
    fn stopped(&self, _why: SweepStop) {}
}

/// A gate that lets the first session of the first worker begin once that of the second is over.
#[derive(Drop)]
pub(crate) struct AfterTheOther<'a>(pub(crate) &'a Shared);

impl<'a> Gate for AfterTheOther<'a> {
    fn enter(&self, worker: u32, session: u32) {
        self.0.entered.fetch_add(1, Ordering::SeqCst);
        if (worker, session) == (1, 1) {
            self.0.wait_for(&self.0.left, 1);
        }
    }

    fn leave(&self, worker: u32, session: u32, _end: SessionEnd) {
        if (worker, session) == (2, 1) {
            self.0.left.store(1, Ordering::SeqCst);
        }
    }
}

impl<'a> Watch for AfterTheOther<'a> {
    fn stopped(&self, _why: SweepStop) {}
}

/// Counts the sessions that ended in one way, and how often sweeping stopped for one reason.
#[derive(Drop)]
pub(crate) struct Counting {
    end: SessionEnd,
    why: SweepStop,
    ended: AtomicU64,
    stopped: AtomicU64,
}

impl Counting {
    /// Before the first of either.
    pub(crate) fn new(end: SessionEnd, why: SweepStop) -> Self {
        Counting {
            end,
            why,
            ended: AtomicU64::new(0),
            stopped: AtomicU64::new(0),
        }
    }

    /// How many sessions ended so, and how often sweeping stopped so.
    pub(crate) fn counts(&self) -> (u64, u64) {
        (
            self.ended.load(Ordering::SeqCst),
            self.stopped.load(Ordering::SeqCst),
        )
    }
}

impl Gate for Counting {
    fn enter(&self, _worker: u32, _session: u32) {}

    fn leave(&self, _worker: u32, _session: u32, end: SessionEnd) {
        if end == self.end {
            self.ended.fetch_add(1, Ordering::SeqCst);
        }
    }
}

impl Watch for Counting {
    fn stopped(&self, why: SweepStop) {
        if why == self.why {
            self.stopped.fetch_add(1, Ordering::SeqCst);
        }
    }
}

/// A clock that stands at 0, and counts its rests.
#[derive(Drop)]
pub(crate) struct Resting<'a>(pub(crate) &'a Shared);

impl<'a> Clock for Resting<'a> {
    ghost use Rattle.std.specs.Prelude.{None};

    ghost moments = { λ clock. None };

    fn now(&mut self) -> u64 {
        0
    }

    fn rest(&mut self) {
        self.0.rests.fetch_add(1, Ordering::SeqCst);
    }
}
