//! What a watch is told of `collect` and `follow`.

use crate::lent::try_run;
use session_pool::{Gate, SessionEnd, SweepStop, Watch};
use std::alloc::Global;
use std::sync::Wait;
use std::sync::atomic::{AtomicU64, Ordering};
use std::test::Fail;
use std::thread::Threads;
use wire_base::Memory;

/// Counts the sessions that ended after three octets of a batch, and how often sweeping stopped.
#[derive(Drop)]
struct Counting {
    torn: AtomicU64,
    stopped: AtomicU64,
}

impl Gate for Counting {
    fn enter(&self, _worker: u32, _session: u32) {}

    fn leave(&self, _worker: u32, _session: u32, end: SessionEnd) {
        if end == (SessionEnd::Torn { have: 3 }) {
            self.torn.fetch_add(1, Ordering::SeqCst);
        }
    }
}

impl Watch for Counting {
    fn stopped(&self, _why: SweepStop) {
        self.stopped.fetch_add(1, Ordering::SeqCst);
    }
}

/// How often a watch is told of each, where three octets come on each link, and the clock gives a
/// moment past the range.
fn told<R: Threads + Wait + Sync>(
    alloc: Global,
    rt: &R,
    words: &[&str],
) -> Result<(u64, u64), Memory> {
    let watch = Counting {
        torn: AtomicU64::new(0),
        stopped: AtomicU64::new(0),
    };
    let octets = [0x02, 0x80, 0x00];
    let late = [4_294_967_296];
    try_run(alloc, rt, words, &octets, &[], &[], &[], &late, &watch)?;
    let torn = watch.torn.load(Ordering::SeqCst);
    Ok((torn, watch.stopped.load(Ordering::SeqCst)))
}

#[test]
fn a_watch_is_told_of_sessions_and_sweeps(rt: HostRuntime) -> Result<(), Fail> {
    let collect = ["collect", "--listen", "a", "--epoch", "7", "--workers", "2"];
    let of_collect = told(rt.alloc(), &rt, &collect)? == (2, 1);
    let of_follow = told(rt.alloc(), &rt, &["follow", "a", "b"])? == (2, 0);
    assert!(rt; of_collect & of_follow);
    Ok(())
}
