//! A worker that follows the links of its door.

use crate::doors::{door, was_given};
use session_core::{FollowConfig, SessionEnd, SessionRecord};
use session_door::{Gate, Stop, follow_door};
use std::alloc::Global;
use std::sync::atomic::{AtomicU64, Ordering};
use swima_model::{Kind, Point};
use test_talks::{COLLECTOR, VALIDATOR};
use validator_core::Mirror;

/// How sessions are followed in these tests.
const CONFIG: FollowConfig = FollowConfig {
    subscribe: false,
    rounds: 1,
    idle: 600,
    octets: 4_294_967_295,
};

/// A gate that counts the sessions of worker 3 which it let in, and those
/// that it let out closed.
#[derive(Drop)]
struct Counting {
    entered: AtomicU64,
    left: AtomicU64,
}

impl Gate for Counting {
    fn enter(&self, worker: u32, _session: u32) {
        if worker == 3 {
            self.entered.fetch_add(1, Ordering::SeqCst);
        }
    }

    fn leave(&self, worker: u32, _session: u32, end: SessionEnd) {
        if (worker == 3) & (end == SessionEnd::Closed) {
            self.left.fetch_add(1, Ordering::SeqCst);
        }
    }
}

/// Whether a session with one report was closed by this end.
fn is_whole(noted: &(SessionRecord, SessionEnd)) -> bool {
    (noted.0.reports == 1) & (noted.1 == SessionEnd::Closed)
}

/// Whether a worker follows both links of its door with one mirror, each through the gate.
fn follows_both(alloc: Global) -> Option<bool> {
    let mut door = door(alloc, COLLECTOR, &[]).ok()?;
    let mut mirror = Mirror::new(alloc, Kind::Ids);
    let gate = Counting {
        entered: AtomicU64::new(0),
        left: AtomicU64::new(0),
    };
    let work = follow_door(alloc, &mut mirror, &mut door, 3, 2, &gate, &CONFIG);
    let both = match work.ends.as_slice() {
        [one, other] => is_whole(one) & is_whole(other),
        _ => false,
    };
    let entered = gate.entered.load(Ordering::SeqCst);
    let left = gate.left.load(Ordering::SeqCst);
    Some(
        both & (work.stop == Stop::Done)
            & ((entered, left) == (2, 2))
            & was_given(&door, 0, VALIDATOR)
            & (mirror.point() == Some(Point { epoch: 7, eid: 0 })),
    )
}

#[test]
fn each_link_of_a_door_is_followed(rt: HostRuntime) {
    assert!(rt; follows_both(rt.alloc()) == Some(true));
}
