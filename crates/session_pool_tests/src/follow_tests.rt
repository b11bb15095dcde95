//! Pools that follow.

ghost use Rattle.std.specs.Prelude.{◌≡◌, ◌<◌, ◌^◌, IfOk, length};
ghost use Rattle.session_pool.specs.Stands.{AreReady};

use crate::gates::{AfterTheOther, Shared};
use crate::stands::{empty_stand, failing_stand, stand, two, was_given};
use session_core::{FollowConfig, SessionEnd};
use session_pool::{Ends, Followed, Gate, OpenGate, Stand, follow_all};
use std::alloc::Global;
use std::sync::Wait;
use std::thread::Threads;
use swima_model::{Kind, Point};
use test_talks::{COLLECTOR, VALIDATOR};
use validator_core::Mirror;
use wire_base::{MemDoor, Memory};

/// How sessions are followed in these tests.
const CONFIG: FollowConfig = FollowConfig {
    subscribe: false,
    rounds: 1,
    idle: 600,
    octets: 4_294_967_295,
};

/// Two mirrors that hold nothing.
fn two_mirrors(alloc: Global) -> Result<Vec<Mirror>, Memory>
    ensures two { IfOk result (λ made. length made.items ≡ 2) }
{
    let mut mirrors = Vec::new(alloc);
    mirrors.push(Mirror::new(alloc, Kind::Ids))?;
    mirrors.push(Mirror::new(alloc, Kind::Ids))?;
    Ok(mirrors)
}

/// What came of a pool whose workers follow one link each.
fn followed<G: Gate + Sync, R: Threads + Sync>(
    alloc: Global,
    rt: &R,
    mirrors: &mut [Mirror],
    doors: &mut [Stand<MemDoor>],
    gate: &G,
) -> Option<Followed>
    requires many { length mirrors.old ≡ length doors.old }
    requires few { length doors.old < 2 ^ 32 }
    requires ready { AreReady (λ door. door.out) doors.old }
{
    follow_all(alloc, rt, mirrors, doors, 1, &CONFIG, gate).ok()
}

/// Whether there was one session, which took a report and was closed.
fn is_one(ends: &Ends) -> bool {
    match ends.as_slice() {
        [(record, end)] => (record.reports == 1) & (*end == SessionEnd::Closed),
        _ => false,
    }
}

/// Whether the first door gave one link, which was given what a validator writes.
fn is_given(doors: &[Stand<MemDoor>]) -> bool {
    match doors {
        [first, _] => was_given(first, VALIDATOR),
        _ => false,
    }
}

/// Whether the first mirror has followed, and the second has not.
fn are_held(mirrors: &[Mirror]) -> bool {
    match mirrors {
        [first, second] => {
            (first.point() == Some(Point { epoch: 7, eid: 0 })) & (second.point() == None)
        }
        _ => false,
    }
}

/// Whether one session came of the first door, and none of the second.
fn is_of_the_first(all: &Followed) -> bool {
    let failed = [false, false];
    match all.ends.as_slice() {
        [first, second] => {
            is_one(first) & (second.len() == 0) & (all.door_failed.as_slice() == failed.as_slice())
        }
        _ => false,
    }
}

/// Whether one session came of each door.
fn is_of_both(all: &Followed) -> bool {
    match all.ends.as_slice() {
        [first, second] => is_one(first) & is_one(second),
        _ => false,
    }
}

/// Whether a mirror follows one link of its door, and the other door ends at once.
fn follows_one<R: Threads + Wait + Sync>(alloc: Global, rt: &R) -> Option<bool> {
    let first = stand(alloc, COLLECTOR).ok()?;
    let mut doors = two(alloc, first, empty_stand(alloc).ok()?).ok()?;
    let mut mirrors = two_mirrors(alloc).ok()?;
    let (held, at) = (mirrors.as_mut_slice(), doors.as_mut_slice());
    let all = followed(alloc, rt, held, at, &OpenGate)?;
    Some(is_of_the_first(&all) & is_given(doors.as_slice()) & are_held(mirrors.as_slice()))
}

#[test]
fn one_link_is_followed(rt: HostRuntime) {
    assert!(rt; follows_one(rt.alloc(), &rt) == Some(true));
}

/// Whether the session of one follower waits for that of another, and both are held.
fn follows_both_at_once<R: Threads + Wait + Sync>(alloc: Global, rt: &R) -> Option<bool> {
    let shared = Shared::new();
    let first = stand(alloc, COLLECTOR).ok()?;
    let mut doors = two(alloc, first, stand(alloc, COLLECTOR).ok()?).ok()?;
    let mut mirrors = two_mirrors(alloc).ok()?;
    let (held, at) = (mirrors.as_mut_slice(), doors.as_mut_slice());
    let all = followed(alloc, rt, held, at, &AfterTheOther(&shared))?;
    Some(is_of_both(&all) & shared.came_together())
}

#[test]
fn two_sessions_are_followed_at_the_same_time(rt: HostRuntime) {
    assert!(rt; follows_both_at_once(rt.alloc(), &rt) == Some(true));
}

/// Whether one session came of each door, and that of the second failed.
fn is_beside(all: &Followed) -> bool {
    match all.ends.as_slice() {
        [first, second] => match second.as_slice() {
            [noted] => is_one(first) & (noted.1 == SessionEnd::LinkFault),
            _ => false,
        },
        _ => false,
    }
}

/// Whether a mirror follows as if it were alone, beside one whose link fails at its second call.
fn follows_beside<R: Threads + Wait + Sync>(alloc: Global, rt: &R) -> Option<bool> {
    let first = stand(alloc, COLLECTOR).ok()?;
    let second = failing_stand(alloc, COLLECTOR, &[2]).ok()?;
    let mut doors = two(alloc, first, second).ok()?;
    let mut mirrors = two_mirrors(alloc).ok()?;
    let (held, at) = (mirrors.as_mut_slice(), doors.as_mut_slice());
    let all = followed(alloc, rt, held, at, &OpenGate)?;
    Some(is_beside(&all) & is_given(doors.as_slice()) & are_held(mirrors.as_slice()))
}

#[test]
fn a_session_beside_one_that_fails_is_followed_as_alone(rt: HostRuntime) {
    assert!(rt; follows_beside(rt.alloc(), &rt) == Some(true));
}
