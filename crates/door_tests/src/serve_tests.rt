//! A worker that serves the links of its door.

ghost use Rattle.std.specs.Prelude.{◌≡◌, ◌<◌, false};

use crate::doors::{door, was_given};
use book_lock::Shelf;
use collector_core::Book;
use session_core::{ServeConfig, SessionEnd, SessionRecord};
use session_door::{OpenGate, Stop, Work, serve_door};
use std::alloc::Global;
use std::sync::Wait;
use swima_model::Point;
use test_talks::{COLLECTOR, VALIDATOR};
use wire_base::MemDoor;

/// How sessions are served in these tests.
const CONFIG: ServeConfig = ServeConfig {
    max: 16_000_000,
    reports: None,
    idle: 600,
    octets: 4_294_967_295,
};

/// What a worker did at a door, over an empty book of epoch 7, that was to hold that many sessions.
fn served<R: Wait>(alloc: Global, wait: &R, door: &mut MemDoor, sessions: u32) -> Option<Work>
    requires home { door.old.out ≡ false }
    requires some { 0 < sessions }
{
    let book = Book::new(alloc, 7, 400, &[]).ok()?;
    let Ok((shelf, pass)) = Shelf::open(alloc, book) else {
        return None;
    };
    let (_, work) = serve_door(
        alloc, wait, &shelf, pass, door, 1, sessions, &OpenGate, &CONFIG,
    );
    Some(work)
}

/// Whether the other end closed a session in which one report was written, at the first point.
fn is_whole(noted: &(SessionRecord, SessionEnd)) -> bool {
    let (record, end) = noted;
    (record.points.as_slice() == [Point { epoch: 7, eid: 0 }].as_slice())
        & (record.reports == 1)
        & (*end == SessionEnd::PeerClosed)
}

/// Whether a worker serves both links of its door, and then is told that there is none.
fn serves_both<R: Wait>(alloc: Global, wait: &R) -> Option<bool> {
    let mut door = door(alloc, VALIDATOR, &[]).ok()?;
    let work = served(alloc, wait, &mut door, 3)?;
    let both = match work.ends.as_slice() {
        [one, other] => is_whole(one) & is_whole(other),
        _ => false,
    };
    let given = was_given(&door, 0, COLLECTOR) & was_given(&door, 1, COLLECTOR);
    Some(both & (work.stop == Stop::Ended) & given)
}

#[test]
fn each_link_of_a_door_is_served(rt: HostRuntime) {
    assert!(rt; serves_both(rt.alloc(), &rt) == Some(true));
}

/// Whether a worker whose first link fails serves the second.
fn serves_after_a_fault<R: Wait>(alloc: Global, wait: &R) -> Option<bool> {
    let mut door = door(alloc, VALIDATOR, &[1]).ok()?;
    let work = served(alloc, wait, &mut door, 2)?;
    let second = match work.ends.as_slice() {
        [one, other] => (one.1 == SessionEnd::LinkFault) & is_whole(other),
        _ => false,
    };
    Some(second & (work.stop == Stop::Done) & was_given(&door, 1, COLLECTOR))
}

#[test]
fn a_link_is_served_after_one_that_failed(rt: HostRuntime) {
    assert!(rt; serves_after_a_fault(rt.alloc(), &rt) == Some(true));
}
