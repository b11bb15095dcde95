//! Pools that serve.

ghost use Rattle.std.specs.Prelude.{◌≡◌, ◌<◌, ◌^◌, length};
ghost use Rattle.session_door.specs.Serving.{IsWithin};
ghost use Rattle.session_pool.specs.Stands.{AreReady};

use crate::gates::{AfterSweeps, AfterTheOther, Counting, Resting, Shared};
use crate::stands::{failing_stand, one, stand, stand_of_three, two, was_given, were_given_twice};
use book_lock::Shelf;
use collector_core::Book;
use session_core::{ServeConfig, SessionEnd, SessionRecord};
use session_pool::{Ends, OpenGate, PoolConfig, Served, Stand, SweepStop, Watch, serve_all};
use source_lines::LineSource;
use source_set::{SourceSet, Sources, TagSource};
use std::alloc::Global;
use std::sync::Wait;
use std::thread::Threads;
use swima_model::Point;
use test_talks::{COLLECTOR, VALIDATOR};
use wire_base::{Clock, List, MemClock, MemDoor, MemSource, Octets};

/// How sessions are served in these tests.
const CONFIG: PoolConfig = PoolConfig {
    serve: ServeConfig {
        max: 16_000_000,
        reports: None,
        idle: 600,
        octets: 4_294_967_295,
    },
    sessions: 1,
    sweeps: 1,
};

/// A source that adds a tag, is quiet once, and then ends.
const LINES: &[u8] = b"add 1 /opt/a da53574944a400616101616202a2181f61631821010c00\nquiet\nend\n";

/// No source.
fn no_source(alloc: Global) -> Option<SourceSet> {
    Sources::new(alloc, Vec::new(alloc)).ok()
}

/// The source of these lines.
fn source(alloc: Global, lines: &[u8]) -> Option<SourceSet> {
    let octets = Octets::from_slice(alloc, lines).ok()?;
    let source = LineSource::new(alloc, MemSource::new(alloc, octets, &[]).ok()?).ok()?;
    let mut boxes: Vec<Box<dyn TagSource + Send>> = Vec::new(alloc);
    boxes.push(Box::new(alloc, source).ok()?).ok()?;
    Sources::new(alloc, boxes).ok()
}

/// What came of a pool over an empty book of epoch 7, and the book's last point and records.
fn served<C: Clock + Send, W: Watch + Sync, R: Threads + Wait + Sync>(
    alloc: Global,
    rt: &R,
    doors: &mut [Stand<MemDoor>],
    sources: &mut SourceSet,
    clock: &mut C,
    watch: &W,
    config: &PoolConfig,
) -> Option<(Served, Point, u32)>
    requires within { IsWithin config.now.serve }
    requires sessions { 0 < config.now.sessions }
    requires sweeps { 0 < config.now.sweeps }
    requires few { length doors.old < 2 ^ 32 }
    requires ready { AreReady (λ door. door.out) doors.old }
{
    let book = Book::new(alloc, 7, 400, &[]).ok()?;
    let Ok((shelf, mut pass)) = Shelf::open(alloc, book) else {
        return None;
    };
    let all = serve_all(
        alloc, rt, &shelf, &mut pass, doors, sources, clock, watch, config,
    )
    .ok()?;
    let closed = shelf.close(rt, pass);
    Some((all, closed.book.point(), closed.book.count()))
}

/// Whether a session wrote a report at this point and was closed by its peer.
fn is_answered(noted: &(SessionRecord, SessionEnd), point: Point) -> bool {
    let (record, end) = noted;
    (record.points.as_slice() == [point].as_slice())
        & (record.reports == 1)
        & (*end == SessionEnd::PeerClosed)
}

/// Whether there was one session, which was answered so.
fn is_one(ends: &Ends, point: Point) -> bool {
    match ends.as_slice() {
        [noted] => is_answered(noted, point),
        _ => false,
    }
}

/// Whether a pool of one door and one link came to this: one session, which answered from the point
/// before the first event.
fn is_whole(all: &Served, point: Point, count: u32) -> bool {
    let first = Point { epoch: 7, eid: 0 };
    let failed = [false];
    match all.ends.as_slice() {
        [ends] => {
            is_one(ends, first)
                & (all.door_failed.as_slice() == failed.as_slice())
                & (all.stopped == None)
                & ((point, count) == (first, 0))
        }
        _ => false,
    }
}

/// Whether the last door gave one link, which was given what a collector writes.
fn is_given(doors: &[Stand<MemDoor>]) -> bool {
    match doors {
        [.., last] => was_given(last, COLLECTOR),
        _ => false,
    }
}

/// Whether a pool of one door and one link serves it, and gives the link back.
fn serves_one<R: Threads + Wait + Sync>(alloc: Global, rt: &R) -> Option<bool> {
    let mut doors = one(alloc, stand(alloc, VALIDATOR).ok()?).ok()?;
    let mut sources = no_source(alloc)?;
    let mut clock = MemClock::new(List::new(alloc), 0);
    let at = doors.as_mut_slice();
    let (all, point, count) = served(alloc, rt, at, &mut sources, &mut clock, &OpenGate, &CONFIG)?;
    Some(is_whole(&all, point, count) & is_given(doors.as_slice()))
}

#[test]
fn one_link_is_served(rt: HostRuntime) {
    assert!(rt; serves_one(rt.alloc(), &rt) == Some(true));
}

/// Whether there were two sessions, one after another, which were answered so.
fn are_two(all: &Served, point: Point) -> bool {
    match all.ends.as_slice() {
        [ends] => match ends.as_slice() {
            [first, second] => is_answered(first, point) & is_answered(second, point),
            _ => false,
        },
        _ => false,
    }
}

/// Whether a worker of two sessions takes two of three links, and gives both back.
fn serves_two_of_three<R: Threads + Wait + Sync>(alloc: Global, rt: &R) -> Option<bool> {
    let mut doors = one(alloc, stand_of_three(alloc, VALIDATOR).ok()?).ok()?;
    let mut sources = no_source(alloc)?;
    let mut clock = MemClock::new(List::new(alloc), 0);
    let config = PoolConfig {
        sessions: 2,
        ..CONFIG
    };
    let at = doors.as_mut_slice();
    let (all, _, _) = served(alloc, rt, at, &mut sources, &mut clock, &OpenGate, &config)?;
    let point = Point { epoch: 7, eid: 0 };
    Some(are_two(&all, point) & were_given_twice(doors.as_slice(), COLLECTOR))
}

#[test]
fn a_worker_holds_as_many_sessions_as_it_is_told(rt: HostRuntime) {
    assert!(rt; serves_two_of_three(rt.alloc(), &rt) == Some(true));
}

/// Whether the one session answered from the second of two sweeps, which left no record.
fn is_of_the_second(all: &Served, point: Point, count: u32) -> bool {
    let second = Point { epoch: 7, eid: 2 };
    match all.ends.as_slice() {
        [ends] => {
            is_one(ends, second)
                & (all.stopped == None)
                & ((all.swept.added, all.swept.changed) == (1, 0))
                & ((all.swept.gone, all.swept.dropped) == (1, 1))
                & ((point, count) == (second, 0))
        }
        _ => false,
    }
}

/// Whether a session that begins after the second sweep answers from it.
fn sees_the_second_sweep<R: Threads + Wait + Sync>(alloc: Global, rt: &R) -> Option<bool> {
    let shared = Shared::new();
    let mut doors = one(alloc, stand(alloc, VALIDATOR).ok()?).ok()?;
    let mut sources = source(alloc, LINES)?;
    let config = PoolConfig {
        sweeps: 2,
        ..CONFIG
    };
    let at = doors.as_mut_slice();
    let (clock, gate) = (&mut Resting(&shared), &AfterSweeps(&shared));
    let (all, point, count) = served(alloc, rt, at, &mut sources, clock, gate, &config)?;
    Some(is_of_the_second(&all, point, count) & shared.came_after())
}

#[test]
fn a_session_sees_a_sweep_that_ended_before_it_began(rt: HostRuntime) {
    assert!(rt; sees_the_second_sweep(rt.alloc(), &rt) == Some(true));
}

/// Whether one session came of each door.
fn is_of_both(all: &Served) -> bool {
    let point = Point { epoch: 7, eid: 0 };
    match all.ends.as_slice() {
        [first, second] => is_one(first, point) & is_one(second, point),
        _ => false,
    }
}

/// Whether the session of one worker waits for that of another, and both are held.
fn serves_both_at_once<R: Threads + Wait + Sync>(alloc: Global, rt: &R) -> Option<bool> {
    let shared = Shared::new();
    let first = stand(alloc, VALIDATOR).ok()?;
    let mut doors = two(alloc, first, stand(alloc, VALIDATOR).ok()?).ok()?;
    let mut sources = no_source(alloc)?;
    let mut clock = MemClock::new(List::new(alloc), 0);
    let (at, gate) = (doors.as_mut_slice(), &AfterTheOther(&shared));
    let (all, _, _) = served(alloc, rt, at, &mut sources, &mut clock, gate, &CONFIG)?;
    Some(is_of_both(&all) & shared.came_together())
}

#[test]
fn two_sessions_run_at_the_same_time(rt: HostRuntime) {
    assert!(rt; serves_both_at_once(rt.alloc(), &rt) == Some(true));
}

/// Whether one session came of each door: that of the first ended so, and that of the second is as
/// if it had been alone.
fn is_beside(all: &Served, end: SessionEnd) -> bool {
    let point = Point { epoch: 7, eid: 0 };
    match all.ends.as_slice() {
        [first, second] => ended(first, end) & is_one(second, point),
        _ => false,
    }
}

/// Whether there was one session, which ended so.
fn ended(ends: &Ends, end: SessionEnd) -> bool {
    match ends.as_slice() {
        [noted] => noted.1 == end,
        _ => false,
    }
}

/// Whether a session is served as if it were alone, beside one that ends so: its link gives these
/// octets, and fails at the calls numbered in `failing`.
fn serves_beside<R: Threads + Wait + Sync>(
    alloc: Global,
    rt: &R,
    octets: &[u8],
    failing: &[u64],
    end: SessionEnd,
) -> Option<bool> {
    let first = failing_stand(alloc, octets, failing).ok()?;
    let mut doors = two(alloc, first, stand(alloc, VALIDATOR).ok()?).ok()?;
    let mut sources = no_source(alloc)?;
    let mut clock = MemClock::new(List::new(alloc), 0);
    let at = doors.as_mut_slice();
    let (all, _, _) = served(alloc, rt, at, &mut sources, &mut clock, &OpenGate, &CONFIG)?;
    Some(is_beside(&all, end) & is_given(doors.as_slice()))
}

#[test]
fn a_session_beside_one_that_fails_is_as_alone(rt: HostRuntime) {
    let end = SessionEnd::LinkFault;
    assert!(rt; serves_beside(rt.alloc(), &rt, VALIDATOR, &[2], end) == Some(true));
}

#[test]
fn a_session_beside_one_that_is_torn_is_as_alone(rt: HostRuntime) {
    let end = SessionEnd::Torn { have: 3 };
    assert!(rt; serves_beside(rt.alloc(), &rt, &[0x02, 0x80, 0x00], &[], end) == Some(true));
}

/// How often a watch is told that a session was torn after three octets, and that sweeping stopped
/// at the moment 4294967296, where the clock gives these moments first.
fn told<R: Threads + Wait + Sync>(alloc: Global, rt: &R, moments: &[u64]) -> Option<(u64, u64)> {
    let torn = stand(alloc, &[0x02, 0x80, 0x00]).ok()?;
    let mut doors = two(alloc, torn, stand(alloc, VALIDATOR).ok()?).ok()?;
    let mut sources = no_source(alloc)?;
    let mut clock = MemClock::new(List::from_slice(alloc, moments).ok()?, 0);
    let config = PoolConfig {
        sweeps: 3,
        ..CONFIG
    };
    let late = SweepStop::ClockRange {
        secs: 4_294_967_296,
    };
    let watch = Counting::new(SessionEnd::Torn { have: 3 }, late);
    let at = doors.as_mut_slice();
    served(alloc, rt, at, &mut sources, &mut clock, &watch, &config)?;
    Some(watch.counts())
}

#[test]
fn a_watch_is_told_once_why_a_session_or_the_sweeping_ended(rt: HostRuntime) {
    let at_first = told(rt.alloc(), &rt, &[4_294_967_296]) == Some((1, 1));
    let at_second = told(rt.alloc(), &rt, &[0, 4_294_967_296]) == Some((1, 1));
    let at_no_sweep = told(rt.alloc(), &rt, &[0, 0, 0, 4_294_967_296]) == Some((1, 0));
    assert!(rt; at_first & at_second & at_no_sweep);
}
