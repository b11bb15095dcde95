//! What requests and reports do to the subscriptions of a session (RFC 8412, section 3.8).

use std::alloc::Global;
use swima_model::{Kind, Point};
use swima_request::{Idents, Request};
use swima_subs::{SubAnswer, Subs};

/// A request of an ID.
fn request(alloc: Global, clear: bool, subscribe: bool, id: u32) -> Request {
    Request {
        clear,
        subscribe,
        kind: Kind::Ids,
        id,
        earliest: 0,
        targets: Idents::new(alloc),
    }
}

/// Establishes as many subscriptions, with the IDs from 1 on.
fn established(alloc: Global, count: u32) -> Subs {
    let mut subs = Subs::new(alloc);
    for id in 0..count {
        subs.apply(&request(alloc, false, true, id.saturating_add(1)));
    }
    subs
}

/// The IDs of the requests that are listed, and how many they are; `None` where memory ran out.
fn first_told(alloc: Global, subs: &Subs) -> Option<(u32, usize)> {
    let told = subs.status(alloc).ok()?;
    let first = told.get(0)?;
    Some((first.id, told.len()))
}

/// The place of the first subscription, if it has one.
fn first_place(subs: &Subs) -> Option<Point> {
    subs.get(0)?.place
}

/// Whether a request is taken, and its subscription is then the only one, and has no place.
fn is_taken_without_a_place(alloc: Global) -> bool {
    let mut subs = Subs::new(alloc);
    let taken = subs.apply(&request(alloc, false, true, 5)) == SubAnswer::Taken;
    let is_one = subs.len() == 1;
    let no_place = first_place(&subs).is_none();
    taken & is_one & no_place & (first_told(alloc, &subs) == Some((5, 1)))
}

#[test]
fn a_subscription_is_taken_without_a_place(rt: HostRuntime) {
    assert!(rt; is_taken_without_a_place(rt.alloc()));
}

/// Whether an ID that is held is refused, and is taken once all subscriptions were ended.
fn is_refused_while_held(alloc: Global) -> bool {
    let mut subs = established(alloc, 5);
    let reused = subs.apply(&request(alloc, false, true, 5)) == SubAnswer::Reused { id: 5 };
    let stay = subs.len() == 5;
    let taken = subs.apply(&request(alloc, true, true, 5)) == SubAnswer::Taken;
    reused & stay & taken & (first_told(alloc, &subs) == Some((5, 1)))
}

#[test]
fn an_id_that_is_held_is_refused(rt: HostRuntime) {
    assert!(rt; is_refused_while_held(rt.alloc()));
}

/// Whether a seventeenth is denied and the sixteen stay, until a request ends them all.
fn is_denied_beside_sixteen(alloc: Global) -> bool {
    let mut subs = established(alloc, 16);
    let were_full = subs.len() == 16;
    let denied = subs.apply(&request(alloc, false, true, 17)) == SubAnswer::Denied { held: 16 };
    let taken = subs.apply(&request(alloc, false, false, 17)) == SubAnswer::Taken;
    let stay = subs.len() == 16;
    let ended = subs.apply(&request(alloc, true, false, 17)) == SubAnswer::Taken;
    were_full & denied & taken & stay & ended & subs.is_empty()
}

#[test]
fn a_seventeenth_is_denied(rt: HostRuntime) {
    assert!(rt; is_denied_beside_sixteen(rt.alloc()));
}

/// Whether reports on two of three subscriptions set the places of these two alone.
fn sets_the_place_of_its_own(alloc: Global) -> bool {
    let mut subs = established(alloc, 3);
    let point = Point { epoch: 7, eid: 4 };
    subs.reported(2, point);
    let not_yet = first_place(&subs).is_none();
    subs.reported(1, point);
    let first = first_place(&subs) == Some(point);
    subs.end(1);
    let second = first_place(&subs) == Some(point);
    subs.end(2);
    let third = first_place(&subs).is_none();
    not_yet & first & second & third & (subs.len() == 1)
}

#[test]
fn a_report_sets_the_place_of_its_own(rt: HostRuntime) {
    assert!(rt; sets_the_place_of_its_own(rt.alloc()));
}

/// The event identifier from which on the first subscription asks; `None` where memory ran out.
fn asked_from(subs: &Subs, place: Point, now: Point) -> Option<(bool, u32)> {
    let next = subs.get(0)?.next_request(place, now).ok()?;
    Some((next.subscribe, next.earliest))
}

/// Whether the next request asks from the event after a place on, and from 0 in another epoch.
fn asks_for_what_came_after(alloc: Global) -> bool {
    let subs = established(alloc, 1);
    let place = Point { epoch: 7, eid: 4 };
    let later = Point { epoch: 7, eid: 6 };
    let other = Point { epoch: 8, eid: 6 };
    let after = asked_from(&subs, place, later) == Some((false, 5));
    after & (asked_from(&subs, place, other) == Some((false, 0)))
}

#[test]
fn the_next_request_asks_for_what_came_after(rt: HostRuntime) {
    assert!(rt; asks_for_what_came_after(rt.alloc()));
}
