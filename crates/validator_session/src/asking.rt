//! The requests of a validator (RFC 8412, section 5.6).

ghost use Rattle.std.specs.Prelude.{◌≡◌, ◌==◌, ◌&&◌, IfOk, if◌then◌else◌};
ghost use Rattle.session_rules.specs.Following.{same_point};
ghost use Rattle.session_rules.specs.FollowRules.{asks, asks_more, earliest_of, in_vain_by, is_partial_at, next_request, request_message};
ghost use Rattle.validator_session.specs.Standing.{stand_of, tries_of};
ghost use Rattle.validator_session.specs.Partial.{is_partial_of};

use crate::standing::{Standing, Tries};
use pb_batch::Message;
use session_rules::FollowConfig;
use session_words::{attribute, write_words};
use std::alloc::Global;
use swima_model::{Point, Report};
use swima_request::{Request, SWIMA_REQUEST, write_request};
use validator_core::{Mirror, Want};
use wire_base::{List, Memory};

/// The most requests of a round in a row that leave the mirror's point as it is.
const MOST_IN_VAIN: u32 = 3;

/// Whether another request is made: where none was in this session; or where the mirror's mark is
/// set or the last report is partial, unless too many were in vain.
pub(crate) fn asks_more(mirror: &Mirror, standing: &Standing) -> bool
    ensures more { result ≡ asks_more (stand_of standing.now mirror.now) }
{
    let vain = in_vain(standing.tries, mirror.point());
    let off = mirror.off();
    let partial = is_partial(mirror.point(), &standing.notes.last);
    standing.asked == 0 || (vain < MOST_IN_VAIN && (off || partial))
}

/// The message of the next request, which takes the next number of a message.
pub(crate) fn ask(
    alloc: Global,
    config: &FollowConfig,
    mirror: &Mirror,
    standing: &Standing,
) -> Result<Message, Memory>
    ensures message { IfOk result (λ made. made ≡ request_message config.now (stand_of standing.now mirror.now)) }
{
    let request = next_request(alloc, config, mirror, standing);
    let value = write_request(alloc, &request)?;
    let mut attrs = List::new(alloc);
    attrs.push(attribute(SWIMA_REQUEST, value))?;
    write_words(alloc, standing.numbered.wrapping_add(1), attrs)
}

/// The next request, of the mirror's kind. The first of a session is a subscription where that is
/// so configured.
fn next_request(
    alloc: Global,
    config: &FollowConfig,
    mirror: &Mirror,
    standing: &Standing,
) -> Request
    ensures request { result ≡ next_request config.now (stand_of standing.now mirror.now) }
{
    Request {
        clear: false,
        subscribe: subscribes(config.subscribe, standing.asked),
        kind: mirror.kind(),
        id: standing.asked.wrapping_add(1),
        earliest: earliest(mirror.want()),
        targets: List::new(alloc),
    }
}

/// Whether a request is a subscription.
fn subscribes(configured: bool, asked: u32) -> bool
    ensures subscribe { result ≡ (configured && (asked == 0)) }
{
    configured && asked == 0
}

/// Counts the request that was made.
pub(crate) fn count_request(mirror: &Mirror, standing: &mut Standing)
    ensures asked { stand_of standing.new mirror.now ≡ asks (stand_of standing.old mirror.now) }
    ensures notes { standing.new.notes ≡ standing.old.notes }
{
    let point = mirror.point();
    let count = in_vain(standing.tries, point)
        .saturating_add(1)
        .min(MOST_IN_VAIN);
    standing.tries = Some(Tries { point, count });
    standing.numbered = standing.numbered.wrapping_add(1);
    standing.asked = standing.asked.wrapping_add(1);
}

/// The event identifier from which on events are asked for; 0 asks for the inventory.
fn earliest(want: Want) -> u32
    ensures earliest { result ≡ earliest_of want }
{
    match want {
        Want::Full => 0,
        Want::Spent => 0,
        Want::EventsFrom(eid) => eid,
    }
}

/// How many requests of the round in a row left the mirror's point as it is.
fn in_vain(tries: Option<Tries>, point: Option<Point>) -> u32
    ensures count { result ≡ in_vain_by (tries_of tries) point }
{
    match tries {
        None => 0,
        Some(tries) => if_same(tries, point),
    }
}

/// The count of the tries, where they were made at the point.
fn if_same(tries: Tries, point: Option<Point>) -> u32
    ensures count { result ≡ (if same_point tries.point point then tries.count else 0) }
{
    if same_point(tries.point, point) {
        tries.count
    } else {
        0
    }
}

/// Whether two points are one.
fn same_point(one: Option<Point>, other: Option<Point>) -> bool
    ensures same { result ≡ same_point one other }
{
    match (one, other) {
        (None, None) => true,
        (None, Some(_)) => false,
        (Some(_), None) => false,
        (Some(one), Some(other)) => one.epoch == other.epoch && one.eid == other.eid,
    }
}

/// Whether a report is partial: events after the last that was consulted are reported of, in the
/// mirror's epoch and after the mirror's point (RFC 8412, section 3.7.5).
fn is_partial(held: Option<Point>, last: &Option<Report>) -> bool
    ensures partial { result ≡ is_partial_of held last.now }
{
    match last {
        None => false,
        Some(Report::Inventory { .. }) => false,
        Some(
            Report::Events {
                point,
                consulted,
                ..
            },
        ) => is_partial_at(held, *point, *consulted),
    }
}

/// Whether a report of events is partial, by its point and the last event that was consulted.
fn is_partial_at(held: Option<Point>, point: Point, consulted: u32) -> bool
    ensures partial { result ≡ is_partial_at held point consulted }
{
    match held {
        None => false,
        Some(held) => {
            point.epoch == held.epoch && (consulted < point.eid && held.eid < point.eid)
        }
    }
}
