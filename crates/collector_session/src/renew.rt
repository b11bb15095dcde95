//! The subscriptions of earlier batches, which a collector fulfils further (RFC 8412, section
//! 3.8.5).

ghost use Rattle.std.specs.Prelude.{◌≡◌, ◌==◌, ◌+◌, ◌<◌, ◌≤◌, ℕ, [], IfOk, IfSome, OnOk, Some, if◌then◌else◌, length, slice_get, take};
ghost use Rattle.collector_session.specs.Answers.{IsTold};
ghost use Rattle.collector_session.specs.Renewing.{Finds, GoesOn, Renewed, late};
ghost use Rattle.collector_session.specs.Sizes.{Fits, Grown, MOST_ROOM};
ghost use Rattle.collector_session.specs.Standing.{draft_of};
ghost use Rattle.session_rules.specs.Answering.{next_of, renews, renews_by, renews_one};
ghost use Rattle.session_rules.specs.Clauses.{Drafted};
ghost use Rattle.session_talk.specs.Talk.{each};
ghost use Rattle.swima_subs.specs.declared.waiting.Waiting.{Waiting};

use crate::answer::put_too_large;
use crate::draft::{Draft, reach_of};
use collector_core::{Answer, Desk};
use session_rules::ServeConfig;
use std::alloc::Global;
use swima_model::Point;
use swima_request::Request;
use swima_subs::Waiting as WaitingSub;
use wire_base::Memory;

/// The most messages of a batch.
const BATCH_MESSAGES: usize = 64;

/// Fulfils the subscriptions of earlier batches, in one message after the answers. Where the
/// answers are as many messages as a batch has at most, they wait for the next batch.
pub(crate) fn renew<D: Desk>(
    alloc: Global,
    desk: &mut D,
    config: &ServeConfig,
    draft: &mut Draft,
) -> Result<(), Memory>
    requires none { draft.old.attrs ≡ [] }
    requires fits { Fits draft.old }
    ensures drafted { Drafted D.stands D.went desk.old desk.new (renews config.now (draft_of draft.old)) (draft_of draft.new) result }
    ensures fits { OnOk result (Fits draft.new) }
{
    if draft.messages.len() >= BATCH_MESSAGES {
        return Ok(());
    }
    renew_all(alloc, desk, config, draft)?;
    draft.close_message(alloc)
}

/// Fulfils each of them.
fn renew_all<D: Desk>(
    alloc: Global,
    desk: &mut D,
    config: &ServeConfig,
    draft: &mut Draft,
) -> Result<(), Memory>
    requires none { draft.old.attrs ≡ [] }
    requires fits { Fits draft.old }
    ensures drafted { Drafted D.stands D.went desk.old desk.new
        (each (renews_one config.now) (draft_of draft.old) (take draft.old.earlier draft.old.subs)) (draft_of draft.new) result }
    ensures fits { OnOk result (Fits draft.new) }
    ensures messages { OnOk result (draft.new.messages ≡ draft.old.messages) }
{
    let count = draft.earlier.min(draft.subs.len());
    let mut place = 0;
    for _ in 0..count {
        let held = draft.subs.len();
        renew_at(alloc, desk, config, draft, place)?;
        place = next_place(place, held, draft.subs.len());
    }
    Ok(())
}

/// Where the next subscription stands: after one that is still held, or where one stood that ended.
fn next_place(place: usize, before: usize, after: usize) -> usize
    requires within { place < before }
    ensures next { result ≡ (if before == after then place + 1 else place) }
{
    if before == after { place + 1 } else { place }
}

/// Fulfils the subscription at a place, if anything has changed since it was fulfilled.
fn renew_at<D: Desk>(
    alloc: Global,
    desk: &mut D,
    config: &ServeConfig,
    draft: &mut Draft,
    place: usize,
) -> Result<(), Memory>
    requires room { draft.old.room ≤ MOST_ROOM }
    requires within { place < length draft.old.subs }
    ensures drafted { (held : Waiting) → slice_get draft.old.subs place ≡ Some held
        → Drafted D.stands D.went desk.old desk.new (renews_one config.now (draft_of draft.old) held) (draft_of draft.new) result }
    ensures goes { (held : Waiting) → slice_get draft.old.subs place ≡ Some held → OnOk result (GoesOn held.request.id draft.old.subs draft.new.subs) }
    ensures grown { OnOk result (Grown draft.old draft.new) }
{
    match draft.subs.get(place) {
        None => Ok(()),
        Some(held) => {
            let next = next_of(desk, held)?;
            renew_by(alloc, desk, config, draft, next)
        }
    }
}

/// The next request of a subscription, if anything has changed since it was fulfilled.
fn next_of<D: Desk>(desk: &mut D, held: &WaitingSub) -> Result<Option<Request>, Memory>
    ensures found { Finds D.stands D.went desk.old desk.new (next_of held.now.request held.now.place) result }
    ensures same { IfOk result (λ next. IfSome next (λ request. request.id ≡ held.now.request.id)) }
{
    match held.place {
        None => Ok(None),
        Some(place) => next_since(desk, held, place),
    }
}

/// The next request of a subscription that was fulfilled up to a point.
fn next_since<D: Desk>(
    desk: &mut D,
    held: &WaitingSub,
    place: Point,
) -> Result<Option<Request>, Memory>
    ensures found { Finds D.stands D.went desk.old desk.new (next_of held.now.request (Some place)) result }
    ensures same { IfOk result (λ next. IfSome next (λ request. request.id ≡ held.now.request.id)) }
{
    let moved = desk.moved(place, &held.request.targets);
    if !moved {
        return Ok(None);
    }
    let now = desk.point();
    let request = held.next_request(place, now)?;
    Ok(Some(request))
}

/// Fulfils a subscription by the answer to its next request.
fn renew_by<D: Desk>(
    alloc: Global,
    desk: &mut D,
    config: &ServeConfig,
    draft: &mut Draft,
    next: Option<Request>,
) -> Result<(), Memory>
    requires room { draft.old.room ≤ MOST_ROOM }
    ensures drafted { Drafted D.stands D.went desk.old desk.new (renews_by config.now (draft_of draft.old) next) (draft_of draft.new) result }
    ensures goes { (id : ℕ) → IfSome next (λ request. request.id ≡ id) → OnOk result (GoesOn id draft.old.subs draft.new.subs) }
    ensures grown { OnOk result (Grown draft.old draft.new) }
{
    match next {
        None => Ok(()),
        Some(request) => renew_so(alloc, desk, config, draft, &request),
    }
}

/// Fulfils it by what the desk says.
fn renew_so<D: Desk>(
    alloc: Global,
    desk: &mut D,
    config: &ServeConfig,
    draft: &mut Draft,
    request: &Request,
) -> Result<(), Memory>
    requires room { draft.old.room ≤ MOST_ROOM }
    ensures drafted { Drafted D.stands D.went desk.old desk.new (renews_by config.now (draft_of draft.old) (Some request.now)) (draft_of draft.new) result }
    ensures goes { OnOk result (GoesOn request.now.id draft.old.subs draft.new.subs) }
    ensures grown { OnOk result (Grown draft.old draft.new) }
{
    let reply = desk.answer(request, draft.room);
    put_renewed(alloc, config, draft, request.id, reply)
}

/// Puts the desk's answer for the subscription of an ID.
fn put_renewed(
    alloc: Global,
    config: &ServeConfig,
    draft: &mut Draft,
    id: u32,
    reply: Answer,
) -> Result<(), Memory>
    requires told { IsTold draft.old.room reply }
    ensures renewed { OnOk result (Renewed config.now (draft_of draft.old) id reply (draft_of draft.new)) }
    ensures goes { OnOk result (GoesOn id draft.old.subs draft.new.subs) }
    ensures grown { OnOk result (Grown draft.old draft.new) }
{
    match reply {
        Answer::Report(report) => {
            draft.subs.reported(id, reach_of(&report));
            draft.put_report(alloc, &report.fulfilling())
        }
        Answer::TooLarge { max, .. } => put_late(alloc, config.max, draft, id, max),
        Answer::Memory => Err(Memory),
    }
}

/// A report is too large. Where there was all room of a batch, that ends the subscription; else it
/// waits for the next batch.
fn put_late(alloc: Global, room: u32, draft: &mut Draft, id: u32, most: u32) -> Result<(), Memory>
    ensures put { OnOk result (draft_of draft.new ≡ late room (draft_of draft.old) id most) }
    ensures goes { OnOk result (GoesOn id draft.old.subs draft.new.subs) }
    ensures grown { OnOk result (Grown draft.old draft.new) }
{
    if draft.room != room {
        return Ok(());
    }
    draft.subs.end(id);
    put_too_large(alloc, draft, id, most)
}
