//! What a collector answers to a request (RFC 8412, sections 3.3 and 3.8).

ghost use Rattle.std.specs.Prelude.{◌≡◌, ◌≤◌, OnOk, Some};
ghost use Rattle.pa_attrs.specs.declared.error_code.PaErrorCode.TheVariants as code;
ghost use Rattle.collector_session.specs.Answers.{Answered, IsTold};
ghost use Rattle.collector_session.specs.Sizes.{Grown, MOST_ROOM};
ghost use Rattle.collector_session.specs.Standing.{draft_of};
ghost use Rattle.session_rules.specs.Answering.{answered, puts_error, wants};
ghost use Rattle.session_rules.specs.Clauses.{Drafted};
ghost use Rattle.session_rules.specs.Questions.{AskAnswer};
ghost use Rattle.session_talk.specs.Talk.{Ask, Done};

use crate::draft::Draft;
use collector_core::{Answer, Desk};
use pa_attrs::PaErrorCode;
use std::alloc::Global;
use swima_request::Request;
use swima_subs::SubAnswer;
use wire_base::Memory;

/// Answers a request. One whose subscription is refused is not asked of the desk.
pub(crate) fn want<D: Desk>(
    alloc: Global,
    desk: &mut D,
    draft: &mut Draft,
    request: &Request,
) -> Result<(), Memory>
    requires room { draft.old.room ≤ MOST_ROOM }
    ensures drafted { Drafted D.stands D.went desk.old desk.new (wants (draft_of draft.old) request.now) (draft_of draft.new) result }
    ensures grown { OnOk result (Grown draft.old draft.new) }
{
    let applied = draft.apply(request);
    match applied {
        SubAnswer::Taken => ask(alloc, desk, draft, request),
        SubAnswer::Reused { id } => {
            draft.put_error(alloc, PaErrorCode::SwimaSubscriptionIdReuseError, id, None)
        }
        SubAnswer::Denied { .. } => draft.put_error(
            alloc,
            PaErrorCode::SwimaSubscriptionDeniedError,
            request.id,
            None,
        ),
        SubAnswer::Memory => Err(Memory),
    }
}

/// Answers a request by what the desk says.
fn ask<D: Desk>(
    alloc: Global,
    desk: &mut D,
    draft: &mut Draft,
    request: &Request,
) -> Result<(), Memory>
    requires room { draft.old.room ≤ MOST_ROOM }
    ensures drafted { Drafted D.stands D.went desk.old desk.new (Ask (AskAnswer request.now draft.old.room) (λ reply. Done (answered (draft_of draft.old) request.now reply))) (draft_of draft.new) result }
    ensures grown { OnOk result (Grown draft.old draft.new) }
{
    let reply = desk.answer(request, draft.room);
    put_answer(alloc, draft, request, &reply)
}

/// Puts the desk's answer.
fn put_answer(
    alloc: Global,
    draft: &mut Draft,
    request: &Request,
    reply: &Answer,
) -> Result<(), Memory>
    requires told { IsTold draft.old.room reply.now }
    ensures answered { OnOk result (Answered (draft_of draft.old) request.now reply.now (draft_of draft.new)) }
    ensures grown { OnOk result (Grown draft.old draft.new) }
{
    match reply {
        Answer::Report(report) => {
            draft.keep_place(request, report);
            draft.put_report(alloc, report)
        }
        Answer::TooLarge { max, .. } => {
            draft.give_up(request);
            put_too_large(alloc, draft, request.id, *max)
        }
        Answer::Memory => Err(Memory),
    }
}

/// Reports that a report would be too large.
pub(crate) fn put_too_large(
    alloc: Global,
    draft: &mut Draft,
    id: u32,
    most: u32,
) -> Result<(), Memory>
    ensures put { OnOk result (draft_of draft.new ≡ puts_error (draft_of draft.old) code.SwimaResponseTooLargeError id (Some most)) }
    ensures subs { OnOk result (draft.new.subs ≡ draft.old.subs) }
    ensures grown { OnOk result (Grown draft.old draft.new) }
{
    draft.put_error(
        alloc,
        PaErrorCode::SwimaResponseTooLargeError,
        id,
        Some(most),
    )
}
