//! What a collector answers to a message of a batch (RFC 8412, section 3.3).

ghost use Rattle.std.specs.Prelude.{◌≡◌, ◌≤◌, ◌<◌, ◌^◌, [], IfSome, OnOk, Some, length};
ghost use Rattle.collector_session.specs.Sizes.{Closed, Fits, Grown, MOST_ROOM};
ghost use Rattle.collector_session.specs.Standing.{draft_of};
ghost use Rattle.collector_session.specs.Words.{FewWords};
ghost use Rattle.pa_attrs.specs.ErrorForm.{written_error};
ghost use Rattle.pa_attrs.specs.Numbers.{MOST_ATTRIBUTES, MOST_OCTETS};
ghost use Rattle.pb_batch.specs.Form.{BATCH_MESSAGES};
ghost use Rattle.session_rules.specs.Answering.{answers_body, answers_message, answers_said, speaks};
ghost use Rattle.session_rules.specs.Saying.{Refused, Says, swima_body};
ghost use Rattle.session_rules.specs.Clauses.{Drafted};
ghost use Rattle.session_talk.specs.Talk.{Done, each};
ghost use Rattle.session_words.specs.Said.{said_of};

use crate::answer::want;
use crate::draft::Draft;
use crate::reader::CollectorReader;
use collector_core::Desk;
use pa_attrs::PaError;
use pb_batch::Message;
use session_rules::CollectorWord;
use session_words::{Said, error_attribute, read_words, swima_body};
use std::alloc::Global;
use wire_base::{List, Memory};

/// Answers a message; those that are not about software are passed over.
pub(crate) fn answer_message<D: Desk>(
    alloc: Global,
    desk: &mut D,
    draft: &mut Draft,
    message: &Message,
) -> Result<(), Memory>
    requires body { IfSome (swima_body message.now) (λ body. length body ≤ MOST_OCTETS) }
    requires none { draft.old.attrs ≡ [] }
    requires fits { Fits draft.old }
    requires count { length draft.old.messages < BATCH_MESSAGES }
    ensures drafted { Drafted D.stands D.went desk.old desk.new (answers_message (draft_of draft.old) message.now) (draft_of draft.new) result }
    ensures small { OnOk result (Closed draft.old draft.new) }
{
    match swima_body(message) {
        None => Ok(()),
        Some(body) => answer_body(alloc, desk, draft, body.as_slice()),
    }
}

/// Answers a PA-TNC message.
fn answer_body<D: Desk>(
    alloc: Global,
    desk: &mut D,
    draft: &mut Draft,
    body: &[u8],
) -> Result<(), Memory>
    requires short { length body.now ≤ MOST_OCTETS }
    requires none { draft.old.attrs ≡ [] }
    requires fits { Fits draft.old }
    requires count { length draft.old.messages < BATCH_MESSAGES }
    ensures drafted { Drafted D.stands D.went desk.old desk.new (answers_body (draft_of draft.old) (Some body.now)) (draft_of draft.new) result }
    ensures small { OnOk result (Closed draft.old draft.new) }
{
    let said = read_words(alloc, &CollectorReader, body)?;
    answer_said(alloc, desk, draft, &said)
}

/// Answers what a message says. Of one that is refused nothing is looked at.
fn answer_said<D: Desk>(
    alloc: Global,
    desk: &mut D,
    draft: &mut Draft,
    said: &Said<CollectorWord>,
) -> Result<(), Memory>
    requires few { FewWords (said_of said.now) }
    requires none { draft.old.attrs ≡ [] }
    requires fits { Fits draft.old }
    requires count { length draft.old.messages < BATCH_MESSAGES }
    ensures drafted { Drafted D.stands D.went desk.old desk.new (answers_said (draft_of draft.old) (said_of said.now)) (draft_of draft.new) result }
    ensures small { OnOk result (Closed draft.old draft.new) }
{
    match said {
        Said::Says(words) => answer_words(alloc, desk, draft, words),
        Said::Refused(refusal) => answer_refused(alloc, draft, refusal),
    }
}

/// Answers a message that is refused, where the fault is reported.
fn answer_refused(alloc: Global, draft: &mut Draft, refusal: &Option<PaError>) -> Result<(), Memory>
    requires few { FewWords (Refused refusal.now) }
    requires none { draft.old.attrs ≡ [] }
    requires fits { Fits draft.old }
    requires count { length draft.old.messages < BATCH_MESSAGES }
    ensures put { OnOk result (answers_said (draft_of draft.old) (Refused refusal.now) ≡ Done (draft_of draft.new)) }
    ensures small { OnOk result (Closed draft.old draft.new) }
{
    match refusal {
        None => Ok(()),
        Some(error) => put_refusal(alloc, draft, error),
    }
}

/// Answers each word, in one message.
fn answer_words<D: Desk>(
    alloc: Global,
    desk: &mut D,
    draft: &mut Draft,
    words: &List<CollectorWord>,
) -> Result<(), Memory>
    requires few { length words.now ≤ MOST_ATTRIBUTES }
    requires none { draft.old.attrs ≡ [] }
    requires fits { Fits draft.old }
    requires count { length draft.old.messages < BATCH_MESSAGES }
    ensures drafted { Drafted D.stands D.went desk.old desk.new (answers_said (draft_of draft.old) (Says words.now)) (draft_of draft.new) result }
    ensures small { OnOk result (Closed draft.old draft.new) }
{
    speak_all(alloc, desk, draft, words)?;
    draft.close_message(alloc)
}

/// Answers each word.
fn speak_all<D: Desk>(
    alloc: Global,
    desk: &mut D,
    draft: &mut Draft,
    words: &List<CollectorWord>,
) -> Result<(), Memory>
    requires few { length words.now ≤ MOST_ATTRIBUTES }
    requires none { draft.old.attrs ≡ [] }
    requires fits { Fits draft.old }
    ensures drafted { Drafted D.stands D.went desk.old desk.new (each speaks (draft_of draft.old) words.now) (draft_of draft.new) result }
    ensures fits { OnOk result (Fits draft.new) }
    ensures messages { OnOk result (draft.new.messages ≡ draft.old.messages) }
    ensures room { OnOk result (draft.new.room ≤ draft.old.room) }
{
    for word in words.as_slice() {
        speak(alloc, desk, draft, word)?;
    }
    Ok(())
}

/// Answers a word.
fn speak<D: Desk>(
    alloc: Global,
    desk: &mut D,
    draft: &mut Draft,
    word: &CollectorWord,
) -> Result<(), Memory>
    requires room { draft.old.room ≤ MOST_ROOM }
    ensures drafted { Drafted D.stands D.went desk.old desk.new (speaks (draft_of draft.old) word.now) (draft_of draft.new) result }
    ensures grown { OnOk result (Grown draft.old draft.new) }
{
    match word {
        CollectorWord::Wants(request) => want(alloc, desk, draft, request),
        CollectorWord::AsksStatus => draft.put_status(alloc),
        CollectorWord::Failure(code) => draft.hear_error(*code),
    }
}

/// Puts the Error that refuses a message into a message of its own.
fn put_refusal(alloc: Global, draft: &mut Draft, error: &PaError) -> Result<(), Memory>
    requires vendor { error.now.vendor < 2 ^ 24 }
    requires short { length (written_error error.now) ≤ 24 }
    requires none { draft.old.attrs ≡ [] }
    requires fits { Fits draft.old }
    requires count { length draft.old.messages < BATCH_MESSAGES }
    ensures put { OnOk result (answers_said (draft_of draft.old) (Refused (Some error.now)) ≡ Done (draft_of draft.new)) }
    ensures small { OnOk result (Closed draft.old draft.new) }
{
    draft.attrs.push(error_attribute(alloc, error)?)?;
    draft.close_message(alloc)
}
