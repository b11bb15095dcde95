//! What a validator does with the messages of a batch (RFC 5792, section 4.2.8; RFC 8412,
//! section 3.3).

ghost use Rattle.std.specs.Prelude.{◌≡◌, ◌<◌, ◌≤◌, ◌^◌, [], ◌↔◌, IfSome, IsTrue, OnErr, OnOk, length};
ghost use Rattle.pa_attrs.specs.ErrorForm.{written_error};
ghost use Rattle.pa_attrs.specs.Numbers.{MOST_OCTETS};
ghost use Rattle.session_rules.specs.Saying.{swima_body};
ghost use Rattle.session_rules.specs.Taking.{answers, speaks, takes, takes_message};
ghost use Rattle.session_talk.specs.Talk.{each};
ghost use Rattle.validator_core.specs.Held.{Held};
ghost use Rattle.validator_session.specs.Drafting.{Drafted, draft_of};
ghost use Rattle.validator_core.specs.declared.mirror.Taken.TheVariants as taken;
ghost use Rattle.validator_session.specs.Noting.{IsNoted, noted_answer};
ghost use Rattle.validator_session.specs.Sizes.{Fits};
ghost use Rattle.validator_session.specs.declared.notes.Notes.{Notes};
ghost use Rattle.validator_session.specs.declared.take.Draft.{Draft as DraftValue};

use crate::notes::{Notes, TakenReport};
use crate::reader::ValidatorReader;
use pa_attrs::PaError;
use pb_batch::{Message, Messages};
use session_rules::{Codes, ValidatorWord};
use session_words::{Said, error_attribute, read_words, swima_body, write_words};
use std::alloc::Global;
use swima_model::Report;
use validator_core::{Mirror, Taken};
use wire_base::{List, Memory};

/// The most answers of a batch, which leaves room for a message of the validator's own.
const MOST_ANSWERS: usize = 63;

/// A batch that is being written.
#[derive(Debug, Drop)]
pub(crate) struct Draft {
    /// The answers to messages.
    pub(crate) answers: Messages,
    /// The number of the last PA-TNC message.
    pub(crate) numbered: u32,
    /// The codes of the Errors that were heard.
    pub(crate) errors: Codes,
}

impl Draft {
    /// The batch before the first answer. It takes no memory.
    pub(crate) fn new(alloc: Global, numbered: u32) -> Self
        ensures made { result ≡ record { answers = []; numbered = numbered; errors = [] } }
        ensures fits { Fits result.answers }
    {
        Draft {
            answers: List::new(alloc),
            numbered,
            errors: List::new(alloc),
        }
    }

    /// Puts an Error that answers a message. After the last that has room they are left out.
    fn put_error(&mut self, alloc: Global, error: &PaError) -> Result<(), Memory>
        requires vendor { error.now.vendor < 2 ^ 24 }
        requires short { length (written_error error.now) ≤ 24 }
        requires fits { Fits self.old.answers }
        ensures put { OnOk result ((notes : Notes) (mirror : Held) → draft_of self.new notes mirror ≡ answers (draft_of self.old notes mirror) error.now) }
        ensures fits { OnOk result (Fits self.new.answers) }
    {
        if self.answers.len() >= MOST_ANSWERS {
            return Ok(());
        }
        let number = self.numbered.wrapping_add(1);
        let mut attrs = List::new(alloc);
        attrs.push(error_attribute(alloc, error)?)?;
        self.answers.push(write_words(alloc, number, attrs)?)?;
        self.numbered = number;
        Ok(())
    }
}

/// Takes a message; those that are not about software are passed over.
pub(crate) fn take_message(
    alloc: Global,
    mirror: &mut Mirror,
    notes: &mut Notes,
    draft: &mut Draft,
    message: &Message,
) -> Result<(), Memory>
    requires body { IfSome (swima_body message.now) (λ body. length body ≤ MOST_OCTETS) }
    requires fits { Fits draft.old.answers }
    requires noted { IsNoted notes.old }
    ensures drafted { Drafted notes.old notes.new mirror.old mirror.new (takes_message (draft_of draft.old notes.old mirror.old) message.now) (draft_of draft.new notes.new mirror.new) result }
    ensures fits { OnOk result (Fits draft.new.answers) }
    ensures noted { IsNoted notes.new }
    ensures sent { notes.new.record.sent ≡ notes.old.record.sent }
    ensures received { notes.new.record.received ≡ notes.old.record.received }
{
    let Some(body) = swima_body(message) else {
        return Ok(());
    };
    match read_words(alloc, &ValidatorReader, body.as_slice())? {
        Said::Says(words) => take_words(mirror, notes, draft, words),
        Said::Refused(Some(error)) => draft.put_error(alloc, &error),
        Said::Refused(None) => Ok(()),
    }
}

/// Takes each word.
fn take_words(
    mirror: &mut Mirror,
    notes: &mut Notes,
    draft: &mut Draft,
    words: List<ValidatorWord>,
) -> Result<(), Memory>
    requires fits { Fits draft.old.answers }
    requires noted { IsNoted notes.old }
    ensures drafted { Drafted notes.old notes.new mirror.old mirror.new (each speaks (draft_of draft.old notes.old mirror.old) words) (draft_of draft.new notes.new mirror.new) result }
    ensures fits { OnOk result (Fits draft.new.answers) }
    ensures noted { IsNoted notes.new }
    ensures sent { notes.new.record.sent ≡ notes.old.record.sent }
    ensures received { notes.new.record.received ≡ notes.old.record.received }
{
    for word in words.into_vec() {
        take_word(mirror, notes, draft, word)?;
    }
    Ok(())
}

/// Takes a word.
fn take_word(
    mirror: &mut Mirror,
    notes: &mut Notes,
    draft: &mut Draft,
    word: ValidatorWord,
) -> Result<(), Memory>
    requires fits { Fits draft.old.answers }
    requires noted { IsNoted notes.old }
    ensures drafted { Drafted notes.old notes.new mirror.old mirror.new (speaks (draft_of draft.old notes.old mirror.old) word) (draft_of draft.new notes.new mirror.new) result }
    ensures fits { OnOk result (Fits draft.new.answers) }
    ensures noted { IsNoted notes.new }
    ensures sent { notes.new.record.sent ≡ notes.old.record.sent }
    ensures received { notes.new.record.received ≡ notes.old.record.received }
{
    match word {
        ValidatorWord::Reports(report) => take_report(mirror, notes, report),
        ValidatorWord::Lists(_) => Ok(()),
        ValidatorWord::Failure(code) => draft.errors.push(code),
    }
}

/// The mirror takes a report, and then what it answered is noted.
fn take_report(mirror: &mut Mirror, notes: &mut Notes, report: Report) -> Result<(), Memory>
    requires noted { IsNoted notes.old }
    ensures drafted { (d : DraftValue) → Drafted notes.old notes.new mirror.old mirror.new (takes (draft_of d notes.old mirror.old) report) (draft_of d notes.new mirror.new) result }
    ensures noted { IsNoted notes.new }
    ensures sent { notes.new.record.sent ≡ notes.old.record.sent }
    ensures received { notes.new.record.received ≡ notes.old.record.received }
{
    let point = report.point();
    let Ok(count) = u32::try_from(report.count()) else {
        // No report that was read has that many: they come in one attribute.
        return Err(Memory);
    };
    let answer = mirror.take(&report);
    if is_memory(answer) {
        return Err(Memory);
    }
    notes.last = Some(report);
    note_answer(
        notes,
        TakenReport {
            point,
            count,
            answer,
        },
    )
}

/// Whether the mirror ran out of memory.
fn is_memory(answer: Taken) -> bool
    ensures memory { IsTrue result ↔ (answer ≡ taken.Memory) }
{
    answer == Taken::Memory
}

/// Notes what the mirror answered, in both lists or in none.
fn note_answer(notes: &mut Notes, taken: TakenReport) -> Result<(), Memory>
    ensures noted { OnOk result (notes.new ≡ noted_answer notes.old taken) }
    ensures unchanged { OnErr result (notes.new ≡ notes.old) }
{
    let before = notes.reports.len();
    notes.reports.push(taken)?;
    if let Err(Memory) = notes.record.taken.push(taken.answer) {
        notes.reports.truncate(before);
        return Err(Memory);
    }
    notes.record.reports = notes.record.reports.saturating_add(1);
    Ok(())
}
