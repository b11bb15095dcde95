//! What messages say.

ghost use Rattle.std.specs.Prelude.{◌≡◌, ◌≤◌, IfOk, length};
ghost use Rattle.std.specs.Option.{option_copied};
ghost use Rattle.pa_attrs.specs.MessageReading.{AreSupported, LieWithin};
ghost use Rattle.pa_attrs.specs.Numbers.{MOST_OCTETS};
ghost use Rattle.session_rules.specs.Saying.{if_swima, refused_by, says, swima_body, values_say, words_of};
ghost use Rattle.session_words.specs.Said.{said_of};
ghost use Rattle.wire_base.specs.Reading.{Gives};

use crate::reader::WordReader;
use pa_attrs::{IETF, PaError, PaFault, PaRead, PlacedAttr, read_message, value_fault};
use pb_batch::Message;
use std::alloc::Global;
use swima_request::SWIMA_ATTRIBUTES;
use wire_base::{FieldRefused, List, Memory, Octets};

/// What a message says to an end.
#[derive(Debug, Drop)]
pub enum Said<W> {
    /// A word of each attribute, in order.
    Says(List<W>),
    /// Nothing, since the message has a fault. The Error, where there is one, reports the fault to
    /// the sender (RFC 5792, section 4.2.8).
    Refused(Option<PaError>),
}

/// The PA-TNC message that a message of a batch carries, where it is about software (RFC 8412,
/// section 5.1); all others are passed over.
pub fn swima_body(message: &Message) -> Option<&Octets>
    ensures body { option_copied result ≡ swima_body message.now }
{
    match message {
        Message::Pa {
            vendor,
            subtype,
            body,
            ..
        } => if_swima(*vendor, *subtype, body),
        Message::Assessment(_) => None,
        Message::Recommendation(_) => None,
        Message::Error { .. } => None,
        Message::Frame { .. } => None,
    }
}

/// The body of a PB-PA message, where it is about software.
fn if_swima(vendor: u32, subtype: u32, body: &Octets) -> Option<&Octets>
    ensures body { option_copied result ≡ if_swima vendor subtype body.now }
{
    if vendor == IETF && subtype == SWIMA_ATTRIBUTES {
        Some(body)
    } else {
        None
    }
}

/// What a PA-TNC message says to the end of the reader.
pub fn read_words<R: WordReader>(
    alloc: Global,
    reader: &R,
    body: &[u8],
) -> Result<Said<R::Word>, Memory>
    requires short { length body.now ≤ MOST_OCTETS }
    ensures said { IfOk result (λ said. said_of said ≡ says (R.types reader.now) (R.reading reader.now) body.now) }
{
    match read_message(alloc, body, reader.supported()) {
        PaRead::Ok { attrs, .. } => values(alloc, reader, body, attrs.as_slice()),
        PaRead::Refused(fault) => refused(alloc, &fault),
        PaRead::Memory => Err(Memory),
    }
}

/// What a message with these attributes says. A fault of a value refuses it.
fn values<R: WordReader>(
    alloc: Global,
    reader: &R,
    body: &[u8],
    attrs: &[PlacedAttr],
) -> Result<Said<R::Word>, Memory>
    requires short { length body.now ≤ MOST_OCTETS }
    requires within { LieWithin (length body.now) attrs.now }
    requires supported { AreSupported (R.types reader.now) attrs.now }
    ensures said { IfOk result (λ said. said_of said ≡ values_say body.now attrs.now (words_of (R.reading reader.now) attrs.now)) }
{
    match words(alloc, reader, attrs) {
        Ok(words) => Ok(Said::Says(words)),
        Err(FieldRefused::Fault { offset }) => { refused(alloc, &value_fault(body, attrs, offset)) }
        Err(FieldRefused::Memory) => Err(Memory),
    }
}

/// A word of each attribute, or the place of the first fault of a value.
fn words<R: WordReader>(
    alloc: Global,
    reader: &R,
    attrs: &[PlacedAttr],
) -> Result<List<R::Word>, FieldRefused>
    requires within { LieWithin MOST_OCTETS attrs.now }
    requires supported { AreSupported (R.types reader.now) attrs.now }
    ensures words { Gives (λ words. words) result (words_of (R.reading reader.now) attrs.now) }
{
    let mut words = List::new(alloc);
    for placed in attrs {
        words.push(reader.read(alloc, placed)?)?;
    }
    Ok(words)
}

/// The refusal of a message with a fault.
fn refused<W: Drop>(alloc: Global, fault: &PaFault) -> Result<Said<W>, Memory>
    ensures refused { IfOk result (λ said. said_of said ≡ refused_by fault.now) }
{
    if !fault.answer {
        return Ok(Said::Refused(None));
    }
    Ok(Said::Refused(Some(PaError::of(alloc, fault)?)))
}
