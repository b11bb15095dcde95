//! The values of messages.

ghost use Rattle.pb_batch.specs.Faults.{may_have};
ghost use Rattle.pb_batch.specs.FieldReading.{is_no_type, is_no_vendor, read_assessment, read_error, read_frame, read_message, read_pa, read_recommendation, unless_so};
ghost use Rattle.pb_batch.specs.Front.{head_in, value_of};
ghost use Rattle.pb_batch.specs.Gives.{Gives};
ghost use Rattle.pb_batch.specs.Types.{type_of};
ghost use Rattle.std.specs.Prelude.{◌≡◌, ◌+◌, ◌≤◌, ◌<◌, ◌^◌, IsTrue, length};
ghost use Rattle.wire_base.specs.Reading.{Gives as GivesRead, GivesExactly, meaning, number, value_alone};

use crate::batch::Message;
use crate::fault::{BatchRefused, in_value};
use crate::kind::MessageType;
use crate::message_head::MessageHead;
use crate::numbers::{
    EXCL, FATAL, LAST_RECOMMENDATION, LAST_RESULT, MESSAGE_HEAD, NO_TYPE, NO_VENDOR,
};
use std::alloc::Global;
use wire_base::{Cursor, FieldRefused, List};

/// Reads the message with the head that stands first in `rest`, what is left of the batch from the
/// place `at` on.
pub(crate) fn read_value(
    alloc: Global,
    head: MessageHead,
    at: u32,
    rest: &[u8],
) -> Result<Message, BatchRefused>
    requires head { head ≡ head_in rest.now }
    requires within { head.length ≤ length rest.now }
    requires may { IsTrue (may_have (type_of head.vendor head.kind) head.length) }
    requires places { at + length rest.now < 2 ^ 31 }
    ensures value { Gives (λ m. m) result (value_of at rest.now (type_of head.vendor head.kind)) }
{
    let cursor = Cursor::new(at, &rest[..head.length as usize]);
    match read_message(alloc, head, cursor) {
        Ok(message) => Ok(message),
        Err(refused) => Err(in_value(refused)),
    }
}

/// Reads the message with the head, of which all octets are left.
#[tactic(auto, unfolding(crate::specs::FieldReading::read_message))]
fn read_message(
    alloc: Global,
    head: MessageHead,
    mut cursor: Cursor,
) -> Result<Message, FieldRefused>
    ensures message { GivesRead (λ m. m) result (value_alone (read_message head cursor.entry)) }
{
    cursor.octets(MESSAGE_HEAD)?;
    match MessageType::from_numbers(head.vendor, head.kind) {
        MessageType::Pa => read_pa(alloc, cursor),
        MessageType::Assessment => read_assessment(cursor),
        MessageType::Recommendation => read_recommendation(cursor),
        MessageType::Error => read_error(alloc, cursor),
        MessageType::Other => read_frame(alloc, head, cursor),
    }
}

/// A PB-PA message (RFC 5793, section 4.5).
#[tactic(auto, unfolding(crate::specs::FieldReading::read_pa))]
fn read_pa(alloc: Global, mut cursor: Cursor) -> Result<Message, FieldRefused>
    ensures value { GivesRead (λ m. m) result (value_alone (read_pa cursor.entry)) }
{
    let flags = cursor.u8()?;
    let vendor = read_vendor(&mut cursor)?;
    let subtype = read_type(&mut cursor)?;
    let collector = cursor.u16()?;
    let validator = cursor.u16()?;
    let body = cursor.octets(cursor.left())?;
    Ok(Message::Pa {
        excl: flags & EXCL != 0,
        vendor,
        subtype,
        collector,
        validator,
        body: List::from_slice(alloc, body)?,
    })
}

/// A PB-Assessment-Result (RFC 5793, section 4.6).
#[tactic(auto, unfolding(crate::specs::FieldReading::read_assessment))]
fn read_assessment(mut cursor: Cursor) -> Result<Message, FieldRefused>
    ensures value { GivesExactly (λ m. m) result (value_alone (read_assessment cursor.entry)) }
{
    let place = cursor.place();
    let result = cursor.u32()?;
    if LAST_RESULT < result {
        return Err(FieldRefused::Fault { offset: place });
    }
    Ok(Message::Assessment(result))
}

/// A PB-Access-Recommendation (RFC 5793, section 4.7).
#[tactic(auto, unfolding(crate::specs::FieldReading::read_recommendation))]
fn read_recommendation(mut cursor: Cursor) -> Result<Message, FieldRefused>
    ensures value { GivesExactly (λ m. m) result (value_alone (read_recommendation cursor.entry)) }
{
    cursor.octets(2)?; // reserved
    let place = cursor.place();
    let code = cursor.u16()?;
    if code < 1 || LAST_RECOMMENDATION < code {
        return Err(FieldRefused::Fault { offset: place });
    }
    Ok(Message::Recommendation(code))
}

/// A PB-Error (RFC 5793, section 4.9).
#[tactic(auto, unfolding(crate::specs::FieldReading::read_error))]
fn read_error(alloc: Global, mut cursor: Cursor) -> Result<Message, FieldRefused>
    ensures value { GivesRead (λ m. m) result (value_alone (read_error cursor.entry)) }
{
    let flags = cursor.u8()?;
    let vendor = cursor.u24()?;
    let code = cursor.u16()?;
    cursor.octets(2)?; // reserved
    let info = cursor.octets(cursor.left())?;
    Ok(Message::Error {
        fatal: flags & FATAL != 0,
        vendor,
        code,
        info: List::from_slice(alloc, info)?,
    })
}

/// Any other message.
#[tactic(auto, unfolding(crate::specs::FieldReading::read_frame))]
fn read_frame(alloc: Global, head: MessageHead, mut cursor: Cursor) -> Result<Message, FieldRefused>
    ensures value { GivesRead (λ m. m) result (value_alone (read_frame head cursor.entry)) }
{
    let body = cursor.octets(cursor.left())?;
    Ok(Message::Frame {
        noskip: head.noskip,
        vendor: head.vendor,
        kind: head.kind,
        body: List::from_slice(alloc, body)?,
    })
}

/// A vendor; a fault at its first octet where that is the one that stands for none.
fn read_vendor(cursor: &mut Cursor) -> Result<u32, FieldRefused>
    ensures vendor { GivesExactly (λ read. (read, cursor.new)) result
        (meaning (unless_so is_no_vendor) (number 3) cursor.old) }
{
    let place = cursor.place();
    let vendor = cursor.u24()?;
    if vendor == NO_VENDOR {
        return Err(FieldRefused::Fault { offset: place });
    }
    Ok(vendor)
}

/// A type of a vendor; a fault at its first octet where that is the one that stands for none.
fn read_type(cursor: &mut Cursor) -> Result<u32, FieldRefused>
    ensures kind { GivesExactly (λ read. (read, cursor.new)) result
        (meaning (unless_so is_no_type) (number 4) cursor.old) }
{
    let place = cursor.place();
    let kind = cursor.u32()?;
    if kind == NO_TYPE {
        return Err(FieldRefused::Fault { offset: place });
    }
    Ok(kind)
}
