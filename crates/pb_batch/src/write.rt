//! Octets of batches.

ghost use Rattle.std.specs.Prelude.{◌≡◌, ◌≤◌, ◌<◌, ◌^◌, ◌++◌, IfOk, OnOk};
ghost use Rattle.pb_batch.specs.Form.{BATCH_OCTETS, IsMessage, batch_octets, body_of, message_octets, value_fields};
ghost use Rattle.pb_batch.specs.Written.{IsBatch, head_of_message, written, written_head, written_header, written_message};
ghost use Rattle.wire_base.specs.Written.{written as written_fields};

use crate::batch::{Batch, Message};
use crate::message_head::MessageHead;
use crate::numbers::{
    ASSESSMENT, ERROR_FIELDS, EXCL, FATAL, HEADER, IETF, MESSAGE_HEAD, NOSKIP, PA_FIELDS,
    RECOMMENDATION, SERVER, VERSION,
};
use std::alloc::Global;
use wire_base::{List, Memory, Octets, flag, put_u8, put_u16, put_u24, put_u32};

/// The octets of a batch: its one written form, with 0 in what is reserved.
#[tactic(auto, unfolding(crate::specs::Written::written))]
pub fn write_batch(alloc: Global, batch: &Batch) -> Result<Octets, Memory>
    requires batch { IsBatch batch.now }
    ensures octets { IfOk result (λ made. made ≡ written batch.now) }
{
    let count = octets_of_batch(batch);
    let mut out = List::with_capacity(alloc, count as usize)?;
    put_header(&mut out, batch, count)?;
    for message in batch.messages.as_slice() {
        put_message(&mut out, message)?;
    }
    Ok(out)
}

/// The header of a batch of that many octets (RFC 5793, section 4.1).
#[tactic(auto, unfolding(wire_base::specs::Written::written))]
fn put_header(out: &mut Octets, batch: &Batch, count: u32) -> Result<(), Memory>
    requires count { count ≡ batch_octets batch.now }
    ensures appended { OnOk result (out.new ≡ out.old ++ written_header batch.now) }
{
    put_u8(out, VERSION)?;
    out.push(flag(batch.from_server, SERVER))?;
    out.push(0)?;
    put_u8(out, batch.kind.number())?;
    put_u32(out, count)
}

/// How many octets a batch has.
fn octets_of_batch(batch: &Batch) -> u32
    requires short { batch_octets batch.now ≤ BATCH_OCTETS }
    ensures octets { result ≡ batch_octets batch.now }
{
    let mut count = HEADER as u32;
    for message in batch.messages.as_slice() {
        count += octets_of_message(message);
    }
    count
}

/// How many octets a message has.
fn octets_of_message(message: &Message) -> u32
    requires short { message_octets message.now ≤ BATCH_OCTETS }
    ensures octets { result ≡ message_octets message.now }
{
    match message {
        Message::Pa { body, .. } => PA_FIELDS as u32 + body.len() as u32,
        Message::Assessment(_) => ASSESSMENT as u32,
        Message::Recommendation(_) => RECOMMENDATION as u32,
        Message::Error { info, .. } => ERROR_FIELDS as u32 + info.len() as u32,
        Message::Frame { body, .. } => MESSAGE_HEAD as u32 + body.len() as u32,
    }
}

/// A message (RFC 5793, section 4.2).
#[tactic(auto, unfolding(crate::specs::Written::written_message, wire_base::specs::Written::written))]
fn put_message(out: &mut Octets, message: &Message) -> Result<(), Memory>
    requires valid { IsMessage message.now }
    requires short { message_octets message.now ≤ BATCH_OCTETS }
    ensures appended { OnOk result (out.new ≡ out.old ++ written_message message.now) }
{
    put_head(out, head_of(message))?;
    put_value(out, message)?;
    out.extend(body_of(message))
}

/// What stands in the message before its value. NOSKIP stands on what a receiver has to know to go
/// on.
fn head_of(message: &Message) -> MessageHead
    requires short { message_octets message.now ≤ BATCH_OCTETS }
    ensures head { result ≡ head_of_message message.now }
{
    let length = octets_of_message(message);
    let (noskip, vendor, kind) = match message {
        Message::Pa { .. } => (true, IETF, 1),
        Message::Assessment(_) => (true, IETF, 2),
        Message::Recommendation(_) => (false, IETF, 3),
        Message::Error { .. } => (true, IETF, 5),
        Message::Frame {
            noskip,
            vendor,
            kind,
            ..
        } => (*noskip, *vendor, *kind),
    };
    MessageHead {
        noskip,
        vendor,
        kind,
        length,
    }
}

#[tactic(auto, unfolding(wire_base::specs::Written::written))]
fn put_head(out: &mut Octets, head: MessageHead) -> Result<(), Memory>
    requires vendor { head.vendor < 2 ^ 24 }
    ensures appended { OnOk result (out.new ≡ out.old ++ written_head head) }
{
    out.push(flag(head.noskip, NOSKIP))?;
    put_u24(out, head.vendor)?;
    put_u32(out, head.kind)?;
    put_u32(out, head.length)
}

/// The fields of the message's value (RFC 5793, sections 4.5, 4.6, 4.7 and 4.9).
#[tactic(auto, unfolding(wire_base::specs::Written::written))]
fn put_value(out: &mut Octets, message: &Message) -> Result<(), Memory>
    requires valid { IsMessage message.now }
    ensures appended { OnOk result
        (out.new ≡ out.old ++ written_fields (value_fields message.now)) }
{
    match message {
        Message::Pa {
            excl,
            vendor,
            subtype,
            collector,
            validator,
            ..
        } => {
            out.push(flag(*excl, EXCL))?;
            put_u24(out, *vendor)?;
            put_u32(out, *subtype)?;
            put_u16(out, *collector)?;
            put_u16(out, *validator)
        }
        Message::Assessment(result) => put_u32(out, *result),
        Message::Recommendation(code) => {
            out.extend(&[0, 0])?;
            put_u16(out, *code)
        }
        Message::Error {
            fatal,
            vendor,
            code,
            ..
        } => {
            out.push(flag(*fatal, FATAL))?;
            put_u24(out, *vendor)?;
            put_u16(out, *code)?;
            out.extend(&[0, 0])
        }
        Message::Frame { .. } => Ok(()),
    }
}

/// The octets after the fields.
fn body_of(message: &Message) -> &[u8]
    ensures body { result.now ≡ body_of message.now }
{
    match message {
        Message::Pa { body, .. } => body.as_slice(),
        Message::Assessment(_) => &[],
        Message::Recommendation(_) => &[],
        Message::Error { info, .. } => info.as_slice(),
        Message::Frame { body, .. } => body.as_slice(),
    }
}
