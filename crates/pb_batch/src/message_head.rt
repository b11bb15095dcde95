//! What a message says before its value.

ghost use Rattle.pb_batch.specs.Faults.{may_have};
ghost use Rattle.pb_batch.specs.FieldReading.{checked_head, head_said, read_head_fields};
ghost use Rattle.pb_batch.specs.Front.{head_in, head_of};
ghost use Rattle.pb_batch.specs.Types.{is_known, type_of};
ghost use Rattle.std.specs.Prelude.{◌≡◌, ◌+◌, ◌≤◌, ◌<◌, ◌^◌, IfOk, IsTrue, length};
ghost use Rattle.wire_base.specs.Reading.{GivesExactly, value_alone};

use crate::error_code::PbErrorCode;
use crate::fault::PbFault;
use crate::kind::MessageType;
use crate::numbers::{
    ASSESSMENT, ERROR_FIELDS, MESSAGE_HEAD, NO_TYPE, NO_VENDOR, NOSKIP, PA_FIELDS, RECOMMENDATION,
};
use wire_base::{Cursor, FieldRefused, Placed};

/// What a message says before its value.
#[derive(Clone, Copy, Debug, PartialEq, Eq)]
pub(crate) struct MessageHead {
    pub(crate) noskip: bool,
    pub(crate) vendor: u32,
    pub(crate) kind: u32,
    /// The octets of the message, with those of the head.
    pub(crate) length: u32,
}

/// The fields of a head (RFC 5793, section 4.2).
#[derive(Clone, Copy, Debug, PartialEq, Eq)]
struct HeadFields {
    flags: Placed<u8>,
    vendor: Placed<u32>,
    kind: Placed<u32>,
    length: Placed<u32>,
}

/// Reads the head of the message that stands first in `rest`, what is left of the batch from the
/// place `at` on. After the messages before it `left` more may come.
pub(crate) fn read_head(left: usize, at: u32, rest: &[u8]) -> Result<MessageHead, PbFault>
    requires { at + length rest.now < 2 ^ 31 }
    ensures head { result ≡ head_of left at rest.now }
    ensures fields { IfOk result (λ head. head ≡ head_in rest.now) }
    ensures within { IfOk result (λ head. head.length ≤ length rest.now) }
    ensures may { IfOk result (λ head. IsTrue (may_have (type_of head.vendor head.kind) head.length)) }
{
    if left == 0 {
        return Err(PbFault::new(PbErrorCode::InvalidParameter, at));
    }
    let Ok(fields) = read_fields(Cursor::new(at, rest)) else {
        return Err(PbFault::new(PbErrorCode::InvalidParameter, at));
    };
    check_fields(fields, rest.len())
}

/// What the fields say, where that many octets are left of the batch; or the first fault in them.
fn check_fields(fields: HeadFields, left: usize) -> Result<MessageHead, PbFault>
    ensures head { result ≡ checked_head left fields }
    ensures fields { IfOk result (λ head. head ≡ head_said fields) }
    ensures within { IfOk result (λ head. head.length ≤ left) }
    ensures may { IfOk result (λ head. IsTrue (may_have (type_of head.vendor head.kind) head.length)) }
{
    let noskip = fields.flags.value & NOSKIP != 0;
    let (vendor, kind, length) = (fields.vendor.value, fields.kind.value, fields.length.value);
    if noskip && !is_known(vendor, kind) {
        return Err(PbFault::new(PbErrorCode::UnsupportedMandatoryMessage, fields.flags.at));
    }
    if vendor == NO_VENDOR {
        return Err(PbFault::new(PbErrorCode::InvalidParameter, fields.vendor.at));
    }
    if kind == NO_TYPE {
        return Err(PbFault::new(PbErrorCode::InvalidParameter, fields.kind.at));
    }
    if left < length as usize || !may_have(MessageType::from_numbers(vendor, kind), length) {
        return Err(PbFault::new(PbErrorCode::InvalidParameter, fields.length.at));
    }
    Ok(MessageHead {
        noskip,
        vendor,
        kind,
        length,
    })
}

/// Reads the fields of a head.
#[tactic(auto, unfolding(crate::specs::FieldReading::read_head_fields))]
fn read_fields(mut cursor: Cursor) -> Result<HeadFields, FieldRefused>
    ensures fields { GivesExactly (λ read. read) result
        (value_alone (read_head_fields cursor.entry)) }
{
    let flags = Placed {
        at: cursor.place(),
        value: cursor.u8()?,
    };
    let vendor = Placed {
        at: cursor.place(),
        value: cursor.u24()?,
    };
    let kind = Placed {
        at: cursor.place(),
        value: cursor.u32()?,
    };
    let length = Placed {
        at: cursor.place(),
        value: cursor.u32()?,
    };
    Ok(HeadFields {
        flags,
        vendor,
        kind,
        length,
    })
}

/// Whether the type is one of those of RFC 5793, section 4.3, that NOSKIP may stand on.
fn is_known(vendor: u32, kind: u32) -> bool
    ensures known { result ≡ is_known vendor kind }
{
    vendor == 0 && 0 < kind && kind < 8
}

/// Whether a message of the type may have that many octets.
fn may_have(message_type: MessageType, octets: u32) -> bool
    ensures may { result ≡ may_have message_type octets }
{
    match message_type {
        MessageType::Pa => PA_FIELDS as u32 <= octets,
        MessageType::Assessment => octets == ASSESSMENT as u32,
        MessageType::Recommendation => octets == RECOMMENDATION as u32,
        MessageType::Error => ERROR_FIELDS as u32 <= octets,
        MessageType::Other => MESSAGE_HEAD as u32 <= octets,
    }
}
