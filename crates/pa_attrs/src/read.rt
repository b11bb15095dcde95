//! Reading messages.

ghost use Rattle.std.specs.Prelude.{◌≡◌, ◌==◌, ◌&&◌, not, ◌≤◌, ◌+◌, ◌∷◌, ◌++◌, ◌<◌, ◌^◌, [], drop, length, filter, OnOk, OnErr, IfOk};
ghost use Rattle.std.specs.List.{list_any};
ghost use Rattle.pa_attrs.specs.Header.{attr_of, header_of, read_start};
ghost use Rattle.pa_attrs.specs.MessageReading.{Answers, AreSupported, LieWithin, OnRead, Reads, attributes, attrs_of, fault_of, first_octets, first_told, is_answered, is_error, message_of, placed, supports, value_fault};
ghost use Rattle.pa_attrs.specs.Numbers.{ERROR as ERROR_TYPE, HEADER, IETF as IETF_VENDOR, MESSAGE_HEADER, MOST_ATTRIBUTES as MOST_COUNT, MOST_OCTETS};
ghost use Rattle.wire_base.specs.Reading.{GivesExactly, value_alone};

use crate::attr::{Attr, PlacedAttr, PlacedAttrs};
use crate::error_code::PaErrorCode;
use crate::fault::{AttrFault, PaFault};
use crate::header::Header;
use crate::header_fault::{is_supported, message_header};
use crate::numbers::{
    ERROR, HEADER_OCTETS, IETF, INVALID_PARAMETER, MESSAGE_HEADER_OCTETS, MOST_ATTRIBUTES,
    UNSUPPORTED_ATTRIBUTE, VERSION,
};
use std::alloc::Global;
use wire_base::{Cursor, FieldRefused, List, Memory, Refused};

/// What the octets of a message are read as.
#[derive(Debug, Drop)]
pub enum PaRead {
    /// A message.
    Ok {
        /// The message identifier.
        id: u32,
        /// The attributes that are supported, each with the place of its value.
        attrs: PlacedAttrs,
    },
    /// A message with a fault, of which nothing is handed out.
    Refused(PaFault),
    /// Out of memory.
    Memory,
}

/// The message whose octets these are, all of them (RFC 5792, section 3.6).
///
/// `supported` lists the types of vendor 0 that are supported. Other attributes are left out, but
/// where one may not be passed over the message is refused. `Refused` comes exactly where the
/// octets have no form of a message, or such an attribute; it has the first fault.
///
/// The attributes are at most 64. The value of each lies in the message.
pub fn read_message(alloc: Global, bytes: &[u8], supported: &[u32]) -> PaRead
    requires { length bytes.now ≤ MOST_OCTETS }
    ensures read { Reads result (message_of supported.now bytes.now) }
    ensures few { OnRead result (λ attrs. length attrs ≤ MOST_COUNT) }
    ensures within { OnRead result (λ attrs. LieWithin (length bytes.now) attrs) }
    ensures supported { OnRead result (λ attrs. AreSupported supported.now attrs) }
{
    match message(alloc, bytes, supported) {
        Ok((id, attrs)) => PaRead::Ok { id, attrs },
        Err(Refused::Fault(fault)) => PaRead::Refused(fault),
        Err(Refused::Memory) => PaRead::Memory,
    }
}

/// The identifier of the message and its attributes that are supported, or its first fault.
#[tactic(auto, unfolding(crate::specs::MessageReading::message_of))]
fn message(
    alloc: Global,
    bytes: &[u8],
    supported: &[u32],
) -> Result<(u32, PlacedAttrs), Refused<PaFault>>
    requires { length bytes.now ≤ MOST_OCTETS }
    ensures message { Answers result (message_of supported.now bytes.now) }
{
    let Ok((version, id)) = message_start(Cursor::new(0, bytes)) else {
        let fault = AttrFault::new(PaErrorCode::InvalidParameter, 0);
        return Err(Refused::Fault(fault_of(bytes, true, 0, bytes, fault)));
    };
    if version != VERSION {
        let fault = AttrFault::new(PaErrorCode::VersionNotSupported, 0);
        return Err(Refused::Fault(fault_of(bytes, true, 0, bytes, fault)));
    }
    let kept = attributes(alloc, bytes, supported)?;
    Ok((id, kept))
}

/// The version of a message and its identifier, which its header has (RFC 5792, section 3.6).
#[tactic(auto, unfolding(crate::specs::Header::read_start))]
fn message_start(mut cursor: Cursor) -> Result<(u8, u32), FieldRefused>
    ensures start { GivesExactly (λ read. read) result (value_alone (read_start cursor.entry)) }
{
    let version = cursor.u8()?;
    cursor.octets(3)?; // reserved
    let id = cursor.u32()?;
    Ok((version, id))
}

/// The attributes of a message that are supported, or the first fault after its header.
fn attributes(
    alloc: Global,
    bytes: &[u8],
    supported: &[u32],
) -> Result<PlacedAttrs, Refused<PaFault>>
    requires least { MESSAGE_HEADER ≤ length bytes.now }
    requires most { length bytes.now ≤ MOST_OCTETS }
    ensures attrs { Answers result (attrs_of supported.now bytes.now) }
{
    let mut attrs = List::new(alloc);
    let mut answer = true;
    let mut room = MOST_ATTRIBUTES;
    let mut at = MESSAGE_HEADER_OCTETS as u32;
    let (_, mut rest) = bytes.split_at(MESSAGE_HEADER_OCTETS);
    while !rest.is_empty() {
        let said = message_header(supported, room, rest);
        let header = match said {
            Ok(header) => header,
            Err(fault) => {
                return Err(Refused::Fault(fault_of(bytes, answer, at, rest, fault)));
            }
        };
        keep(alloc, supported, header, rest, at, &mut attrs)?;
        answer = is_still_answered(answer, header);
        let (_, behind) = rest.split_at(header.length as usize);
        rest = behind;
        at += header.length;
        room -= 1;
    }
    Ok(attrs)
}

/// Puts the attribute with the header that stands first in the octets, which begin at `at`, after
/// the others, if it is supported.
fn keep(
    alloc: Global,
    supported: &[u32],
    header: Header,
    octets: &[u8],
    at: u32,
    attrs: &mut PlacedAttrs,
) -> Result<(), Memory>
    requires least { HEADER ≤ header.length }
    requires within { header.length ≤ length octets.now }
    requires places { at + HEADER < 2 ^ 32 }
    ensures appended { OnOk result (attrs.new ≡ attrs.old ++ filter (supports supported.now) (placed at header octets.now ∷ [])) }
{
    if !is_supported(supported, header.vendor, header.kind) {
        return Ok(());
    }
    let value = List::from_slice(alloc, &octets[HEADER_OCTETS..header.length as usize])?;
    let attr = Attr {
        noskip: header.noskip,
        vendor: header.vendor,
        kind: header.kind,
        value,
    };
    attrs.push(PlacedAttr {
        at: at + HEADER_OCTETS as u32,
        attr,
    })
}

/// Whether a fault after the attribute is reported to the sender, where one before it was to be.
fn is_still_answered(answer: bool, header: Header) -> bool
    ensures answer { result ≡ answer && not ((header.vendor == IETF_VENDOR) && (header.kind == ERROR_TYPE)) }
{
    answer && !(header.vendor == IETF && header.kind == ERROR)
}

/// Whether the sender is informed of a fault in the value of an attribute, where these are all
/// attributes of its message. That is so where none of them is a PA-TNC Error, since no Error
/// answers an Error (RFC 5792, section 4.2.8). A message that was read has its Errors among them
/// where their type is one of those that are supported. It takes no memory.
pub fn is_value_fault_answered(attrs: &[PlacedAttr]) -> bool
    ensures answered { result ≡ is_answered attrs.now }
{
    !has_error(attrs)
}

/// The fault of a value in the message whose octets and attributes these are (RFC 5792,
/// section 4.2.8.1): an invalid parameter at `offset`, which is counted from the start of the
/// message. It is answered as `is_value_fault_answered` says. It takes no memory.
pub fn value_fault(bytes: &[u8], attrs: &[PlacedAttr], offset: u32) -> PaFault
    ensures fault { result ≡ value_fault bytes.now attrs.now offset }
{
    PaFault {
        code: INVALID_PARAMETER,
        offset,
        header: first_octets(bytes),
        first: [0; 8],
        answer: is_value_fault_answered(attrs),
    }
}

/// Whether one of the attributes is a PA-TNC Error.
fn has_error(attrs: &[PlacedAttr]) -> bool
    ensures error { result ≡ list_any is_error attrs.now }
{
    for placed in attrs {
        if placed.attr.vendor == IETF && placed.attr.kind == ERROR {
            return true;
        }
    }
    false
}

/// The fault of a message, of an attribute that begins with `rest` at `at`.
fn fault_of(bytes: &[u8], answer: bool, at: u32, rest: &[u8], fault: AttrFault) -> PaFault
    requires { at + fault.at < 2 ^ 32 }
    ensures fault { result ≡ fault_of bytes.now answer (record { at = at; octets = rest.now; fault = fault }) }
{
    PaFault {
        code: fault.code,
        offset: at + fault.at as u32,
        header: first_octets(bytes),
        first: first_told(fault.code, rest),
        answer,
    }
}

/// The first octets of an attribute that is not supported, else 0.
fn first_told(code: u32, octets: &[u8]) -> [u8; 8]
    ensures first { result ≡ first_told code octets.now }
{
    if code == UNSUPPORTED_ATTRIBUTE {
        return first_octets(octets);
    }
    [0; 8]
}

/// The first 8 of the octets, with 0 in place of those that are not there.
fn first_octets(octets: &[u8]) -> [u8; 8]
    ensures first { result ≡ first_octets octets.now }
{
    let mut first = [0; 8];
    let count = octets.len().min(8);
    first[..count].copy_from_slice(&octets[..count]);
    first
}
