//! The faults of the headers of attributes.

ghost use Rattle.std.specs.Prelude.{◌≡◌, ◌==◌, ◌≤◌, length};
ghost use Rattle.std.specs.List.{list_any};
ghost use Rattle.pa_attrs.specs.Faults.{fault, first_shown, header_rows, is_refused, is_supported, message_header, stream_header, unless};
ghost use Rattle.pa_attrs.specs.Header.{header_said, placed_header};
ghost use Rattle.pa_attrs.specs.Numbers.{HEADER, INVALID_PARAMETER as INVALID, MOST_OCTETS};

use crate::error_code::PaErrorCode;
use crate::fault::AttrFault;
use crate::header::{Header, HeaderFields, read_fields};
use crate::numbers::{HEADER_OCTETS, IETF, MOST_ATTRIBUTE_OCTETS, NO_TYPE, NO_VENDOR};

/// The header of the attribute of a stream that begins with these octets, or its first fault.
#[tactic(auto, unfolding(crate::specs::Faults::stream_header))]
pub(crate) fn stream_header(octets: &[u8]) -> Result<Header, AttrFault>
    requires { HEADER ≤ length octets.now }
    ensures header { result ≡ stream_header octets.now }
{
    let fields = read_fields(octets);
    unless(
        header_fault(&fields, MOST_ATTRIBUTE_OCTETS),
        fields.header(),
    )
}

/// The header of the attribute of a message that begins with these octets, all that are left of the
/// message, where that many attributes more have room in it; or its first fault.
#[tactic(auto, unfolding(crate::specs::Faults::message_header))]
pub(crate) fn message_header(
    supported: &[u32],
    room: usize,
    octets: &[u8],
) -> Result<Header, AttrFault>
    requires { length octets.now ≤ MOST_OCTETS }
    ensures header { result ≡ message_header supported.now room octets.now }
{
    if room == 0 {
        return Err(AttrFault::new(PaErrorCode::InvalidParameter, 0));
    }
    if octets.len() < HEADER_OCTETS {
        return Err(AttrFault::new(PaErrorCode::InvalidParameter, 0));
    }
    let fields = read_fields(octets);
    let header = fields.header();
    if is_refused(supported, &header) {
        return Err(AttrFault::new(PaErrorCode::AttributeTypeNotSupported, 0));
    }
    unless(header_fault(&fields, octets.len() as u32), header)
}

/// The header, unless there is a fault.
fn unless(fault: Option<AttrFault>, header: Header) -> Result<Header, AttrFault>
    ensures header { result ≡ unless fault header }
{
    match fault {
        Some(fault) => Err(fault),
        None => Ok(header),
    }
}

/// The first fault that shows in the header of an attribute for which there are that many octets.
fn header_fault(fields: &HeaderFields, most: u32) -> Option<AttrFault>
    requires placed { fields.now ≡ placed_header (header_said fields.now) }
    ensures fault { result ≡ first_shown (header_rows most (header_said fields.now)) }
{
    if fields.vendor.value == NO_VENDOR {
        return Some(invalid(fields.vendor.at));
    }
    if fields.kind.value == NO_TYPE {
        return Some(invalid(fields.kind.at));
    }
    let length = fields.length.value;
    if length < HEADER_OCTETS as u32 || most < length {
        return Some(invalid(fields.length.at));
    }
    None
}

/// An invalid parameter in the field at a place.
fn invalid(at: u32) -> AttrFault
    ensures fault { result ≡ fault INVALID at }
{
    AttrFault::new(PaErrorCode::InvalidParameter, u64::from(at))
}

/// Whether the attribute may not be passed over and is not supported.
fn is_refused(supported: &[u32], header: &Header) -> bool
    ensures refused { result ≡ is_refused supported.now header.now }
{
    header.noskip && !is_supported(supported, header.vendor, header.kind)
}

/// Whether attributes of the type are supported, by a list of types of vendor 0.
pub(crate) fn is_supported(supported: &[u32], vendor: u32, kind: u32) -> bool
    ensures supported { result ≡ is_supported supported.now vendor kind }
{
    vendor == IETF && is_listed(supported, kind)
}

/// Whether the type is one of the list.
fn is_listed(supported: &[u32], kind: u32) -> bool
    ensures listed { result ≡ list_any (λ known. known == kind) supported.now }
{
    supported.iter().any(|known| *known == kind)
}
