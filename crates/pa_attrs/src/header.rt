//! The header of an attribute.

ghost use Rattle.std.specs.Prelude.{◌≡◌, ◌≤◌, length};
ghost use Rattle.pa_attrs.specs.Header.{header_of, header_said, placed_header, read_header_fields};
ghost use Rattle.pa_attrs.specs.Numbers.{HEADER};
ghost use Rattle.wire_base.specs.Reading.{GivesExactly, value_alone};

use crate::numbers::{HEADER_OCTETS, NOSKIP};
use wire_base::{Cursor, FieldRefused, Placed};

/// What the header of an attribute says (RFC 5792, section 4.1).
#[derive(Clone, Copy, Debug, PartialEq, Eq)]
pub struct Header {
    /// Whether a receiver that does not support the attribute has to refuse it.
    pub noskip: bool,
    /// The vendor that defines the type.
    pub vendor: u32,
    /// The type.
    pub kind: u32,
    /// The octets of the attribute, with the 12 of its header.
    pub length: u32,
}

/// The fields of a header (RFC 5792, section 4.1), with their places from its first octet.
#[derive(Clone, Copy, Debug, PartialEq, Eq)]
pub(crate) struct HeaderFields {
    pub(crate) noskip: bool,
    pub(crate) vendor: Placed<u32>,
    pub(crate) kind: Placed<u32>,
    pub(crate) length: Placed<u32>,
}

impl HeaderFields {
    /// What the fields say.
    pub(crate) fn header(&self) -> Header
        ensures header { result ≡ header_said self.now }
    {
        Header {
            noskip: self.noskip,
            vendor: self.vendor.value,
            kind: self.kind.value,
            length: self.length.value,
        }
    }
}

/// The header that the first 12 of the octets say. It takes no memory.
pub fn read_header(octets: &[u8]) -> Header
    requires { HEADER ≤ length octets.now }
    ensures header { result ≡ header_of octets.now }
{
    read_fields(octets).header()
}

/// The fields of the header that the first 12 of the octets are.
pub(crate) fn read_fields(octets: &[u8]) -> HeaderFields
    requires { HEADER ≤ length octets.now }
    ensures fields { result ≡ placed_header (header_of octets.now) }
{
    fields(Cursor::new(0, &octets[..HEADER_OCTETS])).unwrap()
}

/// The fields that stand first in what is left.
#[tactic(auto, unfolding(crate::specs::Header::read_header_fields))]
fn fields(mut cursor: Cursor) -> Result<HeaderFields, FieldRefused>
    ensures fields { GivesExactly (λ read. read) result
        (value_alone (read_header_fields cursor.entry)) }
{
    let flags = cursor.u8()?;
    let vendor = Placed {
        at: cursor.place(),
        value: cursor.u24()?,
    };
    let kind = Placed {
        at: cursor.place(),
        value: cursor.u32()?,
    };
    let length = Placed {
        at: cursor.place(),
        value: cursor.u32()?,
    };
    Ok(HeaderFields {
        noskip: flags & NOSKIP != 0,
        vendor,
        kind,
        length,
    })
}
