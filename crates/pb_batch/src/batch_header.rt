//! The header of a batch.

ghost use Rattle.pb_batch.specs.FieldReading.{checked_header, read_header_fields};
ghost use Rattle.pb_batch.specs.Front.{header_seen};
ghost use Rattle.std.specs.Prelude.{◌≡◌, ◌<◌, ◌^◌, length};
ghost use Rattle.wire_base.specs.Reading.{GivesExactly, value_alone};

use crate::error_code::PbErrorCode;
use crate::fault::PbFault;
use crate::kind::BatchKind;
use crate::numbers::{BATCH_TYPES, HEADER, MOST_BATCH_OCTETS, SERVER, VERSION};
use wire_base::{Cursor, FieldRefused, Placed};

/// What a header says.
#[derive(Clone, Copy, Debug, PartialEq, Eq)]
pub(crate) struct Header {
    /// What the batch is for.
    pub(crate) kind: BatchKind,
    /// The octets of the batch, with those of the header.
    pub(crate) length: u32,
}

/// The fields of a header (RFC 5793, section 4.1).
#[derive(Clone, Copy, Debug, PartialEq, Eq)]
struct HeaderFields {
    version: Placed<u8>,
    flags: Placed<u8>,
    kind: Placed<u8>,
    length: Placed<u32>,
}

/// Reads a header of the direction that is expected; `None` where not all of it is there.
pub(crate) fn read_header(from_server: bool, octets: &[u8]) -> Result<Option<Header>, PbFault>
    requires places { length octets.now < 2 ^ 32 }
    ensures header { result ≡ header_seen from_server octets.now }
{
    let Ok(fields) = read_fields(Cursor::new(0, octets)) else {
        return Ok(None);
    };
    let header = check_fields(from_server, fields)?;
    Ok(Some(header))
}

/// What the fields say, or the first fault in them.
fn check_fields(from_server: bool, fields: HeaderFields) -> Result<Header, PbFault>
    ensures header { result ≡ checked_header from_server fields }
{
    if fields.version.value != VERSION {
        return Err(PbFault {
            code: PbErrorCode::VersionNotSupported.number(),
            offset: fields.version.at,
            version: fields.version.value,
        });
    }
    let is_of_server = fields.flags.value & SERVER != 0;
    if is_of_server != from_server {
        return Err(PbFault::new(PbErrorCode::InvalidParameter, fields.flags.at));
    }
    let Some(kind) = BatchKind::from_number(fields.kind.value % BATCH_TYPES) else {
        return Err(PbFault::new(PbErrorCode::InvalidParameter, fields.kind.at));
    };
    let count = fields.length.value;
    if count < HEADER as u32 || MOST_BATCH_OCTETS < count {
        return Err(PbFault::new(PbErrorCode::InvalidParameter, fields.length.at));
    }
    Ok(Header {
        kind,
        length: count,
    })
}

/// Reads the fields of a header.
#[tactic(auto, unfolding(crate::specs::FieldReading::read_header_fields))]
fn read_fields(mut cursor: Cursor) -> Result<HeaderFields, FieldRefused>
    ensures fields { GivesExactly (λ read. read) result
        (value_alone (read_header_fields cursor.entry)) }
{
    let version = Placed {
        at: cursor.place(),
        value: cursor.u8()?,
    };
    let flags = Placed {
        at: cursor.place(),
        value: cursor.u8()?,
    };
    cursor.octets(1)?; // reserved
    let kind = Placed {
        at: cursor.place(),
        value: cursor.u8()?,
    };
    let length = Placed {
        at: cursor.place(),
        value: cursor.u32()?,
    };
    Ok(HeaderFields {
        version,
        flags,
        kind,
        length,
    })
}
