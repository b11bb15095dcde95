//! PA-TNC Errors from octets, and octets of Errors.

ghost use Rattle.std.specs.Prelude.{◌≡◌, ◌+◌, ◌<◌, ◌^◌, length, IfOk};
ghost use Rattle.pa_attrs.specs.ErrorForm.{read_error, written_error};
ghost use Rattle.wire_base.specs.Reading.{Gives, value_alone, whole};

use crate::error::PaError;
use std::alloc::Global;
use wire_base::{Cursor, FieldRefused, List, Memory, Octets, put_u8, put_u24, put_u32};

/// The octets of an Error: the value of its attribute (RFC 5792, section 4.2.8), with 0 in what is
/// reserved.
#[tactic(auto, unfolding(wire_base::specs::Written::written, wire_base::specs::Numbers::octets_of))]
pub fn write_error(alloc: Global, error: &PaError) -> Result<Octets, Memory>
    requires vendor { error.now.vendor < 2 ^ 24 }
    ensures octets { IfOk result (λ made. made ≡ written_error error.now) }
{
    let mut out = List::new(alloc);
    put_u8(&mut out, 0)?;
    put_u24(&mut out, error.vendor)?;
    put_u32(&mut out, error.code)?;
    out.extend(error.info.as_slice())?;
    Ok(out)
}

/// The Error that is the value of an attribute of vendor 0 and type 8 (RFC 5792, section 4.2.8).
///
/// `Fault` comes exactly where the value has fewer than 8 octets; its offset is the place of the
/// first field that does not fit, counted from `base`, the place of the value's first octet.
pub fn read_error(alloc: Global, value: &[u8], base: u32) -> Result<PaError, FieldRefused>
    requires places { base + length value.now < 2 ^ 32 }
    ensures value { Gives (λ read. read) result (whole read_error base value.now) }
{
    error(alloc, Cursor::new(base, value))
}

/// The Error in what is left, all of it.
#[tactic(auto, unfolding(crate::specs::ErrorForm::read_error))]
fn error(alloc: Global, mut cursor: Cursor) -> Result<PaError, FieldRefused>
    ensures error { Gives (λ read. read) result (value_alone (read_error cursor.entry)) }
{
    cursor.octets(1)?;
    let vendor = cursor.u24()?;
    let code = cursor.u32()?;
    let octets = cursor.octets(cursor.left())?;
    cursor.end()?;
    Ok(PaError {
        vendor,
        code,
        info: List::from_slice(alloc, octets)?,
    })
}
