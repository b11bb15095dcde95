//! Whether octets are a canonical spelling.

ghost use Rattle.std.specs.Prelude.{◌≡◌, ◌↔◌, IfOk, IsTrue};
ghost use Rattle.cbor_det.specs.Proper.{IsCanonical, largest};

use crate::fault::CborRefused;
use crate::limits::Limits;
use crate::read::read_item;
use crate::write::write_item;
use std::alloc::Global;
use wire_base::Memory;

/// The largest limits: 16777216 octets, and items nested 64 deep.
pub const LARGEST: Limits = Limits {
    octets: 16_777_216,
    depth: 64,
};

/// Whether `bytes` are the canonical spelling of an item within the largest limits, and nothing
/// more.
pub fn is_canonical(alloc: Global, bytes: &[u8]) -> Result<bool, Memory>
    ensures canonical { IfOk result (λ canonical. IsTrue canonical ↔ IsCanonical largest bytes.now) }
{
    match read_item(alloc, bytes, LARGEST) {
        Ok((item, used)) => {
            if used < bytes.len() {
                return Ok(false);
            }
            let written = write_item(alloc, &item)?;
            Ok(written.as_slice() == bytes)
        }
        Err(refused) => match refused {
            CborRefused::Fault(_) => Ok(false),
            CborRefused::Memory => Err(Memory),
        },
    }
}
