//! Writing octets after a number that counts them.

ghost use Rattle.std.specs.Prelude.{◌≡◌, ◌++◌, ◌<◌, ◌^◌, length, OnOk};
ghost use Rattle.wire_base.specs.Layout.{Counted};
ghost use Rattle.wire_base.specs.Written.{written_field};

use crate::layout::numbers::{put_u16, put_u32};
use crate::values::list::Octets;
use crate::values::memory::Memory;

/// Puts octets at the end, after two octets that count them.
pub fn put_counted_u16(out: &mut Octets, octets: &[u8]) -> Result<(), Memory>
    requires fits { length octets.now < 2 ^ 16 }
    ensures appended { OnOk result (out.new ≡ out.old ++ written_field (Counted 2 octets.now)) }
{
    put_u16(out, octets.len() as u16)?;
    out.extend(octets)
}

/// Puts octets at the end, after four octets that count them.
pub fn put_counted_u32(out: &mut Octets, octets: &[u8]) -> Result<(), Memory>
    requires fits { length octets.now < 2 ^ 32 }
    ensures appended { OnOk result (out.new ≡ out.old ++ written_field (Counted 4 octets.now)) }
{
    put_u32(out, octets.len() as u32)?;
    out.extend(octets)
}
