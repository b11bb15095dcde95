//! Numbers in messages: octets with the most significant first.

ghost use Rattle.std.specs.Prelude.{◌≡◌, ◌+◌, ◌++◌, ◌<◌, ◌≤◌, ◌^◌, length, slice_range, OnOk, OnErr};
ghost use Rattle.wire_base.specs.Numbers.{number_of, octets_of};

use crate::values::list::Octets;
use crate::values::memory::Memory;

/// The number that at most four octets stand for.
pub fn number_of(octets: &[u8]) -> u32
    requires { length octets.now ≤ 4 }
    ensures value { result ≡ number_of octets.now }
    ensures fits { result < 256 ^ length octets.now }
{
    let mut number = 0;
    for octet in octets {
        number = 256 * number + u32::from(*octet);
    }
    number
}

/// The number in the three octets of `bytes` from `place` on.
pub fn u24_at(bytes: &[u8], place: usize) -> u32
    requires { place + 3 ≤ length bytes.now }
    ensures value { result ≡ number_of (slice_range bytes.now place (place + 3)) }
    ensures fits { result < 2 ^ 24 }
{
    number_of(&bytes[place..place + 3])
}

/// The number in the four octets of `bytes` from `place` on.
pub fn u32_at(bytes: &[u8], place: usize) -> u32
    requires { place + 4 ≤ length bytes.now }
    ensures value { result ≡ number_of (slice_range bytes.now place (place + 4)) }
{
    number_of(&bytes[place..place + 4])
}

/// Puts a number of one octet at the end; at `Memory` the list is as it was.
#[tactic(auto, unfolding(crate::specs::Numbers::octets_of))]
pub fn put_u8(out: &mut Octets, n: u8) -> Result<(), Memory>
    ensures appended { OnOk result (out.new ≡ out.old ++ octets_of 1 n) }
    ensures unchanged { OnErr result (out.new ≡ out.old) }
{
    out.push(n)
}

/// Puts a number of two octets at the end, the most significant first; at `Memory` the list is as
/// it was.
#[tactic(auto, unfolding(crate::specs::Numbers::octets_of))]
pub fn put_u16(out: &mut Octets, n: u16) -> Result<(), Memory>
    ensures appended { OnOk result (out.new ≡ out.old ++ octets_of 2 n) }
    ensures unchanged { OnErr result (out.new ≡ out.old) }
{
    out.extend(&[(n / 256) as u8, (n % 256) as u8])
}

/// Puts a number of three octets at the end, the most significant first; at `Memory` the list is as
/// it was.
#[tactic(auto, unfolding(crate::specs::Numbers::octets_of))]
pub fn put_u24(out: &mut Octets, n: u32) -> Result<(), Memory>
    requires fits { n < 2 ^ 24 }
    ensures appended { OnOk result (out.new ≡ out.old ++ octets_of 3 n) }
    ensures unchanged { OnErr result (out.new ≡ out.old) }
{
    out.extend(&[(n / 65_536) as u8, (n / 256 % 256) as u8, (n % 256) as u8])
}

/// Puts a number of four octets at the end, the most significant first; at `Memory` the list is as
/// it was.
#[tactic(auto, unfolding(crate::specs::Numbers::octets_of))]
pub fn put_u32(out: &mut Octets, n: u32) -> Result<(), Memory>
    ensures appended { OnOk result (out.new ≡ out.old ++ octets_of 4 n) }
    ensures unchanged { OnErr result (out.new ≡ out.old) }
{
    out.extend(&[
        (n / 16_777_216) as u8,
        (n / 65_536 % 256) as u8,
        (n / 256 % 256) as u8,
        (n % 256) as u8,
    ])
}
