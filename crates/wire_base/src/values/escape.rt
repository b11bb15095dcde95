//! Octets as printable text.

ghost use Rattle.std.specs.Prelude.{◌≡◌, ◌<◌, ◌++◌, OnOk};
ghost use Rattle.std.specs.List.{prefix_len};
ghost use Rattle.wire_base.specs.Escaped.{escaped, hex_digit, hex_octet, is_plain};

use crate::values::list::Octets;
use crate::values::memory::Memory;

/// Puts `octets` at the end of `out` as text: printable octets but the backslash as they are, each
/// other one as `\x` and two lower-case hexadecimal digits, and no octets as `\e`.
pub fn put_escaped(out: &mut Octets, octets: &[u8]) -> Result<(), Memory>
    ensures appended { OnOk result (out.new ≡ out.old ++ escaped octets.now) }
{
    if octets.is_empty() {
        return out.extend(b"\\e");
    }
    let mut rest = octets;
    loop {
        let (plain, others) = rest.split_at(plain_front(rest));
        out.extend(plain)?;
        let Some((first, behind)) = others.split_first() else {
            return Ok(());
        };
        put_hex(out, *first)?;
        rest = behind;
    }
}

/// How many octets at the start stand for themselves.
fn plain_front(octets: &[u8]) -> usize
    ensures front { result ≡ prefix_len is_plain octets.now }
{
    let mut count = 0;
    for octet in octets {
        if !is_plain(*octet) {
            return count;
        }
        count += 1;
    }
    count
}

/// Puts an octet that does not stand for itself at the end of `out`.
fn put_hex(out: &mut Octets, octet: u8) -> Result<(), Memory>
    ensures appended { OnOk result (out.new ≡ out.old ++ hex_octet octet) }
{
    out.extend(&[b'\\', b'x', hex_digit(octet / 16), hex_digit(octet % 16)])
}

/// Whether an octet stands for itself.
pub(crate) fn is_plain(octet: u8) -> bool
    ensures plain { result ≡ is_plain octet }
{
    0x21 <= octet && octet <= 0x7e && octet != b'\\'
}

fn hex_digit(number: u8) -> u8
    requires { number < 16 }
    ensures digit { result ≡ hex_digit number }
{
    if number < 10 {
        b'0' + number
    } else {
        b'a' + (number - 10)
    }
}
