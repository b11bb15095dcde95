//! Printable text read as octets.

ghost use Rattle.std.specs.Prelude.{◌≡◌, IfOk};
ghost use Rattle.wire_base.specs.Escaped.{escaped};
ghost use Rattle.wire_base.specs.Layout.{AreOctets};
ghost use Rattle.wire_base.specs.Spelling.{Goes, HasDigit, has_escapes, hex_value, is_end, part_after};
ghost use Rattle.wire_base.specs.Texts.{ReadsText};

use crate::values::escape::is_plain;
use crate::values::list::{List, Octets};
use crate::values::memory::Memory;
use crate::values::text_refused::TextRefused;
use std::alloc::Global;

/// The octets whose text, as `put_escaped` writes it, is `text`, or the place of the first octet
/// with which it is the text of none. An escape of an octet that is printed as itself is a fault,
/// and so are an upper-case digit and an escape that ends too soon. The empty text has its fault at
/// 0.
pub fn read_escaped(alloc: Global, text: &[u8]) -> Result<Octets, TextRefused>
    ensures octets { ReadsText escaped AreOctets text.now result }
{
    let mut octets = List::new(alloc);
    let mut part = Part::Nothing;
    let mut place = 0;
    for character in text {
        let Some(longer) = put_character(&mut octets, part, *character)? else {
            return Err(TextRefused::Fault { place });
        };
        part = longer;
        place += 1;
    }
    if part.is_end(octets.is_empty()) {
        Ok(octets)
    } else {
        Err(TextRefused::Fault { place })
    }
}

/// Reads one more character after `octets` and a part of the text of the next octet. An octet whose
/// text is whole then is put at the end of `octets`. Gives the part that follows, or `None` where
/// no text goes on so.
fn put_character(octets: &mut Octets, part: Part, character: u8) -> Result<Option<Part>, Memory>
    requires { HasDigit part }
    ensures next { IfOk result (λ longer. Goes octets.old part character octets.new longer) }
{
    match part.followed_by(character, octets.is_empty()) {
        Next::Part(longer) => Ok(Some(longer)),
        Next::Octet(octet) => {
            octets.push(octet)?;
            Ok(Some(Part::Nothing))
        }
        Next::Fault => Ok(None),
    }
}

/// What the text of an octet begins with.
#[derive(Clone, Copy, Debug, PartialEq, Eq)]
pub(crate) enum Part {
    /// No character yet.
    Nothing,
    /// A backslash.
    Backslash,
    /// A backslash and an `x`.
    Hexadecimal,
    /// A backslash, an `x` and the hexadecimal digit with this value.
    Digit(u8),
    /// A backslash and an `e`: the whole text of no octets.
    NoOctets,
}

/// What a part and one more character are.
#[derive(Clone, Copy, Debug, PartialEq, Eq)]
pub(crate) enum Next {
    /// A longer part.
    Part(Part),
    /// The whole text of an octet.
    Octet(u8),
    /// The beginning of no text.
    Fault,
}

impl Part {
    /// What the part and one more character are. `first` says whether no octet is before them.
    fn followed_by(self, character: u8, first: bool) -> Next
        requires { HasDigit self }
        ensures next { result ≡ part_after self first character }
    {
        match self {
            Part::Nothing if is_plain(character) => Next::Octet(character),
            Part::Nothing if character == b'\\' => Next::Part(Part::Backslash),
            Part::Backslash if character == b'x' => Next::Part(Part::Hexadecimal),
            Part::Backslash if character == b'e' && first => Next::Part(Part::NoOctets),
            Part::Hexadecimal => match hex_value(character) {
                Some(high) if has_escapes(high) => Next::Part(Part::Digit(high)),
                _ => Next::Fault,
            },
            Part::Digit(high) => match hex_value(character) {
                Some(low) if !is_plain(16 * high + low) => Next::Octet(16 * high + low),
                _ => Next::Fault,
            },
            _ => Next::Fault,
        }
    }

    /// Whether a text may end after the part. `first` says whether no octet is before it.
    fn is_end(self, first: bool) -> bool
        ensures end { result ≡ is_end self first }
    {
        match self {
            Part::Nothing => !first,
            Part::NoOctets => true,
            _ => false,
        }
    }
}

/// Whether some octet whose first hexadecimal digit is this one is not printed as itself.
fn has_escapes(high: u8) -> bool
    ensures some { result ≡ has_escapes high }
{
    high != 3 && high != 4 && high != 6
}

/// The value of a lower-case hexadecimal digit.
fn hex_value(character: u8) -> Option<u8>
    ensures value { result ≡ hex_value character }
{
    match character {
        b'0'..=b'9' => Some(character - b'0'),
        b'a'..=b'f' => Some(character - b'a' + 10),
        _ => None,
    }
}
