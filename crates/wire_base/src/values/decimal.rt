//! Decimal numbers without a sign or leading zeros, as `Display` prints them.

ghost use Rattle.std.specs.Fmt.{decimal};
ghost use Rattle.std.specs.Prelude.{◌≡◌};
ghost use Rattle.wire_base.specs.Texts.{IsU32, ReadsTextExactly};
ghost use Rattle.wire_base.specs.Spelling.{digit_value, with_digit};

use crate::values::text_refused::TextRefused;

/// The number whose decimal digits the text is, or the place of the first octet with which the text
/// is no number below 2^32. That octet is a sign, a digit after a leading zero, another character
/// than a digit, or a digit too many. The empty text has its fault at 0. It takes no memory and
/// gives no `Memory`.
pub fn read_decimal(text: &[u8]) -> Result<u32, TextRefused>
    ensures number { ReadsTextExactly decimal IsU32 text.now result }
{
    let mut number = None;
    let mut place = 0;
    for character in text {
        let Some(longer) = with_digit(number, *character) else {
            return Err(TextRefused::Fault { place });
        };
        number = Some(longer);
        place += 1;
    }
    match number {
        Some(number) => Ok(number),
        None => Err(TextRefused::Fault { place }),
    }
}

/// The number that one more digit spells after the digits of `number`, or after none.
fn with_digit(number: Option<u32>, character: u8) -> Option<u32>
    ensures longer { result ≡ with_digit number character }
{
    let digit = digit_value(character)?;
    match number {
        None => Some(digit),
        Some(0) => None,
        Some(number) => number.checked_mul(10)?.checked_add(digit),
    }
}

/// The value of a decimal digit.
fn digit_value(character: u8) -> Option<u32>
    ensures value { result ≡ digit_value character }
{
    if character.is_ascii_digit() {
        Some(u32::from(character - b'0'))
    } else {
        None
    }
}
