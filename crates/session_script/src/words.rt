//! Lines and words.

ghost use Rattle.std.specs.Prelude.{◌≡◌, ◌==◌, ◌<◌, IfOk, IfSome, Some, length, map};
ghost use Rattle.std.specs.List.{position};
ghost use Rattle.std.specs.Option.{option_map};
ghost use Rattle.std.specs.Str.{bytes_eq};
ghost use Rattle.session_script.specs.Script.{IsNumberWithin, split_once, within, words_of};

use line_words::{Words, read_number};
use std::alloc::Global;
use wire_base::Memory;

/// The octets before the first `separator`, and those after it; `None` where there is none.
pub(crate) fn split_once(octets: &[u8], separator: u8) -> Option<(&[u8], &[u8])>
    ensures parts { option_map (λ parts. (parts.0.now, parts.1.now)) result ≡ split_once separator octets.now }
{
    match place_of(octets, separator) {
        None => None,
        Some(place) => Some((&octets[..place], &octets[place + 1..])),
    }
}

/// The place of the first octet that is `wanted`, if there is one.
fn place_of(octets: &[u8], wanted: u8) -> Option<usize>
    ensures first { result ≡ position (λ octet. octet == wanted) octets.now }
    ensures within { IfSome result (λ place. place < length octets.now) }
{
    octets.iter().position(|octet| *octet == wanted)
}

/// The words of a line, which stand between single spaces: at most seven.
pub(crate) fn words_of(alloc: Global, line: &[u8]) -> Result<Vec<&[u8]>, Memory>
    ensures words { IfOk result (λ found. map (λ word. word.now) found.items ≡ words_of line.now) }
{
    let mut words = Words::new(line);
    let mut found = Vec::new(alloc);
    for _ in 0..7_u32 {
        let Some(word) = words.next() else {
            return Ok(found);
        };
        found.push(word)?;
    }
    Ok(found)
}

/// Whether a word is this one.
pub(crate) fn is_word(word: &[u8], wanted: &str) -> bool
    ensures word { result ≡ bytes_eq word.now wanted.now }
{
    word == wanted.as_bytes()
}

/// The number that a word is, if it is one and not below `least` or above `most`.
pub(crate) fn number_within(word: &[u8], least: u32, most: u32) -> Option<u32>
    ensures number { IsNumberWithin least most word.now result }
{
    match read_number(word) {
        None => None,
        Some(number) => within(number, least, most),
    }
}

/// A number, if it is not below `least` or above `most`.
fn within(number: u32, least: u32, most: u32) -> Option<u32>
    ensures within { result ≡ within least most (Some number) }
{
    if least <= number && number <= most {
        Some(number)
    } else {
        None
    }
}
