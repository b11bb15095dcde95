//! The words of a line as values. Each reader gives `None` exactly where the word is that of no
//! value.

ghost use Rattle.line_words.specs.Reading.{Finds, FindsExactly, IsHex, IsNumber, IsText, IsWithin};

use hex::FromHexError;
use std::alloc::Global;
use swima_model::{Bounded, Limit, LongRefused};
use wire_base::{Memory, Octets, TextRefused, read_decimal, read_escaped};

/// A decimal number of at most 32 bits. It takes no memory.
pub fn read_number(word: &[u8]) -> Option<u32>
    ensures number { FindsExactly (IsNumber word.now) result }
{
    match read_decimal(word) {
        Ok(number) => Some(number),
        Err(_) => None,
    }
}

/// Octets within their limit, from their printable text.
pub fn read_text<L: Limit>(alloc: Global, word: &[u8]) -> Result<Option<Bounded<L>>, Memory>
    ensures text { Finds (IsText L.OCTETS word.now) result }
{
    match read_escaped(alloc, word) {
        Ok(octets) => bounded(alloc, octets.as_slice()),
        Err(TextRefused::Fault { .. }) => Ok(None),
        Err(TextRefused::Memory) => Err(Memory),
    }
}

/// Octets in hexadecimal digits, at least one; a hyphen is no octets.
pub fn read_octets(alloc: Global, word: &[u8]) -> Result<Option<Octets>, Memory>
    ensures octets { Finds (IsHex word.now) result }
{
    if word == b"-".as_slice() {
        return Ok(Some(Octets::new(alloc)));
    }
    if word.is_empty() {
        return Ok(None);
    }
    match hex::decode(alloc, word) {
        Ok(octets) => Ok(Some(Octets::from_vec(octets))),
        Err(FromHexError::OutOfMemory) => Err(Memory),
        Err(_) => Ok(None),
    }
}

/// Octets within their limit.
pub fn bounded<L: Limit>(alloc: Global, octets: &[u8]) -> Result<Option<Bounded<L>>, Memory>
    ensures within { Finds (IsWithin L.OCTETS octets.now) result }
{
    match Bounded::new(alloc, octets) {
        Ok(made) => Ok(Some(made)),
        Err(LongRefused::TooLong { .. }) => Ok(None),
        Err(LongRefused::Memory) => Err(Memory),
    }
}
