//! Stamps, texts of octets, and decimal numbers.

use conformance_words::{digits_of, octets_of};
use std::alloc::Global;
use std::str::from_utf8;
use wire_base::{List, TextRefused, is_stamp, put_escaped, read_decimal, read_escaped, stamp_text};

/// `stamp SECONDS`: the stamp of the second since 1970.
pub(crate) fn stamp(alloc: Global, words: &str) -> Option<String> {
    match stamp_text(words.parse().ok()?) {
        Ok(text) => String::from_str(alloc, from_utf8(text.as_slice()).ok()?).ok(),
        Err(range) => {
            let secs = range.secs;
            format!(in alloc; "{secs} is out of range").ok()
        }
    }
}

/// `is_stamp TEXT`: whether the text of 20 octets is a stamp.
pub(crate) fn stamp_test(alloc: Global, words: &str) -> Option<String> {
    let octets = text_of(alloc, words)?;
    if octets.len() != 20 {
        return None;
    }
    let mut stamp = [0; 20];
    stamp.copy_from_slice(octets.as_slice());
    String::from_str(alloc, if is_stamp(&stamp) { "yes" } else { "no" }).ok()
}

/// `escaped HEX`: the text of the octets.
pub(crate) fn escaped(alloc: Global, words: &str) -> Option<String> {
    let octets = octets_of(alloc, words)?;
    let mut out = List::new(alloc);
    put_escaped(&mut out, octets.as_slice()).ok()?;
    String::from_str(alloc, from_utf8(out.as_slice()).ok()?).ok()
}

/// `unescaped TEXT`: the octets whose text it is, or `fault PLACE`.
pub(crate) fn unescaped(alloc: Global, words: &str) -> Option<String> {
    let text = text_of(alloc, words)?;
    match read_escaped(alloc, text.as_slice()) {
        Ok(octets) => digits_of(alloc, octets.as_slice()),
        Err(refused) => refusal_text(alloc, refused),
    }
}

/// `decimal TEXT`: the number, or `fault PLACE`.
pub(crate) fn decimal(alloc: Global, words: &str) -> Option<String> {
    let text = text_of(alloc, words)?;
    match read_decimal(text.as_slice()) {
        Ok(number) => format!(in alloc; "{number}").ok(),
        Err(refused) => refusal_text(alloc, refused),
    }
}

fn refusal_text(alloc: Global, refused: TextRefused) -> Option<String> {
    match refused {
        TextRefused::Fault { place } => format!(in alloc; "fault {place}").ok(),
        TextRefused::Memory => None,
    }
}

/// The octets of a text between two `'`, or those that digits spell.
fn text_of(alloc: Global, word: &str) -> Option<Vec<u8>> {
    match word.strip_prefix("'") {
        None => octets_of(alloc, word),
        Some(rest) => Vec::from_slice(alloc, rest.strip_suffix("'")?.as_bytes()).ok(),
    }
}
