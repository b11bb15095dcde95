//! What stands in a row: octets in hexadecimal, and texts on one line.

use hex::FromHex;
use std::alloc::Global;
use wire_base::{FieldRefused, List, MemFiles, NamedFile, Text};

/// The octets that the digits spell; a `-` is none. `None` where they are no such digits, or memory
/// ran out.
pub fn octets_of(alloc: Global, digits: &str) -> Option<Vec<u8>> {
    if digits == "-" {
        return Some(Vec::new(alloc));
    }
    hex::decode(alloc, digits).ok()
}

/// The digits that spell the octets; a `-` where there are none. `None` where memory ran out.
pub fn digits_of(alloc: Global, octets: &[u8]) -> Option<String> {
    if octets.is_empty() {
        return String::from_str(alloc, "-").ok();
    }
    hex::encode(alloc, octets).ok()
}

/// The eight octets that the digits spell; `None` where they do not.
pub fn eight_of(digits: &str) -> Option<[u8; 8]> {
    <[u8; 8] as FromHex>::from_hex(digits).ok()
}

/// The numbers of a word, with commas between them; a `-` is none. `None` where they are no such
/// numbers, or memory ran out.
pub fn number_list(alloc: Global, word: &str) -> Option<Vec<u32>> {
    let mut numbers = Vec::new(alloc);
    if word == "-" {
        return Some(numbers);
    }
    for number in word.split(',') {
        numbers.push(number.parse().ok()?).ok()?;
    }
    Some(numbers)
}

/// `fault PLACE`; `None` where memory ran out.
pub fn refusal_text(alloc: Global, refused: FieldRefused) -> Option<String> {
    match refused {
        FieldRefused::Fault { offset } => format!(in alloc; "fault {offset}").ok(),
        FieldRefused::Memory => None,
    }
}

/// The text with `\n` in place of each end of a line; `None` where memory ran out.
pub fn one_line(alloc: Global, text: &str) -> Option<String> {
    let mut lines = text.split('\n');
    let mut out = String::from_str(alloc, lines.next()?).ok()?;
    for line in lines {
        out.push_str("\\n").ok()?;
        out.push_str(line).ok()?;
    }
    Some(out)
}

/// The words between commas; a `-` is none. `None` where memory ran out.
pub fn word_list<'a>(alloc: Global, list: &'a str) -> Option<Vec<&'a str>> {
    let mut words = Vec::new(alloc);
    if list == "-" {
        return Some(words);
    }
    for word in list.split(',') {
        words.push(word).ok()?;
    }
    Some(words)
}

/// The files `NAME:HEX` between commas, in memory; a `-` is none. `None` where they are no such
/// files, or memory ran out.
pub fn files_of(alloc: Global, list: &str) -> Option<MemFiles> {
    if list == "-" {
        return Some(MemFiles::empty(alloc));
    }
    let mut files = List::new(alloc);
    for file in list.split(',') {
        files.push(file_of(alloc, file)?).ok()?;
    }
    MemFiles::new(alloc, files, &[]).ok()
}

/// The file `NAME:HEX`.
fn file_of(alloc: Global, file: &str) -> Option<NamedFile> {
    let (name, digits) = file.split_once(':')?;
    let content = List::from_vec(octets_of(alloc, digits)?);
    Some(NamedFile {
        name: Text::new(alloc, name).ok()?,
        content,
    })
}

/// Puts a text that was made at the end of another; `None` where there is none, or memory ran out.
pub fn push_text(out: &mut String, text: Option<String>) -> Option<()> {
    out.push_str(text?.as_str()).ok()
}
