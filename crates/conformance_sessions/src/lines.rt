//! The lines that a source of changes reads.

use conformance_words::{digits_of, octets_of, push_text};
use source_lines::LineSource;
use source_set::{TagSource, Told};
use std::alloc::Global;
use std::str::from_utf8;
use swima_model::Content;
use wire_base::{List, MemSource, put_escaped};

/// How many octets a line has at most.
const MOST: usize = 4_194_304;

/// `lines LINES`: the item of each line, and at last what the source reports once it has none.
///
/// The lines are hexadecimal digits, or a text between two `'` in which a `|` is the end of a line.
pub fn lines(alloc: Global, words: &str) -> Option<String> {
    let octets = text_of(alloc, words)?;
    let count = items_in(octets.as_slice());
    let input = MemSource::new(alloc, List::from_vec(octets), &[]).ok()?;
    let mut source = LineSource::new(alloc, input).ok()?;
    items_text(alloc, &mut source, count)
}

/// The octets of lines.
fn text_of(alloc: Global, word: &str) -> Option<Vec<u8>> {
    let Some(rest) = word.strip_prefix("'") else {
        return octets_of(alloc, word);
    };
    let mut octets = Vec::from_slice(alloc, rest.strip_suffix("'")?.as_bytes()).ok()?;
    for octet in octets.iter_mut() {
        if *octet == b'|' {
            *octet = b'\n';
        }
    }
    Some(octets)
}

/// How many lines the octets have, and one more. More octets than a line may have are a line of
/// that many, and begin the next.
fn items_in(octets: &[u8]) -> u64 {
    let mut count: u64 = 1;
    let mut length: usize = 0;
    for octet in octets {
        length = length.saturating_add(1);
        if *octet == b'\n' {
            count = count.saturating_add(1);
            length = 0;
        } else if length > MOST {
            count = count.saturating_add(1);
            length = 1;
        }
    }
    count
}

/// The texts of that many items.
fn items_text<S: TagSource>(alloc: Global, source: &mut S, count: u64) -> Option<String> {
    let mut out = String::new(alloc);
    for _ in 0..count {
        if !out.is_empty() {
            out.push_str("; ").ok()?;
        }
        push_item(alloc, &mut out, &source.next())?;
    }
    Some(out)
}

/// Puts the text of an item at the end of the text.
fn push_item(alloc: Global, out: &mut String, item: &Told) -> Option<()> {
    match item {
        Told::Add { key, content } => push_keyed(alloc, out, "add", *key, content),
        Told::Change { key, content } => push_keyed(alloc, out, "change", *key, content),
        Told::Gone { key } => push_number(alloc, out, "gone", u64::from(*key)),
        Told::Bad { line } => push_number(alloc, out, "bad", *line),
        Told::Quiet => out.push_str("quiet").ok(),
        Told::Ended => out.push_str("ended").ok(),
        Told::Failed => out.push_str("failed").ok(),
        Told::Memory => None,
    }
}

fn push_number(alloc: Global, out: &mut String, word: &str, number: u64) -> Option<()> {
    push_text(out, format!(in alloc; "{word} {number}").ok())
}

/// The key, the data model, the identifier, the locator, and the octets of the body.
fn push_keyed(
    alloc: Global,
    out: &mut String,
    word: &str,
    key: u32,
    content: &Content,
) -> Option<()> {
    let (pen, kind) = (content.model.pen, content.model.kind);
    push_text(out, format!(in alloc; "{word} {key} {pen}/{kind} ").ok())?;
    push_escaped(alloc, out, content.ident.bytes())?;
    push_escaped(alloc, out, content.locator.bytes())?;
    push_text(out, digits_of(alloc, content.body.bytes()))
}

/// Puts the text of octets and a space at the end of the text.
fn push_escaped(alloc: Global, out: &mut String, octets: &[u8]) -> Option<()> {
    let mut text = List::new(alloc);
    put_escaped(&mut text, octets).ok()?;
    out.push_str(from_utf8(text.as_slice()).ok()?).ok()?;
    out.push_str(" ").ok()
}
