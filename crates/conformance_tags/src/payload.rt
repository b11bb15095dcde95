//! Payloads of CoSWID tags (RFC 9393, section 2.9) beside the files that they state.

use cbor_det::{Item, LARGEST, read_item};
use conformance_words::{files_of, octets_of, push_text};
use coswid_res::{Payload, Verdict, Verdicts, payload_of, verify};
use std::alloc::Global;

/// `verify FILES HEX`: the verdict on each file of the payload that the octets spell, with its
/// path.
pub fn verdicts(alloc: Global, words: &str) -> Option<String> {
    let (named, digits) = words.split_once(' ')?;
    let verdicts = verdicts_on(alloc, &payload_in(alloc, digits)?, named)?;
    verdicts_text(alloc, &verdicts)
}

/// The payload that the digits spell.
fn payload_in(alloc: Global, digits: &str) -> Option<Payload> {
    let item = item_in(alloc, digits)?;
    payload_of(alloc, &item).ok()
}

fn item_in(alloc: Global, digits: &str) -> Option<Item> {
    let octets = octets_of(alloc, digits)?;
    let (item, _) = read_item(alloc, octets.as_slice(), LARGEST).ok()?;
    Some(item)
}

/// The verdicts on the files that are named.
fn verdicts_on(alloc: Global, payload: &Payload, named: &str) -> Option<Verdicts> {
    let mut files = files_of(alloc, named)?;
    verify(alloc, payload, &mut files).ok()
}

fn verdicts_text(alloc: Global, verdicts: &Verdicts) -> Option<String> {
    let mut out = String::new(alloc);
    for (path, verdict) in verdicts.as_slice() {
        let separator = if out.is_empty() { "" } else { "; " };
        let word = verdict_text(alloc, *verdict)?;
        let path = path.as_str();
        push_text(
            &mut out,
            format!(in alloc; "{separator}{word} '{path}'").ok(),
        )?;
    }
    Some(out)
}

fn verdict_text(alloc: Global, verdict: Verdict) -> Option<String> {
    match verdict {
        Verdict::Same => String::from_str(alloc, "same").ok(),
        Verdict::Differs => String::from_str(alloc, "differs").ok(),
        Verdict::Missing => String::from_str(alloc, "missing").ok(),
        Verdict::Unhashed => String::from_str(alloc, "unhashed").ok(),
        Verdict::LongFile(octets) => format!(in alloc; "long {octets}").ok(),
        Verdict::UnknownAlgorithm(number) => format!(in alloc; "algorithm {number}").ok(),
    }
}
