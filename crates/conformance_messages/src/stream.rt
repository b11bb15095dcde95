//! Attributes of PA-TNC (RFC 5792, section 4.1) from a stream in pieces.

ghost use Rattle.std.specs.Prelude.{◌<◌};

use crate::attributes::push_attr;
use conformance_words::{octets_of, push_text};
use pa_attrs::{AttrFed, AttrFeed, HEADER_OCTETS, Header, read_header};
use std::alloc::Global;

/// The most octets of a piece.
const MOST: usize = 4096;

/// `stream HEX`: each attribute of a stream, and at the end how many octets of the next were taken,
/// with its header where that is whole; or the fault. A feed of pieces of 1, 2 and 3 octets has to
/// answer the same.
pub fn stream(alloc: Global, words: &str) -> Option<String> {
    let octets = octets_of(alloc, words)?;
    let text = fed_text(alloc, octets.as_slice(), MOST)?;
    for size in 1..4 {
        let fed = fed_text(alloc, octets.as_slice(), size)?;
        if fed.as_str() != text.as_str() {
            return format!(in alloc; "{text}, and {fed} in pieces of {size}").ok();
        }
    }
    Some(text)
}

/// `stream_on HEX HEX ..`: what one feed answers to each piece, and how many octets it holds then.
pub fn stream_on(alloc: Global, words: &str) -> Option<String> {
    let mut feed = AttrFeed::new(alloc);
    let mut out = String::new(alloc);
    push_pieces(alloc, &mut out, &mut feed, words)?;
    Some(out)
}

fn push_pieces(alloc: Global, out: &mut String, feed: &mut AttrFeed, words: &str) -> Option<()> {
    for digits in words.split(' ') {
        push_piece(alloc, out, feed, digits)?;
    }
    Some(())
}

/// Puts what the feed answers to one piece, and how many octets it holds then, at the end of the
/// text.
fn push_piece(alloc: Global, out: &mut String, feed: &mut AttrFeed, digits: &str) -> Option<()> {
    let piece = octets_of(alloc, digits)?;
    out.push_str(if out.is_empty() { "" } else { "; " }).ok()?;
    push_fed(alloc, out, feed, piece.as_slice())?;
    push_held(alloc, out, feed)
}

/// `header HEX`: what the 12 octets of the header of an attribute mean.
pub fn header(alloc: Global, words: &str) -> Option<String> {
    let octets = octets_of(alloc, words)?;
    if octets.len() < HEADER_OCTETS {
        return None;
    }
    let Header {
        noskip,
        vendor,
        kind,
        length,
    } = read_header(octets.as_slice());
    let flag = if noskip { "noskip" } else { "-" };
    format!(in alloc; "{flag} {vendor} {kind} {length}").ok()
}

/// What a feed answers to octets in pieces of the size.
fn fed_text(alloc: Global, octets: &[u8], size: usize) -> Option<String>
    requires some { 0 < size }
{
    let mut feed = AttrFeed::new(alloc);
    let mut out = String::new(alloc);
    for piece in octets.chunks(size) {
        if !push_fed(alloc, &mut out, &mut feed, piece)? {
            break;
        }
    }
    push_held(alloc, &mut out, &feed)?;
    Some(out)
}

/// Puts what a feed answers to a piece at the end of the text, and says whether it goes on. A piece
/// has at most 99 attributes.
fn push_fed(alloc: Global, out: &mut String, feed: &mut AttrFeed, piece: &[u8]) -> Option<bool> {
    let mut rest = piece;
    for _ in 0..100 {
        match feed.feed(rest) {
            AttrFed::More => return Some(true),
            AttrFed::Done(attr, used) => {
                push_attr(alloc, out, &attr)?;
                out.push_str("; ").ok()?;
                rest = &rest[used.min(rest.len())..];
            }
            AttrFed::Fault(fault) => {
                let (code, at) = (fault.code, fault.at);
                push_text(out, format!(in alloc; "fault {code} {at}; ").ok())?;
                return Some(false);
            }
            AttrFed::Memory => return None,
        }
    }
    None
}

/// Puts how many octets a feed holds, and the header of the attribute that is not whole, at the end
/// of the text.
fn push_held(alloc: Global, out: &mut String, feed: &AttrFeed) -> Option<()> {
    let have = feed.have();
    push_text(out, format!(in alloc; "have {have}").ok())?;
    match feed.header() {
        None => Some(()),
        Some(header) => {
            let digits = hex::encode(alloc, header.as_slice()).ok()?;
            out.push_str(" of ").ok()?;
            out.push_str(digits.as_str()).ok()
        }
    }
}
