//! PB-TNC batches (RFC 5793): fed in pieces, written again, and made to report a fault.

ghost use Rattle.std.specs.Prelude.{◌<◌, IfSome};
ghost use Rattle.pb_batch.specs.Written.{IsTold};

use conformance_words::{digits_of, octets_of, push_text};
use pb_batch::{Batch, BatchFed, BatchFeed, BatchKind, Message, PbFault, fault_batch, write_batch};
use std::alloc::Global;

/// The most octets of a piece.
const MOST: usize = 4096;

/// Whether the word names the server as the sender; the other end is the client.
fn is_server(word: &str) -> Option<bool> {
    match word {
        "server" => Some(true),
        "client" => Some(false),
        _ => None,
    }
}

/// The word for a kind of batch (RFC 5793, section 4.1).
pub fn kind_word(kind: BatchKind) -> &'static str {
    match kind {
        BatchKind::Cdata => "CDATA",
        BatchKind::Sdata => "SDATA",
        BatchKind::Outcome => "RESULT",
        BatchKind::Cretry => "CRETRY",
        BatchKind::Sretry => "SRETRY",
        BatchKind::Close => "CLOSE",
    }
}

/// Every kind of batch.
pub const KINDS: [BatchKind; 6] = [
    BatchKind::Cdata,
    BatchKind::Sdata,
    BatchKind::Outcome,
    BatchKind::Cretry,
    BatchKind::Sretry,
    BatchKind::Close,
];

/// The kind of batch that the word names.
pub fn kind_of(word: &str) -> Option<BatchKind> {
    match word {
        "CDATA" => Some(BatchKind::Cdata),
        "SDATA" => Some(BatchKind::Sdata),
        "RESULT" => Some(BatchKind::Outcome),
        "CRETRY" => Some(BatchKind::Cretry),
        "SRETRY" => Some(BatchKind::Sretry),
        "CLOSE" => Some(BatchKind::Close),
        _ => None,
    }
}

/// `feed SENDER HEX`: `MESSAGES in OCTETS` for each batch, or the fault, and at the end how many
/// octets the feed holds. Pieces of 1, 2 and 3 octets have to give the same.
pub fn feed(alloc: Global, words: &str) -> Option<String> {
    let (sender, digits) = words.split_once(' ')?;
    let from_server = is_server(sender)?;
    let octets = octets_of(alloc, digits)?;
    let text = fed_text(alloc, from_server, octets.as_slice(), MOST)?;
    for size in 1..4 {
        let fed = fed_text(alloc, from_server, octets.as_slice(), size)?;
        if fed.as_str() != text.as_str() {
            return format!(in alloc; "{text}, and {fed} in pieces of {size}").ok();
        }
    }
    Some(text)
}

/// What a feed answers to octets in pieces of the size.
fn fed_text(alloc: Global, from_server: bool, octets: &[u8], size: usize) -> Option<String>
    requires some { 0 < size }
{
    let mut feed = BatchFeed::new(alloc, from_server);
    let mut out = String::new(alloc);
    let mut taken: u64 = 0;
    for piece in octets.chunks(size) {
        match push_fed(alloc, &mut out, &mut feed, piece, taken)? {
            Some(now) => taken = now,
            None => break,
        }
    }
    push_have(alloc, &mut out, &feed)?;
    Some(out)
}

/// Puts how many octets the feed holds at the end of the text.
fn push_have(alloc: Global, out: &mut String, feed: &BatchFeed) -> Option<()> {
    let have = feed.have();
    push_text(out, format!(in alloc; "have {have}").ok())
}

/// Puts what a feed answers to a piece at the end of the text. How many octets of the next batch
/// were taken, of which there were `taken` before; `None` inside where the feed answered a fault. A
/// piece has at most 9 batches.
fn push_fed(
    alloc: Global,
    out: &mut String,
    feed: &mut BatchFeed,
    piece: &[u8],
    taken: u64,
) -> Option<Option<u64>> {
    let mut rest = piece;
    let mut taken = taken;
    for _ in 0..10 {
        match feed.feed(rest) {
            BatchFed::More => return Some(Some(taken.saturating_add(rest.len() as u64))),
            BatchFed::Done(batch, used) => {
                push_counts(alloc, out, &batch, taken.saturating_add(used as u64))?;
                taken = 0;
                rest = &rest[used.min(rest.len())..];
            }
            BatchFed::Fault(fault) => {
                push_fault(alloc, out, &fault)?;
                return Some(None);
            }
            BatchFed::Memory => return None,
        }
    }
    None
}

/// Puts how many messages and how many octets the batch has at the end of the text.
fn push_counts(alloc: Global, out: &mut String, batch: &Batch, octets: u64) -> Option<()> {
    let count = batch.messages.len();
    push_text(out, format!(in alloc; "{count} in {octets}, ").ok())
}

/// Puts `fault CODE PLACE, `, with the version where that is not supported, at the end of the text.
fn push_fault(alloc: Global, out: &mut String, fault: &PbFault) -> Option<()> {
    let PbFault {
        code,
        offset,
        version,
    } = *fault;
    let text = if version == 0 {
        format!(in alloc; "fault {code} {offset}, ").ok()?
    } else {
        format!(in alloc; "fault {code} {offset} version {version}, ").ok()?
    };
    out.push_str(text.as_str()).ok()
}

/// `feed_on SENDER HEX HEX ..`: what one feed answers to each piece, and how many octets it holds
/// then.
pub fn feed_on(alloc: Global, words: &str) -> Option<String> {
    let (sender, pieces) = words.split_once(' ')?;
    let mut feed = BatchFeed::new(alloc, is_server(sender)?);
    let mut out = String::new(alloc);
    push_pieces(alloc, &mut out, &mut feed, pieces)?;
    Some(out)
}

fn push_pieces(alloc: Global, out: &mut String, feed: &mut BatchFeed, words: &str) -> Option<()> {
    for digits in words.split(' ') {
        push_piece(alloc, out, feed, digits)?;
    }
    Some(())
}

/// Puts what the feed answers to one piece, and how many octets it holds then, at the end of the
/// text.
fn push_piece(alloc: Global, out: &mut String, feed: &mut BatchFeed, digits: &str) -> Option<()> {
    let piece = octets_of(alloc, digits)?;
    out.push_str(if out.is_empty() { "" } else { "; " }).ok()?;
    push_fed(alloc, out, feed, piece.as_slice(), 0)?;
    push_have(alloc, out, feed)
}

/// `batch SENDER HEX`: the kind of the batch and its messages.
pub fn batch(alloc: Global, words: &str) -> Option<String> {
    let (sender, digits) = words.split_once(' ')?;
    let octets = octets_of(alloc, digits)?;
    let mut feed = BatchFeed::new(alloc, is_server(sender)?);
    match feed.feed(octets.as_slice()) {
        BatchFed::Done(batch, _) => batch_text(alloc, &batch),
        _ => None,
    }
}

/// `batch_written SENDER HEX`: the batch that is read, written: its one written form.
pub fn batch_written(alloc: Global, words: &str) -> Option<String> {
    let (sender, digits) = words.split_once(' ')?;
    let octets = octets_of(alloc, digits)?;
    let mut feed = BatchFeed::new(alloc, is_server(sender)?);
    match feed.feed(octets.as_slice()) {
        BatchFed::Done(batch, _) => {
            let written = write_batch(alloc, &batch).ok()?;
            digits_of(alloc, written.as_slice())
        }
        _ => None,
    }
}

fn batch_text(alloc: Global, batch: &Batch) -> Option<String> {
    let sender = if batch.from_server {
        "server"
    } else {
        "client"
    };
    let kind = kind_word(batch.kind);
    let mut out = format!(in alloc; "{sender} {kind}").ok()?;
    for message in batch.messages.as_slice() {
        let text = message_text(alloc, message)?;
        out.push_str("; ").ok()?;
        out.push_str(text.as_str()).ok()?;
    }
    Some(out)
}

/// The name of a message and its fields, in the order of RFC 5793, sections 4.5 to 4.9.
fn message_text(alloc: Global, message: &Message) -> Option<String> {
    match message {
        Message::Pa {
            excl,
            vendor,
            subtype,
            collector,
            validator,
            body,
        } => {
            let flag = if *excl { "EXCL" } else { "-" };
            let start = format!(in alloc;
                "PA {flag} {vendor} {subtype} {collector} {validator} "
            ).ok()?;
            with_digits(alloc, start, body.as_slice())
        }
        Message::Assessment(result) => format!(in alloc; "assessment {result}").ok(),
        Message::Recommendation(code) => format!(in alloc; "recommendation {code}").ok(),
        Message::Error {
            fatal,
            vendor,
            code,
            info,
        } => {
            let flag = if *fatal { "FATAL" } else { "-" };
            let start = format!(in alloc; "error {flag} {vendor} {code} ").ok()?;
            with_digits(alloc, start, info.as_slice())
        }
        Message::Frame {
            noskip,
            vendor,
            kind,
            body,
        } => {
            let flag = if *noskip { "NOSKIP" } else { "-" };
            let start = format!(in alloc; "other {flag} {vendor} {kind} ").ok()?;
            with_digits(alloc, start, body.as_slice())
        }
    }
}

/// The start of a text, and then octets.
fn with_digits(alloc: Global, start: String, octets: &[u8]) -> Option<String> {
    let mut text = start;
    push_text(&mut text, digits_of(alloc, octets))?;
    Some(text)
}

/// `fault_batch SENDER CODE PLACE VERSION`: the octets of the batch that reports the fault.
pub fn fault_of(alloc: Global, words: &str) -> Option<String> {
    let (sender, rest) = words.split_once(' ')?;
    let (code, rest) = rest.split_once(' ')?;
    let (place, version) = rest.split_once(' ')?;
    let fault = PbFault {
        code: reported_code(code)?,
        offset: place.parse().ok()?,
        version: version.parse().ok()?,
    };
    let written = fault_batch(alloc, is_server(sender)?, &fault).ok()?;
    digits_of(alloc, written.as_slice())
}

/// A code with which a fault is reported.
fn reported_code(word: &str) -> Option<u16>
    ensures reported { IfSome result (λ code. IsTold code) }
{
    match word {
        "0" => Some(0),
        "1" => Some(1),
        "3" => Some(3),
        "4" => Some(4),
        _ => None,
    }
}
