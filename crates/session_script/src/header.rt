//! The first line of a script.

ghost use Rattle.std.specs.Prelude.{◌≡◌, IfOk, IfSome, map};
ghost use Rattle.session_script.specs.Script.{IsHeader, HeaderIs, answer_of, header_by, kind_of, named, words_of};

use crate::words::{is_word, number_within, words_of};
use std::alloc::Global;
use swima_model::Kind;
use wire_base::Memory;

/// What the first line says: the epoch of the inventory and how many events it keeps, the most
/// octets of the reports in a batch, the kind of the mirror, and whether the validator subscribes.
#[derive(Clone, Copy, Debug, PartialEq, Eq)]
pub(crate) struct Header {
    /// The epoch, at least 1.
    pub(crate) epoch: u32,
    /// How many events are kept, 1 to 4096.
    pub(crate) cap: u32,
    /// The most octets, 64 to 16000000.
    pub(crate) max: u32,
    /// The kind.
    pub(crate) kind: Kind,
    /// Whether the validator subscribes.
    pub(crate) subscribe: bool,
}

/// The first line of a script, if it is one.
pub(crate) fn read_header(alloc: Global, line: &[u8]) -> Result<Option<Header>, Memory>
    ensures header { IfOk result (λ header. HeaderIs (words_of line.now) header) }
    ensures bounds { IfOk result (λ header. IfSome header IsHeader) }
{
    let words = words_of(alloc, line)?;
    Ok(header_of(words.as_slice()))
}

/// What the words say.
fn header_of(words: &[&[u8]]) -> Option<Header>
    ensures header { HeaderIs (map (λ word. word.now) words.now) result }
    ensures bounds { IfSome result IsHeader }
{
    match words {
        [name, epoch, cap, max, kind, subscribe] => {
            let epoch = number_within(epoch, 1, 4_294_967_295);
            let cap = number_within(cap, 1, 4096);
            let max = number_within(max, 64, 16_000_000);
            let subscribe = answer_of(subscribe);
            named(name, header_by(epoch, cap, max, kind_of(kind), subscribe))
        }
        _ => None,
    }
}

/// What the other words say, where the first is `replay`.
fn named(name: &[u8], header: Option<Header>) -> Option<Header>
    ensures named { result ≡ named name.now header }
{
    if is_word(name, "replay") {
        header
    } else {
        None
    }
}

/// All of them, where all are there.
fn header_by(
    epoch: Option<u32>,
    cap: Option<u32>,
    max: Option<u32>,
    kind: Option<Kind>,
    subscribe: Option<bool>,
) -> Option<Header>
    ensures header { result ≡ header_by epoch cap max kind subscribe }
{
    match (epoch, cap, max, kind, subscribe) {
        (Some(epoch), Some(cap), Some(max), Some(kind), Some(subscribe)) => Some(Header {
            epoch,
            cap,
            max,
            kind,
            subscribe,
        }),
        _ => None,
    }
}

fn kind_of(word: &[u8]) -> Option<Kind>
    ensures kind { result ≡ kind_of word.now }
{
    if is_word(word, "ids") {
        Some(Kind::Ids)
    } else if is_word(word, "full") {
        Some(Kind::Full)
    } else {
        None
    }
}

fn answer_of(word: &[u8]) -> Option<bool>
    ensures answer { result ≡ answer_of word.now }
{
    if is_word(word, "yes") {
        Some(true)
    } else if is_word(word, "no") {
        Some(false)
    } else {
        None
    }
}
