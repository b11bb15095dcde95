//! Items of CBOR: read whole, fed in pieces, copied, written, and tried for their canonical
//! spelling.

ghost use Rattle.std.specs.Prelude.{◌≤◌, ◌<◌, ◌^◌, [], IfSome};
ghost use Rattle.cbor_det.specs.Feeding.{HasTaken};
ghost use Rattle.cbor_det.specs.Term.{depth};
ghost use Rattle.cbor_det.specs.View.{view};

use cbor_det::{
    CborFault, CborFed, CborFeed, CborRefused, Item, LARGEST, Limits, is_canonical, read_item,
    write_item,
};
use conformance_words::octets_of;
use std::alloc::Global;
use wire_base::TryCopy;

/// `cbor OCTETS DEPTH HEX`: what the octets begin with.
///
/// - `item LENGTH HEX`, with the canonical spelling of the item, and ` canonical` where the octets
///   are that spelling and the limits are the largest;
/// - `fault KIND PLACE after OCTETS`, with the fewest octets that show it.
///
/// A feed of pieces has to answer the same.
pub fn item(alloc: Global, words: &str) -> Option<String> {
    let (most, rest) = words.split_once(' ')?;
    let (deep, digits) = rest.split_once(' ')?;
    let limits = limits_of(most.parse().ok()?, deep.parse().ok()?)?;
    let octets = octets_of(alloc, digits)?;
    let octets = octets.as_slice();
    let text = read_text(alloc, limits, octets)?;
    let (_, after) = fed_text(alloc, limits, octets, 1)?;
    for size in 1..4 {
        let (fed, taken) = fed_text(alloc, limits, octets, size)?;
        if fed.as_str() != text.as_str() || !is_first(after, taken, size) {
            return format!(in alloc; "{text}, and {fed} in pieces of {size}").ok();
        }
    }
    ended(alloc, limits, octets, text, after)
}

/// The limits; `None` where they are above the largest.
fn limits_of(octets: u64, depth: u32) -> Option<Limits>
    ensures small { IfSome result (λ limits. limits.octets ≤ 2 ^ 24) }
    ensures shallow { IfSome result (λ limits. limits.depth ≤ 64) }
{
    if octets > LARGEST.octets || depth > LARGEST.depth {
        return None;
    }
    Some(Limits { octets, depth })
}

/// Whether a feed that was fed that many octets in pieces of the size answers with the piece that
/// has the last octet it needs, and no sooner.
fn is_first(after: usize, taken: usize, size: usize) -> bool {
    after <= taken && taken - after < size
}

/// The answer with what is known of the octets beside it.
fn ended(
    alloc: Global,
    limits: Limits,
    octets: &[u8],
    text: String,
    after: usize,
) -> Option<String> {
    if text.starts_with("fault") {
        return format!(in alloc; "{text} after {after}").ok();
    }
    if limits == LARGEST && is_canonical(alloc, octets).ok()? {
        return format!(in alloc; "{text} canonical").ok();
    }
    Some(text)
}

/// What a whole reader answers; `None` where memory ran out.
fn read_text(alloc: Global, limits: Limits, octets: &[u8]) -> Option<String>
    requires small { limits.octets ≤ 2 ^ 24 }
    requires shallow { limits.depth ≤ 64 }
{
    match read_item(alloc, octets, limits) {
        Ok((item, used)) => item_text(alloc, &item, used),
        Err(refused) => match refused {
            CborRefused::Fault(fault) => fault_text(alloc, fault),
            CborRefused::Memory => None,
        },
    }
}

/// What a feed answers to no octets and then to pieces of the size, and how many octets it was fed
/// until then. `More` at the end counts as fault 1. `None` where memory ran out.
fn fed_text(alloc: Global, limits: Limits, octets: &[u8], size: usize) -> Option<(String, usize)>
    requires small { limits.octets ≤ 2 ^ 24 }
    requires shallow { limits.depth ≤ 64 }
    requires some { 0 < size }
{
    let mut feed = CborFeed::new(alloc, limits);
    push_pieces(alloc, &mut feed, octets, size)
}

/// What that feed answers, which has taken nothing yet.
fn push_pieces(
    alloc: Global,
    feed: &mut CborFeed,
    octets: &[u8],
    size: usize,
) -> Option<(String, usize)>
    requires begins { HasTaken feed.old [] }
    requires small { feed.old.limits.octets ≤ 2 ^ 24 }
    requires shallow { feed.old.limits.depth ≤ 64 }
    requires some { 0 < size }
{
    match feed.feed(&[]) {
        CborFed::More => {}
        CborFed::Fault(fault) => return with_count(fault_text(alloc, fault), 0),
        _ => return None,
    }
    let mut taken: usize = 0;
    for piece in octets.chunks(size) {
        let fed = taken.saturating_add(piece.len());
        match feed.feed(piece) {
            CborFed::More => taken = fed,
            CborFed::Done(item, used) => {
                return with_count(item_text(alloc, &item, taken.saturating_add(used)), fed);
            }
            CborFed::Fault(fault) => return with_count(fault_text(alloc, fault), fed),
            CborFed::Memory => return None,
        }
    }
    let cut = CborFault {
        kind: 1,
        at: octets.len() as u64,
    };
    with_count(fault_text(alloc, cut), octets.len())
}

/// The text with how many octets were fed; `None` where memory ran out.
fn with_count(text: Option<String>, fed: usize) -> Option<(String, usize)> {
    Some((text?, fed))
}

/// The length of an item, and its canonical spelling: that of a copy.
fn item_text(alloc: Global, item: &Item, used: usize) -> Option<String>
    requires shallow { depth (view item.now) ≤ 64 }
{
    let copy = item.copy().ok()?;
    let written = write_item(alloc, &copy).ok()?;
    let spelled = hex::encode(alloc, written.as_slice()).ok()?;
    format!(in alloc; "item {used} {spelled}").ok()
}

/// A fault: its kind, and the place of its first octet.
pub fn fault_text(alloc: Global, fault: CborFault) -> Option<String> {
    let CborFault { kind, at } = fault;
    format!(in alloc; "fault {kind} {at}").ok()
}
