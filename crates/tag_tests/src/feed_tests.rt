//! A feed of pieces: items one after another, and a fault that is answered again.

use cbor_det::{CborFault, CborFed, CborFeed, LARGEST};
use std::alloc::Global;
use std::test::Fail;

/// Whether the answer is that more octets are needed.
fn is_more(fed: CborFed) -> bool {
    match fed {
        CborFed::More => true,
        _ => false,
    }
}

/// Whether the answer is an item that ends after that many octets of the piece.
fn is_done(fed: CborFed, used: usize) -> bool {
    match fed {
        CborFed::Done(_, found) => found == used,
        _ => false,
    }
}

/// Whether the answer is a float at this place.
fn is_float(fed: CborFed, at: u64) -> bool {
    match fed {
        CborFed::Fault(fault) => fault == CborFault { kind: 3, at },
        _ => false,
    }
}

/// Whether the map of 0 to `a` ends with the third piece.
fn takes_a_map(feed: &mut CborFeed) -> bool {
    is_more(feed.feed(b"\xa1\x00"))
        && is_more(feed.feed(b"\x61"))
        && is_done(feed.feed(b"a\x00"), 1)
}

/// Whether an array whose second item is a float is refused, and each piece after it.
fn refuses_a_float(feed: &mut CborFeed) -> bool {
    is_more(feed.feed(b"\x82\x00"))
        && is_float(feed.feed(b"\xf9"), 2)
        && is_float(feed.feed(b"\x00"), 2)
        && is_float(feed.feed(b"\xff\x00"), 2)
}

/// Whether one feed does both.
fn feeds_pieces(alloc: Global) -> bool {
    let mut feed = CborFeed::new(alloc, LARGEST);
    takes_a_map(&mut feed) && refuses_a_float(&mut feed)
}

#[test]
fn a_fault_is_answered_again(rt: HostRuntime) -> Result<(), Fail> {
    assert!(rt; feeds_pieces(rt.alloc()));
    Ok(())
}
