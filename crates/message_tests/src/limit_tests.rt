//! Identifiers, locators and bodies: their limits on both sides, and their order.

use std::alloc::Global;
use swima_model::{
    Body, BodyLimit, Bounded, Ident, IdentLimit, Limit, Locator, LocatorLimit, LongRefused,
};
use wire_base::{Memory, TryCopy};

fn zeros(alloc: Global, length: usize) -> Result<Vec<u8>, Memory> {
    let mut octets = Vec::new(alloc);
    octets.resize(length, 0)?;
    Ok(octets)
}

/// Whether octets of this length are taken and read back whole, and copied.
fn takes<L: Limit>(alloc: Global, length: usize) -> Result<bool, LongRefused> {
    let octets = zeros(alloc, length)?;
    let bounded: Bounded<L> = Bounded::new(alloc, octets.as_slice())?;
    Ok((bounded.bytes() == octets.as_slice()) & (bounded.copy()? == bounded))
}

/// Whether none, one and that many octets are taken.
fn takes_up_to<L: Limit>(alloc: Global, length: usize) -> Result<bool, LongRefused> {
    Ok(takes::<L>(alloc, 0)? & takes::<L>(alloc, 1)? & takes::<L>(alloc, length)?)
}

#[test]
fn octets_are_taken_up_to_the_limit(rt: HostRuntime) {
    let idents = takes_up_to::<IdentLimit>(rt.alloc(), 65_535) == Ok(true);
    let locators = takes_up_to::<LocatorLimit>(rt.alloc(), 65_535) == Ok(true);
    let bodies = takes_up_to::<BodyLimit>(rt.alloc(), 1_048_576) == Ok(true);
    assert!(rt; idents & locators & bodies);
}

#[test]
fn octets_past_the_limit_are_refused(rt: HostRuntime) {
    let long = Err(LongRefused::TooLong { len: 65_536 });
    let idents = takes::<IdentLimit>(rt.alloc(), 65_536) == long;
    let locators = takes::<LocatorLimit>(rt.alloc(), 65_536) == long;
    let long = Err(LongRefused::TooLong { len: 1_048_577 });
    let bodies = takes::<BodyLimit>(rt.alloc(), 1_048_577) == long;
    assert!(rt; idents & locators & bodies);
}

/// Whether of two the greater is found, by each of the ways to compare them.
fn compares<L: Limit>(alloc: Global) -> Result<bool, LongRefused> {
    let lesser: Bounded<L> = Bounded::new(alloc, b"ab")?;
    let greater: Bounded<L> = Bounded::new(alloc, b"b")?;
    let is_less = (lesser < greater) & (lesser != greater);
    Ok(is_less & (lesser.max(greater).bytes() == b"b".as_slice()))
}

#[test]
fn octets_are_compared_one_by_one(rt: HostRuntime) {
    let idents = compares::<IdentLimit>(rt.alloc()) == Ok(true);
    let locators = compares::<LocatorLimit>(rt.alloc()) == Ok(true);
    let bodies = compares::<BodyLimit>(rt.alloc()) == Ok(true);
    assert!(rt; idents & locators & bodies);
}

/// Whether octets that are known to be few are taken, and none too.
fn takes_few(alloc: Global) -> Result<bool, Memory> {
    let few = Ident::from_octets(alloc, b"ab")?.bytes() == b"ab".as_slice();
    Ok(few & Locator::empty(alloc).bytes().is_empty() & Body::empty(alloc).bytes().is_empty())
}

#[test]
fn few_octets_and_none_are_taken(rt: HostRuntime) {
    assert!(rt; takes_few(rt.alloc()) == Ok(true));
}

/// Whether what is said of the refusal is `wanted`.
fn says(alloc: Global, refused: LongRefused, wanted: &str) -> bool {
    match format!(in alloc; "{refused}") {
        Ok(text) => text.as_str() == wanted,
        Err(_) => false,
    }
}

#[test]
fn refusals_say_what_happened(rt: HostRuntime) {
    let long = LongRefused::TooLong { len: 65_536 };
    let too_long = says(rt.alloc(), long, "65536 octets are too many");
    let memory = says(rt.alloc(), LongRefused::Memory, "out of memory");
    assert!(rt; too_long & memory);
}
