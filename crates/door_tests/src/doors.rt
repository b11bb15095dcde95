//! Doors in memory.

ghost use Rattle.std.specs.Prelude.{◌≡◌, IfOk, false};

use std::alloc::Global;
use test_talks::link;
use wire_base::{List, MemDoor, Memory};

/// A door of two links which each give these octets. The first fails at the calls numbered in
/// `failing`.
pub(crate) fn door(alloc: Global, octets: &[u8], failing: &[u64]) -> Result<MemDoor, Memory>
    ensures home { IfOk result (λ door. door.out ≡ false) }
{
    let mut links = List::new(alloc);
    links.push(link(alloc, octets, failing)?)?;
    links.push(link(alloc, octets, &[])?)?;
    MemDoor::new(alloc, links, &[])
}

/// Whether the link that went back at this place was given these octets.
pub(crate) fn was_given(door: &MemDoor, place: usize, octets: &[u8]) -> bool {
    match door.returned().get(place) {
        Some(link) => link.given() == octets,
        None => false,
    }
}
