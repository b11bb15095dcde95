//! Stands at doors in memory.

ghost use Rattle.std.specs.List.{All};
ghost use Rattle.std.specs.Prelude.{◌≡◌, ◌∷◌, [], IfOk};
ghost use Rattle.session_pool.specs.Stands.{AreReady, IsReady};

use session_pool::Stand;
use std::alloc::Global;
use test_talks::link;
use wire_base::{List, MemDoor, MemLink, Memory};

/// A stand at a door of one link, which gives these octets.
pub(crate) fn stand(alloc: Global, octets: &[u8]) -> Result<Stand<MemDoor>, Memory>
    ensures ready { IfOk result (λ stand. IsReady (λ door. door.out) stand) }
{
    failing_stand(alloc, octets, &[])
}

/// The same, where the link fails at the calls numbered in `failing`.
pub(crate) fn failing_stand(
    alloc: Global,
    octets: &[u8],
    failing: &[u64],
) -> Result<Stand<MemDoor>, Memory>
    ensures ready { IfOk result (λ stand. IsReady (λ door. door.out) stand) }
{
    let mut links = List::new(alloc);
    links.push(link(alloc, octets, failing)?)?;
    stand_of(alloc, links)
}

/// A stand at a door of three links, each of which gives these octets.
pub(crate) fn stand_of_three(alloc: Global, octets: &[u8]) -> Result<Stand<MemDoor>, Memory>
    ensures ready { IfOk result (λ stand. IsReady (λ door. door.out) stand) }
{
    let mut links = List::new(alloc);
    links.push(link(alloc, octets, &[])?)?;
    links.push(link(alloc, octets, &[])?)?;
    links.push(link(alloc, octets, &[])?)?;
    stand_of(alloc, links)
}

/// A stand at a door without a link.
pub(crate) fn empty_stand(alloc: Global) -> Result<Stand<MemDoor>, Memory>
    ensures ready { IfOk result (λ stand. IsReady (λ door. door.out) stand) }
{
    stand_of(alloc, List::new(alloc))
}

/// A stand at a door of these links.
fn stand_of(alloc: Global, links: List<MemLink>) -> Result<Stand<MemDoor>, Memory>
    requires fresh { All (λ link. link.faults ≡ 0) links }
    ensures ready { IfOk result (λ stand. IsReady (λ door. door.out) stand) }
{
    Ok(Stand::new(MemDoor::new(alloc, links, &[])?))
}

/// One stand.
pub(crate) fn one(alloc: Global, first: Stand<MemDoor>) -> Result<Vec<Stand<MemDoor>>, Memory>
    requires ready { IsReady (λ door. door.out) first }
    ensures stands { IfOk result (λ made. made.items ≡ first ∷ []) }
    ensures ready { IfOk result (λ made. AreReady (λ door. door.out) made.items) }
{
    let mut stands = Vec::new(alloc);
    stands.push(first)?;
    Ok(stands)
}

/// Two stands.
pub(crate) fn two(
    alloc: Global,
    first: Stand<MemDoor>,
    second: Stand<MemDoor>,
) -> Result<Vec<Stand<MemDoor>>, Memory>
    requires first { IsReady (λ door. door.out) first }
    requires second { IsReady (λ door. door.out) second }
    ensures stands { IfOk result (λ made. made.items ≡ first ∷ second ∷ []) }
    ensures ready { IfOk result (λ made. AreReady (λ door. door.out) made.items) }
{
    let mut stands = Vec::new(alloc);
    stands.push(first)?;
    stands.push(second)?;
    Ok(stands)
}

/// Whether the door at a stand gave one link, and took it back given these octets.
pub(crate) fn was_given(stand: &Stand<MemDoor>, octets: &[u8]) -> bool {
    match stand.door.returned() {
        [link] => link.given() == octets,
        _ => false,
    }
}

/// Whether there is one stand, whose door gave two links, and took both back given these octets.
pub(crate) fn were_given_twice(stands: &[Stand<MemDoor>], octets: &[u8]) -> bool {
    match stands {
        [stand] => match stand.door.returned() {
            [first, second] => (first.given() == octets) & (second.given() == octets),
            _ => false,
        },
        _ => false,
    }
}
