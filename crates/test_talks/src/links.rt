//! Links in memory.

ghost use Rattle.std.specs.Prelude.{◌≡◌, IfOk};

use std::alloc::Global;
use wire_base::{LinkTurn, List, MemLink, Memory};

/// A link that gives octets, and then that the other end has closed. It fails at the calls numbered
/// in `failing`, from 1 on.
pub fn link(alloc: Global, octets: &[u8], failing: &[u64]) -> Result<MemLink, Memory>
    ensures fresh { IfOk result (λ link. link.faults ≡ 0) }
{
    let mut turns = List::new(alloc);
    for octet in octets {
        turns.push(LinkTurn::Octet(*octet))?;
    }
    MemLink::new(alloc, turns, 16, 4096, failing)
}
