//! The doors and sources that a command line names, over the system.

ghost use Rattle.std.specs.List.{All};
ghost use Rattle.std.specs.Prelude.{◌≡◌, ◌≤◌, IfOk, false, length};
ghost use Rattle.session_pool.specs.Stands.{AreReady, IsReady};
ghost use Rattle.source_set.specs.Sweeping.{fresh};
ghost use Rattle.swid_run.specs.Words.{IsFresh};

use crate::reporting_lines::ReportingLines;
use session_pool::Stand;
use source_lines::LineSource;
use source_set::Sources;
use std::alloc::Global;
use std::fs;
use std::io::{Eprint, ErrorKind};
use std::net::{Net, OpenListener, ToSocketAddrs};
use std::num::NonZeroU32;
use swid_run::IDLE_TURNS;
use wire_base::{DialDoor, FileSource, ListenDoor, Memory, Text};

/// Says on standard error that a text is no address, where it is none: the network is not asked
/// then.
pub(crate) fn say_no_address<R: Net + Eprint>(rt: &R, address: &str) {
    if let Err(error) = address.to_socket_addrs(rt) {
        if error.kind() == ErrorKind::InvalidInput {
            // Nobody is left to inform where standard error fails.
            let _ = eprintln!(rt; "swid: {address} is no address: a host, a colon and a port");
        }
    }
}

/// That many stands, each at a door to a listener on the address.
pub(crate) fn listening<R: Net>(
    alloc: Global,
    net: &R,
    address: &str,
    workers: u32,
) -> Result<Vec<Stand<ListenDoor<R::Listener>>>, Memory>
    ensures count { IfOk result (λ made. length made.items ≡ workers) }
    ensures ready { IfOk result (λ made. AreReady (λ door. door.out) made.items) }
{
    let first = ListenDoor::bind(net, address, write_seconds());
    stands_beside(alloc, &first, workers)
}

/// That many stands, each at another door to the same listener.
fn stands_beside<L: OpenListener + Drop>(
    alloc: Global,
    first: &ListenDoor<L>,
    count: u32,
) -> Result<Vec<Stand<ListenDoor<L>>>, Memory>
    ensures count { IfOk result (λ made. length made.items ≡ count) }
    ensures ready { IfOk result (λ made. AreReady (λ door. door.out) made.items) }
{
    let mut stands = Vec::with_capacity(alloc, count as usize)?;
    for _ in 0..count {
        stands.push(beside(first))?;
    }
    Ok(stands)
}

/// A stand at another door to the same listener.
fn beside<L: OpenListener>(first: &ListenDoor<L>) -> Stand<ListenDoor<L>>
    ensures ready { IsReady (λ door. door.out) result }
{
    Stand::new(first.another())
}

/// A stand at a door to each address.
pub(crate) fn dialling<'a, R: Net>(
    alloc: Global,
    net: &'a R,
    addresses: &'a [Text],
) -> Result<Vec<Stand<DialDoor<'a, &'a R>>>, Memory>
    ensures count { IfOk result (λ made. length made.items ≡ length addresses.entry.now) }
    ensures ready { IfOk result (λ made. AreReady (λ door. door.out) made.items) }
{
    let mut stands = Vec::with_capacity(alloc, addresses.len())?;
    for address in addresses {
        stands.push(Stand::new(DialDoor::new(net, address.as_str(), write_seconds())))?;
    }
    Ok(stands)
}

/// How many seconds a write to a connection waits for the other end: as long as a session waits.
fn write_seconds() -> NonZeroU32 {
    NonZeroU32::new(IDLE_TURNS).unwrap()
}

/// The set of the sources that the lines of these files are.
pub(crate) fn line_sources<'a, R: fs::Files + Eprint>(
    alloc: Global,
    rt: &'a R,
    names: &'a [Text],
) -> Result<Sources<ReportingLines<'a, R>>, Memory>
    requires few { length names.now ≤ 255 }
    ensures count { IfOk result (λ made. length made.seats ≡ length names.entry.now) }
    ensures fresh { IfOk result (λ made. IsFresh made) }
{
    let mut sources = Vec::with_capacity(alloc, names.len())?;
    for name in names {
        say_unreadable(rt, name.as_str());
        let file = FileSource::open(rt, name.as_str());
        sources.push(ReportingLines::new(rt, name.as_str(), LineSource::new(alloc, file)?))?;
    }
    Sources::new(alloc, sources)
}

/// Says on standard error that a file is not there or can't be looked at, and why.
fn say_unreadable<R: fs::Files + Eprint>(rt: &R, name: &str) {
    if let Err(error) = rt.metadata(name) {
        // Nobody is left to inform where standard error fails.
        let _ = eprintln!(rt; "swid: cannot open {name}: {}", error.kind());
    }
}
