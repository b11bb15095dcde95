//! Connections of the system as a door, as those to a TCP address: the trusted edge. It exposes no
//! links.

ghost use Rattle.std.specs.Prelude.{◌≡◌, ◌+◌, ◌-◌, ◌^◌, false, true, if◌then◌else◌, None, IfSome, min, nat_lt};
ghost use Rattle.wire_base.specs.Counter.{next};
ghost use Rattle.wire_base.specs.Doors.{Comes, OnLink, has_failed, is_link};
ghost use Rattle.wire_base.specs.Outside.{HasCause};

use crate::outside::door::{Came, Door};
use crate::outside::tcp_link::TcpLink;
use std::marker::Model;
use std::net::{Net, TcpStream};
use std::num::NonZeroU32;

/// An address as a door: each link is a connection that this end makes. Links never run out.
#[derive(Debug, Drop)]
pub struct DialDoor<'a, R> {
    system: R,
    address: &'a str,
    write_seconds: NonZeroU32,
    out: bool,
    faults: u64,
}

impl<'a, R> Model for DialDoor<'a, R> {
    ghost use Rattle.wire_base.specs.SystemLinks.{DoorAdapter};

    ghost Value = { DoorAdapter R };

    ghost view = { λ door. record { inner = door.system; out = door.out; faults = door.faults } };
}

impl<'a, R: Net> DialDoor<'a, R> {
    /// A door to `address`, with no link out and no fault yet: the name or number of a host, a
    /// colon, and a port. It is looked up anew for each link. A write to a link waits for
    /// `write_seconds`.
    pub fn new(system: R, address: &'a str, write_seconds: NonZeroU32) -> Self
        ensures made { result ≡ record { inner = system; out = false; faults = 0 } }
    {
        DialDoor {
            system,
            address,
            write_seconds,
            out: false,
            faults: 0,
        }
    }
}

impl<'a, R: Net> Door for DialDoor<'a, R> {
    type L = TcpLink<R::Stream>;

    ghost left = { λ _. None };

    ghost returned = { λ _. None };

    ghost last = { λ _. None };

    ghost out = { λ door. door.out };

    ghost faults = { λ door. door.faults };

    /// Connects once, for as long as the system waits for an answer. Text that is no address, a
    /// connection that the other host does not take, and one whose settings the system refused, are
    /// faults.
    fn next(&mut self) -> Came<TcpLink<R::Stream>>
        requires home { self.old.out ≡ false }
        ensures comes { Comes None None result }
        ensures fresh { OnLink result (λ link. link.faults ≡ 0) }
        ensures out { self.new.out ≡ is_link result }
        ensures cause { HasCause self.old.faults self.new.faults (has_failed result) }
        ensures system { self.new.inner ≡ self.old.inner }
        ensures faults { self.new.faults ≡ (if has_failed result then next self.old.faults else self.old.faults) }
    {
        match connected(&self.system, self.address, self.write_seconds) {
            Some(link) => {
                self.out = true;
                Came::Link(link)
            }
            None => {
                self.faults = self.faults.saturating_add(1);
                Came::Failed
            }
        }
    }

    /// Closes the link, and adds its faults to those of the door.
    fn back(&mut self, link: TcpLink<R::Stream>)
        requires out { self.old.out ≡ true }
        ensures home { self.new.out ≡ false }
        ensures cause { HasCause self.old.faults self.new.faults (nat_lt 0 link.faults) }
        ensures system { self.new.inner ≡ self.old.inner }
        ensures faults { self.new.faults ≡ min (self.old.faults + link.faults) (2 ^ 64 - 1) }
    {
        self.out = false;
        self.faults = self.faults.saturating_add(link.faults());
    }
}

/// A link over a new connection to `address`.
fn connected<R: Net>(
    system: &R,
    address: &str,
    write_seconds: NonZeroU32,
) -> Option<TcpLink<R::Stream>>
    ensures fresh { IfSome result (λ link. link.faults ≡ 0) }
{
    let stream = TcpStream::connect(system, address).ok()?;
    TcpLink::from_stream(stream, write_seconds).ok()
}
