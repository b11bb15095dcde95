//! A listener of the system as a door, as one on a TCP address: the trusted edge. It exposes no
//! links.

ghost use Rattle.std.specs.Prelude.{◌≡◌, ◌+◌, ◌-◌, ◌^◌, false, true, if◌then◌else◌, ℕ, List, Option, None, IfSome, min, nat_lt};
ghost use Rattle.wire_base.specs.Counter.{next};
ghost use Rattle.wire_base.specs.Doors.{Comes, OnLink, has_failed, is_link};
ghost use Rattle.wire_base.specs.Outside.{HasCause};

use crate::outside::door::{Came, Door};
use crate::outside::tcp_link::TcpLink;
use std::io::{Read, Write};
use std::marker::Model;
use std::net::{Net, OpenListener, OpenStream, TcpListener};
use std::num::NonZeroU32;

/// A listener of the system as a door: each link is a connection that another end made. Links never
/// run out.
#[derive(Debug, Drop)]
pub struct ListenDoor<L> {
    listener: Option<L>,
    write_seconds: NonZeroU32,
    out: bool,
    faults: u64,
}

impl<L> Model for ListenDoor<L> {
    ghost use Rattle.std.specs.Prelude.{Option};
    ghost use Rattle.wire_base.specs.SystemLinks.{DoorAdapter};

    ghost Value = { DoorAdapter (Option L) };

    ghost view = { λ door. record { inner = door.listener; out = door.out; faults = door.faults } };
}

impl<L: OpenListener> ListenDoor<L> {
    /// A door over `listener`, with no link out and no fault yet. Without a listener each call of
    /// `next` fails. A write to a link waits for `write_seconds`.
    pub fn new(listener: Option<L>, write_seconds: NonZeroU32) -> Self
        ensures made { result ≡ record { inner = listener; out = false; faults = 0 } }
    {
        ListenDoor {
            listener,
            write_seconds,
            out: false,
            faults: 0,
        }
    }

    /// A door over a listener on `address`: the name or number of a host, a colon, and a port.
    /// Where the system refuses to listen there, or the text is no address, each call of `next`
    /// fails.
    pub fn bind<R: Net<Listener = L>>(system: &R, address: &str, write_seconds: NonZeroU32) -> Self
        ensures home { result.out ≡ false }
        ensures faults { result.faults ≡ 0 }
    {
        ListenDoor::new(TcpListener::bind(system, address).ok(), write_seconds)
    }

    /// Another door over the same listener: each connection comes to one of the two. Where the
    /// system refuses another handle of the listener, each call of its `next` fails.
    pub fn another(&self) -> Self
        ensures closed { self.now.inner ≡ None → result.inner ≡ None }
        ensures home { result.out ≡ false }
        ensures faults { result.faults ≡ 0 }
    {
        let listener = match &self.listener {
            Some(listener) => listener.try_clone().ok(),
            None => None,
        };
        ListenDoor::new(listener, self.write_seconds)
    }
}

impl<L: OpenListener> Door for ListenDoor<L>
where
    L::Stream: Read + Write + OpenStream,
{
    type L = TcpLink<L::Stream>;

    ghost left = { λ _. None };

    ghost returned = { λ _. None };

    ghost last = { λ _. None };

    ghost out = { λ door. door.out };

    ghost faults = { λ door. door.faults };

    /// Waits for the next connection. A listener that did not open, a connection that could not be
    /// accepted, and one whose settings the system refused, are faults.
    fn next(&mut self) -> Came<TcpLink<L::Stream>>
        requires home { self.old.out ≡ false }
        ensures comes { Comes None None result }
        ensures fresh { OnLink result (λ link. link.faults ≡ 0) }
        ensures out { self.new.out ≡ is_link result }
        ensures cause { HasCause self.old.faults self.new.faults (has_failed result) }
        ensures closed { self.old.inner ≡ None → has_failed result ≡ true }
        ensures listener { self.new.inner ≡ self.old.inner }
        ensures faults { self.new.faults ≡ (if has_failed result then next self.old.faults else self.old.faults) }
    {
        let came = match &self.listener {
            Some(listener) => accepted(listener, self.write_seconds),
            None => None,
        };
        match came {
            Some(link) => {
                self.out = true;
                Came::Link(link)
            }
            None => {
                self.faults = self.faults.saturating_add(1);
                Came::Failed
            }
        }
    }

    /// Closes the link, and adds its faults to those of the door.
    fn back(&mut self, link: TcpLink<L::Stream>)
        requires out { self.old.out ≡ true }
        ensures home { self.new.out ≡ false }
        ensures cause { HasCause self.old.faults self.new.faults (nat_lt 0 link.faults) }
        ensures listener { self.new.inner ≡ self.old.inner }
        ensures faults { self.new.faults ≡ min (self.old.faults + link.faults) (2 ^ 64 - 1) }
    {
        self.out = false;
        self.faults = self.faults.saturating_add(link.faults());
    }
}

/// A link over the next connection to `listener`.
fn accepted<L: OpenListener>(listener: &L, write_seconds: NonZeroU32) -> Option<TcpLink<L::Stream>>
where
    L::Stream: Read + Write + OpenStream,
    ensures fresh { IfSome result (λ link. link.faults ≡ 0) }
{
    let (stream, _) = listener.accept().ok()?;
    TcpLink::from_stream(stream, write_seconds).ok()
}
