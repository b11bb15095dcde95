//! Attributes from octets that come in pieces.

ghost use Rattle.std.specs.Prelude.{◌≡◌, ◌≤◌, length, None};
ghost use Rattle.pa_attrs.specs.Numbers.{MOST_OCTETS};
ghost use Rattle.pa_attrs.specs.Stream.{Feeding, Feeds, More, fresh, front_of, header_held, told};

use crate::attr::Attr;
use crate::fault::AttrFault;
use crate::held::Held;
use std::alloc::Global;
use std::marker::Model;
use wire_base::Refused;

/// What a feed answers to a piece.
#[derive(Debug, Drop)]
pub enum AttrFed {
    /// The octets so far are the beginning of an attribute, or may be.
    More,
    /// An attribute is whole, with that many octets of the piece, at least one. Those after them
    /// were not looked at.
    Done(Attr, usize),
    /// The octets so far have a fault; its place is counted from the attribute's first octet.
    Fault(AttrFault),
    /// Out of memory.
    Memory,
}

/// Takes the octets of one attribute after another in pieces of any size. Once it has answered a
/// fault or that memory ran out, it answers the same for ever.
#[derive(Debug, Drop)]
pub struct AttrFeed {
    held: Held,
    stopped: Option<Refused<AttrFault>>,
}

impl Model for AttrFeed {
    ghost use Rattle.std.specs.Prelude.{◌≡◌, ◌≤◌, None, length};
    ghost use Rattle.pa_attrs.specs.Held.{IsInOrder, octets_of_held};
    ghost use Rattle.pa_attrs.specs.Numbers.{MOST_OCTETS};
    ghost use Rattle.pa_attrs.specs.Stream.{Feeding, More, front_of};

    ghost Value = { Feeding };

    ghost view = { λ feed. record { octets = octets_of_held feed.held; stopped = feed.stopped } };

    ghost invariant = { λ feed. IsInOrder feed.held
        × (length (octets_of_held feed.held) ≤ MOST_OCTETS)
        × (feed.stopped ≡ None → front_of (octets_of_held feed.held) ≡ More) };
}

impl AttrFeed {
    /// A feed that has taken nothing. It takes no memory.
    pub fn new(alloc: Global) -> Self
        ensures fresh { result ≡ fresh }
    {
        AttrFeed {
            held: Held::new(alloc),
            stopped: None,
        }
    }

    /// How many octets of the attribute that is not whole yet were taken; of one whose fault was
    /// answered, the 12 of its header. It takes no memory.
    pub fn have(&self) -> u64
        ensures have { result ≡ length self.now.octets }
        ensures within { result ≤ MOST_OCTETS }
    {
        self.held.len() as u64
    }

    /// The first 12 octets of the attribute that is not whole yet, or of the one whose fault was
    /// answered; `None` exactly where fewer were taken. `read_header` says what they mean. It takes
    /// no memory.
    pub fn header(&self) -> Option<[u8; 12]>
        ensures header { result ≡ header_held self.now.octets }
    {
        self.held.header()
    }

    /// Takes a piece, up to the end of the attribute where that is in it.
    pub fn feed(&mut self, piece: &[u8]) -> AttrFed
        ensures fed { Feeds self.old piece.now result self.new }
        ensures torn { self.new.stopped ≡ None → front_of self.new.octets ≡ More }
    {
        if let Some(stopped) = self.stopped {
            return told(stopped);
        }
        match self.held.take(piece) {
            Ok(None) => AttrFed::More,
            Ok(Some((attr, used))) => AttrFed::Done(attr, used),
            Err(stopped) => {
                self.stopped = Some(stopped);
                told(stopped)
            }
        }
    }
}

/// What is answered for ever.
fn told(stopped: Refused<AttrFault>) -> AttrFed
    ensures told { result ≡ told stopped }
{
    match stopped {
        Refused::Fault(fault) => AttrFed::Fault(fault),
        Refused::Memory => AttrFed::Memory,
    }
}
