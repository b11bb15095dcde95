//! The octets of an attribute that is not whole yet.

ghost use Rattle.std.specs.Prelude.{◌≡◌, ◌<◌, ◌≤◌, ◌+◌, ◌-◌, ◌++◌, [], length, take, min, IfOk, OnErr, Ok, Err};
ghost use Rattle.pa_attrs.specs.Held.{Holds, IsInOrder, octets_of_held};
ghost use Rattle.pa_attrs.specs.Header.{header_of};
ghost use Rattle.pa_attrs.specs.Numbers.{HEADER, MOST_OCTETS};
ghost use Rattle.pa_attrs.specs.Stream.{More, front_of, header_held};

use crate::attr::Attr;
use crate::fault::AttrFault;
use crate::header::Header;
use crate::header_fault::stream_header;
use crate::numbers::HEADER_OCTETS;
use std::alloc::Global;
use std::mem;
use wire_base::{List, Memory, Refused};

/// The octets of an attribute: as many of those of its header as are there, and then those of its
/// value.
#[derive(Debug, Drop)]
pub(crate) struct Held {
    header: [u8; 12],
    header_len: usize,
    value: Vec<u8>,
}

impl Held {
    /// Nothing. It takes no memory.
    pub(crate) fn new(alloc: Global) -> Self
        ensures order { IsInOrder result }
        ensures nothing { octets_of_held result ≡ [] }
    {
        Held {
            header: [0; 12],
            header_len: 0,
            value: Vec::new(alloc),
        }
    }

    /// How many octets there are.
    pub(crate) fn len(&self) -> usize
        requires order { IsInOrder self.now }
        requires within { length (octets_of_held self.now) ≤ MOST_OCTETS }
        ensures len { result ≡ length (octets_of_held self.now) }
    {
        self.header_len + self.value.len()
    }

    /// The header; `None` where not all of it is there.
    pub(crate) fn header(&self) -> Option<[u8; 12]>
        requires order { IsInOrder self.now }
        ensures header { result ≡ header_held (octets_of_held self.now) }
    {
        if self.header_len < HEADER_OCTETS {
            return None;
        }
        Some(self.header)
    }

    /// Takes a piece after the octets, up to the end of the attribute where that is in it.
    pub(crate) fn take(&mut self, piece: &[u8]) -> Result<Option<(Attr, usize)>, Refused<AttrFault>>
        requires order { IsInOrder self.old }
        requires torn { front_of (octets_of_held self.old) ≡ More }
        ensures within { length (octets_of_held self.new) ≤ MOST_OCTETS }
        ensures order { IsInOrder self.new }
        ensures holds { Holds (octets_of_held self.old) piece.now result (octets_of_held self.new) }
    {
        let mut header = self.header;
        let first = begin_header(&mut header, self.header_len, piece);
        let begun = self.header_len + first;
        if begun < HEADER_OCTETS {
            self.header = header;
            self.header_len = begun;
            return Ok(None);
        }
        let (_, rest) = piece.split_at(first);
        match stream_header(&header) {
            Ok(said) => {
                let more = take_value(&mut self.value, rest, said.length as usize - HEADER_OCTETS)?;
                self.header = header;
                self.header_len = HEADER_OCTETS;
                if HEADER_OCTETS + self.value.len() < said.length as usize {
                    return Ok(None);
                }
                Ok(Some((self.give(said), first + more)))
            }
            Err(fault) => {
                self.header = header;
                self.header_len = HEADER_OCTETS;
                Err(Refused::Fault(fault))
            }
        }
    }

    /// The attribute with the header and the value that is there. Nothing is left.
    fn give(&mut self, said: Header) -> Attr
        ensures attr { result ≡ record { noskip = said.noskip; vendor = said.vendor; kind = said.kind; value = self.old.value.items } }
        ensures order { IsInOrder self.new }
        ensures nothing { octets_of_held self.new ≡ [] }
    {
        let alloc = *self.value.allocator();
        let value = mem::replace(&mut self.value, Vec::new(alloc));
        self.header_len = 0;
        Attr {
            noskip: said.noskip,
            vendor: said.vendor,
            kind: said.kind,
            value: List::from_vec(value),
        }
    }
}

/// Puts octets of the piece after those of the header that are there, and says how many.
fn begin_header(header: &mut [u8; 12], begun: usize, piece: &[u8]) -> usize
    requires { begun ≤ HEADER }
    ensures used { result ≡ min (HEADER - begun) (length piece.now) }
    ensures octets { take (begun + result) header.new ≡ take begun header.old ++ take result piece.now }
{
    let used = (HEADER_OCTETS - begun).min(piece.len());
    header[begun..begun + used].copy_from_slice(&piece[..used]);
    used
}

/// Puts octets of the piece after those of the value that are there, up to `len` in all, and says
/// how many. At `Memory` the value is as it was.
fn take_value(value: &mut Vec<u8>, piece: &[u8], len: usize) -> Result<usize, Memory>
    requires len { length value.old.items ≤ len }
    requires most { len ≤ MOST_OCTETS }
    ensures used { IfOk result (λ used. used ≡ min (len - length value.old.items) (length piece.now)) }
    ensures octets { IfOk result (λ used. value.new.items ≡ value.old.items ++ take used piece.now) }
    ensures unchanged { OnErr result (value.new.items ≡ value.old.items) }
{
    let used = (len - value.len()).min(piece.len());
    make_room(value, used, len)?;
    value.extend_from_slice(&piece[..used])?;
    Ok(used)
}

/// Makes room for that many octets more; where there was too little, for as many again as there
/// are, but at most `most` in all.
fn make_room(value: &mut Vec<u8>, more: usize, most: usize) -> Result<(), Memory>
    requires within { length value.old.items + more ≤ most }
    requires most { most ≤ MOST_OCTETS }
    ensures items { value.new.items ≡ value.old.items }
{
    let len = value.len();
    if value.capacity() < len + more {
        value.reserve_exact(more.max(len).min(most - len))?;
    }
    Ok(())
}
