//! The octets of an input that were read and are of lines that were not reported.

ghost use Rattle.std.specs.Prelude.{◌≡◌, ◌+◌, ◌<◌, ◌≤◌, ◌++◌, [], IfOk, None, OnErr, OnOk, Some, drop, length, take};
ghost use Rattle.wire_base.specs.Counter.{next};
ghost use Rattle.source_lines.specs.LineFaults.{HasFault, Keeps};
ghost use Rattle.source_lines.specs.LineItems.{IsItem};
ghost use Rattle.source_lines.specs.Lines.{BeginsWith, MOST_OCTETS, SameLines};
ghost use Rattle.source_lines.specs.declared.line_fault.LineFault.TheVariants as faults;
ghost use Rattle.source_set.specs.declared.told.Told.TheVariants as told;

use crate::line_fault::{LineFault, LineRefused};
use crate::line_item::item_of;
use memchr::memchr;
use source_set::Told;
use std::alloc::Global;
use std::marker::Model;
use wire_base::Memory;

/// The most octets of a line, without the line feed that ends it.
const MOST_OCTETS: usize = 4_194_304;

/// Octets of lines that were not reported, and the number of the first of these lines.
#[derive(Debug, Drop)]
pub(crate) struct LineBuffer {
    /// Octets that were read. Those before `place` are of lines that were reported.
    octets: Vec<u8>,
    place: usize,
    /// No octet from `place` up to here is a line feed.
    searched: usize,
    number: u64,
    /// Why the last bad line is no item.
    fault: Option<LineFault>,
}

/// What octets begin with.
#[derive(Clone, Copy, Debug, PartialEq, Eq)]
pub(crate) enum Front {
    /// A line of that many octets, with its line feed.
    Line(usize),
    /// More octets than a line may have.
    Long,
    /// No whole line.
    More,
}

impl Model for LineBuffer {
    ghost use Rattle.std.specs.Prelude.{◌≤◌, ◌+◌, ◌-◌, drop, length, vec_capacity, vec_len};
    ghost use Rattle.source_lines.specs.Lines.{BufferView, before_feed};

    ghost Value = { BufferView };

    ghost view = { λ buffer. record {
      held = drop buffer.place buffer.octets.items;
      number = buffer.number;
      fault = buffer.fault;
      room = vec_capacity buffer.octets - vec_len buffer.octets;
    } };

    ghost invariant = { λ buffer. (buffer.place ≤ buffer.searched)
        × (buffer.searched ≤ length buffer.octets.items)
        × (buffer.searched ≤ buffer.place + before_feed (drop buffer.place buffer.octets.items))
        × (buffer.searched ≤ buffer.place + 4194304) };
}

impl LineBuffer {
    /// No octets, before the line 1. It takes no memory.
    pub(crate) fn new(alloc: Global) -> Self
        ensures held { result.held ≡ [] }
        ensures number { result.number ≡ 1 }
        ensures fault { result.fault ≡ None }
    {
        LineBuffer {
            octets: Vec::new(alloc),
            place: 0,
            searched: 0,
            number: 1,
            fault: None,
        }
    }

    /// Why the last bad line is no item; `None` where none came.
    pub(crate) fn last_fault(&self) -> Option<LineFault>
        ensures fault { result ≡ self.now.fault }
    {
        self.fault
    }

    /// What the octets begin with. An octet that was searched for a line feed is not searched
    /// again. It takes no memory.
    pub(crate) fn front(&mut self) -> Front
        ensures front { BeginsWith self.old.held result }
        ensures same { SameLines self.old self.new }
    {
        let searched = self.searched - self.place;
        let (_, fresh) = self.octets.as_slice().split_at(self.searched);
        let (window, _) = fresh.split_at(fresh.len().min(MOST_OCTETS + 1 - searched));
        match memchr(b'\n', window) {
            Some(count) => Front::Line(searched + count),
            None if searched + window.len() > MOST_OCTETS => Front::Long,
            None => {
                self.searched += window.len();
                Front::More
            }
        }
    }

    /// The item of the line of that many octets, which goes with its line feed. At `Memory` the
    /// line stays.
    pub(crate) fn take_line(&mut self, len: usize) -> Result<Told, Memory>
        requires within { len < length self.old.held }
        ensures item { IfOk result (IsItem self.old.number (take len self.old.held)) }
        ensures fault { IfOk result (λ item. Keeps (HasFault (take len self.old.held)) item self.old.fault self.new.fault) }
        ensures rest { OnOk result (self.new.held ≡ drop (len + 1) self.old.held) }
        ensures number { OnOk result (self.new.number ≡ next self.old.number) }
        ensures unchanged { OnErr result (SameLines self.old self.new) }
    {
        let (_, held) = self.octets.as_slice().split_at(self.place);
        let (line, _) = held.split_at(len);
        match item_of(*self.octets.allocator(), line) {
            Ok(item) => {
                self.skip(len + 1);
                Ok(item)
            }
            Err(LineRefused::Fault(fault)) => Ok(self.give_up(len + 1, fault)),
            Err(LineRefused::Memory) => Err(Memory),
        }
    }

    /// As many octets as a line may have are a bad line, and go. It takes no memory.
    pub(crate) fn take_long(&mut self) -> Told
        requires within { MOST_OCTETS ≤ length self.old.held }
        ensures item { result ≡ told.Bad self.old.number }
        ensures fault { self.new.fault ≡ Some faults.Long }
        ensures rest { self.new.held ≡ drop MOST_OCTETS self.old.held }
        ensures number { self.new.number ≡ next self.old.number }
    {
        self.give_up(MOST_OCTETS, LineFault::Long)
    }

    /// The first octets, that many, are a bad line for that reason, and go.
    fn give_up(&mut self, count: usize, fault: LineFault) -> Told
        requires within { count ≤ length self.old.held }
        ensures item { result ≡ told.Bad self.old.number }
        ensures fault { self.new.fault ≡ Some fault }
        ensures rest { self.new.held ≡ drop count self.old.held }
        ensures number { self.new.number ≡ next self.old.number }
    {
        let line = self.number;
        self.fault = Some(fault);
        self.skip(count);
        Told::Bad { line }
    }

    /// The first octets, that many, are done.
    fn skip(&mut self, count: usize)
        requires within { count ≤ length self.old.held }
        ensures rest { self.new.held ≡ drop count self.old.held }
        ensures number { self.new.number ≡ next self.old.number }
        ensures fault { self.new.fault ≡ self.old.fault }
    {
        self.place += count;
        self.searched = self.place;
        self.number = self.number.saturating_add(1);
    }

    /// Makes room for that many more octets. The octets of lines that were reported are given up.
    pub(crate) fn make_room(&mut self, count: usize) -> Result<(), Memory>
        ensures room { OnOk result (count ≤ self.new.room) }
        ensures same { SameLines self.old self.new }
    {
        self.octets.drain(..self.place);
        self.searched -= self.place;
        self.place = 0;
        self.octets.reserve(count)?;
        Ok(())
    }

    /// Puts a piece at the end, for which there is room. It takes no memory.
    pub(crate) fn put(&mut self, piece: &[u8])
        requires room { length piece.now ≤ self.old.room }
        ensures held { self.new.held ≡ self.old.held ++ piece.now }
        ensures number { self.new.number ≡ self.old.number }
        ensures fault { self.new.fault ≡ self.old.fault }
    {
        self.octets.extend_from_slice(piece).unwrap();
    }
}
