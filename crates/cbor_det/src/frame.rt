//! What is open round the place at which a reader stands, and what it reads there.

ghost use Rattle.std.specs.Prelude.{◌≡◌, [], IfOk};
ghost use Rattle.cbor_det.specs.Faults.{Place, at_chunk, at_element, at_key};
ghost use Rattle.cbor_det.specs.Standing.{inside};
ghost use Rattle.cbor_det.specs.Term.{no_terms, no_pairs};

use crate::fault::CborFault;
use crate::initial::Major;
use crate::item::{Item, Items};
use crate::members::Members;
use crate::string_kind::StringKind;
use std::alloc::Global;
use wire_base::{List, Memory, Octets};

/// A construct that is open, with what stands in it whole. `at` is the offset of its initial byte,
/// and `all` is how many items or pairs its head counts, or `None` where a break ends it.
#[derive(Drop)]
pub(crate) enum Frame {
    /// A string of indefinite length, with its chunks so far.
    Chunks {
        at: u64,
        kind: StringKind,
        joined: Octets,
    },
    /// An array.
    Elements {
        at: u64,
        all: Option<u64>,
        items: Items,
    },
    /// A map.
    Map {
        at: u64,
        all: Option<u64>,
        members: Members,
    },
    /// A tag whose content is due.
    Content {
        at: u64,
        number: u64,
    },
}

impl Frame {
    /// A string of indefinite length with no chunk so far. It takes no memory.
    pub(crate) fn chunks(alloc: Global, at: u64, kind: StringKind) -> Self
        ensures made { (p : Place) → inside p result ≡ at_chunk at kind [] p }
    {
        let joined = List::new(alloc);
        Frame::Chunks { at, kind, joined }
    }

    /// An array with nothing in it so far. It takes room for what its head counts.
    pub(crate) fn elements(alloc: Global, at: u64, all: Option<u64>) -> Result<Self, Memory>
        ensures made { IfOk result (λ frame. (p : Place) → inside p frame ≡ at_element at all no_terms p) }
    {
        let items = List::with_capacity(alloc, room(all))?;
        Ok(Frame::Elements { at, all, items })
    }

    /// A map with nothing in it so far. It takes room for what its head counts.
    pub(crate) fn map(alloc: Global, at: u64, all: Option<u64>) -> Result<Self, Memory>
        ensures made { IfOk result (λ frame. (p : Place) → inside p frame ≡ at_key at all no_pairs p) }
    {
        let members = Members::with_room(alloc, room(all))?;
        Ok(Frame::Map { at, all, members })
    }
}

/// The most items or pairs that room is taken for at once.
const MOST_ROOM: u64 = 64;

/// For how many items or pairs room is taken where a head counts `all`, which may be a lie.
fn room(all: Option<u64>) -> usize {
    match all {
        None => 0,
        Some(all) => all.min(MOST_ROOM) as usize,
    }
}

/// A head, begun at the offset `at`, of whose argument `left` more octets are due; those that came
/// stand for `number`.
#[derive(Drop)]
pub(crate) struct PartialHead {
    pub(crate) at: u64,
    pub(crate) major: Major,
    pub(crate) left: u8,
    pub(crate) number: u64,
}

impl PartialHead {
    /// A head without an octet of its argument so far.
    pub(crate) fn new(at: u64, major: Major, left: u8) -> Self
        ensures made { result ≡ record { at = at; major = major; left = left; number = 0 } }
    {
        PartialHead {
            at,
            major,
            left,
            number: 0,
        }
    }
}

/// A definite string, begun at the offset `at`, of which `left` more octets are due after those
/// that came.
#[derive(Drop)]
pub(crate) struct PartialString {
    pub(crate) at: u64,
    pub(crate) kind: StringKind,
    pub(crate) left: u64,
    pub(crate) came: Octets,
}

/// What is read at the place.
#[derive(Drop)]
pub(crate) enum Phase {
    /// An initial byte is due.
    Due,
    /// The rest of an argument is due.
    Head(PartialHead),
    /// The rest of a definite string is due.
    String(PartialString),
}

/// What came of some octets.
#[derive(Drop)]
pub(crate) enum StepOutcome {
    /// Neither an item nor a fault.
    Goes(Phase),
    /// An item ended, and all round it.
    Whole(Item),
    /// A fault showed.
    Fault(CborFault),
}
