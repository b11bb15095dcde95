//! Why nothing is measured.

use crate::reading::MOST;
use cbor_det::CborRefused;
use collector_core::BookError;
use coswid_codec::TagRefused;
use std::alloc::AllocFailed;
use std::{fmt, io};
use swima_model::LongRefused;
use wire_base::{Memory, Stopped};

/// Why no figure is printed.
#[derive(Clone, Copy)]
pub(crate) enum Trouble {
    /// The words ask for nothing.
    Words,
    /// Standard input could not be read.
    Input,
    /// Standard input is longer than is read.
    Long,
    /// Octets are no item.
    Item,
    /// Octets are no tag.
    Tag,
    /// Octets are no batch.
    Batch,
    /// Octets are no line that is wanted.
    Line,
    /// The book refused what was asked of it.
    Book,
    /// A session did what it was not meant to do.
    Session,
    /// Memory ran out.
    Memory,
}

/// The words that ask for something.
const WORDS: &str = "\
the words are none of these:
  bench book RECORDS answer|targets|events|change|rename TIMES
  bench book RECORDS first|middle|last|delete|upper TIMES
  bench shelf alone|1|2|4 change|read|both TIMES
  bench shelf 1|2|4 events TIMES
  bench sessions first RECORDS SIZE
  bench sessions alone|octets RECORDS
  bench sessions update RECORDS EVENTS TIMES
  bench sessions looks RECORDS TIMES
  bench batches SIZE large|small
  bench sources ITEMS CHANGES QUIET
  bench lines items|digits COUNT
  bench cbor read|write
  bench cbor feed SIZE
  bench links read|check
  bench tags read|write|both";

impl fmt::Display for Trouble {
    fn fmt<W: fmt::Write>(&self, f: &mut fmt::Formatter<W>) -> fmt::Result {
        match self {
            Trouble::Words => f.write_str(WORDS),
            Trouble::Input => f.write_str("standard input could not be read"),
            Trouble::Long => write!(f, "standard input has more than {MOST} octets"),
            Trouble::Item => f.write_str("an item was refused"),
            Trouble::Tag => f.write_str("a tag was refused"),
            Trouble::Batch => f.write_str("a batch was refused"),
            Trouble::Line => f.write_str("a line was missing or refused"),
            Trouble::Book => f.write_str("the book refused an answer or a change"),
            Trouble::Session => f.write_str("a session wrote, or ended, where it should wait"),
            Trouble::Memory => f.write_str("out of memory"),
        }
    }
}

impl From<Memory> for Trouble {
    fn from(_memory: Memory) -> Self {
        Trouble::Memory
    }
}

impl<T: Drop> From<AllocFailed<T>> for Trouble {
    fn from(_refused: AllocFailed<T>) -> Self {
        Trouble::Memory
    }
}

impl From<io::Error> for Trouble {
    /// The words of the command line could not be read.
    fn from(error: io::Error) -> Self {
        match error.kind() {
            io::ErrorKind::OutOfMemory => Trouble::Memory,
            _ => Trouble::Words,
        }
    }
}

impl From<Stopped> for Trouble {
    fn from(stopped: Stopped) -> Self {
        match stopped {
            Stopped::Fault => Trouble::Input,
            Stopped::Memory => Trouble::Memory,
        }
    }
}

impl From<CborRefused> for Trouble {
    fn from(refused: CborRefused) -> Self {
        match refused {
            CborRefused::Fault(_) => Trouble::Item,
            CborRefused::Memory => Trouble::Memory,
        }
    }
}

impl From<TagRefused> for Trouble {
    fn from(refused: TagRefused) -> Self {
        match refused {
            TagRefused::Memory => Trouble::Memory,
            _ => Trouble::Tag,
        }
    }
}

impl From<LongRefused> for Trouble {
    fn from(refused: LongRefused) -> Self {
        match refused {
            LongRefused::TooLong { .. } => Trouble::Book,
            LongRefused::Memory => Trouble::Memory,
        }
    }
}

impl From<BookError> for Trouble {
    fn from(error: BookError) -> Self {
        match error {
            BookError::Memory => Trouble::Memory,
            _ => Trouble::Book,
        }
    }
}
