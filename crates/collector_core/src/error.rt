//! Why changes of an inventory are refused.

ghost use Rattle.std.specs.Prelude.{◌≡◌};
ghost use Rattle.collector_core.specs.declared.error.BookError.TheVariants as refused;

use thiserror::Error;
use wire_base::Memory;

/// Why a book was not changed. It is as it was.
#[derive(Clone, Copy, Debug, PartialEq, Eq, Error)]
pub enum BookError {
    /// The last event identifier of the epoch is 4,294,967,295, the last number there is.
    #[error("the event identifiers of the epoch are spent at {last}")]
    EidsSpent {
        /// The last event identifier.
        last: u32,
    },
    /// The next record identifier would be 4,294,967,295, which is never given.
    #[error("the record identifiers are spent at {next}")]
    IdsSpent {
        /// The next record identifier.
        next: u32,
    },
    /// No record that is live has this identifier.
    #[error("there is no record {id}")]
    UnknownRecord {
        /// The identifier.
        id: u32,
    },
    /// As many records are live as may be, or a new book is to have more.
    #[error("there may be no more than {count} records")]
    RecordsFull {
        /// The most records.
        count: u32,
    },
    /// The octets of the other records and those that were given are more than 268,435,456.
    #[error("{given} octets are too many beside {held}")]
    BytesFull {
        /// The octets of the other records.
        held: u64,
        /// The octets that were given.
        given: u64,
    },
    /// The epoch is not above the latest.
    #[error("epoch {given} is not above {latest}")]
    EpochNotNew {
        /// The latest epoch.
        latest: u32,
        /// The epoch that was given.
        given: u32,
    },
    /// The event identifier is more than 1 above the last.
    #[error("{given} is past the events, of which the last is {last}")]
    TrimPast {
        /// The last event identifier.
        last: u32,
        /// The event identifier that was given.
        given: u32,
    },
    /// Out of memory.
    #[error("out of memory")]
    Memory,
}

impl From<Memory> for BookError {
    ghost from_gives = { λ _ e. e ≡ refused.Memory };

    fn from(_memory: Memory) -> Self {
        BookError::Memory
    }
}
