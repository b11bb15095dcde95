//! What a sweep did, and why it stopped.

use collector_core::BookError;
use thiserror::Error;

/// How much a sweep did, also before a refusal. A count stands still at 4294967295.
#[derive(Clone, Copy, Debug, PartialEq, Eq)]
pub struct Swept {
    /// Records that were created.
    pub added: u32,
    /// Records whose content was replaced.
    pub changed: u32,
    /// Records that were deleted.
    pub gone: u32,
    /// Sources that ended and were given up.
    pub dropped: u32,
}

impl Swept {
    /// Nothing was done yet.
    pub const NOTHING: Swept = Swept {
        added: 0,
        changed: 0,
        gone: 0,
        dropped: 0,
    };
}

/// Why a sweep stopped. What was done before stays.
#[derive(Clone, Copy, Debug, PartialEq, Eq, Error)]
pub enum SweepError {
    /// A call of the outside failed, of this source.
    #[error("source {source}: a call of the outside failed")]
    SourceFailed {
        /// The number of the source.
        source: u8,
    },
    /// A source was told something that is no item.
    #[error("source {source}: line {line} is no item")]
    BadLine {
        /// The number of the source.
        source: u8,
        /// The number of the line, counted from 1.
        line: u64,
    },
    /// A source reported the change or the end of what it has not added, or of what is gone.
    #[error("source {source}: nothing has the key {key}")]
    UnknownKey {
        /// The number of the source.
        source: u8,
        /// The key.
        key: u32,
    },
    /// The desk refused a change, for another reason than memory. The item is done first by the
    /// next sweep.
    #[error("{0}")]
    Book(BookError),
    /// Out of memory. The item, where there was one, is done first by the next sweep.
    #[error("out of memory")]
    Memory,
}
