//! What a worker did.

use session_core::{SessionEnd, SessionRecord};
use wire_base::List;

/// What is noted of each session of a worker, in order, and how it ended.
pub type Ends = List<(SessionRecord, SessionEnd)>;

/// Why a worker took no further link of its door.
#[derive(Clone, Copy, Debug, PartialEq, Eq)]
pub enum Stop {
    /// It has held all of its sessions.
    Done,
    /// The door had no further link.
    Ended,
    /// The door failed.
    Failed,
    /// Out of memory for what is noted of one more session.
    Memory,
}

/// What a worker did at its door.
#[derive(Debug, Drop)]
pub struct Work {
    /// What is noted of its sessions.
    pub ends: Ends,
    /// Why it took no further link.
    pub stop: Stop,
}
