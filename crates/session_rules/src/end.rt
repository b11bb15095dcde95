//! How sessions end.

/// How a session ended.
#[derive(Clone, Copy, Debug, PartialEq, Eq)]
pub enum SessionEnd {
    /// This end wrote a CLOSE, as its configuration says.
    Closed,
    /// The other end wrote a CLOSE without an error.
    PeerClosed,
    /// The other end wrote an error that ends the session (RFC 5793, section 4.9).
    PeerError {
        /// The vendor of the code.
        vendor: u32,
        /// What the error is.
        code: u16,
    },
    /// A batch had a fault or may not come in its state, and was answered by a CLOSE.
    Refused {
        /// The code of the fault (RFC 5793, section 4.9.1).
        code: u16,
        /// The place of the fault, in octets from the start of the batch.
        offset: u32,
    },
    /// The link ended between two batches.
    Ended,
    /// The link ended within a batch.
    Torn {
        /// How many octets of that batch were taken.
        have: u64,
    },
    /// A call of the link failed.
    LinkFault,
    /// Nothing came for as many turns as the configuration says.
    IdleOut {
        /// How many idle turns there were.
        turns: u32,
    },
    /// As many octets were taken as the configuration says.
    Enough,
    /// Out of memory.
    Memory,
}

/// What a turn of the link comes to.
#[derive(Clone, Copy, Debug, PartialEq, Eq)]
pub enum Turn {
    /// The session goes on.
    Goes,
    /// The session is over.
    Over(SessionEnd),
}
