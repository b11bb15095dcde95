//! What is answered to a request, as far as subscriptions go.

/// What is answered to a request, as far as subscriptions go (RFC 8412, section 3.8.1).
#[derive(Clone, Copy, Debug, PartialEq, Eq)]
pub enum SubAnswer {
    /// There is nothing to refuse.
    Taken,
    /// The ID is that of a subscription.
    Reused {
        /// The ID.
        id: u32,
    },
    /// As many subscriptions are held as may be.
    Denied {
        /// How many are held.
        held: u32,
    },
    /// Out of memory.
    Memory,
}
