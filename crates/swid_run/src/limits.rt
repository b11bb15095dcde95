//! The limits of each session, of either end.

/// After how many idle turns a session ends. A turn of a connection is idle after a second.
pub const IDLE_TURNS: u32 = 600;

/// After how many octets taken a session ends.
pub(crate) const MOST_OCTETS: u64 = 4_294_967_295;
