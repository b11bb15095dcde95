//! The terms of all sessions of a world.

/// What the ends of each session keep to.
#[derive(Clone, Copy, Debug, PartialEq, Eq)]
pub struct Terms {
    /// The most octets of the reports in a batch.
    pub max: u32,
    /// Whether the validator subscribes.
    pub subscribe: bool,
}
