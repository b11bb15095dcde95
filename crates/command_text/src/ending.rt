//! How a command ends.

/// How the output ends.
#[derive(Clone, Copy, Debug, PartialEq, Eq)]
pub enum Ending {
    /// The input was read to its end.
    Whole,
    /// The input was refused.
    Refused,
    /// The input was read to its end, and something is wrong with what it holds.
    Findings,
}
