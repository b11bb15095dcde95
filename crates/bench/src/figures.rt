//! What is printed.

use std::fmt;

/// How much was done.
#[derive(Clone, Copy)]
pub(crate) enum Figures {
    /// One figure.
    One(u64),
    /// Two figures.
    Two(u64, u64),
}

impl fmt::Display for Figures {
    fn fmt<W: fmt::Write>(&self, f: &mut fmt::Formatter<W>) -> fmt::Result {
        match self {
            Figures::One(figure) => write!(f, "{figure}"),
            Figures::Two(first, second) => write!(f, "{first} {second}"),
        }
    }
}
