//! Why a line is no item.

ghost use Rattle.std.specs.Prelude.{◌≡◌};
ghost use Rattle.source_lines.specs.declared.line_fault.LineRefused.TheVariants as refused;

use thiserror::Error;
use wire_base::Memory;

/// Why a line is no item. Where more than one thing is wrong with it, that is the first.
#[derive(Clone, Copy, Debug, PartialEq, Eq, Error)]
pub enum LineFault {
    /// It has more octets than a line may have.
    #[error("it has more than 4194304 octets")]
    Long,
    /// Its first word begins no item, or other words follow it than those of the item.
    #[error("its words are not those of an item")]
    Words,
    /// Its key is no decimal number of at most 32 bits.
    #[error("its key is no number from 0 to 4294967295")]
    Key,
    /// Its software identifier or its locator is no printable text of at most 65535 octets.
    #[error("its identifier or locator is no text of at most 65535 octets")]
    Text,
    /// Its last word is no octets in hexadecimal digits.
    #[error("its last word has no hexadecimal digits of octets")]
    Digits,
    /// The octets of its last word are no tag with a software identifier, or are too many.
    #[error("its octets are no tag with a software identifier, or too many")]
    Octets,
}

/// Why no item was read of a line.
#[derive(Clone, Copy, Debug, Error)]
pub(crate) enum LineRefused {
    /// It is none.
    #[error("{0}")]
    Fault(LineFault),
    /// Out of memory.
    #[error("out of memory")]
    Memory,
}

impl From<Memory> for LineRefused {
    ghost from_gives = { λ _ e. e ≡ refused.Memory };

    fn from(_memory: Memory) -> Self {
        LineRefused::Memory
    }
}
