//! Why a text is not read as a value.

ghost use Rattle.std.specs.Prelude.{◌≡◌};
ghost use Rattle.wire_base.specs.declared.values.text_refused.TextRefused.TheVariants as refused;

use crate::values::memory::Memory;
use thiserror::Error;

/// Why a text is not read as a value.
#[derive(Clone, Copy, Debug, PartialEq, Eq, Error)]
pub enum TextRefused {
    /// The text spells no value. Some value is spelled with the octets before `place` first, and
    /// none with these and the octet at `place`. Where `place` is the length of the text, the text
    /// ends too soon.
    #[error("a fault at octet {place}")]
    Fault {
        /// The place of the first fault, counted from 0.
        place: usize,
    },
    /// Out of memory.
    #[error("out of memory")]
    Memory,
}

impl From<Memory> for TextRefused {
    ghost from_gives = { λ _ e. e ≡ refused.Memory };

    fn from(_memory: Memory) -> Self {
        TextRefused::Memory
    }
}
