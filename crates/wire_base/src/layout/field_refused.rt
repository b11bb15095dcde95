//! Why octets are not read as a value.

ghost use Rattle.std.specs.Prelude.{◌≡◌};
ghost use Rattle.wire_base.specs.declared.layout.field_refused.FieldRefused.TheVariants as refused;
ghost use Rattle.wire_base.specs.declared.layout.field_refused.Refused.TheVariants as stopped;

use crate::values::memory::Memory;
use thiserror::Error;

/// Why octets are not read as a value.
#[derive(Clone, Copy, Debug, PartialEq, Eq, Error)]
pub enum FieldRefused {
    /// The octets have no form; `offset` is the place of the first fault, counted on from the
    /// place that the reader was given for the first octet.
    #[error("a fault at octet {offset}")]
    Fault {
        /// The place of the fault.
        offset: u32,
    },
    /// Out of memory.
    #[error("out of memory")]
    Memory,
}

/// Why octets are not read as a value, where a fault has more to say than its place.
#[derive(Clone, Copy, Debug, PartialEq, Eq)]
pub enum Refused<F> {
    /// The octets have a fault.
    Fault(F),
    /// Out of memory.
    Memory,
}

impl<F> From<Memory> for Refused<F> {
    ghost from_gives = { λ _ e. e ≡ stopped.Memory };

    fn from(_memory: Memory) -> Self {
        Refused::Memory
    }
}

impl From<Memory> for FieldRefused {
    ghost from_gives = { λ _ e. e ≡ refused.Memory };

    fn from(_memory: Memory) -> Self {
        FieldRefused::Memory
    }
}
