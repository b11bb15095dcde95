//! Why a call over objects of the outside stopped.

ghost use Rattle.std.specs.Prelude.{◌≡◌};
ghost use Rattle.wire_base.specs.declared.outside.stopped.Stopped.TheVariants as stopped;

use crate::outside::source::Failed;
use crate::values::memory::Memory;
use thiserror::Error;

/// Why a call over an object of the outside stopped.
#[derive(Clone, Copy, Debug, PartialEq, Eq, Error)]
pub enum Stopped {
    /// A call of the object failed.
    #[error("a call of the outside failed")]
    Fault,
    /// Out of memory.
    #[error("out of memory")]
    Memory,
}

impl From<Failed> for Stopped {
    ghost from_gives = { λ _ e. e ≡ stopped.Fault };

    fn from(_failed: Failed) -> Self {
        Stopped::Fault
    }
}

impl From<Memory> for Stopped {
    ghost from_gives = { λ _ e. e ≡ stopped.Memory };

    fn from(_memory: Memory) -> Self {
        Stopped::Memory
    }
}
