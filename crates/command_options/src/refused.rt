//! Why there are no options.

ghost use Rattle.std.specs.Prelude.{◌≡◌};

use std::alloc::{AllocError, AllocFailed};
use thiserror::Error;
use wire_base::Memory;

/// Why words give no options.
#[derive(Clone, Copy, Debug, PartialEq, Eq, Error)]
pub enum OptionsRefused {
    /// The words are no options of the command.
    #[error("the words are no options of the command")]
    Usage,
    /// Memory ran out.
    #[error("out of memory")]
    Memory,
}

impl From<Memory> for OptionsRefused {
    ghost use Rattle.command_options.specs.declared.refused.OptionsRefused.TheVariants as refused;

    ghost from_gives = { λ _ error. error ≡ refused.Memory };

    fn from(_error: Memory) -> Self {
        OptionsRefused::Memory
    }
}

impl From<AllocError> for OptionsRefused {
    ghost use Rattle.command_options.specs.declared.refused.OptionsRefused.TheVariants as refused;

    ghost from_gives = { λ _ error. error ≡ refused.Memory };

    fn from(_error: AllocError) -> Self {
        OptionsRefused::Memory
    }
}
