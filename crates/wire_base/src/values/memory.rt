//! Out of memory, as every result of the project names it.

use std::alloc::{AllocError, AllocFailed};
use thiserror::Error;

/// Out of memory. It is the last refusal of every call that can meet it, and stands for no other.
#[derive(Clone, Copy, Debug, PartialEq, Eq, Error)]
#[error("out of memory")]
pub struct Memory;

impl From<AllocError> for Memory {
    fn from(_refused: AllocError) -> Self {
        Memory
    }
}

impl<T: Drop> From<AllocFailed<T>> for Memory {
    fn from(_refused: AllocFailed<T>) -> Self {
        Memory
    }
}
