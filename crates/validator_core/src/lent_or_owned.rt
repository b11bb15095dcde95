//! Lists that are lent or given up.

ghost use Rattle.std.specs.Prelude.{◌≡◌, IfOk};
ghost use Rattle.validator_core.specs.MaybeOwned.{list_of};

use wire_base::{List, Memory, TryCopy};

/// A list that is lent, of which what is kept is copied, or one that is given up, of which it is
/// moved.
#[derive(Debug, Drop)]
pub(crate) enum MaybeOwned<'a, T> {
    /// The list is lent.
    Lent(&'a List<T>),
    /// The list is given up.
    Owned(List<T>),
}

impl<'a, T: TryCopy> MaybeOwned<'a, T> {
    /// Its items, to look at.
    pub(crate) fn as_slice(&self) -> &[T]
        ensures items { result.now ≡ list_of self.now }
    {
        match self {
            MaybeOwned::Lent(list) => list.as_slice(),
            MaybeOwned::Owned(list) => list.as_slice(),
        }
    }

    /// The list, to keep; `Memory` comes only where it was lent.
    pub(crate) fn into_list(self) -> Result<List<T>, Memory>
        ensures list { IfOk result (λ made. made ≡ list_of self.entry) }
    {
        match self {
            MaybeOwned::Lent(list) => list.copy(),
            MaybeOwned::Owned(list) => Ok(list),
        }
    }
}
