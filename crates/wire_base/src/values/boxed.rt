//! A value in memory of its own.

ghost use Rattle.std.specs.Prelude.{◌≡◌, IfOk};

use crate::values::list::TryCopy;
use crate::values::memory::Memory;
use std::alloc::Global;
use std::marker::Model;

/// A `Box` that contracts see as its value, so that a copy equals its original. A type may hold
/// itself by it.
#[derive(Debug, Drop)]
pub struct Boxed<T> {
    inner: Box<T>,
}

impl<T> Model for Boxed<T> {
    ghost Value = { T };

    ghost coded = { T.code };

    ghost view = { λ boxed. boxed.inner.value };
}

impl<T> Boxed<T> {
    /// The value. It takes no memory.
    pub fn get(&self) -> &T
        ensures value { result.now ≡ self.now }
    {
        &self.inner
    }

    /// The allocator that the box takes its memory from.
    pub fn allocator(&self) -> Global {
        *Box::allocator(&self.inner)
    }

    /// The value, out of its box. It takes no memory.
    pub fn into_inner(self) -> T
        ensures value { result ≡ self }
    {
        let Boxed { inner } = self;
        Box::into_inner(inner)
    }
}

impl<T: Drop> Boxed<T> {
    /// Puts `value` into a box; at `Memory` it is dropped.
    pub fn new(alloc: Global, value: T) -> Result<Self, Memory>
        ensures value { IfOk result (λ boxed. boxed ≡ value) }
    {
        Ok(Boxed {
            inner: Box::new(alloc, value)?,
        })
    }
}

impl<T: TryCopy> TryCopy for Boxed<T> {
    fn copy(&self) -> Result<Self, Memory> {
        Boxed::new(self.allocator(), self.get().copy()?)
    }
}
