//! The one list type of the project: contracts see it as the list of its items.

ghost use Rattle.std.specs.Cmp.Lexicographic.{lists_equiv, lists_per, pointwise};
ghost use Rattle.std.specs.Prelude.{◌≡◌, ◌∷◌, ◌++◌, ◌≤◌, ◌↔◌, [], drop, length, slice_get, take, IfOk, IsTrue, OnOk, OnErr};
ghost use Rattle.std.specs.List.{insert};
ghost use Rattle.std.specs.Option.{option_copied};

use crate::values::memory::Memory;
use std::alloc::Global;
use std::marker::Model;

/// What can be copied, which may run out of memory.
pub trait TryCopy: Drop + Sized {
    /// A copy that equals the original; `Memory` where there is no room for one.
    fn copy(&self) -> Result<Self, Memory>
        ensures equal { IfOk result (λ made. made ≡ self.now) };

    /// Copies of all of `items`, in their order; `Memory` where there is no room for them.
    fn copy_all(alloc: Global, items: &[Self]) -> Result<Vec<Self>, Memory>
        ensures equal { IfOk result (λ made. made.items ≡ items.now) }
    {
        let mut made = Vec::new(alloc);
        for item in items {
            made.push(item.copy()?)?;
        }
        Ok(made)
    }
}

impl TryCopy for u8 {
    fn copy(&self) -> Result<Self, Memory> {
        Ok(*self)
    }

    fn copy_all(alloc: Global, items: &[Self]) -> Result<Vec<Self>, Memory> {
        Ok(Vec::from_slice(alloc, items)?)
    }
}

impl TryCopy for u32 {
    fn copy(&self) -> Result<Self, Memory> {
        Ok(*self)
    }

    fn copy_all(alloc: Global, items: &[Self]) -> Result<Vec<Self>, Memory> {
        Ok(Vec::from_slice(alloc, items)?)
    }
}

impl TryCopy for i64 {
    fn copy(&self) -> Result<Self, Memory> {
        Ok(*self)
    }

    fn copy_all(alloc: Global, items: &[Self]) -> Result<Vec<Self>, Memory> {
        Ok(Vec::from_slice(alloc, items)?)
    }
}

impl TryCopy for bool {
    fn copy(&self) -> Result<Self, Memory> {
        Ok(*self)
    }

    fn copy_all(alloc: Global, items: &[Self]) -> Result<Vec<Self>, Memory> {
        Ok(Vec::from_slice(alloc, items)?)
    }
}

impl<A: TryCopy, B: TryCopy> TryCopy for (A, B) {
    fn copy(&self) -> Result<Self, Memory> {
        Ok((self.0.copy()?, self.1.copy()?))
    }
}

/// Items in order, of any number that memory holds. It may stand inside a type that holds itself.
#[derive(Debug, Drop)]
pub struct List<T> {
    items: Vec<T>,
}

/// Octets in order.
pub type Octets = List<u8>;

impl<T> Model for List<T> {
    ghost use Rattle.std.specs.Prelude.{List};
    ghost use Rattle.std.specs.Coded.{coded_list};

    ghost Value = { List T };

    ghost coded = { coded_list T.code };

    ghost view = { λ list. list.items.items };
}

impl<T> List<T> {
    /// The empty list. It takes no memory.
    pub fn new(alloc: Global) -> Self
        ensures empty { result ≡ [] }
    {
        List {
            items: Vec::new(alloc),
        }
    }

    /// The empty list. It asks for room for `capacity` items at once; no clause says so.
    pub fn with_capacity(alloc: Global, capacity: usize) -> Result<Self, Memory>
        ensures empty { IfOk result (λ list. list ≡ []) }
    {
        Ok(List {
            items: Vec::with_capacity(alloc, capacity)?,
        })
    }

    /// The items of a `Vec`. It takes no memory.
    pub fn from_vec(items: Vec<T>) -> Self
        ensures items { result ≡ items.items }
    {
        List { items }
    }

    /// The items as a `Vec`. It takes no memory.
    pub fn into_vec(self) -> Vec<T>
        ensures items { result.items ≡ self }
    {
        let List { items } = self;
        items
    }

    /// The allocator that the list takes its memory from.
    pub fn allocator(&self) -> Global {
        *self.items.allocator()
    }

    /// How many items there are.
    pub fn len(&self) -> usize
        ensures len { result ≡ length self.now }
    {
        self.items.len()
    }

    /// Whether there is no item.
    pub fn is_empty(&self) -> bool
        ensures empty { IsTrue result ↔ (self.now ≡ []) }
    {
        self.items.is_empty()
    }

    /// The item at `place`, counted from 0; `None` exactly where `place` is at least the length.
    pub fn get(&self, place: usize) -> Option<&T>
        ensures item { option_copied result ≡ slice_get self.now place }
    {
        self.items.get(place)
    }

    /// All items in order. It takes no memory.
    pub fn as_slice(&self) -> &[T]
        ensures items { result.now ≡ self.now }
    {
        self.items.as_slice()
    }
}

impl<T: Drop> List<T> {
    /// Puts an item at the end; at `Memory` the item is dropped and the list is as it was.
    pub fn push(&mut self, item: T) -> Result<(), Memory>
        ensures appended { OnOk result (self.new ≡ self.old ++ item ∷ []) }
        ensures unchanged { OnErr result (self.new ≡ self.old) }
    {
        self.items.push(item)?;
        Ok(())
    }

    /// Puts an item at `place`, before the items from there on; at `Memory` the item is
    /// dropped and the list is as it was.
    pub fn insert(&mut self, place: usize, item: T) -> Result<(), Memory>
        requires within { place ≤ length self.old }
        ensures inserted { OnOk result (self.new ≡ insert self.old place item) }
        ensures unchanged { OnErr result (self.new ≡ self.old) }
    {
        self.items.insert(place, item)?;
        Ok(())
    }

    /// Keeps the first `len` items, or all where there are fewer. It takes no memory.
    pub fn truncate(&mut self, len: usize)
        ensures items { self.new ≡ take len self.old }
    {
        self.items.truncate(len);
    }

    /// Gives back the memory that is kept for further items, where the system takes it.
    pub fn shrink_to_fit(&mut self)
        ensures unchanged { self.new ≡ self.old }
    {
        self.items.shrink_to_fit();
    }

    /// Removes the first `count` items, of which there are at least that many. It takes no memory.
    pub fn drop_front(&mut self, count: usize)
        requires within { count ≤ length self.old }
        ensures rest { self.new ≡ drop count self.old }
    {
        self.items.drain(..count);
    }
}

impl<T: Copy> List<T> {
    /// A list of the items of a slice; `Memory` where there is no room for them.
    pub fn from_slice(alloc: Global, items: &[T]) -> Result<Self, Memory>
        ensures items { IfOk result (λ made. made ≡ items.now) }
    {
        Ok(List {
            items: Vec::from_slice(alloc, items)?,
        })
    }

    /// Puts all of `items` at the end; at `Memory` the list is as it was.
    pub fn extend(&mut self, items: &[T]) -> Result<(), Memory>
        ensures appended { OnOk result (self.new ≡ self.old ++ items.now) }
        ensures unchanged { OnErr result (self.new ≡ self.old) }
    {
        self.items.extend_from_slice(items)?;
        Ok(())
    }
}

impl<T: TryCopy> TryCopy for List<T> {
    fn copy(&self) -> Result<Self, Memory> {
        let items = T::copy_all(*self.items.allocator(), self.items.as_slice())?;
        Ok(List { items })
    }
}

impl<T: PartialEq> PartialEq for List<T> {
    ghost eq = { pointwise T.eq };

    ghost laws = { lists_per T.laws };

    fn eq(&self, other: &Self) -> bool {
        self.items == other.items
    }
}

impl<T: Eq> Eq for List<T> {
    ghost laws = { lists_equiv T.Eq.laws };
}
