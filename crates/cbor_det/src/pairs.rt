//! The pairs of a map, as a caller sees them.

ghost use Rattle.std.specs.Prelude.{◌≡◌, ◌≤◌, ◌∷◌, [], IfOk, OnErr, OnOk, length};
ghost use Rattle.std.specs.Cmp.Lexicographic.{slice_cmp};
ghost use Rattle.std.specs.Option.{option_map};
ghost use Rattle.std.specs.Ordering.{nat_cmp};
ghost use Rattle.cbor_det.specs.Adding.{IsAdded, is_above, put};
ghost use Rattle.cbor_det.specs.Canonical.{canon};
ghost use Rattle.cbor_det.specs.Lookup.{key_at, value_at, value_under, is_unsigned, other_than};
ghost use Rattle.cbor_det.specs.Places.{IsFound, IsUnder, front_length};
ghost use Rattle.cbor_det.specs.Proper.{IsProper, IsProperMap};
ghost use Rattle.cbor_det.specs.Spelling.{Rises};
ghost use Rattle.cbor_det.specs.Term.{depth, pair_count, no_pairs};
ghost use Rattle.cbor_det.specs.View.{view, pairs_view, listed};
ghost use Rattle.cbor_det.specs.declared.pairs.PairRefused.TheVariants as refused;

use crate::item::{Item, Pair, Pairs};
use crate::members::Key;
use crate::write::spell;
use std::alloc::Global;
use std::cmp::Ordering;
use std::mem;
use thiserror::Error;
use wire_base::{List, Memory, TryCopy};

/// Why a pair was not added.
#[derive(Clone, Copy, Debug, PartialEq, Eq, Error)]
pub enum PairRefused {
    /// An equal key is held.
    #[error("the key is held already")]
    Doubled,
    /// Out of memory.
    #[error("out of memory")]
    Memory,
}

impl From<Memory> for PairRefused {
    ghost from_gives = { λ _ e. e ≡ refused.Memory };

    fn from(_memory: Memory) -> Self {
        PairRefused::Memory
    }
}

impl Pairs {
    /// No pairs. It takes no memory.
    pub fn new(alloc: Global) -> Self
        ensures empty { pairs_view result ≡ no_pairs }
    {
        Pairs {
            pairs: List::new(alloc),
        }
    }

    /// The allocator that the pairs take their memory from.
    pub fn allocator(&self) -> Global {
        self.pairs.allocator()
    }

    /// How many pairs there are.
    pub fn len(&self) -> usize
        ensures len { result ≡ pair_count (pairs_view self.now) }
    {
        self.pairs.len()
    }

    /// The key at `place`, counted from 0; `None` exactly where `place` is at least the length.
    pub fn key(&self, place: usize) -> Option<&Item>
        ensures key { option_map (λ item. view item.now) result ≡ key_at (pairs_view self.now) place }
    {
        match self.pairs.get(place) {
            None => None,
            Some(pair) => Some(&pair.key),
        }
    }

    /// The value at `place`, counted from 0; `None` exactly where `place` is at least the length.
    pub fn value(&self, place: usize) -> Option<&Item>
        ensures value { option_map (λ item. view item.now) result ≡ value_at (pairs_view self.now) place }
    {
        match self.pairs.get(place) {
            None => None,
            Some(pair) => Some(&pair.value),
        }
    }

    /// The value under the key that is this unsigned integer; `None` exactly where there is no such
    /// key.
    pub fn get_unsigned(&self, key: u64) -> Option<&Item>
        ensures value { option_map (λ item. view item.now) result ≡ value_under key (pairs_view self.now) }
    {
        for pair in self.pairs.as_slice() {
            if is_unsigned(&pair.key, key) {
                return Some(&pair.value);
            }
        }
        None
    }

    /// Takes the value under the key that is this unsigned integer out of the pairs; `None` exactly
    /// where there is no such key. No pair with this key is left. It takes no memory.
    pub fn take(&mut self, key: u32) -> Option<Item>
        ensures value { option_map view result ≡ value_under key (pairs_view self.old) }
        ensures left { pairs_view self.new ≡ other_than (key ∷ []) (pairs_view self.old) }
    {
        match place_under(self.pairs.as_slice(), key) {
            None => None,
            Some(place) => {
                let none = List::new(self.pairs.allocator());
                let mut pairs = mem::replace(&mut self.pairs, none).into_vec();
                let Pair { value, .. } = pairs.remove(place);
                pairs.retain(|pair| !is_under(pair, key));
                self.pairs = List::from_vec(pairs);
                Some(value)
            }
        }
    }

    /// Puts a pair before the first whose key's canonical spelling is not below its own: among
    /// rising pairs that do not hold the key, at its place. It is looked for from the start. At
    /// `Memory` the pairs are as they were.
    ///
    /// It does not look whether the key is held: the caller sees to it that it is not. Where it is,
    /// the pairs hold it twice, and are proper no more. `add` looks.
    pub fn put(&mut self, key: Item, value: Item) -> Result<(), Memory>
        ensures put { OnOk result (pairs_view self.new ≡ put (view key) (view value) (pairs_view self.old)) }
        ensures unchanged { OnErr result (pairs_view self.new ≡ pairs_view self.old) }
    {
        let key = Key::new(self.pairs.allocator(), key)?;
        let place = front_length(self.pairs.allocator(), self.pairs.as_slice(), &key)?;
        let key = key.into_item();
        self.pairs.insert(place, Pair { key, value })
    }

    /// Puts a pair at its place in the order of the keys' canonical spellings. `Doubled` exactly
    /// where an equal key is held; `Memory` where there is no room. A refused pair is dropped, and
    /// the pairs are as they were.
    pub fn add(&mut self, key: Item, value: Item) -> Result<(), PairRefused>
        requires pairs { IsProperMap (pairs_view self.old) }
        requires key { IsProper (view key) }
        requires value { IsProper (view value) }
        requires depth { depth (view key) ≤ 64 }
        ensures added { IsAdded (view key) (view value) result (pairs_view self.old) (pairs_view self.new) }
        ensures proper { IsProperMap (pairs_view self.new) }
    {
        let alloc = self.pairs.allocator();
        let key = Key::new(alloc, key)?;
        match place_of(alloc, self.pairs.as_slice(), &key)? {
            None => Err(PairRefused::Doubled),
            Some(place) => {
                let key = key.into_item();
                self.pairs.insert(place, Pair { key, value })?;
                Ok(())
            }
        }
    }
}

/// Whether the item is this unsigned integer.
fn is_unsigned(item: &Item, number: u64) -> bool
    ensures unsigned { result ≡ is_unsigned number (view item.now) }
{
    match item {
        Item::Int(found) => *found >= 0 && *found as u64 == number,
        _ => false,
    }
}

/// The place of the first pair whose key is this unsigned integer.
fn place_under(pairs: &[Pair], key: u32) -> Option<usize>
    ensures found { IsUnder key pairs.now result }
{
    for place in 0..pairs.len() {
        if is_under(&pairs[place], key) {
            return Some(place);
        }
    }
    None
}

/// Whether the key of the pair is this unsigned integer.
fn is_under(pair: &Pair, key: u32) -> bool
    ensures under { result ≡ is_unsigned key (view pair.now.key) }
{
    is_unsigned(&pair.key, key as u64)
}

/// How many pairs at the start have keys below this one.
fn front_length(alloc: Global, pairs: &[Pair], key: &Key) -> Result<usize, Memory>
    ensures front { IfOk result (λ place. place ≡ front_length (view key.now.item) pairs.now) }
    ensures within { IfOk result (λ place. place ≤ length pairs.now) }
{
    for place in 0..pairs.len() {
        if !is_above(alloc, key, &pairs[place])? {
            return Ok(place);
        }
    }
    Ok(pairs.len())
}

/// Whether the key is above that of the pair.
fn is_above(alloc: Global, key: &Key, pair: &Pair) -> Result<bool, Memory>
    ensures above { IfOk result (λ above. above ≡ is_above (view key.now.item) (view pair.now.key)) }
{
    match compare(alloc, key, pair)? {
        Ordering::Greater => Ok(true),
        _ => Ok(false),
    }
}

/// The place of a key among rising pairs, or `None` where it is held: found by bisection.
fn place_of(alloc: Global, pairs: &[Pair], key: &Key) -> Result<Option<usize>, Memory>
    requires rises { Rises (listed pairs.now) }
    ensures found { IfOk result (IsFound (view key.now.item) pairs.now) }
{
    let mut low = 0;
    let mut high = pairs.len();
    while low < high {
        let middle = low + (high - low) / 2;
        match compare(alloc, key, &pairs[middle])? {
            Ordering::Less => high = middle,
            Ordering::Equal => return Ok(None),
            Ordering::Greater => low = middle + 1,
        }
    }
    Ok(Some(low))
}

/// How the key's canonical spelling compares to that of the pair's key.
fn compare(alloc: Global, key: &Key, pair: &Pair) -> Result<Ordering, Memory>
    ensures order { IfOk result (λ order. order ≡ slice_cmp nat_cmp (canon (view key.now.item)) (canon (view pair.now.key))) }
{
    let other = spell(alloc, &pair.key)?;
    Ok(key.spelled().cmp(other.as_slice()))
}
