//! The pairs of a map that is still read.

ghost use Rattle.std.specs.Bool.{OnTrue, OnFalse};
ghost use Rattle.std.specs.Prelude.{◌≡◌, true, IfOk, OnOk, None, map};
ghost use Rattle.std.specs.Option.{option_map, is_none};
ghost use Rattle.cbor_det.specs.Canonical.{canon};
ghost use Rattle.cbor_det.specs.Machine.{insert};
ghost use Rattle.cbor_det.specs.Open.{AreSpelled, IsTaken, MayCome, RisesTo, entries_view, is_whole, rises_to_prop};
ghost use Rattle.cbor_det.specs.Spelling.{Rises};
ghost use Rattle.cbor_det.specs.Term.{no_pairs};
ghost use Rattle.cbor_det.specs.View.{view, pairs_view, listed};

use crate::item::{Item, Pair, Pairs};
use crate::key_order::is_integer_above;
use crate::nesting::is_full;
use crate::write::spell;
use std::alloc::Global;
use std::collections::BTreeMap;
use std::mem;
use wire_base::{List, Memory};

/// A key with its canonical spelling.
#[derive(Drop)]
pub(crate) struct Key {
    item: Item,
    spelled: Vec<u8>,
    ghost is_spelled: { spelled.items ≡ canon (view item) },
}

impl Key {
    /// Spells the key.
    pub(crate) fn new(alloc: Global, item: Item) -> Result<Self, Memory>
        ensures key { IfOk result (λ made. made.item ≡ item) }
    {
        let spelled = spell(alloc, &item)?.into_vec();
        Ok(Key { spelled, item })
    }

    /// The canonical spelling.
    pub(crate) fn spelled(&self) -> &[u8]
        ensures spelled { result.now ≡ canon (view self.now.item) }
    {
        self.spelled.as_slice()
    }

    /// The key. It takes no memory.
    pub(crate) fn into_item(self) -> Item
        ensures item { result ≡ self.item }
    {
        let Key { item, .. } = self;
        item
    }
}

/// Pairs whose keys are integers that came in rising order, or one pair whose key is any item; and
/// the key whose value is due. No key is spelled here.
#[derive(Drop)]
pub(crate) struct Rising {
    pairs: List<Pair>,
    key: Option<Item>,
    ghost rises: { RisesTo (listed pairs) (option_map view key) } by { rises_to_prop (listed pairs) (option_map view key) },
}

/// Pairs whose keys came in any order, and the key whose value is due. The pairs are under their
/// keys' canonical spellings, so that each key is found among n others in steps that grow with
/// log n. Each key was spelled once.
#[derive(Drop)]
pub(crate) struct Ordered {
    entries: BTreeMap<Vec<u8>, Pair>,
    key: Option<Key>,
    ghost are_spelled: { AreSpelled entries.entries },
}

/// The pairs of a map that is still read, in order of their keys' canonical spellings.
#[derive(Drop)]
pub(crate) enum Members {
    /// As long as one key has come, or all are integers that rise, as they do in a canonical
    /// spelling.
    Rising(Rising),
    /// From the first key on that is not so.
    Ordered(Ordered),
}

impl Rising {
    /// No pairs, and a key is due. It takes no memory.
    fn new(alloc: Global) -> Self
        ensures empty { listed result.pairs ≡ no_pairs }
        ensures key { result.key ≡ None }
    {
        Rising {
            pairs: List::new(alloc),
            key: None,
        }
    }

    /// The same, with room for that many pairs.
    fn with_room(alloc: Global, room: usize) -> Result<Self, Memory>
        ensures empty { IfOk result (λ made. listed made.pairs ≡ no_pairs) }
        ensures key { IfOk result (λ made. made.key ≡ None) }
    {
        Ok(Rising {
            pairs: List::with_capacity(alloc, room)?,
            key: None,
        })
    }

    /// Whether the item is a value that is due, the first key, or an integer above the last key,
    /// which is one too. Nothing is spelled to find this out.
    fn admits(&self, item: &Item) -> bool
        ensures admits { OnTrue result (MayCome (listed self.now.pairs) (option_map view self.now.key) (view item.now)) }
        ensures key { OnFalse result (self.now.key ≡ None) }
    {
        if self.key.is_some() {
            return true;
        }
        match self.pairs.as_slice().last() {
            None => true,
            Some(last) => is_integer_above(item, &last.key),
        }
    }

    /// Takes the value that is due, or a key above all that are held.
    fn take(&mut self, item: Item) -> Result<(), Memory>
        requires may_come { MayCome (listed self.old.pairs) (option_map view self.old.key) (view item) }
        ensures taken { OnOk result
            (IsTaken (listed self.old.pairs) (option_map view self.old.key) (view item) true (listed self.new.pairs) (option_map view self.new.key)) }
    {
        match self.key.take() {
            None => {
                self.key = Some(item);
                Ok(())
            }
            Some(key) => self.pairs.push(Pair { key, value: item }),
        }
    }
}

impl Ordered {
    ghost use Rattle.cbor_det.specs.Held.{key_view};

    /// The same pairs, and a key is due.
    fn from_pairs(alloc: Global, pairs: List<Pair>) -> Result<Self, Memory>
        requires rises { Rises (listed pairs) }
        ensures same { IfOk result (λ made. entries_view made.entries.entries ≡ listed pairs) }
        ensures key { IfOk result (λ made. made.key ≡ None) }
    {
        let mut ordered = Ordered {
            entries: BTreeMap::new(alloc),
            key: None,
        };
        let mut rest = pairs.into_vec();
        while let Some(pair) = rest.pop() {
            ordered.insert_pair(alloc, pair)?;
        }
        Ok(ordered)
    }

    /// The same pairs, and a key where it is not held; whether it is not.
    fn with_key(alloc: Global, pairs: List<Pair>, item: Item) -> Result<(Self, bool), Memory>
        requires rises { Rises (listed pairs) }
        ensures taken { IfOk result
            (λ made. IsTaken (listed pairs) None (view item) made.1 (entries_view made.0.entries.entries) (option_map key_view made.0.key)) }
    {
        let mut ordered = Ordered::from_pairs(alloc, pairs)?;
        let free = ordered.take(alloc, item)?;
        Ok((ordered, free))
    }

    /// Puts a pair at its place, once its key is spelled.
    fn insert_pair(&mut self, alloc: Global, pair: Pair) -> Result<(), Memory>
        ensures puts { OnOk result
            (entries_view self.new.entries.entries ≡ insert (view pair.key) (view pair.value) (entries_view self.old.entries.entries)) }
        ensures key { self.new.key ≡ self.old.key }
    {
        let Pair { key, value } = pair;
        self.insert(Key::new(alloc, key)?, value)
    }

    /// Puts a pair at its place.
    fn insert(&mut self, key: Key, value: Item) -> Result<(), Memory>
        ensures puts { OnOk result
            (entries_view self.new.entries.entries ≡ insert (view key.item) (view value) (entries_view self.old.entries.entries)) }
        ensures key { self.new.key ≡ self.old.key }
    {
        let Key { spelled, item } = key;
        self.entries.insert(spelled, Pair { key: item, value })?;
        Ok(())
    }

    /// Takes the value that is due, or a key; false where the key is held.
    fn take(&mut self, alloc: Global, item: Item) -> Result<bool, Memory>
        ensures taken { IfOk result
            (λ free. IsTaken (entries_view self.old.entries.entries) (option_map key_view self.old.key) (view item) free (entries_view self.new.entries.entries) (option_map key_view self.new.key)) }
    {
        match self.key.take() {
            None => {
                let key = Key::new(alloc, item)?;
                if self.entries.contains_key(key.spelled.as_slice()) {
                    return Ok(false);
                }
                self.key = Some(key);
            }
            Some(key) => self.insert(key, item)?,
        }
        Ok(true)
    }

    /// The pairs. None are left.
    fn take_pairs(&mut self, alloc: Global) -> Result<Pairs, Memory>
        ensures pairs { IfOk result (λ made. pairs_view made ≡ entries_view self.old.entries.entries) }
    {
        let entries = mem::replace(&mut self.entries, BTreeMap::new(alloc));
        let pairs = List::from_vec(values(alloc, entries)?);
        Ok(Pairs { pairs })
    }
}

impl Members {
    ghost use Rattle.cbor_det.specs.Held.{due_key, members_view};

    /// No pairs, and a key is due. It takes room for that many pairs.
    pub(crate) fn with_room(alloc: Global, room: usize) -> Result<Self, Memory>
        ensures empty { IfOk result (λ made. members_view made ≡ no_pairs) }
        ensures key { IfOk result (λ made. due_key made ≡ None) }
    {
        Ok(Members::Rising(Rising::with_room(alloc, room)?))
    }

    /// Takes the value that is due, or a key; false where the key is held.
    pub(crate) fn take(&mut self, alloc: Global, item: Item) -> Result<bool, Memory>
        ensures taken { IfOk result
            (λ free. IsTaken (members_view self.old) (due_key self.old) (view item) free (members_view self.new) (due_key self.new)) }
    {
        match self {
            Members::Ordered(ordered) => ordered.take(alloc, item),
            Members::Rising(rising) => {
                if rising.admits(&item) {
                    rising.take(item)?;
                    return Ok(true);
                }
                self.take_spelled(alloc, item)
            }
        }
    }

    /// Takes a key, which is spelled, and so are those that came before it, if they were not; false
    /// where it is held.
    fn take_spelled(&mut self, alloc: Global, item: Item) -> Result<bool, Memory>
        requires key { due_key self.old ≡ None }
        ensures taken { IfOk result
            (λ free. IsTaken (members_view self.old) (due_key self.old) (view item) free (members_view self.new) (due_key self.new)) }
    {
        match self {
            Members::Ordered(ordered) => ordered.take(alloc, item),
            Members::Rising(rising) => {
                let pairs = mem::replace(&mut rising.pairs, List::new(alloc));
                let (ordered, free) = Ordered::with_key(alloc, pairs, item)?;
                *self = Members::Ordered(ordered);
                Ok(free)
            }
        }
    }

    /// Whether a key is due and these are all pairs that the head counts.
    pub(crate) fn is_whole(&self, all: Option<u64>) -> bool
        ensures whole { result ≡ is_whole all (members_view self.now) (due_key self.now) }
    {
        match self {
            Members::Rising(rising) => rising.key.is_none() && is_full(all, rising.pairs.len()),
            Members::Ordered(ordered) => {
                ordered.key.is_none() && is_full(all, ordered.entries.len())
            }
        }
    }

    /// Whether a key is due.
    pub(crate) fn is_key_due(&self) -> bool
        ensures due { result ≡ is_none (due_key self.now) }
    {
        match self {
            Members::Rising(rising) => rising.key.is_none(),
            Members::Ordered(ordered) => ordered.key.is_none(),
        }
    }

    /// The pairs of the map, which has been read whole. None are left.
    pub(crate) fn take_pairs(&mut self, alloc: Global) -> Result<Pairs, Memory>
        ensures pairs { IfOk result (λ made. pairs_view made ≡ members_view self.old) }
    {
        match self {
            Members::Rising(rising) => {
                let Rising { mut pairs, .. } = mem::replace(rising, Rising::new(alloc));
                pairs.shrink_to_fit();
                Ok(Pairs { pairs })
            }
            Members::Ordered(ordered) => ordered.take_pairs(alloc),
        }
    }
}

/// The values of the map, in the order of their keys.
fn values(alloc: Global, entries: BTreeMap<Vec<u8>, Pair>) -> Result<Vec<Pair>, Memory>
    ensures values { IfOk result (λ made. made.items ≡ map (λ entry. entry.1) entries.entries) }
{
    Ok(entries.into_values().collect(alloc)?)
}
