//! The keys that a source holds.

ghost use Rattle.std.specs.Prelude.{◌≡◌, [], None, IfOk, IsSome, OnErr, OnOk};
ghost use Rattle.source_set.specs.Keys.{by_id, id_at, with_key, without};

use std::alloc::Global;
use std::collections::BTreeMap;
use std::marker::Model;
use wire_base::{List, Memory};

/// The keys that a source added and that are not gone, each with the identifier of its record.
#[derive(Debug, Drop)]
pub(crate) struct Keys {
    ids: BTreeMap<u32, u32>,
}

impl Model for Keys {
    ghost use Rattle.std.specs.Prelude.{List};
    ghost use Rattle.source_set.specs.Keys.{Held};

    ghost Value = { List Held };

    ghost view = { λ keys. keys.ids.entries };
}

impl Keys {
    /// No key. It takes no memory.
    pub(crate) fn new(alloc: Global) -> Self
        ensures none { result ≡ [] }
    {
        Keys {
            ids: BTreeMap::new(alloc),
        }
    }

    /// The identifier of the record of a key, where the key is held. It takes no memory.
    pub(crate) fn id_at(&self, key: u32) -> Option<u32>
        ensures id { result ≡ id_at key self.now }
    {
        match self.ids.get(&key) {
            Some(id) => Some(*id),
            None => None,
        }
    }

    /// Holds a key from now on, with the identifier 0 until `set` puts another. This takes the
    /// memory for the key. At `Memory` nothing is changed.
    pub(crate) fn hold(&mut self, key: u32) -> Result<(), Memory>
        ensures held { OnOk result (self.new ≡ with_key key 0 self.old) }
        ensures unchanged { OnErr result (self.new ≡ self.old) }
    {
        match self.ids.insert(key, 0) {
            Ok(_) => Ok(()),
            Err(_) => Err(Memory),
        }
    }

    /// Puts the identifier of the record of a key that is held. It takes no memory.
    pub(crate) fn set(&mut self, key: u32, id: u32)
        requires held { IsSome (id_at key self.old) }
        ensures set { self.new ≡ with_key key id self.old }
    {
        match self.ids.insert(key, id) {
            Ok(_) => {}
            Err(_) => unreachable!(),
        }
    }

    /// Holds a key no longer. It takes no memory.
    pub(crate) fn remove(&mut self, key: u32)
        ensures without { self.new ≡ without key self.old }
    {
        self.ids.remove(&key);
    }

    /// Holds no key. It takes no memory.
    pub(crate) fn clear(&mut self)
        ensures none { self.new ≡ [] }
    {
        self.ids.clear();
    }

    /// The keys and the identifiers of their records, in order of identifier.
    pub(crate) fn by_id(&self, alloc: Global) -> Result<List<(u32, u32)>, Memory>
        ensures order { IfOk result (λ held. held ≡ by_id self.now) }
    {
        let mut held = entries_of(alloc, &self.ids)?;
        held.sort_by_key(|entry| entry.1)?;
        Ok(List::from_vec(held))
    }
}

/// The entries of a map, in order of key.
fn entries_of(alloc: Global, ids: &BTreeMap<u32, u32>) -> Result<Vec<(u32, u32)>, Memory>
    ensures entries { IfOk result (λ held. held.items ≡ ids.now.entries) }
{
    let mut held = Vec::with_capacity(alloc, ids.len())?;
    for (key, id) in ids {
        held.push((*key, *id))?;
    }
    Ok(held)
}
