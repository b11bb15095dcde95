//! The live records, in order of their identifiers.
//!
//! A hash map that keeps order has a place for the identifier of each record. One that is removed
//! leaves its place empty, so that no other record moves. Where more than a quarter of the places
//! is empty, the records close up. An index says which records have a software identifier.

ghost use Rattle.std.specs.Prelude.{◌≡◌, ◌<◌, ◌+◌, ◌-◌, ◌^◌, ◌++◌, ◌∷◌, [], IfOk, IsSome, None, OnErr, Some, ℕ, OnOk, length, nat_eq};
ghost use Rattle.std.specs.List.Sorted.{IsStrictlyIncreasing};
ghost use Rattle.std.specs.Map.{set_value};
ghost use Rattle.std.specs.Option.{option_copied};
ghost use Rattle.indexmap.specs.IndexMap.{get, spare};
ghost use Rattle.swima_model.specs.InOrder.{ids};
ghost use Rattle.swima_model.specs.Live.{record_of};
ghost use Rattle.collector_core.specs.Index.{IsIndex};
ghost use Rattle.collector_core.specs.Places.{AreFewEmpty, ArePlaces, LiveView, Puts, Takes, held_at, present, standing};

use crate::identifier_hash::IdentifierHasher;
use crate::index::{drop_key, exchange_key, key_of, put_key};
use indexmap::IndexMap;
use std::alloc::Global;
use std::collections::BTreeSet;
use std::hash::BuildHasherDefault;
use std::marker::Model;
use swima_model::{Content, Record};
use wire_base::{Memory, TryCopy};

/// The places of identifiers, and the record at each; `None` where it was removed.
type Places = IndexMap<u32, Option<Record>, BuildHasherDefault<IdentifierHasher>>;

/// The live records, and the identifier of the next.
#[derive(Debug, Drop)]
pub(crate) struct Live {
    next: u32,
    empty: usize,
    places: Places,
    index: BTreeSet<u64>,
}

impl Model for Live {
    ghost use Rattle.collector_core.specs.Index.{IsIndex};
    ghost use Rattle.collector_core.specs.Places.{AreFewEmpty, ArePlaces, LiveView, standing};

    ghost Value = { LiveView };

    ghost view = { λ live. record { next = live.next; records = standing live.places.entries } };

    ghost invariant = { λ live. ArePlaces live.next live.empty live.places.entries × IsIndex live.index (standing live.places.entries)
        × AreFewEmpty live.empty live.places.entries };
}

impl Live {
    /// No records; the next has the identifier 1. It takes memory for that many places at once.
    pub(crate) fn with_capacity(alloc: Global, capacity: usize) -> Result<Self, Memory>
        ensures empty { IfOk result (λ live. live ≡ record { next = 1; records = [] }) }
    {
        Ok(Live {
            next: 1,
            empty: 0,
            places: IndexMap::with_capacity_and_hasher(alloc, capacity, BuildHasherDefault::new())?,
            index: BTreeSet::new(alloc),
        })
    }

    /// The allocator of its memory.
    pub(crate) fn allocator(&self) -> Global {
        *self.places.allocator()
    }

    /// The identifier of the next record.
    pub(crate) fn next(&self) -> u32
        ensures next { result ≡ self.now.next }
    {
        self.next
    }

    /// How many records there are.
    pub(crate) fn len(&self) -> usize
        ensures len { result ≡ length self.now.records }
    {
        self.places.len() - self.empty
    }

    /// The record of an identifier.
    pub(crate) fn get(&self, id: u32) -> Option<&Record>
        ensures held { option_copied result ≡ record_of id self.now.records }
    {
        self.places.get(&id)?.as_ref()
    }

    /// What stands at each place; `None` where a record was removed.
    pub(crate) fn places(&self) -> &[Option<Record>]
        ensures places { present result.now ≡ self.now.records }
    {
        self.places.values().as_slice()
    }

    /// The index of the records.
    pub(crate) fn index(&self) -> &BTreeSet<u64>
        ensures index { IsIndex result.now self.now.records }
        ensures rising { IsStrictlyIncreasing (ids self.now.records ++ self.now.next ∷ []) }
        ensures next { self.now.next < 2 ^ 32 }
    {
        let _next = self.next();
        &self.index
    }

    /// Adds a record of the next identifier with a copy of the content, and gives another copy, for
    /// the event.
    pub(crate) fn add(&mut self, content: &Content) -> Result<Content, Memory>
        requires next { self.old.next < 2 ^ 32 - 1 }
        ensures copy { IfOk result (λ copy. copy ≡ content.now) }
        ensures added { OnOk result (self.new ≡ record {
          next = self.old.next + 1;
          records = self.old.records ++ record { id = self.old.next; content = content.now } ∷ [];
        }) }
        ensures unchanged { OnErr result (self.new ≡ self.old) }
    {
        let copy = content.copy()?;
        self.push(content.copy()?)?;
        Ok(copy)
    }

    /// Replaces the content of a record by a copy of this one, and gives another copy, for the
    /// event.
    pub(crate) fn replace(&mut self, id: u32, content: &Content) -> Result<Content, Memory>
        requires held { IsSome (record_of id self.old.records) }
        ensures copy { IfOk result (λ copy. copy ≡ content.now) }
        ensures put { OnOk result (Puts id content.now self.old.records self.new.records) }
        ensures next { OnOk result (self.new.next ≡ self.old.next) }
        ensures unchanged { OnErr result (self.new ≡ self.old) }
    {
        let copy = content.copy()?;
        self.put(id, content.copy()?)?;
        Ok(copy)
    }

    /// Puts a record of the next identifier at the end.
    pub(crate) fn push(&mut self, content: Content) -> Result<(), Memory>
        requires next { self.old.next < 2 ^ 32 - 1 }
        ensures appended { OnOk result (self.new ≡ record {
          next = self.old.next + 1;
          records = self.old.records ++ record { id = self.old.next; content = content } ∷ [];
        }) }
        ensures unchanged { OnErr result (self.new ≡ self.old) }
    {
        let id = self.next;
        let key = key_of(&content.ident, id);
        self.places.reserve(1)?;
        put_key(&mut self.index, key)?;
        push_place(&mut self.places, id, content);
        self.next = id + 1;
        Ok(())
    }

    /// Replaces the content of a record.
    pub(crate) fn put(&mut self, id: u32, content: Content) -> Result<(), Memory>
        requires held { IsSome (record_of id self.old.records) }
        ensures put { OnOk result (Puts id content self.old.records self.new.records) }
        ensures next { OnOk result (self.new.next ≡ self.old.next) }
        ensures unchanged { OnErr result (self.new ≡ self.old) }
    {
        let held = self.get(id).unwrap();
        let from = key_of(&held.content.ident, id);
        let to = key_of(&content.ident, id);
        exchange_key(&mut self.index, from, to)?;
        put_content(&mut self.places, id, content);
        Ok(())
    }

    /// Takes a record out. It takes no memory.
    pub(crate) fn take(&mut self, id: u32) -> Option<Record>
        ensures taken { result ≡ record_of id self.old.records }
        ensures others { Takes id self.old.records result self.new.records }
        ensures next { self.new.next ≡ self.old.next }
    {
        let taken = exchange(&mut self.places, id, None)?;
        drop_key(&mut self.index, key_of(&taken.content.ident, id));
        self.empty = close_up(&mut self.places, self.empty);
        Some(taken)
    }
}

/// Puts a place with a record at the end, where there is room for it. It takes no memory.
fn push_place(places: &mut Places, id: u32, content: Content)
    requires room { 0 < spare places.old }
    requires new { get nat_eq places.old id ≡ None }
    ensures appended { places.new.entries ≡ places.old.entries ++ (id, Some (record { id = id; content = content })) ∷ [] }
{
    places.insert(id, Some(Record { id, content })).unwrap();
}

/// Replaces the content of a record at its place. It takes no memory.
fn put_content(places: &mut Places, id: u32, content: Content)
    requires held { IsSome (record_of id (standing places.old.entries)) }
    ensures put { (next empty : ℕ) → ArePlaces next empty places.old.entries
        → ArePlaces next empty places.new.entries × Puts id content (standing places.old.entries) (standing places.new.entries) }
{
    exchange(places, id, Some(Record { id, content }));
}

/// Puts this at the place of an identifier, where it has one, and gives what stood there. It takes
/// no memory.
fn exchange(places: &mut Places, id: u32, held: Option<Record>) -> Option<Record>
    ensures stood { result ≡ held_at id places.old.entries }
    ensures exchanged { places.new.entries ≡ set_value (nat_eq id) places.old.entries held }
{
    let place = places.get_mut(&id)?;
    std::mem::replace(place, held)
}

/// Counts one more empty place. Where more than a quarter is empty then, it leaves only the places
/// that are not. It gives how many are left empty, and takes no memory.
fn close_up(places: &mut Places, empty: usize) -> usize
    ensures records { standing places.new.entries ≡ standing places.old.entries }
    ensures places { (next : ℕ) → ArePlaces next (empty + 1) places.old.entries → ArePlaces next result places.new.entries }
    ensures few { AreFewEmpty result places.new.entries }
    ensures kept { AreFewEmpty (empty + 1) places.old.entries → places.new.entries ≡ places.old.entries }
{
    if empty < places.len() / 4 {
        return empty + 1;
    }
    drop_empty(places);
    0
}

/// Leaves the places that are not empty.
fn drop_empty(places: &mut Places)
    ensures records { standing places.new.entries ≡ standing places.old.entries }
    ensures places { (next empty : ℕ) → ArePlaces next empty places.old.entries → ArePlaces next 0 places.new.entries }
{
    places.retain(|_, held| held.is_some());
}
