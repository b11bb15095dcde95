//! Keys of maps: a number with the form of what stands under it.

ghost use Rattle.std.specs.Prelude.{◌≡◌, ◌≤◌, ◌∷◌, ◌++◌, [], IfOk, OnOk, Some, is_some, map, pos};
ghost use Rattle.std.specs.List.{All};
ghost use Rattle.std.specs.Option.{ForSome, option_map};
ghost use Rattle.cbor_det.specs.Adding.{put};
ghost use Rattle.cbor_det.specs.Canonical.{canon, canon_pairs};
ghost use Rattle.cbor_det.specs.Laid.{from, below, after_below, put_row, size};
ghost use Rattle.cbor_det.specs.Lookup.{other_than, value_under};
ghost use Rattle.cbor_det.specs.Term.{Term, integer};
ghost use Rattle.cbor_det.specs.View.{view, pairs_view};
ghost use Rattle.coswid_res.specs.Fault.{absent};
ghost use Rattle.coswid_res.specs.Items.{row_item};
ghost use Rattle.coswid_res.specs.Reading.{Gives, line_fault};
ghost use Rattle.coswid_res.specs.Schema.{one, one_or_more};
ghost use Rattle.coswid_res.specs.Schema as schema;
ghost use Rattle.coswid_res.specs.Spelled.{Spells};
ghost use Rattle.coswid_res.specs.Words.{RequiredAt, OptionalAt, OneOrMore};

use crate::fault::FormRefused;
use crate::tables::form::{Form, ItemForm, read_at};
use crate::tables::missing_key::missing_key;
use crate::tables::rows::{read_row_at, spell_row, write_row};
use cbor_det::{Item, Pairs, put_unsigned};
use std::alloc::Global;
use std::marker::PhantomData;
use wire_base::{List, Memory, Octets};

/// The key with the number `NUMBER`, under which stand values of the form `F`.
pub struct Key<const NUMBER: u32, F: Form> {
    form: PhantomData<F>,
}

impl<const NUMBER: u32, F: Form> Key<NUMBER, F> {
    /// Whether the key is there.
    pub fn is_there(pairs: &Pairs) -> bool
        ensures there { result ≡ is_some (value_under NUMBER (pairs_view pairs.now)) }
    {
        pairs.get_unsigned(NUMBER as u64).is_some()
    }

    /// Nothing where the key is there; else `Form` with the fault that it is missing; `Memory`
    /// where there is no room.
    pub fn expect(alloc: Global, pairs: &Pairs) -> Result<(), FormRefused>
        ensures told { Gives (λ done. Unit {0}) (absent NUMBER (value_under NUMBER (pairs_view pairs.now))) result }
    {
        match pairs.get_unsigned(NUMBER as u64) {
            None => Err(missing_key(alloc, NUMBER)),
            Some(_) => Ok(()),
        }
    }

    /// The value under a key that must be there, taken out of the pairs. `Form` with the first form
    /// fault exactly where the key is not there, or its value is in no such form; `Memory` where
    /// there is no room.
    pub fn required(alloc: Global, pairs: &mut Pairs) -> Result<F::Value, FormRefused>
        ensures told { Gives (λ v. RequiredAt NUMBER F.is v (pairs_view pairs.old)) (line_fault (schema.required NUMBER (one F.form)) (pairs_view pairs.old)) result }
        ensures left { OnOk result (pairs_view pairs.new ≡ other_than (NUMBER ∷ []) (pairs_view pairs.old)) }
    {
        match pairs.take(NUMBER) {
            None => Err(missing_key(alloc, NUMBER)),
            Some(item) => read_at::<F>(alloc, NUMBER as u64, item),
        }
    }

    /// The value under a key that may be there, taken out of the pairs. `Form` with the first form
    /// fault exactly where the key is there and its value is in no such form; `Memory` where there
    /// is no room.
    pub fn optional(alloc: Global, pairs: &mut Pairs) -> Result<Option<F::Value>, FormRefused>
        ensures told { Gives (λ v. OptionalAt NUMBER F.is v (pairs_view pairs.old)) (line_fault (schema.optional NUMBER (one F.form)) (pairs_view pairs.old)) result }
        ensures left { OnOk result (pairs_view pairs.new ≡ other_than (NUMBER ∷ []) (pairs_view pairs.old)) }
    {
        match pairs.take(NUMBER) {
            None => Ok(None),
            Some(item) => Ok(Some(read_at::<F>(alloc, NUMBER as u64, item)?)),
        }
    }

    /// One or more values under a key that must be there; refusals as of `required`.
    pub fn required_row(alloc: Global, pairs: &mut Pairs) -> Result<List<F::Value>, FormRefused>
        ensures told { Gives (λ vs. RequiredAt NUMBER (OneOrMore F.is) vs (pairs_view pairs.old)) (line_fault (schema.required NUMBER (one_or_more F.form)) (pairs_view pairs.old)) result }
        ensures left { OnOk result (pairs_view pairs.new ≡ other_than (NUMBER ∷ []) (pairs_view pairs.old)) }
    {
        match pairs.take(NUMBER) {
            None => Err(missing_key(alloc, NUMBER)),
            Some(item) => read_row_at::<F>(alloc, NUMBER as u64, item),
        }
    }

    /// One or more values under a key that may be there; refusals as of `optional`.
    pub fn optional_row(
        alloc: Global,
        pairs: &mut Pairs,
    ) -> Result<Option<List<F::Value>>, FormRefused>
        ensures told { Gives (λ vs. OptionalAt NUMBER (OneOrMore F.is) vs (pairs_view pairs.old)) (line_fault (schema.optional NUMBER (one_or_more F.form)) (pairs_view pairs.old)) result }
        ensures left { OnOk result (pairs_view pairs.new ≡ other_than (NUMBER ∷ []) (pairs_view pairs.old)) }
    {
        match pairs.take(NUMBER) {
            None => Ok(None),
            Some(item) => Ok(Some(read_row_at::<F>(alloc, NUMBER as u64, item)?)),
        }
    }

    /// Puts the spelling of the key and of the value under it, after that of the other pairs from
    /// `place` on that are below it. Gives the place of the first that is not; `Memory` where there
    /// is no room.
    pub fn spell(
        out: &mut Octets,
        others: &Pairs,
        place: usize,
        value: &F::Value,
    ) -> Result<usize, Memory>
        ensures spelled { IfOk result (λ next. Spells out.old out.new (NUMBER, Some (F.written value.now)) (from place (pairs_view others.now)) (from next (pairs_view others.now))) }
    {
        let next = put_key(out, others, place, NUMBER)?;
        F::spell(out, value)?;
        Ok(next)
    }

    /// The same where there is a value; else nothing is put.
    pub fn spell_optional(
        out: &mut Octets,
        others: &Pairs,
        place: usize,
        value: &Option<F::Value>,
    ) -> Result<usize, Memory>
        ensures spelled { IfOk result (λ next. Spells out.old out.new (NUMBER, option_map F.written value.now) (from place (pairs_view others.now)) (from next (pairs_view others.now))) }
    {
        match value {
            None => Ok(place),
            Some(value) => Self::spell(out, others, place, value),
        }
    }

    /// The same of one or more values: one alone, and more as an array.
    pub fn spell_row(
        out: &mut Octets,
        others: &Pairs,
        place: usize,
        values: &List<F::Value>,
    ) -> Result<usize, Memory>
        ensures spelled { IfOk result (λ next. Spells out.old out.new (NUMBER, Some (row_item (map F.written values.now))) (from place (pairs_view others.now)) (from next (pairs_view others.now))) }
    {
        let next = put_key(out, others, place, NUMBER)?;
        spell_row::<F>(out, values)?;
        Ok(next)
    }

    /// The same where there are any; else nothing is put.
    pub fn spell_optional_row(
        out: &mut Octets,
        others: &Pairs,
        place: usize,
        values: &Option<List<F::Value>>,
    ) -> Result<usize, Memory>
        ensures spelled { IfOk result (λ next. Spells out.old out.new (NUMBER, option_map (λ vs. row_item (map F.written vs)) values.now) (from place (pairs_view others.now)) (from next (pairs_view others.now))) }
    {
        match values {
            None => Ok(place),
            Some(values) => Self::spell_row(out, others, place, values),
        }
    }
}

impl<const NUMBER: u32, F: ItemForm> Key<NUMBER, F> {
    /// Puts the value under the key, which is not held; `Memory` where there is no room.
    pub fn put(pairs: &mut Pairs, value: &F::Value) -> Result<(), Memory>
        requires fits { F.fits value.now }
        ensures puts { OnOk result (pairs_view pairs.new ≡ put_row (NUMBER, Some (F.written value.now)) (pairs_view pairs.old)) }
    {
        let alloc = pairs.allocator();
        put(pairs, NUMBER, F::write(alloc, value)?)
    }

    /// Puts the value under the key, where there is one.
    pub fn put_optional(pairs: &mut Pairs, value: &Option<F::Value>) -> Result<(), Memory>
        requires fits { ForSome value.now F.fits }
        ensures puts { OnOk result (pairs_view pairs.new ≡ put_row (NUMBER, option_map F.written value.now) (pairs_view pairs.old)) }
    {
        match value {
            None => Ok(()),
            Some(value) => Self::put(pairs, value),
        }
    }

    /// Puts the values under the key: one alone, and more as an array.
    pub fn put_row(pairs: &mut Pairs, values: &List<F::Value>) -> Result<(), Memory>
        requires fits { All F.fits values.now }
        ensures puts { OnOk result (pairs_view pairs.new ≡ put_row (NUMBER, Some (row_item (map F.written values.now))) (pairs_view pairs.old)) }
    {
        let alloc = pairs.allocator();
        put(pairs, NUMBER, write_row::<F>(alloc, values)?)
    }

    /// Puts the values under the key, where there are any.
    pub fn put_optional_row(
        pairs: &mut Pairs,
        values: &Option<List<F::Value>>,
    ) -> Result<(), Memory>
        requires fits { ForSome values.now (All F.fits) }
        ensures puts { OnOk result (pairs_view pairs.new ≡ put_row (NUMBER, option_map (λ vs. row_item (map F.written vs)) values.now) (pairs_view pairs.old)) }
    {
        match values {
            None => Ok(()),
            Some(values) => Self::put_row(pairs, values),
        }
    }
}

/// Puts the spelling of the other pairs that are below the key, and of the key.
pub(crate) fn put_key(
    out: &mut Octets,
    others: &Pairs,
    place: usize,
    key: u32,
) -> Result<usize, Memory>
    ensures appended { IfOk result (λ next. out.new ≡ out.old ++ (canon_pairs (below key (from place (pairs_view others.now))) ++ canon (integer (pos key)))) }
    ensures next { IfOk result (λ next. from next (pairs_view others.now) ≡ after_below key (from place (pairs_view others.now))) }
{
    let next = others.put_below(out, place, key)?;
    put_unsigned(out, key as u64)?;
    Ok(next)
}

/// 1 where there is a value, and else 0: how many pairs a map has of it.
pub fn count<T>(value: &Option<T>) -> u8
    ensures count { (item : T → Term) → result ≡ size (option_map item value.now) }
    ensures small { result ≤ 1 }
{
    match value {
        None => 0,
        Some(_) => 1,
    }
}

/// Puts the value under the key, which is not held.
pub(crate) fn put(pairs: &mut Pairs, key: u32, value: Item) -> Result<(), Memory>
    ensures puts { OnOk result (pairs_view pairs.new ≡ put (integer (pos key)) (view value) (pairs_view pairs.old)) }
{
    pairs.put(Item::Int(key as i64), value)
}
