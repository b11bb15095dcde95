//! The keys of a map, listed by a type in their order. One reader serves all of these types. It
//! takes each value out of what those before it left.

ghost use Rattle.std.specs.Prelude.{◌≡◌, ◌∷◌, ◌&&◌, [], true, Bool, List, Option, Some, OnOk};
ghost use Rattle.cbor_det.specs.Lookup.{other_than, value_under};
ghost use Rattle.cbor_det.specs.Term.{Term, Pairs as PairsTerm};
ghost use Rattle.cbor_det.specs.View.{pairs_view};
ghost use Rattle.coswid_res.specs.ColumnLaws.{Still, all_still, are_others};
ghost use Rattle.coswid_res.specs.Columns.{◌⨾◌};
ghost use Rattle.coswid_res.specs.Fault.{or_else, missing};
ghost use Rattle.coswid_res.specs.Reading.{Gives, line_fault, lines_fault};
ghost use Rattle.coswid_res.specs.Schema as schema;
ghost use Rattle.coswid_res.specs.Schema.{Line, one, one_or_more, key_of, keys_of, required_keys};
ghost use Rattle.coswid_res.specs.Words.{Agree, OneOrMore};

use crate::fault::FormRefused;
use crate::tables::form::Form;
use crate::tables::key::Key;
use cbor_det::Pairs;
use std::alloc::Global;
use std::marker::PhantomData;
use wire_base::List;

/// A key of a map, with what its table says of it.
pub trait Column {
    /// What stands under the key.
    type Value: Drop;

    /// The key's line of the table.
    ghost line: { Line };

    /// The value may be read from what stands under the key.
    ghost is: { Self.Value → Option Term → Type 0 };

    /// Nothing where the key is there, or need not be; else `Form` with the fault that it is
    /// missing; `Memory` where there is no room.
    fn expect(alloc: Global, pairs: &Pairs) -> Result<(), FormRefused>
        ensures told { Gives (λ done. Unit {0}) (missing (required_keys (line ∷ [])) (pairs_view pairs.now)) result };

    /// The value, taken out of the pairs; `Form` with the first form fault under the key; `Memory`
    /// where there is no room.
    fn read(alloc: Global, pairs: &mut Pairs) -> Result<Self::Value, FormRefused>
        ensures told { Gives (λ v. is v (value_under (key_of line) (pairs_view pairs.old))) (line_fault line (pairs_view pairs.old)) result }
        ensures left { OnOk result (pairs_view pairs.new ≡ other_than (key_of line ∷ []) (pairs_view pairs.old)) };
}

/// A key that must be there.
pub struct Required<K> {
    key: PhantomData<K>,
}

impl<const NUMBER: u32, F: Form> Column for Required<Key<NUMBER, F>> {
    type Value = F::Value;

    ghost line = { schema.required NUMBER (one F.form) };

    ghost is = { λ v. Agree F.is (Some v) };

    fn expect(alloc: Global, pairs: &Pairs) -> Result<(), FormRefused> {
        Key::<NUMBER, F>::expect(alloc, pairs)
    }

    fn read(alloc: Global, pairs: &mut Pairs) -> Result<F::Value, FormRefused> {
        Key::<NUMBER, F>::required(alloc, pairs)
    }
}

/// A key that may be there.
pub struct Optional<K> {
    key: PhantomData<K>,
}

impl<const NUMBER: u32, F: Form> Column for Optional<Key<NUMBER, F>> {
    type Value = Option<F::Value>;

    ghost line = { schema.optional NUMBER (one F.form) };

    ghost is = { Agree F.is };

    fn expect(_alloc: Global, _pairs: &Pairs) -> Result<(), FormRefused> {
        Ok(())
    }

    fn read(alloc: Global, pairs: &mut Pairs) -> Result<Option<F::Value>, FormRefused> {
        Key::<NUMBER, F>::optional(alloc, pairs)
    }
}

/// A key that must be there, with one value or more.
pub struct RequiredRow<K> {
    key: PhantomData<K>,
}

impl<const NUMBER: u32, F: Form> Column for RequiredRow<Key<NUMBER, F>> {
    type Value = List<F::Value>;

    ghost line = { schema.required NUMBER (one_or_more F.form) };

    ghost is = { λ vs. Agree (OneOrMore F.is) (Some vs) };

    fn expect(alloc: Global, pairs: &Pairs) -> Result<(), FormRefused> {
        Key::<NUMBER, F>::expect(alloc, pairs)
    }

    fn read(alloc: Global, pairs: &mut Pairs) -> Result<List<F::Value>, FormRefused> {
        Key::<NUMBER, F>::required_row(alloc, pairs)
    }
}

/// A key that may be there, with one value or more.
pub struct OptionalRow<K> {
    key: PhantomData<K>,
}

impl<const NUMBER: u32, F: Form> Column for OptionalRow<Key<NUMBER, F>> {
    type Value = Option<List<F::Value>>;

    ghost line = { schema.optional NUMBER (one_or_more F.form) };

    ghost is = { Agree (OneOrMore F.is) };

    fn expect(_alloc: Global, _pairs: &Pairs) -> Result<(), FormRefused> {
        Ok(())
    }

    fn read(alloc: Global, pairs: &mut Pairs) -> Result<Option<List<F::Value>>, FormRefused> {
        Key::<NUMBER, F>::optional_row(alloc, pairs)
    }
}

/// Keys of a map in their order: the first or the first five, and those after them.
pub trait Columns {
    /// What stands under them.
    type Values: Drop;

    /// Their lines of the table.
    ghost lines: { List Line };

    /// The values may be read from these pairs.
    ghost are: { Self.Values → PairsTerm → Type 0 };

    /// No two of the keys are the same.
    ghost differ: { Bool };

    /// Nothing where each key is there that must be; else `Form` with the fault that the first that
    /// is not is missing; `Memory` where there is no room.
    fn expect(alloc: Global, pairs: &Pairs) -> Result<(), FormRefused>
        ensures told { Gives (λ done. Unit {0}) (missing (required_keys lines) (pairs_view pairs.now)) result };

    /// The values, taken out of the pairs; `Form` with the first form fault under the keys;
    /// `Memory` where there is no room.
    fn read(alloc: Global, pairs: &mut Pairs) -> Result<Self::Values, FormRefused>
        requires differ { differ ≡ true }
        ensures told { Gives (λ vs. are vs (pairs_view pairs.old)) (lines_fault lines (pairs_view pairs.old)) result }
        ensures left { OnOk result (pairs_view pairs.new ≡ other_than (keys_of lines) (pairs_view pairs.old)) };

    /// Values that are read after another key was taken out are those of all pairs.
    ghost still: { (vs : Self.Values) → Still lines (are vs) };
}

impl Columns for () {
    type Values = ();

    ghost lines = { [] };

    ghost are = { λ vs ps. Unit {0} };

    ghost differ = { true };

    fn expect(_alloc: Global, _pairs: &Pairs) -> Result<(), FormRefused> {
        Ok(())
    }

    fn read(_alloc: Global, _pairs: &mut Pairs) -> Result<(), FormRefused> {
        Ok(())
    }

    ghost still = { λ vs. record { still = λ n ps others are. tt } };
}

impl<C: Column, L: Columns> Columns for (C, L) {
    type Values = (C::Value, L::Values);

    ghost lines = { C.line ∷ L.lines };

    ghost are = { λ vs ps. C.is vs.0 (value_under (key_of C.line) ps) × L.are vs.1 ps };

    ghost differ = { are_others (key_of C.line ∷ []) L.lines && L.differ };

    fn expect(alloc: Global, pairs: &Pairs) -> Result<(), FormRefused> {
        C::expect(alloc, pairs)?;
        L::expect(alloc, pairs)
    }

    fn read(alloc: Global, pairs: &mut Pairs) -> Result<(C::Value, L::Values), FormRefused> {
        let first = C::read(alloc, pairs)?;
        let later = L::read(alloc, pairs)?;
        Ok((first, later))
    }

    ghost still = { λ vs. all_still C.is vs.0 C.line L.lines (L.are vs.1) (L.still vs.1) };
}

/// Five keys, and those after them, as pairs.
type Five<A, B, C, D, E, L> = (A, (B, (C, (D, (E, L)))));

impl<A: Column, B: Column, C: Column, D: Column, E: Column, L: Columns> Columns
    for (A, B, C, D, E, L) {
    type Values = (A::Value, B::Value, C::Value, D::Value, E::Value, L::Values);

    ghost lines = { A.line ∷ B.line ∷ C.line ∷ D.line ∷ E.line ∷ L.lines };

    ghost are = { λ vs. ⟦<Five<A, B, C, D, E, L> as Columns>⟧.are (vs.0 ⨾ vs.1 ⨾ vs.2 ⨾ vs.3 ⨾ vs.4 ⨾ vs.5) };

    ghost differ = { ⟦<Five<A, B, C, D, E, L> as Columns>⟧.differ };

    fn expect(alloc: Global, pairs: &Pairs) -> Result<(), FormRefused> {
        Five::<A, B, C, D, E, L>::expect(alloc, pairs)
    }

    fn read(alloc: Global, pairs: &mut Pairs) -> Result<Self::Values, FormRefused> {
        let (a, (b, (c, (d, (e, later))))) = Five::<A, B, C, D, E, L>::read(alloc, pairs)?;
        Ok((a, b, c, d, e, later))
    }

    ghost still = { λ vs. all_still A.is vs.0 A.line _ _ (all_still B.is vs.1 B.line _ _ (all_still C.is vs.2 C.line _ _ (all_still D.is vs.3 D.line _ _ (all_still E.is vs.4 E.line L.lines (L.are vs.5) (L.still vs.5))))) };
}

/// The values of a map with these keys, taken out of its pairs. `Form` with its first form fault:
/// that a key is missing comes before all others. `Memory` where there is no room.
pub fn read_map<L: Columns>(alloc: Global, pairs: &mut Pairs) -> Result<L::Values, FormRefused>
    requires differ { L.differ ≡ true }
    ensures told { Gives (λ vs. L.are vs (pairs_view pairs.old)) (or_else (missing (required_keys L.lines) (pairs_view pairs.old)) (lines_fault L.lines (pairs_view pairs.old))) result }
    ensures left { OnOk result (pairs_view pairs.new ≡ other_than (keys_of L.lines) (pairs_view pairs.old)) }
{
    L::expect(alloc, pairs)?;
    L::read(alloc, pairs)
}
