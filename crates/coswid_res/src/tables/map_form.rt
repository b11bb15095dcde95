//! Values that are written as maps.

ghost use Rattle.std.specs.Prelude.{◌≡◌, ◌++◌, IfOk, OnOk};
ghost use Rattle.cbor_det.specs.Canonical.{canon};
ghost use Rattle.cbor_det.specs.Term.{Pairs as PairsTerm, map};
ghost use Rattle.cbor_det.specs.View.{pairs_view};
ghost use Rattle.coswid_res.specs.Reading.{Gives, keys_fault};
ghost use Rattle.coswid_res.specs.Schema.{Name, a_map};
ghost use Rattle.coswid_res.specs.Words.{IsMap};

use crate::fault::FormRefused;
use crate::fault_kind::FormFaultKind;
use crate::tables::form::{Form, ItemForm};
use cbor_det::{Item, Pairs};
use std::alloc::Global;
use std::marker::PhantomData;
use wire_base::{Memory, Octets};

/// A table: values that are written as maps with its keys.
pub trait Mapped {
    /// The value.
    type Value: Drop;

    /// The table's name.
    ghost name: { Name };

    /// The value may be read from these pairs.
    ghost keys: { Self.Value → PairsTerm → Type 0 };

    /// The pairs that the value is written as.
    ghost written: { Self.Value → PairsTerm };

    /// The value that the pairs hold; `Form` with the first form fault exactly where they are not
    /// by the table; `Memory` where there is no room.
    fn read(alloc: Global, pairs: Pairs) -> Result<Self::Value, FormRefused>
        ensures told { Gives (λ v. keys v (pairs_view pairs)) (keys_fault name (pairs_view pairs)) result };

    /// Puts the canonical spelling of the map that the value is written as; `Memory` where there is
    /// no room.
    fn spell(out: &mut Octets, value: &Self::Value) -> Result<(), Memory>
        ensures appended { OnOk result (out.new ≡ out.old ++ canon (map (written value.now))) };
}

/// A table whose maps are built: those of payload and evidence.
pub trait ItemMapped: Mapped {
    /// Those pairs hold the value: each size of a file in it is below 2^63.
    ghost fits: { Self.Value → Type 0 };

    /// The pairs that the value is written as; `Memory` where there is no room.
    fn write(value: &Self::Value) -> Result<Pairs, Memory>
        requires fits { fits value.now }
        ensures written { IfOk result (λ made. pairs_view made ≡ Self.written value.now) };
}

/// The form of a value that is written as a map, by the table `M`.
pub struct MapForm<M: Mapped> {
    table: PhantomData<M>,
}

impl<M: Mapped> Form for MapForm<M> {
    type Value = M::Value;

    ghost form = { a_map M.name };

    ghost is = { λ v. IsMap (M.keys v) };

    ghost written = { λ v. map (M.written v) };

    fn read(alloc: Global, item: Item) -> Result<M::Value, FormRefused> {
        match item {
            Item::Map(pairs) => M::read(alloc, pairs),
            _ => Err(FormRefused::new(alloc, FormFaultKind::WrongForm)),
        }
    }

    fn spell(out: &mut Octets, value: &M::Value) -> Result<(), Memory> {
        M::spell(out, value)
    }
}

impl<M: ItemMapped> ItemForm for MapForm<M> {
    ghost fits = { M.fits };

    fn write(_alloc: Global, value: &M::Value) -> Result<Item, Memory> {
        Ok(Item::Map(M::write(value)?))
    }
}
