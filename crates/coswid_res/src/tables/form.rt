//! The forms of values, as the tables name them.

ghost use Rattle.std.specs.Prelude.{◌≡◌, ◌<◌, ◌^◌, ◌++◌, IfOk, OnOk};
ghost use Rattle.cbor_det.specs.Canonical.{canon};
ghost use Rattle.cbor_det.specs.Term.{Term};
ghost use Rattle.cbor_det.specs.View.{view};
ghost use Rattle.coswid_res.specs.Fault.{field_fault, under};
ghost use Rattle.coswid_res.specs.Reading.{Gives};
ghost use Rattle.coswid_res.specs.Schema.{one};
ghost use Rattle.coswid_res.specs.Schema as schema;

use crate::fault::FormRefused;
use cbor_det::Item;
use std::alloc::Global;
use wire_base::{Memory, Octets};

/// How a value is written in a tag: one of the forms of the tables (RFC 9393, section 2).
pub trait Form {
    /// The value.
    type Value: Drop;

    /// Its form in the tables.
    ghost form: { schema.Form };

    /// The value may be read from the item.
    ghost is: { Self.Value → Term → Type 0 };

    /// The item that the value is written as.
    ghost written: { Self.Value → Term };

    /// The value that the item is made into; `Form` with the first form fault exactly where it is
    /// in no such form; `Memory` where there is no room.
    fn read(alloc: Global, item: Item) -> Result<Self::Value, FormRefused>
        ensures told { Gives (λ v. is v (view item)) (field_fault (one form) (view item)) result };

    /// Puts the canonical spelling of the item that the value is written as; `Memory` where there
    /// is no room.
    fn spell(out: &mut Octets, value: &Self::Value) -> Result<(), Memory>
        ensures appended { OnOk result (out.new ≡ out.old ++ canon (written value.now)) };
}

/// A form of which items are built: those of payload and evidence.
pub trait ItemForm: Form {
    /// That item holds the value: each size of a file in it is below 2^63.
    ghost fits: { Self.Value → Type 0 };

    /// The item that the value is written as; `Memory` where there is no room.
    fn write(alloc: Global, value: &Self::Value) -> Result<Item, Memory>
        requires fits { fits value.now }
        ensures written { IfOk result (λ made. view made ≡ Self.written value.now) };
}

/// The value that stands at the key or index `place`, with its faults reported from one level
/// further up.
pub(crate) fn read_at<F: Form>(
    alloc: Global,
    place: u64,
    item: Item,
) -> Result<F::Value, FormRefused>
    requires { place < 2 ^ 63 }
    ensures told { Gives (λ v. F.is v (view item)) (under place (field_fault (one F.form) (view item))) result }
{
    match F::read(alloc, item) {
        Ok(value) => Ok(value),
        Err(refused) => Err(refused.under(place)),
    }
}
