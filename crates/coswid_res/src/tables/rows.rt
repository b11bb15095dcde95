//! One or more values: an array of them, or one alone.

ghost use Rattle.std.specs.Prelude.{◌≡◌, ◌<◌, ◌≢◌, ◌^◌, ◌++◌, IfOk, OnOk, [], map};
ghost use Rattle.cbor_det.specs.Canonical.{canon};
ghost use Rattle.std.specs.List.{All};
ghost use Rattle.cbor_det.specs.Term.{array};
ghost use Rattle.cbor_det.specs.View.{view, terms_of};
ghost use Rattle.coswid_res.specs.Fault.{elements_fault, field_fault, under};
ghost use Rattle.coswid_res.specs.Items.{row_item};
ghost use Rattle.coswid_res.specs.Reading.{Gives};
ghost use Rattle.coswid_res.specs.Schema.{one_or_more};
ghost use Rattle.coswid_res.specs.Words.{Each, OneOrMore};

use crate::fault::FormRefused;
use crate::fault_kind::FormFaultKind;
use crate::tables::form::{Form, ItemForm, read_at};
use cbor_det::{Item, put_array_head};
use std::alloc::Global;
use wire_base::{List, Memory, Octets};

/// One or more values at the key `place`, with their faults reported from the map's level.
pub(crate) fn read_row_at<F: Form>(
    alloc: Global,
    place: u64,
    item: Item,
) -> Result<List<F::Value>, FormRefused>
    requires { place < 2 ^ 63 }
    ensures told { Gives (λ vs. OneOrMore F.is vs (view item)) (under place (field_fault (one_or_more F.form) (view item))) result }
{
    match read_row::<F>(alloc, item) {
        Ok(values) => Ok(values),
        Err(refused) => Err(refused.under(place)),
    }
}

/// One value, or those of an array that is not empty.
fn read_row<F: Form>(alloc: Global, item: Item) -> Result<List<F::Value>, FormRefused>
    ensures told { Gives (λ vs. OneOrMore F.is vs (view item)) (field_fault (one_or_more F.form) (view item)) result }
{
    match item {
        Item::Array(items) => {
            if items.is_empty() {
                return Err(FormRefused::new(alloc, FormFaultKind::WrongForm));
            }
            read_elements::<F>(alloc, items)
        }
        one => {
            let mut values = List::new(alloc);
            values.push(F::read(alloc, one)?)?;
            Ok(values)
        }
    }
}

/// The values of an array; its first fault is that of its first element that has one.
fn read_elements<F: Form>(alloc: Global, items: List<Item>) -> Result<List<F::Value>, FormRefused>
    ensures told { Gives (λ vs. Each F.is vs (terms_of (map view items))) (elements_fault F.form 0 (terms_of (map view items))) result }
{
    let mut values = List::new(alloc);
    let mut place = 0;
    for item in items.into_vec() {
        values.push(read_at::<F>(alloc, place, item)?)?;
        place += 1;
    }
    Ok(values)
}

/// Puts the value alone where there is one, and else an array of all.
pub(crate) fn spell_row<F: Form>(out: &mut Octets, values: &List<F::Value>) -> Result<(), Memory>
    ensures appended { OnOk result (out.new ≡ out.old ++ canon (row_item (map F.written values.now))) }
{
    let slice = values.as_slice();
    if slice.len() == 1 {
        return F::spell(out, &slice[0]);
    }
    spell_all::<F>(out, slice)
}

/// Puts an array of the values.
fn spell_all<F: Form>(out: &mut Octets, values: &[F::Value]) -> Result<(), Memory>
    ensures appended { OnOk result (out.new ≡ out.old ++ canon (array (terms_of (map F.written values.now)))) }
{
    put_array_head(out, values.len() as u64)?;
    for value in values {
        F::spell(out, value)?;
    }
    Ok(())
}

/// The value alone where there is one, and else an array of all.
pub(crate) fn write_row<F: ItemForm>(alloc: Global, values: &List<F::Value>) -> Result<Item, Memory>
    requires fits { All F.fits values.now }
    ensures written { IfOk result (λ made. view made ≡ row_item (map F.written values.now)) }
{
    let slice = values.as_slice();
    if slice.len() == 1 {
        return F::write(alloc, &slice[0]);
    }
    write_all::<F>(alloc, slice)
}

/// An array of the values.
fn write_all<F: ItemForm>(alloc: Global, values: &[F::Value]) -> Result<Item, Memory>
    requires fits { All F.fits values.now }
    ensures written { IfOk result (λ made. view made ≡ array (terms_of (map F.written values.now))) }
{
    let mut items = List::new(alloc);
    for value in values {
        items.push(F::write(alloc, value)?)?;
    }
    Ok(Item::Array(items))
}
