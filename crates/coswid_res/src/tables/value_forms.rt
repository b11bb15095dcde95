//! The forms of single values.

ghost use Rattle.coswid_res.specs.Items.{unsigned_item, uri_item, time_item, hash_item};
ghost use Rattle.coswid_res.specs.Schema.{a_text, a_boolean, an_integer, an_unsigned, a_uri, a_time, a_hash};
ghost use Rattle.coswid_res.specs.Words.{Text as IsText, Boolean, Integer, Unsigned, Uri, Time, Hash};
ghost use Rattle.std.specs.Prelude.{◌≡◌, ◌<◌, ◌^◌, map};
ghost use Rattle.cbor_det.specs.Term.{text, integer, boolean, octets, term, no_terms};
ghost use Rattle.cbor_det.specs.View.{view, terms_of};
ghost use Rattle.coswid_res.specs.Fault.{under, unless_wrong, is_integer, is_octets, hash_fault};
ghost use Rattle.coswid_res.specs.Reading.{Gives};

use crate::fault::FormRefused;
use crate::fault_kind::FormFaultKind;
use crate::resources::hash::HashEntry;
use crate::tables::form::{Form, ItemForm};
use cbor_det::{
    Item, Items, put_array_head, put_boolean, put_bytes, put_integer, put_tag_head, put_text,
    put_unsigned,
};
use std::alloc::Global;
use wire_base::{Boxed, List, Memory, Octets, Text, TryCopy};

/// A text.
pub struct TextForm;

impl Form for TextForm {
    type Value = Text;

    ghost form = { a_text };

    ghost is = { IsText };

    ghost written = { text };

    fn read(alloc: Global, item: Item) -> Result<Text, FormRefused> {
        match item {
            Item::Text(text) => Ok(text),
            _ => Err(FormRefused::new(alloc, FormFaultKind::WrongForm)),
        }
    }

    fn spell(out: &mut Octets, value: &Text) -> Result<(), Memory> {
        put_text(out, value.as_str())
    }
}

impl ItemForm for TextForm {
    ghost fits = { λ v. Unit {0} };

    fn write(_alloc: Global, value: &Text) -> Result<Item, Memory> {
        Ok(Item::Text(value.copy()?))
    }
}

/// False or true.
pub struct BoolForm;

impl Form for BoolForm {
    type Value = bool;

    ghost form = { a_boolean };

    ghost is = { Boolean };

    ghost written = { boolean };

    fn read(alloc: Global, item: Item) -> Result<bool, FormRefused> {
        match item {
            Item::Bool(value) => Ok(value),
            _ => Err(FormRefused::new(alloc, FormFaultKind::WrongForm)),
        }
    }

    fn spell(out: &mut Octets, value: &bool) -> Result<(), Memory> {
        put_boolean(out, *value)
    }
}

impl ItemForm for BoolForm {
    ghost fits = { λ v. Unit {0} };

    fn write(_alloc: Global, value: &bool) -> Result<Item, Memory> {
        Ok(Item::Bool(*value))
    }
}

/// An integer.
pub struct IntForm;

impl Form for IntForm {
    type Value = i64;

    ghost form = { an_integer };

    ghost is = { Integer };

    ghost written = { integer };

    fn read(alloc: Global, item: Item) -> Result<i64, FormRefused> {
        match item {
            Item::Int(number) => Ok(number),
            _ => Err(FormRefused::new(alloc, FormFaultKind::WrongForm)),
        }
    }

    fn spell(out: &mut Octets, value: &i64) -> Result<(), Memory> {
        put_integer(out, *value)
    }
}

impl ItemForm for IntForm {
    ghost fits = { λ v. Unit {0} };

    fn write(_alloc: Global, value: &i64) -> Result<Item, Memory> {
        Ok(Item::Int(*value))
    }
}

/// An integer that is not below 0. An item holds those below 2^63.
pub struct UintForm;

impl Form for UintForm {
    type Value = u64;

    ghost form = { an_unsigned };

    ghost is = { Unsigned };

    ghost written = { unsigned_item };

    fn read(alloc: Global, item: Item) -> Result<u64, FormRefused> {
        match item {
            Item::Int(number) if number >= 0 => Ok(number as u64),
            _ => Err(FormRefused::new(alloc, FormFaultKind::WrongForm)),
        }
    }

    fn spell(out: &mut Octets, value: &u64) -> Result<(), Memory> {
        put_unsigned(out, *value)
    }
}

impl ItemForm for UintForm {
    ghost fits = { λ n. n < 2 ^ 63 };

    fn write(_alloc: Global, value: &u64) -> Result<Item, Memory> {
        Ok(Item::Int(*value as i64))
    }
}

/// The tag of a URI (RFC 8949, section 3.4.5.3).
const URI_TAG: u64 = 32;

/// A URI: a text, under its tag or alone; it is written under its tag. That it is a URI is not
/// looked at.
pub struct UriForm;

impl Form for UriForm {
    type Value = Text;

    ghost form = { a_uri };

    ghost is = { Uri };

    ghost written = { uri_item };

    fn read(alloc: Global, item: Item) -> Result<Text, FormRefused> {
        match item {
            Item::Text(bare) => Ok(bare),
            Item::Tag(URI_TAG, content) => TextForm::read(alloc, content.into_inner()),
            _ => Err(FormRefused::new(alloc, FormFaultKind::WrongForm)),
        }
    }

    fn spell(out: &mut Octets, value: &Text) -> Result<(), Memory> {
        put_tag_head(out, URI_TAG)?;
        Ok(put_text(out, value.as_str())?)
    }
}

impl ItemForm for UriForm {
    ghost fits = { λ v. Unit {0} };

    fn write(alloc: Global, value: &Text) -> Result<Item, Memory> {
        let text = Item::Text(value.copy()?);
        Ok(Item::Tag(URI_TAG, Boxed::new(alloc, text)?))
    }
}

/// The tag of a time (RFC 8949, section 3.4.2).
const TIME_TAG: u64 = 1;

/// A time in seconds since 1970 began: an integer, under its tag or alone; it is written under its
/// tag.
pub struct TimeForm;

impl Form for TimeForm {
    type Value = i64;

    ghost form = { a_time };

    ghost is = { Time };

    ghost written = { time_item };

    fn read(alloc: Global, item: Item) -> Result<i64, FormRefused> {
        match item {
            Item::Int(number) => Ok(number),
            Item::Tag(TIME_TAG, content) => IntForm::read(alloc, content.into_inner()),
            _ => Err(FormRefused::new(alloc, FormFaultKind::WrongForm)),
        }
    }

    fn spell(out: &mut Octets, value: &i64) -> Result<(), Memory> {
        put_tag_head(out, TIME_TAG)?;
        Ok(put_integer(out, *value)?)
    }
}

impl ItemForm for TimeForm {
    ghost fits = { λ v. Unit {0} };

    fn write(alloc: Global, value: &i64) -> Result<Item, Memory> {
        Ok(Item::Tag(TIME_TAG, Boxed::new(alloc, Item::Int(*value))?))
    }
}

/// A hash: an array of its algorithm and its value (RFC 9393, section 2.9.1).
pub struct HashForm;

impl Form for HashForm {
    type Value = HashEntry;

    ghost form = { a_hash };

    ghost is = { Hash };

    ghost written = { hash_item };

    fn read(alloc: Global, item: Item) -> Result<HashEntry, FormRefused> {
        match item {
            Item::Array(parts) => read_hash(alloc, parts),
            _ => Err(FormRefused::new(alloc, FormFaultKind::WrongForm)),
        }
    }

    fn spell(out: &mut Octets, value: &HashEntry) -> Result<(), Memory> {
        put_array_head(out, 2)?;
        put_integer(out, value.algorithm)?;
        Ok(put_bytes(out, value.value.as_slice())?)
    }
}

impl ItemForm for HashForm {
    ghost fits = { λ v. Unit {0} };

    fn write(alloc: Global, value: &HashEntry) -> Result<Item, Memory> {
        let mut parts = List::new(alloc);
        parts.push(Item::Int(value.algorithm))?;
        parts.push(Item::Bytes(value.value.copy()?))?;
        Ok(Item::Array(parts))
    }
}

fn read_hash(alloc: Global, parts: Items) -> Result<HashEntry, FormRefused>
    ensures told { Gives (λ h. terms_of (map view parts) ≡ term (integer h.algorithm) (term (octets h.value) no_terms)) (hash_fault (terms_of (map view parts))) result }
{
    if parts.len() != 2 {
        return Err(FormRefused::new(alloc, FormFaultKind::WrongForm));
    }
    let mut parts = parts.into_vec();
    let second = parts.remove(1);
    let first = parts.remove(0);
    let algorithm = algorithm(alloc, first)?;
    let value = hash_value(alloc, second)?;
    Ok(HashEntry { algorithm, value })
}

fn algorithm(alloc: Global, item: Item) -> Result<i64, FormRefused>
    ensures told { Gives (λ z. view item ≡ integer z) (under 0 (unless_wrong (is_integer (view item)))) result }
{
    match item {
        Item::Int(number) => Ok(number),
        _ => Err(FormRefused::with_place(alloc, FormFaultKind::WrongForm, 0)),
    }
}

fn hash_value(alloc: Global, item: Item) -> Result<Octets, FormRefused>
    ensures told { Gives (λ s. view item ≡ octets s) (under 1 (unless_wrong (is_octets (view item)))) result }
{
    match item {
        Item::Bytes(octets) => Ok(octets),
        _ => Err(FormRefused::with_place(alloc, FormFaultKind::WrongForm, 1)),
    }
}
