//! Writing items: the canonical spelling (RFC 8949, section 4.2.1).

ghost use Rattle.std.specs.Prelude.{◌≡◌, ◌∷◌, ◌++◌, ◌<◌, ◌≤◌, ◌^◌, IfOk, OnOk, length};
ghost use Rattle.cbor_det.specs.Canonical.{canon, canon_terms, canon_pairs, short_head};
ghost use Rattle.cbor_det.specs.Initial.{number_of_major};
ghost use Rattle.cbor_det.specs.Spelling.{major_of};
ghost use Rattle.cbor_det.specs.Term.{boolean, depth, integer, octets, text};
ghost use Rattle.cbor_det.specs.View.{view, terms_of, pairs_view};
ghost use Rattle.std.specs.Prelude.{map, pos};

use crate::initial::Major;
use crate::item::{Item, Pairs};
use crate::string_kind::StringKind;
use std::alloc::Global;
use wire_base::{List, Memory, Octets};

/// The canonical spelling of the item: shortest arguments, definite lengths, and the pairs of maps
/// in bytewise order of their keys' spellings, in which a proper item holds them. The item is at
/// most 64 deep, as what is read is. What is not proper is written in the order in which it holds
/// its pairs. `Memory` where there is no room for the spelling.
pub fn write_item(alloc: Global, item: &Item) -> Result<Octets, Memory>
    requires depth { depth (view item.now) ≤ 64 }
    ensures canonical { IfOk result (λ written. written ≡ canon (view item.now)) }
{
    spell(alloc, item)
}

/// The canonical spelling of an item of any depth: it calls itself as deep as the item is.
pub(crate) fn spell(alloc: Global, item: &Item) -> Result<Octets, Memory>
    ensures canonical { IfOk result (λ written. written ≡ canon (view item.now)) }
{
    let mut out = List::new(alloc);
    put_item(&mut out, item)?;
    Ok(out)
}

/// Puts the item after what was written. It calls itself as deep as the item is.
#[cycle(put)]
pub(crate) fn put_item(out: &mut Octets, item: &Item) -> Result<(), Memory>
    ensures appended { OnOk result (out.new ≡ out.old ++ canon (view item.now)) }
{
    match item {
        Item::Int(number) => put_integer(out, *number),
        Item::Bytes(octets) => put_bytes(out, octets.as_slice()),
        Item::Text(text) => put_text(out, text.as_str()),
        Item::Array(items) => {
            put_array_head(out, items.len() as u64)?;
            Ok(put_items(out, items)?)
        }
        Item::Map(pairs) => {
            put_head(out, Major::Map, pairs.pairs.len() as u64)?;
            Ok(put_pairs(out, pairs)?)
        }
        Item::Tag(number, content) => {
            put_tag_head(out, *number)?;
            Ok(put_item(out, content.get())?)
        }
        Item::Bool(value) => put_boolean(out, *value),
    }
}

#[cycle(put)]
fn put_items(out: &mut Octets, items: &List<Item>) -> Result<(), Memory>
    ensures appended { OnOk result (out.new ≡ out.old ++ canon_terms (terms_of (map view items.now))) }
{
    for item in items.as_slice() {
        put_item(out, item)?;
    }
    Ok(())
}

#[cycle(put)]
fn put_pairs(out: &mut Octets, pairs: &Pairs) -> Result<(), Memory>
    ensures appended { OnOk result (out.new ≡ out.old ++ canon_pairs (pairs_view pairs.now)) }
{
    for pair in pairs.pairs.as_slice() {
        put_item(out, &pair.key)?;
        put_item(out, &pair.value)?;
    }
    Ok(())
}

/// Puts an integer; `Memory` where there is no room.
pub fn put_integer(out: &mut Octets, number: i64) -> Result<(), Memory>
    ensures appended { OnOk result (out.new ≡ out.old ++ canon (integer number)) }
{
    if number >= 0 {
        put_head(out, Major::Unsigned, number as u64)
    } else {
        put_head(out, Major::Negative, (-(number + 1)) as u64)
    }
}

/// Puts an integer that is not below 0; `Memory` where there is no room.
pub fn put_unsigned(out: &mut Octets, number: u64) -> Result<(), Memory>
    ensures appended { OnOk result (out.new ≡ out.old ++ canon (integer (pos number))) }
{
    put_head(out, Major::Unsigned, number)
}

/// Puts a byte string; `Memory` where there is no room.
pub fn put_bytes(out: &mut Octets, bytes: &[u8]) -> Result<(), Memory>
    ensures appended { OnOk result (out.new ≡ out.old ++ canon (octets bytes.now)) }
{
    put_string(out, StringKind::ByteString, bytes)
}

/// Puts a text string; `Memory` where there is no room.
pub fn put_text(out: &mut Octets, written: &str) -> Result<(), Memory>
    ensures appended { OnOk result (out.new ≡ out.old ++ canon (text written.now)) }
{
    put_string(out, StringKind::TextString, written.as_bytes())
}

/// Puts the head of an array of `len` items; `Memory` where there is no room.
pub fn put_array_head(out: &mut Octets, len: u64) -> Result<(), Memory>
    ensures appended { OnOk result (out.new ≡ out.old ++ short_head 4 len) }
{
    put_head(out, Major::Array, len)
}

/// Puts the head of what stands under the tag with the number; `Memory` where there is no room.
pub fn put_tag_head(out: &mut Octets, number: u64) -> Result<(), Memory>
    ensures appended { OnOk result (out.new ≡ out.old ++ short_head 6 number) }
{
    put_head(out, Major::Tag, number)
}

/// Puts false or true; `Memory` where there is no room.
pub fn put_boolean(out: &mut Octets, value: bool) -> Result<(), Memory>
    ensures appended { OnOk result (out.new ≡ out.old ++ canon (boolean value)) }
{
    out.push(if value { 0xf5 } else { 0xf4 })
}

fn put_string(out: &mut Octets, kind: StringKind, octets: &[u8]) -> Result<(), Memory>
    ensures appended { OnOk result (out.new ≡ out.old ++ (short_head (major_of kind) (length octets.now) ++ octets.now)) }
{
    put_head(out, Major::String(kind), octets.len() as u64)?;
    out.extend(octets)
}

/// Puts a head with its argument in the shortest form.
#[tactic(auto, using(crate::proofs::BigEndian::be_one, crate::proofs::BigEndian::be_two, crate::proofs::BigEndian::be_four, crate::proofs::BigEndian::be_eight))]
pub(crate) fn put_head(out: &mut Octets, major: Major, argument: u64) -> Result<(), Memory>
    ensures appended { OnOk result (out.new ≡ out.old ++ short_head (number_of_major major) argument) }
{
    let high = 32 * major.number();
    if argument < 24 {
        return out.push(high + argument as u8);
    }
    if argument < 1 << 8 {
        return out.extend(&[high + 24, argument as u8]);
    }
    if argument < 1 << 16 {
        return put_argument(out, high + 25, &(argument as u16).to_be_bytes());
    }
    if argument < 1 << 32 {
        return put_argument(out, high + 26, &(argument as u32).to_be_bytes());
    }
    put_argument(out, high + 27, &argument.to_be_bytes())
}

fn put_argument(out: &mut Octets, initial: u8, argument: &[u8]) -> Result<(), Memory>
    ensures appended { OnOk result (out.new ≡ out.old ++ initial ∷ argument.now) }
{
    out.push(initial)?;
    out.extend(argument)
}
