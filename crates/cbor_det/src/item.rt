//! Data items, as values.

ghost use Rattle.std.specs.Prelude.{◌≡◌, IfOk};
ghost use Rattle.std.specs.Prelude.{length, slice_get};

use wire_base::{Boxed, List, Memory, Octets, Text, TryCopy};

/// Items in order.
pub type Items = List<Item>;

/// A data item (RFC 8949, section 2). It is proper where the keys of each of its maps rise strictly
/// in bytewise order of their canonical spellings: what is read is, and what is built by
/// `Pairs::add`.
#[cycle(item)]
#[derive(Debug, Drop)]
pub enum Item {
    /// An integer, -2^63 to 2^63 - 1 (major types 0 and 1).
    Int(i64),
    /// A byte string (major type 2).
    Bytes(Octets),
    /// A text string (major type 3).
    Text(Text),
    /// An array (major type 4).
    Array(List<Item>),
    /// A map (major type 5).
    Map(Pairs),
    /// A tag with its number and its content (major type 6).
    Tag(u64, Boxed<Item>),
    /// False or true (major type 7).
    Bool(bool),
}

/// The pairs of a map, in order of their keys' canonical spellings.
#[cycle(item)]
#[derive(Debug, Drop)]
pub struct Pairs {
    pub(crate) pairs: List<Pair>,
}

/// A key with its value.
#[cycle(item)]
#[derive(Debug, Drop)]
pub(crate) struct Pair {
    pub(crate) key: Item,
    pub(crate) value: Item,
}

impl TryCopy for Item {
    fn copy(&self) -> Result<Self, Memory> {
        copy_item(self)
    }
}

impl TryCopy for Pairs {
    fn copy(&self) -> Result<Self, Memory> {
        copy_pairs(self)
    }
}

/// A copy of the item. It calls itself as deep as the item is: what is read is at most 64 deep.
#[cycle(copy)]
fn copy_item(item: &Item) -> Result<Item, Memory>
    ensures equal { IfOk result (λ made. made ≡ item.now) }
{
    match item {
        Item::Int(number) => Ok(Item::Int(*number)),
        Item::Bytes(octets) => Ok(Item::Bytes(octets.copy()?)),
        Item::Text(text) => Ok(Item::Text(text.copy()?)),
        Item::Array(items) => Ok(Item::Array(copy_items(items)?)),
        Item::Map(pairs) => Ok(Item::Map(copy_pairs(pairs)?)),
        Item::Tag(number, content) => {
            let made = copy_item(content.get())?;
            Ok(Item::Tag(*number, Boxed::new(content.allocator(), made)?))
        }
        Item::Bool(value) => Ok(Item::Bool(*value)),
    }
}

#[cycle(copy)]
fn copy_items(items: &List<Item>) -> Result<List<Item>, Memory>
    ensures equal { IfOk result (λ made. made ≡ items.now) }
{
    let mut made = List::new(items.allocator());
    for item in items.as_slice() {
        made.push(copy_item(item)?)?;
    }
    Ok(made)
}

#[cycle(copy)]
fn copy_pairs(pairs: &Pairs) -> Result<Pairs, Memory>
    ensures equal { IfOk result (λ made. made ≡ pairs.now) }
{
    let mut made = List::new(pairs.pairs.allocator());
    for pair in pairs.pairs.as_slice() {
        let key = copy_item(&pair.key)?;
        let value = copy_item(&pair.value)?;
        made.push(Pair { key, value })?;
    }
    Ok(Pairs { pairs: made })
}
