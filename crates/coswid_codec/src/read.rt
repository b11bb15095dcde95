//! Reading tags.

ghost use Rattle.std.specs.Prelude.{◌≡◌, ◌≤◌, ℕ, IfOk, IfErr, length};
ghost use Rattle.cbor_det.specs.Faults.{IsFault, IsCut};
ghost use Rattle.cbor_det.specs.Term.{depth};
ghost use Rattle.cbor_det.specs.View.{view};
ghost use Rattle.coswid_codec.specs.Answers.{limits, BeginsTag, BeginsFaulty, IsRefusal, GivesTag, GivesForm, GivesCbor, of_cbor, of_form};
ghost use Rattle.coswid_codec.specs.Forms.{TagForm};
ghost use Rattle.coswid_codec.specs.Items.{tag_item};
ghost use Rattle.coswid_codec.specs.SizesFit.{SizesFit};
ghost use Rattle.coswid_codec.specs.Marked.{is_marked, content, is_deep, has_both};
ghost use Rattle.coswid_codec.specs.TagFault.{tag_fault};
ghost use Rattle.coswid_res.specs.Reading.{Gives};
ghost use Rattle.coswid_res.specs.declared.fault.FormFault as fault;
ghost use Rattle.coswid_tag.specs.declared.tag.Tag as tag;

use crate::deep::reaches;
use crate::key;
use crate::tag::TagTable;
use crate::write::COSWID;
use cbor_det::{CborFault, CborRefused, Item, Limits, read_item};
use coswid_res::{Form, FormFault, FormFaultKind, FormRefused, MapForm};
use coswid_tag::Tag;
use std::alloc::Global;
use thiserror::Error;
use wire_base::Memory;

/// Why no tag was read.
#[derive(Debug, Drop, Error)]
pub enum TagRefused {
    /// The octets begin with no item.
    #[error("{0}")]
    Cbor(CborFault),
    /// The item is no tag.
    #[error("{0}")]
    Form(FormFault),
    /// Out of memory.
    #[error("out of memory")]
    Memory,
}

impl From<CborRefused> for TagRefused {
    ghost from_gives = { λ refusal e. e ≡ of_cbor refusal };

    fn from(refused: CborRefused) -> Self {
        match refused {
            CborRefused::Fault(fault) => TagRefused::Cbor(fault),
            CborRefused::Memory => TagRefused::Memory,
        }
    }
}

impl From<FormRefused> for TagRefused {
    ghost from_gives = { λ refusal e. e ≡ of_form refusal };

    fn from(refused: FormRefused) -> Self {
        match refused {
            FormRefused::Form(fault) => TagRefused::Form(fault),
            FormRefused::Memory => TagRefused::Memory,
        }
    }
}

/// What is read of one tag at most.
pub(crate) const LIMITS: Limits = Limits {
    octets: 8_388_608,
    depth: 64,
};

/// The tag that the octets begin with, and how many octets it has (RFC 9393, section 2).
///
/// `Cbor` with the fault that shows first, exactly where the octets begin with no item within
/// 8388608 octets and depth 64. `Form` with the first form fault, exactly where that item is no
/// tag. `Memory` where there is no room.
pub fn read_tag(alloc: Global, bytes: &[u8]) -> Result<(Tag, usize), TagRefused>
    ensures found { IfOk result (λ read. BeginsTag bytes.now read.0 read.1) }
    ensures shallow { IfOk result (λ read. depth (tag_item read.0) ≤ 64) }
    ensures sizes { IfOk result (λ read. SizesFit read.0) }
    ensures refused { IfErr result (IsRefusal bytes.now) }
    ensures only { (g : tag.Tag) (n : ℕ) → BeginsTag bytes.now g n → GivesTag g n result }
    ensures form { (f : fault.FormFault) → BeginsFaulty bytes.now f → GivesForm f result }
    ensures fault { (kind at : ℕ) → IsFault limits bytes.now kind at → GivesCbor kind at result }
    ensures cut { IsCut limits bytes.now → GivesCbor 1 (length bytes.now) result }
{
    let (item, used) = read_item(alloc, bytes, LIMITS)?;
    let tag = tag_of(alloc, item)?;
    Ok((tag, used))
}

/// The tag that the item is made into.
fn tag_of(alloc: Global, item: Item) -> Result<Tag, FormRefused>
    ensures told { Gives (λ g. TagForm g (view item)) (tag_fault (view item)) result }
{
    if is_deep(&item) {
        return Err(FormRefused::new(alloc, FormFaultKind::Deep));
    }
    let content = content(item);
    if has_both(&content) {
        return Err(FormRefused::new(alloc, FormFaultKind::Both));
    }
    MapForm::<TagTable>::read(alloc, content)
}

/// Whether the item would be too deep under the tag of tags, which it does not have.
fn is_deep(item: &Item) -> bool
    ensures deep { result ≡ is_deep (view item.now) }
{
    !is_marked(item) && reaches(item, LIMITS.depth)
}

/// Whether the item stands under the tag of tags.
fn is_marked(item: &Item) -> bool
    ensures marked { result ≡ is_marked (view item.now) }
{
    match item {
        Item::Tag(number, _) => *number == COSWID,
        _ => false,
    }
}

/// Whether the item is a map with both a payload and evidence.
fn has_both(item: &Item) -> bool
    ensures both { result ≡ has_both (view item.now) }
{
    match item {
        Item::Map(pairs) => key::Evidence::is_there(pairs) && key::Payload::is_there(pairs),
        _ => false,
    }
}

/// What stands under the tag of tags, or the item itself.
fn content(item: Item) -> Item
    ensures content { view result ≡ content (view item) }
{
    match item {
        Item::Tag(COSWID, content) => content.into_inner(),
        item => item,
    }
}
