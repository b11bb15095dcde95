//! Tags one after another.

ghost use Rattle.std.specs.Prelude.{◌≡◌, ◌≤◌, IfOk, length};
ghost use Rattle.std.specs.List.{All};
ghost use Rattle.cbor_det.specs.Term.{depth};
ghost use Rattle.coswid_codec.specs.Items.{tag_item};
ghost use Rattle.coswid_codec.specs.SizesFit.{SizesFit};
ghost use Rattle.swid_cli.specs.TagList.{IsTagList, LIST_TAGS};

use cbor_det::CborFault;
use coswid_codec::{TagRefused, read_tag};
use coswid_res::FormFault;
use coswid_tag::Tag;
use std::alloc::Global;
use wire_base::{List, Memory};

/// The most tags of a list.
pub(crate) const MOST_TAGS: usize = 10_000;

/// Tags that octets begin with, one after another, and what stands after them.
#[derive(Debug, Drop)]
pub(crate) struct TagList {
    /// The tags.
    pub(crate) tags: List<Tag>,
    /// What stands after the last.
    pub(crate) behind: Behind,
}

/// What stands after the last tag of a list.
#[derive(Debug, Drop)]
pub(crate) enum Behind {
    /// Nothing.
    Nothing,
    /// Some octet, after as many tags as a list may have.
    More,
    /// Octets that begin with no item.
    NoItem(CborFault),
    /// An item that is no tag.
    NoTag(FormFault),
}

/// The tags that the octets begin with, one after another, at most 10000; `Memory` where there is
/// no room.
pub(crate) fn read_tags(alloc: Global, octets: &[u8]) -> Result<TagList, Memory>
    ensures list { IfOk result (λ read. IsTagList octets.now read) }
    ensures within { IfOk result (λ read. length read.tags ≤ LIST_TAGS) }
    ensures shallow { IfOk result (λ read. All (λ g. depth (tag_item g) ≤ 64) read.tags) }
    ensures sizes { IfOk result (λ read. All SizesFit read.tags) }
{
    let mut tags = List::new(alloc);
    let mut rest = octets;
    while !rest.is_empty() {
        if tags.len() == MOST_TAGS {
            return Ok(ended(tags, Behind::More));
        }
        match read_tag(alloc, rest) {
            Ok((tag, used)) => {
                tags.push(tag)?;
                let (_, others) = rest.split_at(used);
                rest = others;
            }
            Err(TagRefused::Cbor(fault)) => return Ok(ended(tags, Behind::NoItem(fault))),
            Err(TagRefused::Form(fault)) => return Ok(ended(tags, Behind::NoTag(fault))),
            Err(TagRefused::Memory) => return Err(Memory),
        }
    }
    Ok(ended(tags, Behind::Nothing))
}

fn ended(tags: List<Tag>, behind: Behind) -> TagList
    ensures list { result ≡ record { tags = tags; behind = behind } }
{
    TagList { tags, behind }
}
