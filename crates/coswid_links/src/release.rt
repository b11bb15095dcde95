//! What identifies a release of a tag, and what a tag says of it.

ghost use Rattle.std.specs.Prelude.{◌≡◌, ◌≤◌, IfOk};
ghost use Rattle.cbor_det.specs.Term.{depth};
ghost use Rattle.coswid_codec.specs.Items.{tag_item};
ghost use Rattle.coswid_codec.specs.SizesFit.{SizesFit};
ghost use Rattle.coswid_links.specs.Releases.{claim, claim_of, content, content_of};

use coswid_codec::write_tag;
use coswid_tag::{Tag, TagId};
use std::alloc::Global;
use wire_base::Memory;

/// An identifier of a tag, in an order.
#[derive(PartialEq, Eq, PartialOrd, Ord, Drop)]
pub(crate) enum Identifier {
    Text(Vec<u8>),
    Uuid([u8; 16]),
}

/// A release of a tag: its identifier and its version (RFC 9393, section 2.3).
#[derive(PartialEq, Eq, PartialOrd, Ord, Drop)]
pub(crate) struct Release {
    tag_id: Identifier,
    tag_version: i64,
}

impl Release {
    /// The release that the tag is; `Memory` where there is no room.
    pub(crate) fn from_tag(alloc: Global, tag: &Tag) -> Result<Self, Memory>
        ensures release { IfOk result (λ made. claim_of made ≡ claim tag.now) }
    {
        let tag_id = match &tag.tag_id {
            TagId::Text(text) => Identifier::Text(Vec::from_slice(
                alloc,
                text.as_str().as_bytes(),
            )?),
            TagId::Uuid(octets) => Identifier::Uuid(*octets),
        };
        Ok(Release {
            tag_id,
            tag_version: tag.tag_version,
        })
    }
}

/// A release with the canonical octets of a tag of it, in an order that looks at octets only where
/// the releases are equal.
#[derive(PartialEq, Eq, PartialOrd, Ord, Drop)]
pub(crate) struct Content {
    release: Release,
    octets: Vec<u8>,
}

impl Content {
    /// The release that the tag is, and its canonical octets; `Memory` where there is no room.
    pub(crate) fn from_tag(alloc: Global, tag: &Tag) -> Result<Self, Memory>
        requires depth { depth (tag_item tag.now) ≤ 64 }
        requires sizes { SizesFit tag.now }
        ensures content { IfOk result (λ made. content_of made ≡ content tag.now) }
    {
        Ok(Content {
            release: Release::from_tag(alloc, tag)?,
            octets: write_tag(alloc, tag)?.into_vec(),
        })
    }
}
