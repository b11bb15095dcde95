//! Links: RFC 9393, section 2.7.

ghost use Rattle.coswid_codec.specs.Parts.{link_table};
ghost use Rattle.coswid_res.specs.Columns.{KeysOf, pairs_of};
ghost use Rattle.coswid_res.specs.Schema as schema;

use crate::key;
use cbor_det::Pairs;
use coswid_res::{FormRefused, Mapped, Optional, Required, count, read_map};
use coswid_tag::LinkEntry;
use std::alloc::Global;
use wire_base::{Memory, Octets};

/// The keys of links.
type Keys = (
    Optional<key::Media>,
    Optional<key::Artifact>,
    Required<key::Href>,
    Optional<key::Ownership>,
    Required<key::Rel>,
    (Optional<key::MediaType>, (Optional<key::LinkUse>, ())),
);

/// The table of links.
pub(crate) struct LinkTable;

impl Mapped for LinkTable {
    type Value = LinkEntry;

    ghost name = { schema.link };

    ghost keys = { KeysOf link_table };

    ghost written = { pairs_of link_table };

    fn read(alloc: Global, pairs: Pairs) -> Result<LinkEntry, FormRefused> {
        let mut pairs = pairs;
        let values = read_map::<Keys>(alloc, &mut pairs)?;
        let (media, artifact, href, ownership, rel, (media_type, (link_use, ()))) = values;
        Ok(LinkEntry {
            media,
            artifact,
            href,
            ownership,
            rel,
            media_type,
            link_use,
            extras: pairs,
        })
    }

    fn spell(out: &mut Octets, link: &LinkEntry) -> Result<(), Memory> {
        let others = &link.extras;
        let more = 2
            + count(&link.media)
            + count(&link.artifact)
            + count(&link.ownership)
            + count(&link.media_type)
            + count(&link.link_use);
        others.put_head_with(out, more)?;
        let place = key::Media::spell_optional(out, others, 0, &link.media)?;
        let place = key::Artifact::spell_optional(out, others, place, &link.artifact)?;
        let place = key::Href::spell(out, others, place, &link.href)?;
        let place = key::Ownership::spell_optional(out, others, place, &link.ownership)?;
        let place = key::Rel::spell(out, others, place, &link.rel)?;
        let place = key::MediaType::spell_optional(out, others, place, &link.media_type)?;
        let place = key::LinkUse::spell_optional(out, others, place, &link.link_use)?;
        Ok(others.put_from(out, place)?)
    }
}
