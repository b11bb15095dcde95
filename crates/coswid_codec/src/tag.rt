//! The map of a tag: RFC 9393, section 2.3.

ghost use Rattle.std.specs.Prelude.{◌≡◌, IfOk};
ghost use Rattle.cbor_det.specs.Laid.{from, present};
ghost use Rattle.cbor_det.specs.View.{pairs_view};
ghost use Rattle.coswid_codec.specs.Forms.{tag_table};
ghost use Rattle.coswid_codec.specs.Groups.{SpellsRows, first_rows, second_rows, third_rows};
ghost use Rattle.coswid_res.specs.Columns.{KeysOf, pairs_of, rows_of};
ghost use Rattle.coswid_res.specs.Schema as schema;

use crate::key;
use cbor_det::Pairs;
use coswid_res::{
    FormRefused, Mapped, Optional, OptionalRow, Required, RequiredRow, count, read_map,
};
use coswid_tag::Tag;
use std::alloc::Global;
use wire_base::{Memory, Octets};

/// The keys of tags.
type Keys = (
    Required<key::TagId>,
    Required<key::SoftwareName>,
    RequiredRow<key::Entity>,
    Optional<key::Evidence>,
    OptionalRow<key::Link>,
    SecondKeys,
);

/// Those from `software-meta` on.
type SecondKeys = (
    OptionalRow<key::SoftwareMeta>,
    Optional<key::Payload>,
    Optional<key::Corpus>,
    Optional<key::Patch>,
    Optional<key::Media>,
    ThirdKeys,
);

/// Those from `supplemental` on.
type ThirdKeys = (
    Optional<key::Supplemental>,
    Required<key::TagVersion>,
    Optional<key::SoftwareVersion>,
    Optional<key::VersionScheme>,
    Optional<key::Lang>,
    (),
);

/// The table of tags.
pub(crate) struct TagTable;

impl Mapped for TagTable {
    type Value = Tag;

    ghost name = { schema.tag };

    ghost keys = { KeysOf tag_table };

    ghost written = { pairs_of tag_table };

    fn read(alloc: Global, pairs: Pairs) -> Result<Tag, FormRefused> {
        let mut pairs = pairs;
        let values = read_map::<Keys>(alloc, &mut pairs)?;
        let (tag_id, software_name, entity, evidence, link, later) = values;
        let (software_meta, payload, corpus, patch, media, later) = later;
        let (supplemental, tag_version, software_version, version_scheme, lang, ()) = later;
        Ok(Tag {
            tag_id,
            software_name,
            entity,
            evidence,
            link,
            software_meta,
            payload,
            corpus,
            patch,
            media,
            supplemental,
            tag_version,
            software_version,
            version_scheme,
            lang,
            extras: pairs,
        })
    }

    fn spell(out: &mut Octets, tag: &Tag) -> Result<(), Memory> {
        let others = &tag.extras;
        others.put_head_with(out, count_keys(tag))?;
        let place = spell_first(out, tag, 0)?;
        let place = spell_second(out, tag, place)?;
        let place = spell_third(out, tag, place)?;
        Ok(others.put_from(out, place)?)
    }
}

/// How many of the keys of section 2.3 the tag has.
fn count_keys(tag: &Tag) -> u8
    ensures count { result ≡ present (rows_of tag_table tag.now) }
{
    4 + count(&tag.evidence)
        + count(&tag.link)
        + count(&tag.software_meta)
        + count(&tag.payload)
        + count(&tag.corpus)
        + count(&tag.patch)
        + count(&tag.media)
        + count(&tag.supplemental)
        + count(&tag.software_version)
        + count(&tag.version_scheme)
        + count(&tag.lang)
}

/// Puts the spelling of the fields from `tag-id` to `link`, and of the other pairs from
/// `place` on that are below them. Gives the place of the first that is not; `Memory` where there
/// is no room.
fn spell_first(out: &mut Octets, tag: &Tag, place: usize) -> Result<usize, Memory>
    ensures spelled { IfOk result (λ next. SpellsRows out.old out.new (first_rows (rows_of tag_table tag.now)) (from place (pairs_view tag.now.extras)) (from next (pairs_view tag.now.extras))) }
{
    let others = &tag.extras;
    let place = key::TagId::spell(out, others, place, &tag.tag_id)?;
    let place = key::SoftwareName::spell(out, others, place, &tag.software_name)?;
    let place = key::Entity::spell_row(out, others, place, &tag.entity)?;
    let place = key::Evidence::spell_optional(out, others, place, &tag.evidence)?;
    key::Link::spell_optional_row(out, others, place, &tag.link)
}

/// Puts the spelling of the fields from `software-meta` to `media`, and of the other pairs from
/// `place` on that are below them. Gives the place of the first that is not; `Memory` where there
/// is no room.
fn spell_second(out: &mut Octets, tag: &Tag, place: usize) -> Result<usize, Memory>
    ensures spelled { IfOk result (λ next. SpellsRows out.old out.new (second_rows (rows_of tag_table tag.now)) (from place (pairs_view tag.now.extras)) (from next (pairs_view tag.now.extras))) }
{
    let others = &tag.extras;
    let place = key::SoftwareMeta::spell_optional_row(out, others, place, &tag.software_meta)?;
    let place = key::Payload::spell_optional(out, others, place, &tag.payload)?;
    let place = key::Corpus::spell_optional(out, others, place, &tag.corpus)?;
    let place = key::Patch::spell_optional(out, others, place, &tag.patch)?;
    key::Media::spell_optional(out, others, place, &tag.media)
}

/// Puts the spelling of the fields from `supplemental` to `lang`, and of the other pairs from
/// `place` on that are below them. Gives the place of the first that is not; `Memory` where there
/// is no room.
fn spell_third(out: &mut Octets, tag: &Tag, place: usize) -> Result<usize, Memory>
    ensures spelled { IfOk result (λ next. SpellsRows out.old out.new (third_rows (rows_of tag_table tag.now)) (from place (pairs_view tag.now.extras)) (from next (pairs_view tag.now.extras))) }
{
    let others = &tag.extras;
    let place = key::Supplemental::spell_optional(out, others, place, &tag.supplemental)?;
    let place = key::TagVersion::spell(out, others, place, &tag.tag_version)?;
    let place = key::SoftwareVersion::spell_optional(out, others, place, &tag.software_version)?;
    let place = key::VersionScheme::spell_optional(out, others, place, &tag.version_scheme)?;
    key::Lang::spell_optional(out, others, place, &tag.lang)
}
