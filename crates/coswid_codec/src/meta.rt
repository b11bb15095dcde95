//! Descriptions of software: RFC 9393, section 2.8.

ghost use Rattle.std.specs.Prelude.{◌≡◌, IfOk};
ghost use Rattle.cbor_det.specs.Laid.{from, present};
ghost use Rattle.cbor_det.specs.View.{pairs_view};
ghost use Rattle.coswid_codec.specs.Groups.{SpellsRows, first_rows, second_rows, third_rows};
ghost use Rattle.coswid_codec.specs.Parts.{meta_table};
ghost use Rattle.coswid_res.specs.Columns.{KeysOf, pairs_of, rows_of};
ghost use Rattle.coswid_res.specs.Schema as schema;

use crate::key;
use cbor_det::Pairs;
use coswid_res::{FormRefused, Mapped, Optional, count, read_map};
use coswid_tag::SoftwareMeta;
use std::alloc::Global;
use wire_base::{Memory, Octets};

/// The keys of descriptions.
type Keys = (
    Optional<key::ActivationStatus>,
    Optional<key::ChannelType>,
    Optional<key::ColloquialVersion>,
    Optional<key::Description>,
    Optional<key::Edition>,
    SecondKeys,
);

/// Those from `entitlement-data-required` on.
type SecondKeys = (
    Optional<key::EntitlementDataRequired>,
    Optional<key::EntitlementKey>,
    Optional<key::Generator>,
    Optional<key::PersistentId>,
    Optional<key::Product>,
    ThirdKeys,
);

/// Those from `product-family` on.
type ThirdKeys = (
    Optional<key::ProductFamily>,
    Optional<key::Revision>,
    Optional<key::Summary>,
    Optional<key::UnspscCode>,
    Optional<key::UnspscVersion>,
    (),
);

/// The table of descriptions of software.
pub(crate) struct MetaTable;

impl Mapped for MetaTable {
    type Value = SoftwareMeta;

    ghost name = { schema.software_meta };

    ghost keys = { KeysOf meta_table };

    ghost written = { pairs_of meta_table };

    fn read(alloc: Global, pairs: Pairs) -> Result<SoftwareMeta, FormRefused> {
        let mut pairs = pairs;
        let values = read_map::<Keys>(alloc, &mut pairs)?;
        let (activation_status, channel_type, colloquial_version, description, edition, later) =
            values;
        let (entitlement_data_required, entitlement_key, generator, persistent_id, product, later) =
            later;
        let (product_family, revision, summary, unspsc_code, unspsc_version, ()) = later;
        Ok(SoftwareMeta {
            activation_status,
            channel_type,
            colloquial_version,
            description,
            edition,
            entitlement_data_required,
            entitlement_key,
            generator,
            persistent_id,
            product,
            product_family,
            revision,
            summary,
            unspsc_code,
            unspsc_version,
            extras: pairs,
        })
    }

    fn spell(out: &mut Octets, meta: &SoftwareMeta) -> Result<(), Memory> {
        let others = &meta.extras;
        others.put_head_with(out, count_keys(meta))?;
        let place = spell_first(out, meta, 0)?;
        let place = spell_second(out, meta, place)?;
        let place = spell_third(out, meta, place)?;
        Ok(others.put_from(out, place)?)
    }
}

/// How many of the keys of section 2.8 the description has.
fn count_keys(meta: &SoftwareMeta) -> u8
    ensures count { result ≡ present (rows_of meta_table meta.now) }
{
    count(&meta.activation_status)
        + count(&meta.channel_type)
        + count(&meta.colloquial_version)
        + count(&meta.description)
        + count(&meta.edition)
        + count(&meta.entitlement_data_required)
        + count(&meta.entitlement_key)
        + count(&meta.generator)
        + count(&meta.persistent_id)
        + count(&meta.product)
        + count(&meta.product_family)
        + count(&meta.revision)
        + count(&meta.summary)
        + count(&meta.unspsc_code)
        + count(&meta.unspsc_version)
}

/// Puts the spelling of the first fields, and of the other pairs from `place` on that are below
/// them. Gives the place of the first that is not; `Memory` where there is no room.
fn spell_first(out: &mut Octets, meta: &SoftwareMeta, place: usize) -> Result<usize, Memory>
    ensures spelled { IfOk result (λ next. SpellsRows out.old out.new (first_rows (rows_of meta_table meta.now)) (from place (pairs_view meta.now.extras)) (from next (pairs_view meta.now.extras))) }
{
    let others = &meta.extras;
    let place = key::ActivationStatus::spell_optional(out, others, place, &meta.activation_status)?;
    let place = key::ChannelType::spell_optional(out, others, place, &meta.channel_type)?;
    let place = key::ColloquialVersion::spell_optional(
        out,
        others,
        place,
        &meta.colloquial_version,
    )?;
    let place = key::Description::spell_optional(out, others, place, &meta.description)?;
    key::Edition::spell_optional(out, others, place, &meta.edition)
}

/// Puts the spelling of the second fields, and of the other pairs from `place` on that are below
/// them. Gives the place of the first that is not; `Memory` where there is no room.
fn spell_second(out: &mut Octets, meta: &SoftwareMeta, place: usize) -> Result<usize, Memory>
    ensures spelled { IfOk result (λ next. SpellsRows out.old out.new (second_rows (rows_of meta_table meta.now)) (from place (pairs_view meta.now.extras)) (from next (pairs_view meta.now.extras))) }
{
    let others = &meta.extras;
    let place = key::EntitlementDataRequired::spell_optional(
        out,
        others,
        place,
        &meta.entitlement_data_required,
    )?;
    let place = key::EntitlementKey::spell_optional(out, others, place, &meta.entitlement_key)?;
    let place = key::Generator::spell_optional(out, others, place, &meta.generator)?;
    let place = key::PersistentId::spell_optional(out, others, place, &meta.persistent_id)?;
    key::Product::spell_optional(out, others, place, &meta.product)
}

/// Puts the spelling of the third fields, and of the other pairs from `place` on that are below
/// them. Gives the place of the first that is not; `Memory` where there is no room.
fn spell_third(out: &mut Octets, meta: &SoftwareMeta, place: usize) -> Result<usize, Memory>
    ensures spelled { IfOk result (λ next. SpellsRows out.old out.new (third_rows (rows_of meta_table meta.now)) (from place (pairs_view meta.now.extras)) (from next (pairs_view meta.now.extras))) }
{
    let others = &meta.extras;
    let place = key::ProductFamily::spell_optional(out, others, place, &meta.product_family)?;
    let place = key::Revision::spell_optional(out, others, place, &meta.revision)?;
    let place = key::Summary::spell_optional(out, others, place, &meta.summary)?;
    let place = key::UnspscCode::spell_optional(out, others, place, &meta.unspsc_code)?;
    key::UnspscVersion::spell_optional(out, others, place, &meta.unspsc_version)
}
