//! Entities: RFC 9393, section 2.6.

ghost use Rattle.coswid_codec.specs.Parts.{entity_table};
ghost use Rattle.coswid_res.specs.Columns.{KeysOf, pairs_of};
ghost use Rattle.coswid_res.specs.Schema as schema;

use crate::key;
use cbor_det::Pairs;
use coswid_res::{FormRefused, Mapped, Optional, Required, RequiredRow, count, read_map};
use coswid_tag::Entity;
use std::alloc::Global;
use wire_base::{Memory, Octets};

/// The keys of entities.
type Keys = (
    Required<key::EntityName>,
    (
        Optional<key::RegId>,
        (RequiredRow<key::Role>, (Optional<key::Thumbprint>, ())),
    ),
);

/// The table of entities.
pub(crate) struct EntityTable;

impl Mapped for EntityTable {
    type Value = Entity;

    ghost name = { schema.entity };

    ghost keys = { KeysOf entity_table };

    ghost written = { pairs_of entity_table };

    fn read(alloc: Global, pairs: Pairs) -> Result<Entity, FormRefused> {
        let mut pairs = pairs;
        let values = read_map::<Keys>(alloc, &mut pairs)?;
        let (entity_name, (reg_id, (role, (thumbprint, ())))) = values;
        Ok(Entity {
            entity_name,
            reg_id,
            role,
            thumbprint,
            extras: pairs,
        })
    }

    fn spell(out: &mut Octets, entity: &Entity) -> Result<(), Memory> {
        let others = &entity.extras;
        let more = 2 + count(&entity.reg_id) + count(&entity.thumbprint);
        others.put_head_with(out, more)?;
        let place = key::EntityName::spell(out, others, 0, &entity.entity_name)?;
        let place = key::RegId::spell_optional(out, others, place, &entity.reg_id)?;
        let place = key::Role::spell_row(out, others, place, &entity.role)?;
        let place = key::Thumbprint::spell_optional(out, others, place, &entity.thumbprint)?;
        Ok(others.put_from(out, place)?)
    }
}
