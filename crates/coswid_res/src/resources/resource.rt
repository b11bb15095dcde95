//! Resources of a payload or of evidence that are neither directories nor files nor processes:
//! RFC 9393, section 2.9.2.

ghost use Rattle.coswid_res.specs.Columns.{KeysOf, pairs_of};
ghost use Rattle.coswid_res.specs.Resources.{resource_table};
ghost use Rattle.coswid_res.specs.Schema as schema;

use crate::fault::FormRefused;
use crate::resources::table;
use crate::tables::columns::{Required, read_map};
use crate::tables::map_form::{ItemMapped, Mapped};
use cbor_det::Pairs;
use std::alloc::Global;
use wire_base::{List, Memory, Octets, Text, TryCopy};

/// Resources in order.
pub type ResourceEntries = List<ResourceEntry>;

/// A resource.
#[derive(Debug, Drop)]
pub struct ResourceEntry {
    /// What kind of resource it is.
    pub resource_type: Text,
    /// The pairs under all other keys.
    pub extras: Pairs,
}

/// The keys of resources.
type Keys = (Required<table::ResourceType>, ());

/// The table of resources.
pub(crate) struct ResourceTable;

impl Mapped for ResourceTable {
    type Value = ResourceEntry;

    ghost name = { schema.resource };

    ghost keys = { KeysOf resource_table };

    ghost written = { pairs_of resource_table };

    fn read(alloc: Global, pairs: Pairs) -> Result<ResourceEntry, FormRefused> {
        let mut pairs = pairs;
        let (resource_type, ()) = read_map::<Keys>(alloc, &mut pairs)?;
        Ok(ResourceEntry {
            resource_type,
            extras: pairs,
        })
    }

    fn spell(out: &mut Octets, resource: &ResourceEntry) -> Result<(), Memory> {
        let others = &resource.extras;
        others.put_head_with(out, 1)?;
        let place = table::ResourceType::spell(out, others, 0, &resource.resource_type)?;
        Ok(others.put_from(out, place)?)
    }
}

impl ItemMapped for ResourceTable {
    ghost fits = { λ v. Unit {0} };

    fn write(resource: &ResourceEntry) -> Result<Pairs, Memory> {
        let mut pairs = resource.extras.copy()?;
        table::ResourceType::put(&mut pairs, &resource.resource_type)?;
        Ok(pairs)
    }
}
