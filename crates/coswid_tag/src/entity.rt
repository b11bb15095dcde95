//! Entities of a tag.

use crate::value::CodeValues;
use cbor_det::Pairs;
use coswid_res::HashEntry;
use wire_base::{List, Text};

/// Entities in order.
pub type Entities = List<Entity>;

/// Who made, owns or hands out the software or the tag (RFC 9393, section 2.6).
#[derive(Debug, Drop)]
pub struct Entity {
    /// Its name.
    pub entity_name: Text,
    /// The URI of its registration.
    pub reg_id: Option<Text>,
    /// Its roles, at least one: tag creator 1, software creator 2, aggregator 3, distributor 4,
    /// licensor 5, maintainer 6.
    pub role: CodeValues,
    /// The hash of a certificate that is its own.
    pub thumbprint: Option<HashEntry>,
    /// The pairs under all other keys.
    pub extras: Pairs,
}
