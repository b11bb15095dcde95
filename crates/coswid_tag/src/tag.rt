//! Tags.

use crate::entity::Entities;
use crate::link::LinkEntries;
use crate::meta::SoftwareMetas;
use crate::value::{CodeValue, TagId};
use cbor_det::Pairs;
use coswid_res::{Evidence, Payload};
use wire_base::Text;

/// A concise software identification tag (RFC 9393, section 2.3).
#[derive(Debug, Drop)]
pub struct Tag {
    /// What identifies the tag, everywhere and always.
    pub tag_id: TagId,
    /// The software's name.
    pub software_name: Text,
    /// Who made, owns or hands out the software and the tag, at least one.
    pub entity: Entities,
    /// What was found of the software on an endpoint.
    pub evidence: Option<Evidence>,
    /// Links, at least one.
    pub link: Option<LinkEntries>,
    /// Descriptions of the software, at least one.
    pub software_meta: Option<SoftwareMetas>,
    /// What the software installs. A tag with evidence has none.
    pub payload: Option<Payload>,
    /// Whether it describes software that is not installed yet.
    pub corpus: Option<bool>,
    /// Whether it describes a patch.
    pub patch: Option<bool>,
    /// For which media the software is meant, as a query.
    pub media: Option<Text>,
    /// Whether it adds to another tag.
    pub supplemental: Option<bool>,
    /// Which release of the tag it is.
    pub tag_version: i64,
    /// The software's version.
    pub software_version: Option<Text>,
    /// How the version is built: multipart numeric 1, multipart numeric with suffix 2, alphanumeric
    /// 3, decimal 4, semantic version 16384.
    pub version_scheme: Option<CodeValue>,
    /// The language of its texts.
    pub lang: Option<Text>,
    /// The pairs under all other keys.
    pub extras: Pairs,
}
