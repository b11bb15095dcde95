//! CoSWID tags as values (RFC 9393, section 2), what kind a tag is, what is wrong with it by plain
//! rules, and its software identifier (RFC 8412, section 3.4.1).
//!
//! It stands on `coswid_res` for payload, evidence and hashes, and on `cbor_det` for pairs that no
//! field holds. `wire_base` gives lists, `uuid` the text of a UUID, `thiserror` the texts of
//! errors. The crates above rest on:
//!
//! - `kind` of `kind`: primary, corpus, patch or supplemental.
//! - `findings` of `constraints`: the numbers of what is wrong, in order.
//! - `named` of `Rel::is`: whether a link has a relation.
//! - `identifier` of `software_identifier`.
//!
//! | file | what it holds | its words in `specs/` |
//! |---|---|---|
//! | `tag.rt`, `entity.rt`, `link.rt`, `meta.rt` | the values | |
//! | `value.rt` | identifiers of tags, and codes | |
//! | `rel.rt` | the relations of links that the rules name (RFC 9393, section 4.4) | `Codes` |
//! | `tag_kind.rt` | what kind a tag is (RFC 9393, section 3) | `Kind` |
//! | `finding.rt` | what is wrong with a tag (RFC 9393, sections 2.4 and 2.7) | `Findings` |
//! | `finding_kind.rt` | the kinds of findings, by name | `FindingKinds` |
//! | `identifier.rt` | the software identifier (RFC 8412, section 3.4.1) | `Identifier` |
#![tactic(auto)]

mod entity;
mod finding;
mod finding_kind;
mod identifier;
mod link;
mod meta;
mod rel;
mod tag;
mod tag_kind;
mod value;

pub use entity::{Entities, Entity};
pub use finding::{Findings, constraints};
pub use finding_kind::FindingKind;
pub use identifier::{IdentRefused, software_identifier};
pub use link::{LinkEntries, LinkEntry};
pub use meta::{SoftwareMeta, SoftwareMetas};
pub use rel::Rel;
pub use tag::Tag;
pub use tag_kind::{TagKind, kind};
pub use value::{CodeValue, CodeValues, TagId};
