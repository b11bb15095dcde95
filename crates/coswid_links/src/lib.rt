//! What is wrong between tags of a list (RFC 9393): links that lead to no tag or to none of the
//! right kind, and tags that claim one identity with different content.
//!
//! It stands on `coswid_tag` for tags, on `coswid_codec` for their canonical spelling, on
//! `cbor_det`, on `wire_base`, on `uuid` for the text of a UUID, and on `thiserror` for the texts
//! of errors. The crates above rest on `findings` of `check_links`: all that is wrong, in order.
//!
//! | file | what it holds | its words in `specs/` |
//! |---|---|---|
//! | `finding.rt` | findings, and the call that gives all of a list | `LinkFindings` |
//! | `link_finding_kind.rt` | the kinds of findings, by name | `FindingKinds` |
//! | `link.rt` | what is wrong with links (RFC 9393, sections 2.7, 4.4) | `Links`, `Listed` |
//! | `names.rt` | the names that links have for tags | `Names`, `Aims` |
//! | `rival.rt` | tags that claim one release (RFC 9393, section 2.3) | `Rivals`, `Listed` |
//! | `release.rt` | what identifies a release of a tag | `Releases` |
//! | `rival_chain.rt` | the later tags of a release whose content differs | `RivalChains` |
//! | `first_equal.rt` | values distinguished by numbers | `FirstEqual` |
#![tactic(auto)]

mod finding;
mod first_equal;
mod link;
mod link_finding_kind;
mod names;
mod release;
mod rival;
mod rival_chain;

pub use finding::{LinkFinding, LinkFindings, check_links};
pub use link_finding_kind::LinkFindingKind;
