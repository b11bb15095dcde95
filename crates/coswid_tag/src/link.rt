//! Links of a tag.

use crate::value::CodeValue;
use cbor_det::Pairs;
use wire_base::{List, Text};

/// Links in order.
pub type LinkEntries = List<LinkEntry>;

/// A link to another tag or to anything else (RFC 9393, section 2.7).
#[derive(Debug, Drop)]
pub struct LinkEntry {
    /// For which media it is meant, as a query.
    pub media: Option<Text>,
    /// The canonical name of what the link leads to.
    pub artifact: Option<Text>,
    /// Where it leads, a URI.
    pub href: Text,
    /// How strong the two own one another: abandon 1, private 2, shared 3.
    pub ownership: Option<CodeValue>,
    /// How the two are related: ancestor 1, component 2, feature 3, installation media 4, package
    /// installer 5, parent 6, patches 7, requires 8, see also 9, supersedes 10, supplemental 11.
    pub rel: CodeValue,
    /// The media type of what it leads to.
    pub media_type: Option<Text>,
    /// Whether it has to be installed: optional 1, required 2, recommended 3.
    pub link_use: Option<CodeValue>,
    /// The pairs under all other keys.
    pub extras: Pairs,
}
