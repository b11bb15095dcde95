//! What a tag says of the software beyond its name and version.

use crate::value::TagId;
use cbor_det::Pairs;
use wire_base::{List, Text};

/// Descriptions in order.
pub type SoftwareMetas = List<SoftwareMeta>;

/// A description of the software: an entry of software-meta (RFC 9393, section 2.8). A long text in
/// it has the name description too.
#[derive(Debug, Drop)]
pub struct SoftwareMeta {
    /// Whether it is licensed, on trial and the like.
    pub activation_status: Option<Text>,
    /// Through which channel it was sold.
    pub channel_type: Option<Text>,
    /// The version as it is spoken of.
    pub colloquial_version: Option<Text>,
    /// What it does, at length.
    pub description: Option<Text>,
    /// Its edition.
    pub edition: Option<Text>,
    /// Whether a proof of entitlement is needed.
    pub entitlement_data_required: Option<bool>,
    /// The key of the entitlement.
    pub entitlement_key: Option<Text>,
    /// What made the tag.
    pub generator: Option<TagId>,
    /// What is common to its releases.
    pub persistent_id: Option<Text>,
    /// The product's name without its maker.
    pub product: Option<Text>,
    /// The family of products.
    pub product_family: Option<Text>,
    /// The release between versions.
    pub revision: Option<Text>,
    /// What it does, in short.
    pub summary: Option<Text>,
    /// Its code in the classification of the United Nations, UNSPSC.
    pub unspsc_code: Option<Text>,
    /// The version of UNSPSC.
    pub unspsc_version: Option<Text>,
    /// The pairs under all other keys.
    pub extras: Pairs,
}
