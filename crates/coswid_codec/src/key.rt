//! The keys of tags, each with its number and the form of what stands under it (RFC 9393,
//! section 2).

use crate::entity::EntityTable;
use crate::forms::{CodeForm, IdentifierForm};
use crate::link::LinkTable;
use crate::meta::MetaTable;
use coswid_res::{
    BoolForm, EvidenceTable, HashForm, IntForm, Key, MapForm, PayloadTable, TextForm, UriForm,
};

// Tags: section 2.3.

/// `tag-id`, required.
pub(crate) type TagId = Key<0, IdentifierForm>;

/// `software-name`, required.
pub(crate) type SoftwareName = Key<1, TextForm>;

/// `entity`, one or more, required.
pub(crate) type Entity = Key<2, MapForm<EntityTable>>;

/// `evidence`.
pub(crate) type Evidence = Key<3, MapForm<EvidenceTable>>;

/// `link`, one or more.
pub(crate) type Link = Key<4, MapForm<LinkTable>>;

/// `software-meta`, one or more.
pub(crate) type SoftwareMeta = Key<5, MapForm<MetaTable>>;

/// `payload`.
pub(crate) type Payload = Key<6, MapForm<PayloadTable>>;

/// `corpus`.
pub(crate) type Corpus = Key<8, BoolForm>;

/// `patch`.
pub(crate) type Patch = Key<9, BoolForm>;

/// `media`, of a tag and of a link.
pub(crate) type Media = Key<10, TextForm>;

/// `supplemental`.
pub(crate) type Supplemental = Key<11, BoolForm>;

/// `tag-version`, required.
pub(crate) type TagVersion = Key<12, IntForm>;

/// `software-version`.
pub(crate) type SoftwareVersion = Key<13, TextForm>;

/// `version-scheme`.
pub(crate) type VersionScheme = Key<14, CodeForm>;

/// `lang`.
pub(crate) type Lang = Key<15, TextForm>;

// Entities: section 2.6.

/// `entity-name`, required.
pub(crate) type EntityName = Key<31, TextForm>;

/// `reg-id`.
pub(crate) type RegId = Key<32, UriForm>;

/// `role`, one or more, required.
pub(crate) type Role = Key<33, CodeForm>;

/// `thumbprint`.
pub(crate) type Thumbprint = Key<34, HashForm>;

// Links: section 2.7, and `Media`.

/// `artifact`.
pub(crate) type Artifact = Key<37, TextForm>;

/// `href`, required.
pub(crate) type Href = Key<38, UriForm>;

/// `ownership`.
pub(crate) type Ownership = Key<39, CodeForm>;

/// `rel`, required.
pub(crate) type Rel = Key<40, CodeForm>;

/// `media-type`.
pub(crate) type MediaType = Key<41, TextForm>;

/// `use`.
pub(crate) type LinkUse = Key<42, CodeForm>;

// Descriptions of software: section 2.8. None must be there.

/// `activation-status`.
pub(crate) type ActivationStatus = Key<43, TextForm>;

/// `channel-type`.
pub(crate) type ChannelType = Key<44, TextForm>;

/// `colloquial-version`.
pub(crate) type ColloquialVersion = Key<45, TextForm>;

/// `description`.
pub(crate) type Description = Key<46, TextForm>;

/// `edition`.
pub(crate) type Edition = Key<47, TextForm>;

/// `entitlement-data-required`.
pub(crate) type EntitlementDataRequired = Key<48, BoolForm>;

/// `entitlement-key`.
pub(crate) type EntitlementKey = Key<49, TextForm>;

/// `generator`.
pub(crate) type Generator = Key<50, IdentifierForm>;

/// `persistent-id`.
pub(crate) type PersistentId = Key<51, TextForm>;

/// `product`.
pub(crate) type Product = Key<52, TextForm>;

/// `product-family`.
pub(crate) type ProductFamily = Key<53, TextForm>;

/// `revision`.
pub(crate) type Revision = Key<54, TextForm>;

/// `summary`.
pub(crate) type Summary = Key<55, TextForm>;

/// `unspsc-code`.
pub(crate) type UnspscCode = Key<56, TextForm>;

/// `unspsc-version`.
pub(crate) type UnspscVersion = Key<57, TextForm>;
