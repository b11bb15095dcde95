//! Rows of items of CBOR (RFC 8949) and of CoSWID tags (RFC 9393). Each call gets the words after
//! its name, and answers with a text.
//!
//! It stands on the crates whose calls it tries, and on `conformance_words`.
//!
//! | file | calls |
//! |---|---|
//! | `cbor.rt` | `cbor` |
//! | `tag.rt` | `tag`, `tag_text`, `tag_summary` |
//! | `payload.rt` | `verify` |
//! | `links.rt` | `links` |
#![tactic(auto)]

pub mod cbor;
pub mod links;
pub mod payload;
pub mod tag;
