//! CoSWID tags from octets to values and back (RFC 9393), and the lines that the command `tag`
//! prints of one.
//!
//! It stands on `coswid_tag` for the values, on `coswid_res` for what the maps share, and on
//! `cbor_det` for items. `wire_base` gives lists, `hex` digits, `thiserror` the texts of errors.
//! The crates above rest on:
//!
//! - all clauses of `read_tag`: which tag the octets begin with, and which fault is answered.
//! - `canonical` of `write_tag`: the one spelling of a tag.
//! - `text` of `tag_text`, and `appended` of `put_summary` and of `put_canonical`.
//! - `laws`: what is read is what was written, and every input has a tag or a fault.
//!
//! | file | what it holds |
//! |---|---|
//! | `read.rt` | octets to a tag, and why there is none |
//! | `write.rt` | a tag to octets, under the tag of CoSWID tags (RFC 9393, section 8) |
//! | `text.rt` | the lines of the command `tag` |
//! | `tag.rt` | the map of a tag (RFC 9393, section 2.3) |
//! | `entity.rt`, `link.rt`, `meta.rt` | the maps in it (RFC 9393, sections 2.6 to 2.8) |
//! | `key.rt` | the keys of these maps, each with its number and its form |
//! | `forms.rt` | the forms of identifiers and codes |
//! | `deep.rt` | how deep items are |
//! | `laws.rt` | what the definitions mean, proved |
//!
//! The definitions in `specs/`, which cite each key by its name in `Keys` of `coswid_res`:
//!
//! | file | what it says |
//! |---|---|
//! | `Answers` | what octets begin with, and what is answered |
//! | `Parts`, `Forms`, `Groups` | the tables of tags and of what is in them, key by key |
//! | `Marked`, `TagFault` | items under the tag of CoSWID tags; the first form fault |
//! | `Items`, `HasItem`, `SizesFit` | the item that a tag is written as; which tags have one |
//! | `TagText` | the lines of the command `tag` |
//! | `Laws` | what the laws say |
#![tactic(auto)]

mod deep;
mod entity;
mod forms;
mod key;
pub mod laws;
mod link;
mod meta;
mod read;
mod tag;
mod text;
mod write;

pub use read::{TagRefused, read_tag};
pub use text::{put_canonical, put_summary, tag_text};
pub use write::write_tag;
