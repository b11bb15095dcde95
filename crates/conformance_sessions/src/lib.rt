//! Rows of sessions (RFC 5793 and RFC 8412), and of the lines that a source of changes reads. Each
//! call gets the words after its name, and answers with a text.
//!
//! It stands on the crates whose calls it tries, on `conformance_inventory` for the changes of an
//! inventory and the texts of a mirror, and on `conformance_words`.
//!
//! | file | calls |
//! |---|---|
//! | `collector.rt` | `collector`, `collector_cut` |
//! | `validator.rt` | `validator`, `validator_cut` |
//! | `session_links.rt` | `collector_link`, `validator_link` |
//! | `lines.rt` | `lines` |
//! | `settings.rt` | no call: how the ends of a row are configured |
//! | `noted.rt` | no call: the texts of ends, of records, and of consecutive ends |
#![tactic(auto)]

pub mod collector;
pub mod lines;
mod noted;
pub mod session_links;
mod settings;
pub mod validator;
