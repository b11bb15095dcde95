//! PA-TNC messages and attributes (RFC 5792): whole messages, errors, and attributes from a stream
//! of octets.
//!
//! It stands on `wire_base`, and on `thiserror` for the texts of errors. The crates above rest on
//! these clauses:
//!
//! - `read` of `read_message`: the attributes with the places of their values, or the first fault
//!   of the message; with `few`, `within` and `supported` of these attributes.
//! - `octets` of `write_message` and of `write_error`, and `value` of `read_error`.
//! - `fault` of `value_fault`, `answered` of `is_value_fault_answered` and `error` of
//!   `PaError::of`: the fault of a value, whether a fault is answered, and by which Error.
//! - `fed` of `AttrFeed::feed`: what a feed answers, by the octets that it was handed, joined.
//!
//! | file | what it holds |
//! |---|---|
//! | `attr.rt` | attributes and messages as values |
//! | `header.rt`, `header_fault.rt` | the header of an attribute, and its faults |
//! | `read.rt`, `write.rt` | octets to a message, and back |
//! | `feed.rt`, `held.rt` | attributes from octets in pieces, and the octets that a feed holds |
//! | `fault.rt` | what is wrong with a message or an attribute |
//! | `error.rt`, `error_code.rt`, `error_octets.rt` | Errors, their codes, and their octets |
//! | `numbers.rt` | the numbers of RFC 5792, and our limits |
//! | `laws.rt` | what the definitions mean, proved |
//!
//! The words of the clauses are in `specs/`:
//!
//! | file | what it says |
//! |---|---|
//! | `AttrForm`, `MessageForm`, `ErrorForm` | the layouts |
//! | `Header` | the header in the octets that an attribute begins with |
//! | `Faults`, `FirstFault` | the table of faults, and which fault of a message counts |
//! | `MessageReading` | a message read whole |
//! | `Stream`, `Held` | what a stream begins with, and how a feed holds octets |
//! | `Numbers`, `Laws` | the numbers, and what the definitions mean |
#![tactic(auto)]

mod attr;
mod error;
mod error_code;
mod error_octets;
mod fault;
mod feed;
mod header;
mod header_fault;
mod held;
pub mod laws;
mod numbers;
mod read;
mod write;

pub use attr::{Attr, Attrs, PaMessage, PlacedAttr, PlacedAttrs};
pub use error::PaError;
pub use error_code::PaErrorCode;
pub use error_octets::{read_error, write_error};
pub use fault::{AttrFault, PaFault};
pub use feed::{AttrFed, AttrFeed};
pub use header::{Header, read_header};
pub use numbers::{
    ERROR, HEADER_OCTETS, IETF, INVALID_PARAMETER, UNSUPPORTED_ATTRIBUTE, VERSION_NOT_SUPPORTED,
};
pub use read::{PaRead, is_value_fault_answered, read_message, value_fault};
pub use write::write_message;
