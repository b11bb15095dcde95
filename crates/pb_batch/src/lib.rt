//! PB-TNC batches (RFC 5793, section 4): values from octets that come in pieces, and octets of
//! values.
//!
//! It stands on `wire_base`, and on `thiserror` for the texts of errors. The crates above rest on:
//!
//! - `fed` of `BatchFeed::feed`: what a feed answers, by the octets that it was handed, joined.
//! - `writable` there: a batch that a feed hands out can be written, so no body in it has more than
//!   16777216 octets (`laws::bodies_fit`).
//! - `octets` of `write_batch` and of `fault_batch`: the one written form.
//!
//! | file | what it holds |
//! |---|---|
//! | `batch.rt`, `kind.rt` | batches as values, and their kinds |
//! | `feed.rt` | batches from octets in pieces |
//! | `batch_header.rt` | the header of a batch, with its faults |
//! | `message_head.rt`, `message_value.rt` | the parts of a message, each with its faults |
//! | `read_messages.rt` | the messages of a batch |
//! | `fault.rt`, `error_code.rt` | what is wrong with a batch, and the codes of PB-Errors |
//! | `write.rt`, `fault_report.rt` | octets of a batch, and the batch that reports a fault |
//! | `numbers.rt` | the numbers of RFC 5793, and our limits |
//! | `laws.rt` | what the definitions mean, proved |
//!
//! The words of the clauses are in `specs/`:
//!
//! | file | what it says |
//! |---|---|
//! | `Form`, `Written` | the layout, `BatchForm`, and what is written, `written` |
//! | `FieldReading`, `Faults` | the fields as they are read, and the tables of faults |
//! | `Front` | what joined octets begin with, `front_of` |
//! | `Feeding` | what a feed holds, and what it answers |
//! | `Types` | the numbers of batches, messages and error codes |
//! | `Shown`, `Gives` | what the tables mean; calls that may run out of memory |
//!
//! `proofs/Fronts.antt` has what a caller needs to know of octets that grow.
#![tactic(auto)]

mod batch;
mod batch_header;
mod error_code;
mod fault;
mod fault_report;
mod feed;
mod kind;
pub mod laws;
mod message_head;
mod message_value;
mod numbers;
mod read_messages;
mod write;

pub use batch::{Batch, Message, Messages};
pub use error_code::PbErrorCode;
pub use fault::PbFault;
pub use fault_report::fault_batch;
pub use feed::{BatchFed, BatchFeed};
pub use kind::BatchKind;
pub use write::write_batch;
