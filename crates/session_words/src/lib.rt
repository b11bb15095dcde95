//! What the messages of a batch say to an end, and what is written of a message (RFC 5792,
//! RFC 8412).
//!
//! It stands on `session_rules` for the definitions, on `pa_attrs` and `pb_batch` for messages, and
//! on `wire_base`. Both ends of a session stand on:
//!
//! - `said` of `read_words`: a word of each attribute, or the refusal of the message;
//! - `verdict` of `verdict_of`: what becomes of a batch;
//! - `attribute` of `error_attribute`, and `message` of `write_words`.
//!
//! | file | what it holds |
//! |---|---|
//! | `reader.rt` | what reads the words of an end |
//! | `said.rt` | a message to its words, or to its refusal |
//! | `verdict.rt` | what becomes of a batch before it is looked into |
//! | `write.rt` | attributes and messages that are written |
//!
//! `Said` in `specs/` ties the value of `read_words` to what a message says by `session_rules`.
#![tactic(auto)]

mod reader;
mod said;
mod verdict;
mod write;

pub use reader::WordReader;
pub use said::{Said, read_words, swima_body};
pub use verdict::verdict_of;
pub use write::{attribute, error_attribute, write_words};
