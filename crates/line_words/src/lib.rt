//! The words of a line of text, and the values that words are.
//!
//! It stands on `swima_model` for limits, on `wire_base` for numbers and printable text, and on
//! `hex` and `memchr`. The crates above rest on the clauses of the calls.
//!
//! | file | what it holds | its words in `specs/` |
//! |---|---|---|
//! | `words.rt` | the words of a line | `Words` |
//! | `reading.rt` | words as values | `Reading` |
#![tactic(auto)]

mod reading;
mod words;

pub use reading::{bounded, read_number, read_octets, read_text};
pub use words::Words;
