//! A source of lines: what is installed, read from an input of lines.
//!
//! It stands on `source_set` for sources, on `coswid_codec` and `coswid_tag` for tags, on
//! `cbor_det` for the words of their clauses, on `line_words` for words and their values, on
//! `swima_model` for contents, and on `wire_base`, `memchr` and `thiserror`. The crates above rest
//! on the clauses of `LineSource::next` and `LineSource::last_fault`.
//!
//! | file | what it holds |
//! |---|---|
//! | `line_source.rt` | a source of lines |
//! | `line_buffer.rt` | octets that were read and not reported |
//! | `line_item.rt` | the item that a line is |
//! | `line_fault.rt` | why a line is none |
//! | `package.rt` | what is kept of a tag |
//!
//! The words of the clauses are in `specs/`:
//!
//! | file | what it says |
//! |---|---|
//! | `Package` | what is kept of a tag |
//! | `LineItems`, `Lines` | the item of a line, and the items of octets |
//! | `LineFaults` | why a line is no item, and which reason is kept |
#![tactic(auto)]

mod line_buffer;
mod line_fault;
mod line_item;
mod line_source;
mod package;

pub use line_fault::LineFault;
pub use line_source::LineSource;
