//! Rows of an inventory at both ends: the book that a collector keeps, its log, and the mirror of a
//! validator. Each call gets the words after its name, and answers with a text. Rows of one go on
//! from the row before.
//!
//! It stands on the crates whose calls it tries, and on `conformance_words`.
//!
//! | file | calls |
//! |---|---|
//! | `book.rt` | `book` |
//! | `log.rt` | `log` |
//! | `mirror.rt` | `mirror` |
//!
//! `fields.rt` takes the words of a step apart.
#![tactic(auto)]

pub mod book;
mod fields;
pub mod log;
pub mod mirror;
