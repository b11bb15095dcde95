//! Where the changes of an inventory come from: sources in boxes, each of which reports items by
//! keys of its own, and the set that takes them to a desk, one sweep after another.
//!
//! It stands on `collector_core` for desks, on `swima_model` for contents, on `wire_base`, and on
//! `thiserror` for the texts of errors. The crates above rest on the clause `swept` of
//! `Sources::sweep`, and on those of `TagSource::next`.
//!
//! | file | what it holds |
//! |---|---|
//! | `told.rt` | what a source reports, and what a source is |
//! | `set.rt` | the sources of an inventory, and a sweep over them |
//! | `seat.rt` | a source of a set, asked for items |
//! | `swept.rt` | what a sweep did, and why it stopped |
//! | `doing.rt`, `keys.rt` | an item done at a desk; the keys that a source holds |
//! | `laws.rt` | what the definitions mean, proved |
//!
//! The words of the clauses are in `specs/`:
//!
//! | file | what it says |
//! |---|---|
//! | `Items` | what a call of a source reports |
//! | `Deeds`, `Keys` | what items do to records, and to the keys that are held |
//! | `Doing`, `Asking` | an item done or refused at a desk; a source that is asked |
//! | `Sweeping` | a set of sources, and a sweep over it |
//! | `Records` | what items leave of the records of an inventory |
#![tactic(auto)]

mod doing;
mod keys;
pub mod laws;
mod seat;
mod set;
mod swept;
mod told;

pub use set::{SourceSet, Sources};
pub use swept::{SweepError, Swept};
pub use told::{TagSource, Told};
