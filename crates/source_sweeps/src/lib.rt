//! Sweeps over the sources of an inventory, one after another, each with the stamp of the moment
//! that a clock gives for it.
//!
//! It stands on `source_set` for sources, on `collector_core` for desks, on `wire_base` for clocks
//! and stamps, and on `thiserror` for the texts of errors. The crates above rest on the clauses
//! `once` of `sweep_once` and `on` of `sweep_beside`.
//!
//! | file | what it holds |
//! |---|---|
//! | `sweeps.rt` | one sweep, those after it, and why they stopped |
//!
//! | file of `specs/` | what it says |
//! |---|---|
//! | `Sweepings` | sweeps in a row, by a clock |
#![tactic(auto)]

mod sweeps;

pub use sweeps::{SweepStop, Tally, sweep_beside, sweep_once};
