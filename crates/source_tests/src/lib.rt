//! Tests of the sources of an inventory: lines that are read, and sweeps over sources.
//!
//! It stands on `source_lines`, `source_sweeps` and `source_set`, on `collector_core` for the books
//! that are swept into, and on `swima_model` and `wire_base`.
//!
//! | file | what it tests |
//! |---|---|
//! | `line_tests.rt` | lines of an input in pieces, calls that fail, and why a bad line is none |
//! | `long_tests.rt` | lines as long as they may be, and one octet longer |
//! | `sweep_tests.rt` | sweeps over sources that report what a test lists, and over lines |
//! | `row_tests.rt` | sweeps in a row, each with the stamp of a moment of a clock |
//!
//! `listed.rt` has the source that reports what a test lists. `values.rt` has the sets of sources
//! that tests sweep, and how they look at books.
#![tactic(auto)]

#[cfg(test)]
mod line_tests;
#[cfg(test)]
mod listed;
#[cfg(test)]
mod long_tests;
#[cfg(test)]
mod row_tests;
#[cfg(test)]
mod sweep_tests;
#[cfg(test)]
mod values;
