//! Tests of workers at doors, over doors in memory, and of what is printed of doors.
//!
//! It stands on `session_door` and `session_core` for workers and their sessions. For what is
//! printed it stands on `pool_text`, `command_text`, `source_sweeps` and `source_set`, and for the
//! inventory and the mirrors on `book_lock`, `collector_core` and `validator_core`. Below are
//! `swima_model`, `wire_base` for doors in memory, and `test_talks` for what they give.
//!
//! | file | what it tests |
//! |---|---|
//! | `serve_tests.rt` | a worker that serves the links of its door |
//! | `follow_tests.rt` | a worker that follows the links of its door |
//! | `text_tests.rt` | what is printed of doors, sweeps and mirrors, and how it ends |
//!
//! `doors.rt` has the doors in memory.
#![tactic(auto)]

#[cfg(test)]
mod doors;
#[cfg(test)]
mod follow_tests;
#[cfg(test)]
mod serve_tests;
#[cfg(test)]
mod text_tests;
