//! Tests of pools of sessions, over doors in memory.
//!
//! It stands on `session_pool`, on `session_door` and `session_core` for sessions, and on
//! `source_lines` and `source_set` for sources. For the inventory and the mirrors it stands on
//! `book_lock`, `collector_core` and `validator_core`. Below are `swima_model`, `wire_base` for
//! doors in memory, and `test_talks` for what they give.
//!
//! | file | what it tests |
//! |---|---|
//! | `serve_tests.rt` | pools that serve, with sweeps beside them, and what a watch is told |
//! | `follow_tests.rt` | pools that follow |
//!
//! `stands.rt` has the stands at doors in memory, and `gates.rt` the gates, watches and clocks with
//! which sessions and sweeps wait for one another, or are counted.
#![tactic(auto)]

#[cfg(test)]
mod follow_tests;
#[cfg(test)]
mod gates;
#[cfg(test)]
mod serve_tests;
#[cfg(test)]
mod stands;
