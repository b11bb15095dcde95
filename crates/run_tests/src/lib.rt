//! Tests of the top call, over doors in memory.
//!
//! It stands on `swid_run`, on `session_pool` for what a watch is told, and on `source_lines` and
//! `source_set` for the sources of a command line. Below are `wire_base` for doors in memory, and
//! `test_talks` for what they give.
//!
//! | file | what it tests |
//! |---|---|
//! | `words_tests.rt` | what the words of a command line ask for; what is printed of other words |
//! | `pool_tests.rt` | `collect` and `follow`: what they print and write, and their status |
//! | `watch_tests.rt` | what a watch is told of `collect` and `follow` |
//!
//! `lent.rt` has what a command line is lent, by its plan, and runs it.
#![tactic(auto)]

#[cfg(test)]
mod lent;
#[cfg(test)]
mod pool_tests;
#[cfg(test)]
mod watch_tests;
#[cfg(test)]
mod words_tests;
