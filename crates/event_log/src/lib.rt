//! The latest events of an epoch, which a collector keeps to report what changed (RFC 8412,
//! section 3.7).
//!
//! It stands on `swima_model` and `wire_base`, and on `circular_buffer` for the ring that keeps the
//! events. The crates above rest on:
//!
//! - `pushed`, `trimmed` and `cleared`: what the log keeps after each change, in the words of
//!   `specs/Log.antt`.
//! - `event` of `EventLog::get`: the event of an event identifier, where the log keeps it.
//!
//! | file | what it holds |
//! |---|---|
//! | `log.rt` | the log and its calls |
//! | `laws.rt` | what a log keeps of all events of its epoch |
//!
//! The words of the clauses are in `specs/`: `Log` has the log and its changes, and `Meaning` the
//! laws.
#![tactic(auto)]

pub mod laws;
mod log;

pub use log::EventLog;
