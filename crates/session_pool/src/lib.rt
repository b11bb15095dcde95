//! Sessions in threads: an inventory that is served at several doors at once while sources change
//! it, and mirrors that follow several doors at once.
//!
//! It stands on `session_door` for one door, on `source_sweeps` for sweeps, on `book_lock` for the
//! inventory that the workers share, and on `wire_base` for doors and clocks. The crates above rest
//! on the clauses `served` of `serve_all` and `followed` of `follow_all`.
//!
//! | file | what it holds |
//! |---|---|
//! | `pool.rt`, `follow_pool.rt` | a pool that serves, and one that follows |
//! | `beside.rt` | workers in threads, with sweeps beside them |
//! | `at_stand.rt` | a worker at its stand |
//! | `stand.rt` | a door, and room for what its worker works with |
//! | `outcome.rt` | what came of all workers |
//! | `config.rt` | how a pool is configured |
//! | `watch.rt` | who is told of sessions and sweeps meanwhile |
//!
//! | file of `specs/` | what it says |
//! |---|---|
//! | `Servers`, `Followers` | what a pool comes to that serves, and one that follows |
//! | `Stands` | what a worker does at its stand |
//! | `Rooms` | what is in the room of stands while a pool works |
//! | `Outcomes` | what came of the workers |
#![tactic(auto)]

mod at_stand;
mod beside;
mod config;
mod follow_pool;
mod outcome;
mod pool;
mod stand;
mod watch;

pub use config::PoolConfig;
pub use follow_pool::{Followed, follow_all};
pub use outcome::{Bools, DoorEnds};
pub use pool::{Served, serve_all};
pub use session_core::SessionEnd;
pub use session_door::{Ends, Gate, OpenGate};
pub use source_sweeps::SweepStop;
pub use stand::Stand;
pub use watch::Watch;
