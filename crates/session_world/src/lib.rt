//! The world of scripts: an inventory that changes, a mirror of it, and sessions between them whose
//! octets are carried by hand. It knows no text.
//!
//! It stands on `collector_session` and `validator_session` for the two ends, on `collector_core`
//! and `validator_core` for the inventory and the mirror, and on `session_rules` for what sessions
//! are. The crates above rest on these clauses of `World`, in the words of `specs/Standing.antt`:
//!
//! - `begins` of `World::new`: it stands for the world of each chronicle that the book stands for.
//! - `does` of `enter`, `open`, `cut`, `up`, `down`, `round`, `run`, `idle` and `again`: for each
//!   world that it stood for, it stands for what the line makes of it, and reports what that does.
//! - `waits` of `waiting_up` and `waiting_down`, `session` of `is_open`, and `mirror`: what waits,
//!   whether a session is open, and what is held.
//! - `noted` of `run_noting`: the octets that a run carries to the validator.
//!
//! A call that runs out of memory says nothing of the world after it.
//!
//! | file | what it holds |
//! |---|---|
//! | `world.rt` | the world, and a call for each line of a script |
//! | `joined.rt` | a session in it: both ends |
//! | `terms.rt` | what its sessions keep to |
//! | `telling.rt` | what is reported of a line |
//! | `laws.rt` | what the lines mean, proved |
//!
//! | file of `specs/` | what it says |
//! |---|---|
//! | `World` | the world, and what waits in it |
//! | `Lines` | what each line does to it, and what is reported |
//! | `Standing` | for which worlds the code stands, and what a call does |
//! | `Tellings` | what calls within the crate report |
//! | `Meaning` | after a run nothing waits |
#![tactic(auto)]

mod joined;
pub mod laws;
mod telling;
mod terms;
mod world;

pub use telling::{Telling, Tellings};
pub use terms::Terms;
pub use world::World;
