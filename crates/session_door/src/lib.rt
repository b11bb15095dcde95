//! The links of one door, one after another: whoever serves an inventory there, or follows one with
//! a mirror, holds a session on each and hands it back before the next one comes.
//!
//! It stands on `session_core` for sessions, on `book_lock` for passes over a shared inventory, on
//! `validator_core` for mirrors, and on `wire_base` for doors and links. The crates above rest on
//! the clauses `served` of `serve_door` and `followed` of `follow_door`. They say what the door
//! gave and took back, and what came of each link. The first says that the sessions are over one
//! chronicle, the second that a mirror stays right.
//!
//! | file | what it holds |
//! |---|---|
//! | `serve.rt`, `follow.rt` | a worker at a door, of either end |
//! | `door.rt` | the loop over the links of a door, for either |
//! | `session.rt` | a session of either end, as that loop sees it |
//! | `gate.rt` | who is called round each session |
//! | `work.rt` | what a worker did |
//!
//! | file of `specs/` | what it says |
//! |---|---|
//! | `Visits` | sessions on links that came from a door and went back |
//! | `Serving`, `Following` | such sessions of a collector, over a pass, and of a validator |
#![tactic(auto)]

mod door;
mod follow;
mod gate;
mod serve;
mod session;
mod work;

pub use follow::follow_door;
pub use gate::{Gate, OpenGate};
pub use serve::serve_door;
pub use work::{Ends, Stop, Work};
