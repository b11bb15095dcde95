//! Sessions over a link: both ends, each with its core, and the loop that drives a core. Whoever
//! uses sessions names this crate.
//!
//! It stands on `collector_session` and `validator_session`, whose cores it exports, on
//! `session_rules` for configurations, records and ends, and on `wire_base` for links. The crates
//! above rest on the clauses of the two calls:
//!
//! - `served` of `serve_session`, `followed` of `follow_session`: octets, record and end are those
//!   of the session of the turns that the link gave. That is over each chronicle that the desk
//!   stood for, or with the mirror.
//! - `cause` of both: a session ends by `LinkFault` exactly where a call of its link failed.
//!
//! | file | what it holds |
//! |---|---|
//! | `serve.rt`, `follow.rt` | a whole session of a collector, and of a validator |
//! | `drive.rt` | the loop over a link, for either |
//! | `session_core.rt` | a core of either end, as the loop sees it |
//!
//! | file of `specs/` | what it says |
//! |---|---|
//! | `Served`, `Followed` | a whole session over a link, by how it ended |
//! | `Driving` | what the loop did with a core |
//! | `Ran`, `RanLaws` | what came of turns and octets, at each end, and of some after others |
#![tactic(auto)]

mod drive;
mod follow;
mod serve;
mod session_core;

pub use collector_session::ServeCore;
pub use follow::follow_session;
pub use serve::serve_session;
pub use session_rules::{
    Codes, FollowConfig, Points, ServeConfig, SessionEnd, SessionRecord, Takens, Turn,
};
pub use validator_session::{FollowCore, TakenReport, TakenReports};
