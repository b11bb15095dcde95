//! The lines that `collect` and `follow` print of their doors, the sweeps beside them, the
//! inventory and the mirrors, and how these commands end.
//!
//! It stands on `command_text` for the lines of mirrors and of ends of sessions. What is noted of
//! sessions is of `session_core` and `session_rules`, and what sweeps did of `source_set` and
//! `source_sweeps`. Below are `validator_core`, `swima_model` and `wire_base`. The commands rest on
//! the clauses `text` of `collect_text` and `follow_text`, and `ending` of `collect_ending` and
//! `follow_ending`.
//!
//! | file | what it holds | its words in `specs/` |
//! |---|---|---|
//! | `collect.rt`, `follow.rt` | what each command prints | `Text` |
//! | `door_lines.rt` | the lines of a door, of either command | `Text` |
//! | `ending.rt` | how the commands end | `Endings` |
//! | `laws.rt` | worked outputs, proved | `Worked` |
#![tactic(auto)]

mod collect;
mod door_lines;
mod ending;
mod follow;
pub mod laws;

pub use collect::collect_text;
pub use door_lines::Ends;
pub use ending::{collect_ending, follow_ending};
pub use follow::follow_text;
