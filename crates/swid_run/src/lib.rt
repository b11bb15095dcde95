//! All commands of the program, over any objects of the outside: those that wait for nobody, and
//! `collect` and `follow`, which hold sessions in threads.
//!
//! It stands on `swid_cli` for the commands that wait for nobody, and on `command_options` for the
//! words after `collect` and `follow`. `session_pool` has their sessions, `book_lock` and
//! `collector_core` the inventory, `source_set` its sources, and `validator_core` mirrors. It
//! stands on `pool_text` and `command_text` for what is printed, and on `wire_base`. The program
//! rests on these clauses of `run`:
//!
//! - `plain`: all that `run_plain` says of the other words, unless memory ran out while they were
//!   read;
//! - `usage`, `no_line`: status 2 comes exactly where the words are no command line, unless memory
//!   ran out while they were read;
//! - `fault`, `no_fault`, `counts_never_fall`: status 3 comes exactly where, with neither 2 nor 4,
//!   a count of faults rose;
//! - `collect`: every session is one over a single legal chronicle. It begins without a record, and
//!   has the entries of the sweeps and no others. Sessions are over places from the first sweep on.
//!   What is printed is the text of these sessions and of this chronicle;
//! - `follow`: what each mirror holds comes of its own sessions alone. It is right over each honest
//!   history that all reports it took answer from. What is printed is the text of these sessions
//!   and mirrors.
//!
//! | file | what it holds | its words in `specs/` |
//! |---|---|---|
//! | `top_call.rt` | the top call | `Plain`, `Counts` |
//! | `planning.rt`, `plans.rt` | what is to be made before it | `Words` |
//! | `order.rt` | which of the commands the words ask for | `Words` |
//! | `collect.rt` | `collect` | `Collecting` |
//! | `follow.rt` | `follow` | `Following` |
//! | `ending.rt` | how a command prints and ends | `Ends` |
//! | `limits.rt` | the limits of each session | `Limits` |
//! | `laws.rt` | what the definitions mean | `Words` |
#![tactic(auto)]

mod collect;
mod ending;
mod follow;
pub mod laws;
mod limits;
mod order;
mod planning;
mod plans;
mod top_call;

pub use limits::IDLE_TURNS;
pub use planning::plan;
pub use plans::Plan;
pub use top_call::run;
