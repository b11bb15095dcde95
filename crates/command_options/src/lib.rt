//! The options of the commands that wait for others: what the words after `collect` and `follow`
//! say, read with `clap`.
//!
//! It stands on `clap` for the words, on `swima_model` for the kinds of reports, on `wire_base` for
//! texts, and on `thiserror` for the texts of errors. The crates above rest on the clauses
//! `options` and `within` of `collect_options` and `follow_options`: the options are exactly what
//! `clap` states for the command.
//!
//! | file | what it holds | its words in `specs/` |
//! |---|---|---|
//! | `collect.rt` | the options of `collect` | `Collect` |
//! | `follow.rt` | the options of `follow` | `Follow` |
//! | `arguments.rt` | the arguments of both, as `clap` has them | `Arguments` |
//! | `given.rt` | what `clap` found for an argument | `Given` |
//! | `refused.rt` | why there are no options | `Given` |
//! | `laws.rt` | what the definitions mean | `Collect`, `Follow`, `Worked` |
#![tactic(auto)]

mod arguments;
mod collect;
mod follow;
mod given;
pub mod laws;
mod refused;

pub use collect::{CollectOptions, collect_options};
pub use follow::{FollowOptions, follow_options};
pub use given::Texts;
pub use refused::OptionsRefused;
