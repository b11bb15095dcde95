//! A validator's end of a session (RFC 5793, RFC 8412), as a core without input and output.
//!
//! It stands on `session_rules` for the definitions of what a validator does, on `session_hear` for
//! the loop over a piece, on `session_words` for what messages say, and on `validator_core` for the
//! mirror. The crates above rest on `turned` of `FollowCore::hear` and `idle`, and on `stood` of
//! `link_ended`: wherever the core stood in a session, it stands there after further turns, or at
//! the first two memory ran out (`specs/Core.antt`).
//!
//! | file | what it holds |
//! |---|---|
//! | `follow_core.rt` | the core, as its callers see it |
//! | `inner.rt` | what the core keeps, its limits, and what each turn does |
//! | `end.rt` | the rules, as those of an end |
//! | `rules.rt` | batches by the machine and by kind, and idle turns: one function for each rule |
//! | `answering.rt` | CDATA and CRETRY |
//! | `writing.rt` | the batches that it writes |
//! | `take.rt`, `reader.rt` | what the messages of a batch say, and what the mirror takes of them |
//! | `asking.rt` | requests, and whether another one is made |
//! | `standing.rt`, `notes.rt` | how a validator stands, and what it notes |
//! | `counts.rt` | counts that stay within a limit |
//!
//! The words of the clauses are in `specs/`:
//!
//! | file | what it says |
//! |---|---|
//! | `Core` | the core: where it stood in a session, and where it stands |
//! | `Standing`, `Noting` | how a validator stands, and what it notes beside that |
//! | `Doing`, `DoingLaws` | what it did to some steps, and then to others |
//! | `Drafting`, `Sizes` | the batch that it writes, and how large that is |
//! | `Partial`, `Ready` | whether the last report is partial, and when it can go on |
#![tactic(auto)]

mod answering;
mod asking;
mod counts;
mod end;
mod follow_core;
mod inner;
mod notes;
mod reader;
mod rules;
mod standing;
mod take;
mod writing;

pub use end::FollowEnd;
pub use follow_core::FollowCore;
pub use notes::{TakenReport, TakenReports};
