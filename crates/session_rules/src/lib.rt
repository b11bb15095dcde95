//! What both ends of a session do, by rules: the collector, which is the client of PB-TNC
//! (RFC 5793) and answers requests (RFC 8412), and the validator, which is its server and asks.
//!
//! It has the public types of sessions, the definitions of both ends, and the laws of these. A
//! session is a talk (`session_talk`) that follows from what the end hears (`session_hear`). The
//! crates above have the calls that make these talks.
//!
//! It stands above all on `session_hear` and `session_talk`, and for what the ends keep on
//! `collector_core`, `swima_subs` and `validator_core`. The crates above rest on these definitions,
//! which their clauses cite, and on these laws of `laws.rt`:
//!
//! - `served_is_so` and `followed_is_so`: the functions that give a session are its definition.
//! - `later_entries_change_nothing` and `later_entries_change_no_part`: a collector's session stays
//!   so, whatever comes after its places.
//! - `stays_right_in_sessions` and `stays_right_in_parts`: a mirror that was right stays right.
//!
//! | file | what it holds |
//! |---|---|
//! | `config.rt`, `end.rt`, `record.rt` | how a session is configured, ended, and was noted |
//! | `verdict.rt`, `word.rt` | what becomes of a batch, and what an attribute says to each end |
//! | `laws.rt` | what the definitions mean, and worked sessions, proved |
//!
//! | file of `specs/` | what it says |
//! |---|---|
//! | `Numbers` | the numbers that sessions write and count |
//! | `Verdict` | what an end does with a batch before it looks into it |
//! | `Saying`, `Messages` | what a PA-TNC message says, and what is written of one |
//! | `Questions` | what a collector asks its desk |
//! | `Serving`, `Answering`, `ServeRules` | the collector: its standing, its answers, its rules |
//! | `Following`, `Taking`, `FollowRules` | the validator: its standing, what it takes, its rules |
//! | `Transcripts` | octets, record and end of a session, as functions of its turns |
//! | `Clauses` | what a call says that goes on with a session |
//! | `Meaning` | what the transcripts mean: one outcome, whole and broken-off sessions, limits |
//! | `SubRun` | the run of a subscription's reports, by its place |
//! | `SubRuns` | these runs in a whole session, by what is written in it |
//! | `AnySession` | a mirror that follows an honest collector stays right |
//! | `Wanted` | each request of a validator asks for what its mirror wants |
//! | `Recovery` | after a report that does not fit it asks for the inventory until one is adopted |
//! | `Vectors`, `Worked`, `WorkedFaults`, `WorkedSubscriptions`, `WorkedEnds` | worked sessions |
//!
//! Each worked session is an exchange of octets that was written by hand, and computes to what the
//! rules say. `proofs/Desking.antt` has what proofs of calls need, over any desk.
#![tactic(auto)]

mod config;
mod end;
pub mod laws;
mod record;
mod verdict;
mod word;

pub use config::{FollowConfig, ServeConfig};
pub use end::{SessionEnd, Turn};
pub use record::{Codes, Points, SessionRecord, Takens};
pub use verdict::Verdict;
pub use word::{CollectorWord, Requests, ValidatorWord};
