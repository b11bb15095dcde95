//! A collector's end of a session (RFC 5793, RFC 8412): the client of PB-TNC, which answers
//! requests by a desk, writes reports, and keeps subscriptions.
//!
//! It stands on `session_rules` for what a collector may say, on `swima_subs` for subscriptions, on
//! `session_hear` for the loop over a piece, on `session_words` for what messages say, and on
//! `collector_core` for desks. The crates above rest on the clauses of `ServeCore`, in the words of
//! `specs/Cores.antt`:
//!
//! - `stood` of `ServeCore::new`: the core stands for a session that has just begun.
//! - `turned` of `hear` and of `idle`, `stood` of `link_ended`: where a core stood for the session
//!   of some turns, it stands for that of these turns after them. Where memory ran out, the session
//!   broke off in them.
//! - `over`: after the session a call changes nothing, and answers how it ended.
//! - `stands` of `carried`: the octets that were given are the first of those that waited.
//!
//! | file | what it holds |
//! |---|---|
//! | `serve_core.rt` | the core: octets, idle turns and the end of the link in, octets out |
//! | `end.rt` | a collector as the rules of an end, which `session_hear` calls for each batch |
//! | `rules.rt` | the rules: what follows from a batch, a fault, and a RESULT |
//! | `look.rt` | the rule of an idle turn: which subscriptions have moved |
//! | `standing.rt` | how a collector stands |
//! | `batch.rt`, `message.rt`, `answer.rt` | the answers to a batch, a message and a request |
//! | `renew.rt` | the reports that fulfil subscriptions of earlier batches |
//! | `draft.rt` | the batch that is being written |
//! | `reader.rt` | what the attributes of a message say |
//!
//! | file of `specs/` | what it says |
//! |---|---|
//! | `Cores` | a core, and the sessions that it stands for |
//! | `Doing`, `DoingLaws` | what was done to steps, and to steps after others |
//! | `Standing`, `Drafting` | standings and drafts, by what the code keeps |
//! | `Answers`, `Renewing`, `Looking` | what is done about a request, and about subscriptions |
//! | `Words`, `Judging`, `Sizes` | what calls within the crate may take for granted |
#![tactic(auto)]

mod answer;
mod batch;
mod draft;
mod end;
mod look;
mod message;
mod reader;
mod renew;
mod rules;
mod serve_core;
mod standing;

pub use end::ServeEnd;
pub use serve_core::ServeCore;
