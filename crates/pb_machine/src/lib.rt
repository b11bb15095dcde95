//! The state machines of both ends of a PB-TNC session (RFC 5793, section 3.2): which batch may be
//! sent in which state, and what a batch does that is heard.
//!
//! It stands on `pb_batch`, for the kinds of batches. The crates above rest on `sent` of
//! `Machine::send` and `heard` of `Machine::receive`: both are the tables of `specs/Table.antt`.
//! The laws of `laws` say of the same tables:
//!
//! - a batch that an end does not go on with changes no state;
//! - CLOSE may be sent in every state except End, and no batch is unexpected at End;
//! - a batch that an end goes on with may be answered;
//! - two ends that keep to the tables never hear what they do not expect, and agree where nothing
//!   is on its way.
//!
//! The lemmas that proofs above cite are in `proofs/Sending.antt`.
//!
//! | file | what it holds | its words in `specs/` |
//! |---|---|---|
//! | `machine.rt` | the machine of one end | `Table` |
//! | `laws.rt` | what the tables mean, proved | `World`: two ends and what is on its way |
#![tactic(auto)]

pub mod laws;
mod machine;

pub use machine::{Heard, Machine, Role, State};
