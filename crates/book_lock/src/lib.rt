//! One inventory for many sessions: a book under a ticket lock, and passes that see its history
//! grow.
//!
//! It stands on `collector_core`, `swima_request` and `swima_model`, and on `atomic_table`, whose
//! single steps are proved once for all.
//!
//! The crates above rest on `edits` and `reads` of each call of a pass, on `closes` of
//! `Shelf::close`, and on a `Clerk` being a `Desk`.
//!
//! | file | what it holds |
//! |---|---|
//! | `shelf.rt` | the shelf, and its calls |
//! | `meeting.rt` | how passes come from one another, and meet again |
//! | `pass.rt` | a pass |
//! | `clerk.rt` | a pass as a desk |
//! | `steps.rt` | the steps on the table that a shelf stands on |
//! | `laws.rt` | what the definitions mean, proved |
//! | `rule.rt` | what is true of the table between two steps |
//! | `view.rt` | what a pass knows of the table |
//!
//! The words of the clauses are in `specs/`:
//!
//! | file | what it says |
//! |---|---|
//! | `Passes` | what a pass has seen, what of it is its own, and what the calls say of it |
//! | `PassDesk` | a pass is a desk |
//! | `Together` | what many passes come to that meet |
//! | `Meaning` | what the definitions mean, as laws |
//! | `Rule`, `Logs` | the rule of the shelf, and the list of entries that it speaks of |
//! | `Plays` | the steps |
#![tactic(auto)]

mod clerk;
pub mod laws;
mod meeting;
mod pass;
mod rule;
mod shelf;
mod steps;
mod view;

pub use clerk::Clerk;
pub use pass::{LastPass, Pass};
pub use shelf::{Closed, Shelf};
