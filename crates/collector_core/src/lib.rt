//! The inventory of an endpoint, as its collector keeps it and reports it (RFC 8412, section 3).
//!
//! It stands on `event_log`, `swima_request`, `swima_model` and `wire_base`. It stands on
//! `swima_reports` for the law that answers are read back, on `arrayvec` for lists that take no
//! memory, on `indexmap` for the records, and on `thiserror` for the texts of errors.
//!
//! The crates above rest on `stands` of each call of `Book`, and on `edits` and `reads` of each
//! call of `Desk`. Their proofs cite the lemmas of these files of `proofs/`:
//!
//! - `Chronicles`, `Fronts`, `Prefixes`, `Marks` and `Owning`: places in a chronicle, and entries
//!   that came.
//! - `Answered` and `Telling`: answers. `Editing`: the entry of a change. `BookDesk`:
//!   `state_same`.
//!
//! | file | what it holds |
//! |---|---|
//! | `book.rt` | the inventory of one endpoint, and its calls |
//! | `book/changing.rt`, `book/answering.rt` | how it is changed, and what it answers |
//! | `book/edit.rt` | any change as one value |
//! | `chronicle.rt` | the entries that a book represents |
//! | `desk.rt` | any owner of an inventory, which others may change between two calls |
//! | `answer.rt`, `report_content.rt` | reports that answer, and what they carry |
//! | `targets.rt`, `moved.rt` | what a request asks for; whether some of it has changed |
//! | `live.rt`, `identifier_hash.rt` | the live records, in order of identifier; how one is found |
//! | `index.rt` | which records have a software identifier |
//! | `records.rt` | contents, and the records that a book begins with |
//! | `error.rt` | why a change is refused |
//! | `laws.rt` | what the definitions mean, proved |
//!
//! The words of the clauses are in `specs/`:
//!
//! | file | what it says |
//! |---|---|
//! | `Chronicle`, `Legal` | what was entered, the history that it makes, and what may be entered |
//! | `Answering`, `BookAnswer` | the answer at a chronicle, and the same by what a book holds |
//! | `Refusals`, `Edits` | when a change is refused, and which entry it makes |
//! | `Places`, `Index` | places of records, of which some are empty; keys of records |
//! | `Book`, `Standing` | what is true of each book; which chronicles it represents |
//! | `Desks`, `BookDesk` | which chronicles a desk represents |
//! | `ReportContent`, `Later` | what reports of a kind carry of an event; identifiers of events |
//! | `OctetOrder`, `Borrowed` | octets in order; lists of borrowed values |
//! | `Meaning`, `WrittenAnswers`, `InTurn` | the laws |
#![tactic(auto)]

mod answer;
mod book;
mod chronicle;
mod desk;
mod error;
mod identifier_hash;
mod index;
pub mod laws;
mod live;
mod moved;
mod records;
mod report_content;
mod targets;

pub use answer::Answer;
pub use book::Book;
pub use book::edit::{Changed, Edit};
pub use chronicle::{Entry, Mark};
pub use desk::{Desk, answers_in_turn};
pub use error::BookError;
