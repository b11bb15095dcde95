//! Tests of inventories at both ends: the books that a collector keeps, the shelf on which many
//! sessions share one, and the mirrors of a validator.
//!
//! It stands on `book_lock`, `collector_core` and `validator_core`, and for what these hold on
//! `swima_request`, `swima_model` and `wire_base`.
//!
//! | file | what it tests |
//! |---|---|
//! | `book_limit_tests.rt` | how many records, octets and events a book may have |
//! | `event_tests.rt` | what the events of a book carry, and which of them it keeps |
//! | `deletion_tests.rt` | records that are deleted, and the others beside them |
//! | `target_tests.rt` | records that are asked for by their software identifiers |
//! | `desk_tests.rt` | a book through the calls of a desk, from code over any desk |
//! | `shelf_tests.rt` | a shelf: one pass, and one beside it that may not change or is dropped |
//! | `meeting_tests.rt` | passes of a shelf that change, each by itself, and meet |
//! | `clerk_tests.rt` | a pass of a shelf through the calls of a desk, from code over any desk |
//! | `shelf_thread_tests.rt` | two threads that share a book, each with a pass of its own |
//! | `mirror_limit_tests.rt` | how many records and octets a mirror holds; copies of its answers |
//! | `mirror_order_tests.rt` | events of a mirror's records in any order of their identifiers |
//! | `thread_tests.rt` | that books, mirrors and reports may go to another thread |
//!
//! `books.rt` has the books that tests begin with, and `reports.rt` the reports that they give a
//! mirror. `shelf_values.rt` has what tests put into the book on a shelf, and how they look at
//! answers.
#![tactic(auto)]

#[cfg(test)]
mod book_limit_tests;
#[cfg(test)]
mod books;
#[cfg(test)]
mod clerk_tests;
#[cfg(test)]
mod deletion_tests;
#[cfg(test)]
mod desk_tests;
#[cfg(test)]
mod event_tests;
#[cfg(test)]
mod meeting_tests;
#[cfg(test)]
mod mirror_limit_tests;
#[cfg(test)]
mod mirror_order_tests;
#[cfg(test)]
mod reports;
#[cfg(test)]
mod shelf_tests;
#[cfg(test)]
mod shelf_thread_tests;
#[cfg(test)]
mod shelf_values;
#[cfg(test)]
mod target_tests;
#[cfg(test)]
mod thread_tests;
