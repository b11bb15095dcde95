//! Software inventory evidence records, events and reports as values, and histories of them
//! (RFC 8412, sections 3.4, 3.7 and 5.7).
//!
//! It stands on `wire_base`, and on `thiserror` for the texts of errors. The crates above rest on:
//!
//! - `bounds` of `Bounded::new`: an identifier, a locator or a body is made exactly where its
//!   octets are within the limit.
//! - `equal` of each `copy`, and the order of `Bounded`, which is that of its octets.
//! - `size` of `size_of` and `size_of_all`: the octets of a report, and of records or events.
//! - `place` of `place_of` and `found` of `record_of`: a record, by its identifier.
//! - `point` of `Report::point` and `count` of `Report::count`.
//! - `carries` of `Content::carries`: which content the event of a deletion may carry.
//!
//! | file | what it holds |
//! |---|---|
//! | `bounded.rt` | identifiers, locators and bodies, and the limit of each |
//! | `record.rt`, `event.rt`, `report.rt` | the values, with their copies |
//! | `size.rt` | how many octets reports have as attributes carry them |
//! | `find.rt` | where a record stands among records in order |
//! | `limits.rt` | how many records an inventory has at most, and how many octets of them |
//! | `laws.rt` | what the definitions mean, proved |
//!
//! The crates above rest on these definitions in `specs/` too:
//!
//! | file | what it says |
//! |---|---|
//! | `History` | which histories are honest, and which reports answer from one |
//! | `Carried` | which content the event of a deletion carries |
//! | `Live` | which records are live after some events, by the last mention of each |
//! | `Kinds`, `Size` | what reports of a kind carry, and how large it is |
//! | `Reports` | which reports fit an attribute |
//! | `Places` | where a record stands among records |
//! | `InOrder`, `Doubled` | the order of records; the smallest identifier that occurs twice |
//! | `Rising`, `Repeated` | the same two, in words that say nothing of how they are found |
//! | `ByNumber` | things in order of a number |
//! | `DataModel` | the data models of records |
//! | `Fulfilling` | the report that fulfils a subscription |
#![tactic(auto)]

mod bounded;
mod event;
mod find;
pub mod laws;
mod limits;
mod record;
mod report;
mod size;

pub use bounded::{
    Body, BodyLimit, Bounded, Ident, IdentLimit, Limit, Locator, LocatorLimit, LongRefused,
};
pub use event::{Action, Event, Events};
pub use find::{place_of, record_of};
pub use limits::{MOST_RECORDS, MOST_RECORDS_OCTETS};
pub use record::{Content, Model, Record, Records};
pub use report::{Kind, Point, Report};
pub use size::{ReportEntry, size_of, size_of_all};
