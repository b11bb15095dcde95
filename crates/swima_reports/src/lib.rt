//! Reports of an endpoint's software (RFC 8412, sections 5.7 to 5.10): octets to reports, and
//! reports to octets. They are the values of four attributes: inventory or events, of software
//! identifiers only or of whole records.
//!
//! It stands on `swima_model` and `wire_base`. The crates above rest on:
//!
//! - `exact` of `read_report`: it is the layout read field by field, with the place of the first
//!   fault.
//! - `found` with `only`: a report comes exactly where the value is in its form. `fault`: else the
//!   place is that of the first fault.
//! - `octets`, `size` and `form` of `write_report`: the one written form, which has as many octets
//!   as `size_of` says. That call of `swima_model` is exported here too, for its callers.
//! - `attr_type` of `report_type`: the attribute that carries a report.
//!
//! | file | what it holds |
//! |---|---|
//! | `attribute_types.rt` | the four attribute types, and that of a report |
//! | `read.rt`, `entry.rt` | octets to a report; to its records and events |
//! | `fields.rt` | fields that mean something: stamps, actions, bodies |
//! | `write.rt`, `writable.rt` | a report to octets; its records and events |
//! | `laws.rt` | form, first fault, reading and writing say the same, proved |
//!
//! The words of the clauses are in `specs/`:
//!
//! | file | what it says |
//! |---|---|
//! | `ReportForm` | the form of a report, `ReportForm`, and its first fault, `ReportFault` |
//! | `ReportReading` | the same layouts, read field by field |
//! | `Written` | what is written: `written_report` |
//! | `ReportType`, `ActionNumber` | the numbers of attributes, and of what events do |
//! | `Laws` | the laws |
//!
//! What `write_report` requires is `FitsAttribute` of `swima_model`, by the law `fits_is_asked`.
#![tactic(auto)]

mod attribute_types;
mod entry;
mod fields;
pub mod laws;
mod read;
mod writable;
mod write;

pub use attribute_types::{
    SOFTWARE_EVENTS, SOFTWARE_IDENTIFIER_EVENTS, SOFTWARE_IDENTIFIER_INVENTORY, SOFTWARE_INVENTORY,
    report_type,
};
pub use read::read_report;
pub use swima_model::size_of;
pub use write::write_report;
