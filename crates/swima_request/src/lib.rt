//! Requests for reports of an endpoint's software (RFC 8412, section 5.6), and what is said of the
//! subscriptions that they established (section 5.12): values, octets to values and values to
//! octets.
//!
//! It stands on `swima_model` and `wire_base`. The crates above rest on:
//!
//! - `exact` of `read_request` and of `read_status`: it is the layout read field by field, with the
//!   place of the first fault.
//! - `found` with `only`: a value comes exactly where the octets are in its form. `fault`: else the
//!   place is that of the first fault.
//! - `size` of both: what was read from at most 16,777,000 octets can be written again.
//! - `octets` of `write_request` and of `write_status`, with `size` and `form`; `fits` of
//!   `status_fits`; and `equal` of `copy`.
//!
//! | file | what it holds |
//! |---|---|
//! | `request.rt` | the value |
//! | `fields.rt` | the fields of a request, read and written |
//! | `read.rt`, `write.rt` | octets to a request, and back |
//! | `status.rt` | octets to subscriptions, and back |
//! | `size.rt` | how many octets subscriptions take |
//! | `numbers.rt` | the numbers that RFC 8412 gives to attributes and flags |
//! | `laws.rt`, `status_laws.rt` | form, first fault, reading and writing say the same, proved |
//!
//! The words of the clauses are in `specs/`:
//!
//! | file | what it says |
//! |---|---|
//! | `RequestForm` | the form of a request, `RequestForm`, and its first fault, `RequestFault` |
//! | `StatusForm` | the same of a status: `StatusForm` and `StatusFault` |
//! | `AttributeTypes` | the numbers of the attributes that carry them |
//! | `Laws`, `StatusLaws` | the laws |
#![tactic(auto)]

mod fields;
pub mod laws;
mod numbers;
mod read;
mod request;
mod size;
mod status;
pub mod status_laws;
mod write;

pub use numbers::{
    SUBSCRIPTION_STATUS_REQUEST, SUBSCRIPTION_STATUS_RESPONSE, SWIMA_ATTRIBUTES, SWIMA_REQUEST,
};
pub use read::read_request;
pub use request::{Idents, Request, Requests};
pub use size::status_fits;
pub use status::{read_status, write_status};
pub use write::write_request;
