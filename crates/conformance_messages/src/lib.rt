//! Rows of messages: what PB-TNC (RFC 5793), PA-TNC (RFC 5792) and SWIMA (RFC 8412) lay out. Each
//! call gets the words after its name, and answers with a text.
//!
//! It stands on the crates whose calls it tries, and on `conformance_words`.
//!
//! | file | calls |
//! |---|---|
//! | `batches.rt` | `feed`, `feed_on`, `batch`, `batch_written`, `fault_batch` |
//! | `machine.rt` | `machine` |
//! | `attributes.rt` | `message`, `message_written`, `value_fault` |
//! | `errors.rt` | `reported`, `error`, `error_read`, `error_written` |
//! | `stream.rt` | `stream`, `stream_on`, `header` |
//! | `request.rt` | `request`, `request_written` |
//! | `status.rt` | `status`, `status_written`, `status_fits` |
//! | `report.rt` | `report`, `report_written` |
//!
//! `value.rt` has the words of a value and of its place.
#![tactic(auto)]

pub mod attributes;
pub mod batches;
pub mod errors;
pub mod machine;
pub mod report;
pub mod request;
pub mod status;
pub mod stream;
mod value;
