//! Tests of the values that messages carry: copies, limits and sizes, and what is written of
//! reports that are made by hand or are as large as they may be.
//!
//! It stands on `pb_batch`, `pa_attrs`, `swima_reports`, `swima_subs`, `swima_request`,
//! `swima_model` and `wire_base`.
//!
//! | file | what it tests |
//! |---|---|
//! | `batch_tests.rt` | copies of the messages of batches |
//! | `batch_error_code_tests.rt` | the names of the codes of PB-Errors |
//! | `attribute_tests.rt` | copies of attributes, and whether a fault in one of them is answered |
//! | `attribute_error_code_tests.rt` | the names of the codes of PA-TNC Errors |
//! | `limit_tests.rt` | the limits and the order of identifiers, locators and bodies |
//! | `report_tests.rt` | copies, sizes and the flag of reports |
//! | `written_tests.rt` | what is written of reports, and reports as large as they may be |
//! | `request_tests.rt` | a copy of a request |
//! | `status_tests.rt` | what is written of subscriptions, and the numbers of attributes |
//! | `subs_tests.rt` | what requests and reports do to the subscriptions of a session |
#![tactic(auto)]

#[cfg(test)]
mod attribute_error_code_tests;
#[cfg(test)]
mod attribute_tests;
#[cfg(test)]
mod batch_error_code_tests;
#[cfg(test)]
mod batch_tests;
#[cfg(test)]
mod limit_tests;
#[cfg(test)]
mod report_tests;
#[cfg(test)]
mod request_tests;
#[cfg(test)]
mod status_tests;
#[cfg(test)]
mod subs_tests;
#[cfg(test)]
mod written_tests;
