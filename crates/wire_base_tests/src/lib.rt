//! Tests of `wire_base`: what is held in memory, fields, streams and files, and the adapters to the
//! system.
//!
//! It stands on `wire_base`.
//!
//! | file | what it tests |
//! |---|---|
//! | `adapter_tests.rt` | links, doors, files and clocks of the system |
//! | `field_tests.rt` | numbers and fields, put in and read |
//! | `file_tests.rt` | files in memory, and files of a real system |
//! | `list_tests.rt` | lists of all kinds of items, and their copies |
//! | `mem_tests.rt` | links, a clock and a door in memory |
//! | `stream_tests.rt` | sources and sinks, and their calls that fail in mid-stream |
//! | `text_tests.rt` | texts that own their octets, values in boxes, and what is said of refusals |
//! | `thread_tests.rt` | that what sessions in threads hold may go to another thread |
#![tactic(auto)]

#[cfg(test)]
mod adapter_tests;
#[cfg(test)]
mod field_tests;
#[cfg(test)]
mod file_tests;
#[cfg(test)]
mod list_tests;
#[cfg(test)]
mod mem_tests;
#[cfg(test)]
mod stream_tests;
#[cfg(test)]
mod text_tests;
#[cfg(test)]
mod thread_tests;
