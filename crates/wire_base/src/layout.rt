//! The layout of messages: numbers, fields that are read one after another, and counted octets.

pub(crate) mod counted_octets;
pub(crate) mod cursor;
pub(crate) mod field_reader;
pub(crate) mod field_refused;
pub(crate) mod flag;
pub(crate) mod numbers;
pub(crate) mod placed;
