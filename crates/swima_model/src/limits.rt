//! How many records an inventory has at most, and how many octets of them.

/// The most records that are live at once.
pub const MOST_RECORDS: usize = 65536;

/// The most octets of identifiers, locators and bodies that live records have together.
pub const MOST_RECORDS_OCTETS: u64 = 268435456;
