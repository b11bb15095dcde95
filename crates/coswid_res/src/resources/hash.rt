//! Hashes.

use wire_base::Octets;

/// A hash (RFC 9393, section 2.9.1).
#[derive(Debug, Drop)]
pub struct HashEntry {
    /// The algorithm's number in the Named Information Hash Algorithm Registry; any is taken.
    pub algorithm: i64,
    /// The octets that the algorithm gave; any number is taken.
    pub value: Octets,
}
