//! Identifiers of tags, and codes.

use wire_base::{List, Text};

/// What identifies a tag, and what generated one: a text, or a UUID (RFC 9393, section 2.3,
/// tag-id).
#[derive(Debug, Drop)]
pub enum TagId {
    /// A text.
    Text(Text),
    /// The octets of a UUID.
    Uuid([u8; 16]),
}

/// A value of one of the registries (RFC 9393, section 4), any other number, or a text of the tag's
/// own.
#[derive(Debug, Drop)]
pub enum CodeValue {
    /// A number, -2^63 to 2^63 - 1.
    Int(i64),
    /// A text.
    Text(Text),
}

/// Codes in order.
pub type CodeValues = List<CodeValue>;
