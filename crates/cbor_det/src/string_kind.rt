//! The kinds of strings.

/// The kind of a string (RFC 8949, section 3.1, major types 2 and 3).
#[derive(Clone, Copy, Debug, PartialEq, Eq)]
pub(crate) enum StringKind {
    /// Octets.
    ByteString,
    /// UTF-8.
    TextString,
}
