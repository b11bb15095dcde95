//! Fields with their places.

/// What a field of a message says, with the place of its first octet. A fault of the field is at
/// that place.
#[derive(Clone, Copy, Debug, PartialEq, Eq)]
pub struct Placed<T> {
    /// The place of the first octet.
    pub at: u32,
    /// What the field says.
    pub value: T,
}
