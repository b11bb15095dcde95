//! What a reader takes at most.

/// What a reader takes at most of one item.
#[derive(Clone, Copy, Debug, PartialEq, Eq)]
pub struct Limits {
    /// The octets of the item, at most 16777216.
    pub octets: u64,
    /// How deep items may nest, 1 to 64: the depth of an item is 1 more than that of its deepest
    /// part.
    pub depth: u32,
}
