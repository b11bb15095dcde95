//! Attributes and messages as values.

use wire_base::{List, Memory, Octets, TryCopy};

/// An attribute (RFC 5792, section 4.1).
#[derive(Debug, Drop)]
pub struct Attr {
    /// Whether a receiver that does not support the attribute has to refuse the message.
    pub noskip: bool,
    /// The vendor that defines the type; `IETF` is that of the IETF. It is below 2^24.
    pub vendor: u32,
    /// The type, by its vendor's numbers.
    pub kind: u32,
    /// The value.
    pub value: Octets,
}

impl TryCopy for Attr {
    fn copy(&self) -> Result<Self, Memory> {
        Ok(Attr {
            noskip: self.noskip,
            vendor: self.vendor,
            kind: self.kind,
            value: self.value.copy()?,
        })
    }
}

/// Attributes in order.
pub type Attrs = List<Attr>;

/// An attribute of a message, with the place of its value.
#[derive(Debug, Drop)]
pub struct PlacedAttr {
    /// The place of the first octet of the value, counted from the start of the message.
    pub at: u32,
    /// The attribute.
    pub attr: Attr,
}

impl TryCopy for PlacedAttr {
    fn copy(&self) -> Result<Self, Memory> {
        Ok(PlacedAttr {
            at: self.at,
            attr: self.attr.copy()?,
        })
    }
}

/// Attributes of a message in order, each with its place.
pub type PlacedAttrs = List<PlacedAttr>;

/// A message (RFC 5792, section 3.6).
#[derive(Debug, Drop)]
pub struct PaMessage {
    /// The message identifier.
    pub id: u32,
    /// The attributes, at most 64.
    pub attrs: Attrs,
}
