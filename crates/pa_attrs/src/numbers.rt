//! The numbers of RFC 5792, and the limits that this project sets.

/// The version of PA-TNC messages (section 3.6).
pub(crate) const VERSION: u8 = 1;

/// How many octets the header of a message has (section 3.6).
pub(crate) const MESSAGE_HEADER_OCTETS: usize = 8;

/// How many octets the header of an attribute has (section 4.1).
pub const HEADER_OCTETS: usize = 12;

/// The flag of an attribute that may not be passed over: the highest bit of the flags
/// (section 4.1).
pub(crate) const NOSKIP: u8 = 0x80;

/// The vendor number of the IETF (section 4.1).
pub const IETF: u32 = 0;

/// The vendor that none has (section 4.1).
pub(crate) const NO_VENDOR: u32 = 0xFF_FFFF;

/// The type that no attribute has (section 4.1).
pub(crate) const NO_TYPE: u32 = 0xFFFF_FFFF;

/// The type of a PA-TNC Error, an attribute of vendor 0 (section 4.2.8).
pub const ERROR: u32 = 8;

/// The error code of a fault in a field: Invalid Parameter (section 4.2.8.1).
pub const INVALID_PARAMETER: u32 = 1;

/// The error code of another version: Version Not Supported (section 4.2.8.2).
pub const VERSION_NOT_SUPPORTED: u32 = 2;

/// The error code of an attribute that is not supported and may not be passed over: Attribute Type
/// Not Supported (section 4.2.8.3).
pub const UNSUPPORTED_ATTRIBUTE: u32 = 3;

/// The most octets of an attribute of a stream.
pub(crate) const MOST_ATTRIBUTE_OCTETS: u32 = 16_777_216;

/// The most attributes of a message.
pub(crate) const MOST_ATTRIBUTES: usize = 64;
