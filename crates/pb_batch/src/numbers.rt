//! The numbers of RFC 5793, and the limits that this project sets.

/// The version of PB-TNC (section 4.1).
pub(crate) const VERSION: u8 = 2;

/// How many octets the header of a batch has (section 4.1).
pub(crate) const HEADER: usize = 8;

/// The flag of a batch of the server: the highest bit of the octet of flags (section 4.1).
pub(crate) const SERVER: u8 = 0x80;

/// How many batch types the low bits of their octet can report apart; the other bits are reserved
/// (section 4.1).
pub(crate) const BATCH_TYPES: u8 = 16;

/// The vendor number of the IETF (section 4.2).
pub(crate) const IETF: u32 = 0;

/// The vendor that no message may name (section 4.2).
pub(crate) const NO_VENDOR: u32 = 0xff_ffff;

/// The type that no message may have (section 4.2).
pub(crate) const NO_TYPE: u32 = 0xffff_ffff;

/// The flag of a message that may not be passed over by one that does not know it (section 4.2).
pub(crate) const NOSKIP: u8 = 0x80;

/// How many octets a message has before its value (section 4.2).
pub(crate) const MESSAGE_HEAD: usize = 12;

/// How many octets a PB-PA message has before its body (section 4.5).
pub(crate) const PA_FIELDS: usize = 24;

/// The flag of a PB-PA message that is for one receiver alone (section 4.5).
pub(crate) const EXCL: u8 = 0x80;

/// How many octets a PB-Assessment-Result has (section 4.6).
pub(crate) const ASSESSMENT: usize = 16;

/// The last of the assessment results, which begin with 0 (section 4.6).
pub(crate) const LAST_RESULT: u32 = 4;

/// How many octets a PB-Access-Recommendation has (section 4.7).
pub(crate) const RECOMMENDATION: usize = 16;

/// The last of the recommendation codes, which begin with 1 (section 4.7).
pub(crate) const LAST_RECOMMENDATION: u16 = 3;

/// How many octets a PB-Error has before its parameters (section 4.9).
pub(crate) const ERROR_FIELDS: usize = 20;

/// The flag of a PB-Error that ends the session (section 4.9).
pub(crate) const FATAL: u8 = 0x80;

/// The most octets of a batch.
pub(crate) const MOST_BATCH_OCTETS: u32 = 16_777_216;

/// The most messages of a batch.
pub(crate) const MOST_MESSAGES: usize = 64;
