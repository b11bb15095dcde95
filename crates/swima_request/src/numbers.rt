//! The numbers of requests and of what is said of subscriptions (RFC 8412).

/// The subtype of PA-TNC messages, by the vendor 0 of the IETF, that carry requests, reports and
/// errors about them: SWIMA Attributes (section 5.1).
pub const SWIMA_ATTRIBUTES: u32 = 9;

/// The attribute type of a request, by the vendor 0 of the IETF: SWIMA Request (section 5.2).
pub const SWIMA_REQUEST: u32 = 13;

/// The attribute type that asks for the subscriptions, by the vendor 0 of the IETF: Subscription
/// Status Request (section 5.2). Its value is empty (section 5.11).
pub const SUBSCRIPTION_STATUS_REQUEST: u32 = 18;

/// The attribute type that says which subscriptions there are, by the vendor 0 of the IETF:
/// Subscription Status Response (section 5.2).
pub const SUBSCRIPTION_STATUS_RESPONSE: u32 = 19;

/// The flag that all subscriptions are to be cleared first (section 5.6).
pub(crate) const CLEAR: u8 = 0x80;

/// The flag that reports of later changes are asked for too (section 5.6).
pub(crate) const SUBSCRIBE: u8 = 0x40;

/// The flag that reports of identifiers only are asked for (section 5.6).
pub(crate) const IDENTIFIERS_ONLY: u8 = 0x20;
