//! The codes of PA-TNC Errors.

ghost use Rattle.std.specs.Prelude.{◌≡◌, ◌≢◌, MatchOption};
ghost use Rattle.pa_attrs.specs.Numbers.{number_of_code};
ghost use Rattle.pa_attrs.specs.declared.error_code.PaErrorCode.{PaErrorCode as CodeValue};

use thiserror::Error;

/// The codes of PA-TNC Errors of the IETF, with their numbers (RFC 5792, section 4.2.8, and
/// RFC 8412, section 5.15).
#[derive(Clone, Copy, Debug, PartialEq, Eq, Error)]
pub enum PaErrorCode {
    /// A field has a value that it may not have.
    #[error("Invalid Parameter")]
    InvalidParameter = 1,
    /// The message is of another version.
    #[error("Version Not Supported")]
    VersionNotSupported = 2,
    /// An attribute that may not be skipped is of a type that is not supported.
    #[error("Attribute Type Not Supported")]
    AttributeTypeNotSupported = 3,
    /// A fault that no other code reports.
    #[error("SWIMA Error")]
    SwimaError = 4,
    /// A subscription is not taken.
    #[error("SWIMA Subscription Denied Error")]
    SwimaSubscriptionDeniedError = 5,
    /// An answer would be too large.
    #[error("SWIMA Response Too Large Error")]
    SwimaResponseTooLargeError = 6,
    /// A subscription could not be fulfilled.
    #[error("SWIMA Subscription Fulfillment Error")]
    SwimaSubscriptionFulfillmentError = 7,
    /// A request takes the ID of another subscription.
    #[error("SWIMA Subscription ID Reuse Error")]
    SwimaSubscriptionIdReuseError = 8,
}

impl PaErrorCode {
    /// The number of the code, 1 to 8.
    pub fn number(self) -> u32
        ensures number { result ≡ number_of_code self }
    {
        self as u32
    }

    /// The code of this number; `None` exactly where no code has it.
    pub fn from_number(number: u32) -> Option<Self>
        ensures code { MatchOption result ((code : CodeValue) → number_of_code code ≢ number)
            (λ code. number_of_code code ≡ number) }
    {
        match number {
            1 => Some(PaErrorCode::InvalidParameter),
            2 => Some(PaErrorCode::VersionNotSupported),
            3 => Some(PaErrorCode::AttributeTypeNotSupported),
            4 => Some(PaErrorCode::SwimaError),
            5 => Some(PaErrorCode::SwimaSubscriptionDeniedError),
            6 => Some(PaErrorCode::SwimaResponseTooLargeError),
            7 => Some(PaErrorCode::SwimaSubscriptionFulfillmentError),
            8 => Some(PaErrorCode::SwimaSubscriptionIdReuseError),
            _ => None,
        }
    }
}
