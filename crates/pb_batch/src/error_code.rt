//! The codes of PB-Errors.

ghost use Rattle.std.specs.Prelude.{◌≡◌, ◌≢◌, MatchOption};
ghost use Rattle.pb_batch.specs.Types.{number_of_code};
ghost use Rattle.pb_batch.specs.declared.error_code.PbErrorCode.{PbErrorCode as CodeValue};

use thiserror::Error;

/// The codes of PB-Errors of the IETF, with their numbers (RFC 5793, section 4.9.1).
#[derive(Clone, Copy, Debug, PartialEq, Eq, Error)]
pub enum PbErrorCode {
    /// The batch may not come in this state of the session.
    #[error("Unexpected Batch Type")]
    UnexpectedBatchType = 0,
    /// A field has a value that it may not have.
    #[error("Invalid Parameter")]
    InvalidParameter = 1,
    /// The end itself failed.
    #[error("Local Error")]
    LocalError = 2,
    /// A message that may not be skipped is of a type that is not known.
    #[error("Unsupported Mandatory Message")]
    UnsupportedMandatoryMessage = 3,
    /// The batch is of another version.
    #[error("Version Not Supported")]
    VersionNotSupported = 4,
}

impl PbErrorCode {
    /// The number of the code, 0 to 4.
    pub fn number(self) -> u16
        ensures number { result ≡ number_of_code self }
    {
        self as u16
    }

    /// The code of this number; `None` exactly where no code has it.
    pub fn from_number(number: u16) -> Option<Self>
        ensures code { MatchOption result ((code : CodeValue) → number_of_code code ≢ number)
            (λ code. number_of_code code ≡ number) }
    {
        match number {
            0 => Some(PbErrorCode::UnexpectedBatchType),
            1 => Some(PbErrorCode::InvalidParameter),
            2 => Some(PbErrorCode::LocalError),
            3 => Some(PbErrorCode::UnsupportedMandatoryMessage),
            4 => Some(PbErrorCode::VersionNotSupported),
            _ => None,
        }
    }
}
