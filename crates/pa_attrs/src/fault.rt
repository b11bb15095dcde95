//! What is wrong with messages and attributes.

ghost use Rattle.std.specs.Prelude.{◌≡◌, ◌≢◌, MatchOption};
ghost use Rattle.pa_attrs.specs.Faults.{fault};
ghost use Rattle.pa_attrs.specs.Numbers.{number_of_code};
ghost use Rattle.pa_attrs.specs.declared.error_code.PaErrorCode.{PaErrorCode as CodeValue};

use crate::error_code::PaErrorCode;
use std::fmt;
use thiserror::Error;

/// A fault of an attribute.
#[derive(Clone, Copy, Debug, PartialEq, Eq, Error)]
pub struct AttrFault {
    /// The number of the code of the PA-TNC Error that reports it (RFC 5792, section 4.2.8).
    /// `error_code` names the code.
    pub code: u32,
    /// The place of the fault, counted from the attribute's first octet.
    pub at: u64,
}

/// The first fault of a message.
#[derive(Clone, Copy, Debug, PartialEq, Eq, Error)]
pub struct PaFault {
    /// The number of the code of the PA-TNC Error that reports it (RFC 5792, section 4.2.8).
    /// `error_code` names the code.
    pub code: u32,
    /// The place of the fault, counted from the start of the message.
    pub offset: u32,
    /// The header of the message, with 0 in place of octets that it does not have.
    pub header: [u8; 8],
    /// The first octets of the attribute where the code is 3, else 0.
    pub first: [u8; 8],
    /// Whether the fault is reported to the sender; it is not after a PA-TNC Error.
    pub answer: bool,
}

impl AttrFault {
    /// The fault of the code at a place.
    pub(crate) fn new(code: PaErrorCode, at: u64) -> Self
        ensures fault { result ≡ fault (number_of_code code) at }
    {
        AttrFault {
            code: code.number(),
            at,
        }
    }

    /// The code of the fault; `None` exactly where no code has the number, so never where a feed
    /// reports the fault.
    pub fn error_code(&self) -> Option<PaErrorCode>
        ensures code { MatchOption result ((code : CodeValue) → number_of_code code ≢ self.now.code)
            (λ code. number_of_code code ≡ self.now.code) }
    {
        PaErrorCode::from_number(self.code)
    }
}

impl PaFault {
    /// The code of the fault; `None` exactly where no code has the number, so never where a reader
    /// reports the fault.
    pub fn error_code(&self) -> Option<PaErrorCode>
        ensures code { MatchOption result ((code : CodeValue) → number_of_code code ≢ self.now.code)
            (λ code. number_of_code code ≡ self.now.code) }
    {
        PaErrorCode::from_number(self.code)
    }
}

/// The name of the code, or its number where it has no name, and the place.
impl fmt::Display for AttrFault {
    fn fmt<W: fmt::Write>(&self, f: &mut fmt::Formatter<W>) -> fmt::Result {
        write_code(self.code, f)?;
        write!(f, " at octet {}", self.at)
    }
}

/// The name of the code, or its number where it has no name, and the place.
impl fmt::Display for PaFault {
    fn fmt<W: fmt::Write>(&self, f: &mut fmt::Formatter<W>) -> fmt::Result {
        write_code(self.code, f)?;
        write!(f, " at octet {}", self.offset)
    }
}

/// Writes the name of a code, or its number where it has no name.
fn write_code<W: fmt::Write>(number: u32, f: &mut fmt::Formatter<W>) -> fmt::Result {
    match PaErrorCode::from_number(number) {
        Some(code) => write!(f, "{code}"),
        None => write!(f, "code {number}"),
    }
}
