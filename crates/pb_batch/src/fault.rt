//! What is wrong with a batch.

ghost use Rattle.std.specs.Prelude.{◌≡◌, ◌≢◌, MatchOption};
ghost use Rattle.pb_batch.specs.Faults.{fault};
ghost use Rattle.pb_batch.specs.Gives.{refused_of};
ghost use Rattle.pb_batch.specs.Types.{number_of_code};
ghost use Rattle.pb_batch.specs.declared.error_code.PbErrorCode.{PbErrorCode as CodeValue};
ghost use Rattle.wire_base.specs.declared.layout.field_refused.Refused.TheVariants as refused;

use crate::error_code::PbErrorCode;
use std::fmt;
use thiserror::Error;
use wire_base::{FieldRefused, Refused};

/// A fault in a batch.
#[derive(Clone, Copy, Debug, PartialEq, Eq, Error)]
pub struct PbFault {
    /// The number of the code of the PB-Error that reports it (RFC 5793, section 4.9.1).
    /// `error_code` names the code.
    pub code: u16,
    /// The place of the fault, in octets from the start of the batch.
    pub offset: u32,
    /// The batch's first octet where the code is 4, else 0.
    pub version: u8,
}

impl PbFault {
    /// The fault of the code at a place.
    pub(crate) fn new(code: PbErrorCode, offset: u32) -> Self
        ensures fault { result ≡ fault (number_of_code code) offset }
    {
        PbFault {
            code: code.number(),
            offset,
            version: 0,
        }
    }

    /// The code of the fault; `None` exactly where no code has the number, so never where a feed
    /// reports the fault.
    pub fn error_code(&self) -> Option<PbErrorCode>
        ensures code { MatchOption result ((code : CodeValue) → number_of_code code ≢ self.now.code)
            (λ code. number_of_code code ≡ self.now.code) }
    {
        PbErrorCode::from_number(self.code)
    }
}

/// The name of the code, or its number where it has no name, and the place.
impl fmt::Display for PbFault {
    fn fmt<W: fmt::Write>(&self, f: &mut fmt::Formatter<W>) -> fmt::Result {
        match self.error_code() {
            Some(code) => write!(f, "{code}")?,
            None => write!(f, "code {}", self.code)?,
        }
        write!(f, " at octet {}", self.offset)
    }
}

/// Why octets are not read as a batch.
pub(crate) type BatchRefused = Refused<PbFault>;

impl From<PbFault> for Refused<PbFault> {
    ghost from_gives = { λ fault e. e ≡ refused.Fault fault };

    fn from(fault: PbFault) -> Self {
        Refused::Fault(fault)
    }
}

/// Why a message is not read, where its value is not: every fault in a value is an invalid
/// parameter.
pub(crate) fn in_value(refused: FieldRefused) -> BatchRefused
    ensures refused { result ≡ refused_of refused }
{
    match refused {
        FieldRefused::Fault { offset } => {
            Refused::Fault(PbFault::new(PbErrorCode::InvalidParameter, offset))
        }
        FieldRefused::Memory => Refused::Memory,
    }
}
