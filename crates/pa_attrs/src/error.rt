//! PA-TNC Errors.

ghost use Rattle.std.specs.Prelude.{◌≡◌, IfOk};
ghost use Rattle.pa_attrs.specs.ErrorForm.{error_of, invalid_error, swima_error, unsupported_error, version_error};

use crate::fault::PaFault;
use crate::numbers::{
    IETF, INVALID_PARAMETER, UNSUPPORTED_ATTRIBUTE, VERSION, VERSION_NOT_SUPPORTED,
};
use std::alloc::Global;
use wire_base::{List, Memory, Octets, put_u32};

/// A PA-TNC Error, the value of an attribute of vendor 0 and type 8 (RFC 5792, section 4.2.8).
#[derive(Debug, Drop)]
pub struct PaError {
    /// The vendor that defines the code; `IETF` is that of the IETF.
    pub vendor: u32,
    /// The code, by its vendor's numbers.
    pub code: u32,
    /// The information that goes with the code.
    pub info: Octets,
}

impl PaError {
    /// The Error that reports a fault of a message or of a value (RFC 5792, section 4.2.8).
    ///
    /// It is that of `version` for the code `VERSION_NOT_SUPPORTED`, that of `unsupported` for
    /// `UNSUPPORTED_ATTRIBUTE`, and that of `invalid` for every other code. `Memory` comes where
    /// there is no room for it. `answer` of the fault is not looked at.
    pub fn of(alloc: Global, fault: &PaFault) -> Result<Self, Memory>
        ensures error { IfOk result (λ error. error ≡ error_of fault.now) }
    {
        match fault.code {
            VERSION_NOT_SUPPORTED => PaError::version(alloc, fault.header),
            UNSUPPORTED_ATTRIBUTE => PaError::unsupported(alloc, fault.header, fault.first),
            _ => PaError::invalid(alloc, fault.header, fault.offset),
        }
    }

    /// A value of a message is invalid: the header of the message, and the place of the value in it
    /// (RFC 5792, section 4.2.8.1).
    #[tactic(auto, unfolding(wire_base::specs::Written::written))]
    pub fn invalid(alloc: Global, header: [u8; 8], offset: u32) -> Result<Self, Memory>
        ensures error { IfOk result (λ error. error ≡ invalid_error header offset) }
    {
        let mut info = List::new(alloc);
        info.extend(&header)?;
        put_u32(&mut info, offset)?;
        Ok(PaError {
            vendor: IETF,
            code: INVALID_PARAMETER,
            info,
        })
    }

    /// The version of a message is not supported: the header of the message (RFC 5792,
    /// section 4.2.8.2).
    #[tactic(auto, unfolding(wire_base::specs::Written::written, wire_base::specs::Numbers::octets_of))]
    pub fn version(alloc: Global, header: [u8; 8]) -> Result<Self, Memory>
        ensures error { IfOk result (λ error. error ≡ version_error header) }
    {
        let mut info = List::new(alloc);
        info.extend(&header)?;
        info.extend(&[VERSION, VERSION, 0, 0])?;
        Ok(PaError {
            vendor: IETF,
            code: VERSION_NOT_SUPPORTED,
            info,
        })
    }

    /// An attribute that may not be passed over is not supported: the header of the message, and
    /// the first octets of the attribute (RFC 5792, section 4.2.8.3).
    #[tactic(auto, unfolding(wire_base::specs::Written::written))]
    pub fn unsupported(alloc: Global, header: [u8; 8], first: [u8; 8]) -> Result<Self, Memory>
        ensures error { IfOk result (λ error. error ≡ unsupported_error header first) }
    {
        let mut info = List::new(alloc);
        info.extend(&header)?;
        info.extend(&first)?;
        Ok(PaError {
            vendor: IETF,
            code: UNSUPPORTED_ATTRIBUTE,
            info,
        })
    }

    /// An error about the request with an ID, of a code from `PaErrorCode::SwimaError` on. `max` is
    /// the most octets of an answer; `PaErrorCode::SwimaResponseTooLargeError` alone has it (RFC
    /// 8412, section 5.15).
    #[tactic(auto, unfolding(wire_base::specs::Written::written))]
    pub fn swima(alloc: Global, code: u32, id: u32, max: Option<u32>) -> Result<Self, Memory>
        ensures error { IfOk result (λ error. error ≡ swima_error code id max) }
    {
        let mut info = List::new(alloc);
        put_u32(&mut info, id)?;
        if let Some(most) = max {
            put_u32(&mut info, most)?;
        }
        Ok(PaError {
            vendor: IETF,
            code,
            info,
        })
    }
}
