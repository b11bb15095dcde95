//! PA-TNC Errors (RFC 5792, section 4.2.8, and RFC 8412, section 5.15): made, written and read.

ghost use Rattle.std.specs.Prelude.{◌<◌, ◌^◌, IfSome};

use crate::value::placed_value;
use conformance_words::{digits_of, eight_of, octets_of, refusal_text};
use pa_attrs::{PaError, PaFault, read_error, write_error};
use std::alloc::Global;
use wire_base::List;

/// `reported CODE PLACE HEADER FIRST`: the Error that reports the fault.
pub fn reported(alloc: Global, words: &str) -> Option<String> {
    let (code, rest) = words.split_once(' ')?;
    let (place, rest) = rest.split_once(' ')?;
    let (header, first) = rest.split_once(' ')?;
    let fault = PaFault {
        code: code.parse().ok()?,
        offset: place.parse().ok()?,
        header: eight_of(header)?,
        first: eight_of(first)?,
        answer: true,
    };
    let error = PaError::of(alloc, &fault).ok()?;
    error_text(alloc, &error)
}

/// `error version HEADER`, `error invalid HEADER PLACE`, `error unsupported HEADER FIRST` or
/// `error swima CODE ID MOST`, with `-` for no limit: the Error that is made.
pub fn error(alloc: Global, words: &str) -> Option<String> {
    let error = made_error(alloc, words)?;
    error_text(alloc, &error)
}

/// The Error that such words ask for.
fn made_error(alloc: Global, words: &str) -> Option<PaError> {
    let (kind, rest) = words.split_once(' ')?;
    match kind {
        "version" => PaError::version(alloc, eight_of(rest)?).ok(),
        "invalid" => {
            let (header, place) = rest.split_once(' ')?;
            PaError::invalid(alloc, eight_of(header)?, place.parse().ok()?).ok()
        }
        "unsupported" => {
            let (header, first) = rest.split_once(' ')?;
            PaError::unsupported(alloc, eight_of(header)?, eight_of(first)?).ok()
        }
        "swima" => swima_error(alloc, rest),
        _ => None,
    }
}

/// The Error of the words `CODE ID MOST`.
fn swima_error(alloc: Global, words: &str) -> Option<PaError> {
    let (code, rest) = words.split_once(' ')?;
    let (id, most) = rest.split_once(' ')?;
    let most: Option<u32> = match most {
        "-" => None,
        most => Some(most.parse().ok()?),
    };
    PaError::swima(alloc, code.parse().ok()?, id.parse().ok()?, most).ok()
}

/// `error VENDOR CODE INFORMATION`.
fn error_text(alloc: Global, error: &PaError) -> Option<String> {
    let (vendor, code) = (error.vendor, error.code);
    let info = digits_of(alloc, error.info.as_slice())?;
    format!(in alloc; "error {vendor} {code} {info}").ok()
}

/// `error_read PLACE HEX`: the Error that is the value at the place, or `fault PLACE`.
pub fn error_read(alloc: Global, words: &str) -> Option<String> {
    let (place, octets) = placed_value(alloc, words)?;
    match read_error(alloc, octets.as_slice(), place) {
        Ok(error) => error_text(alloc, &error),
        Err(refused) => refusal_text(alloc, refused),
    }
}

/// `error_written VENDOR CODE INFORMATION`: the octets of the Error.
pub fn error_written(alloc: Global, words: &str) -> Option<String> {
    let error = error_of(alloc, words)?;
    let written = write_error(alloc, &error).ok()?;
    digits_of(alloc, written.as_slice())
}

/// The Error of the words `VENDOR CODE INFORMATION`.
fn error_of(alloc: Global, words: &str) -> Option<PaError>
    ensures vendor { IfSome result (λ error. error.vendor < 2 ^ 24) }
{
    let (vendor, rest) = words.split_once(' ')?;
    let (code, digits) = rest.split_once(' ')?;
    let vendor: u32 = vendor.parse().ok()?;
    let code: u32 = code.parse().ok()?;
    if vendor >= 1 << 24 {
        return None;
    }
    Some(PaError {
        vendor,
        code,
        info: List::from_vec(octets_of(alloc, digits)?),
    })
}
