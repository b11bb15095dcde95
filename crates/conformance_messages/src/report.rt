//! Reports (RFC 8412, sections 5.7 to 5.10): the value of an attribute read and written again.

ghost use Rattle.std.specs.Prelude.{◌≤◌, IfSome, length};

use crate::value::{placed_value, value_of};
use conformance_words::{digits_of, refusal_text, report_text};
use std::alloc::Global;
use swima_reports::{read_report, write_report};
use wire_base::{FieldRefused, Octets};

/// `report TYPE PLACE HEX`: the report that is the value of an attribute of the type at the place,
/// or `fault PLACE`.
pub fn report(alloc: Global, words: &str) -> Option<String> {
    let (word, rest) = words.split_once(' ')?;
    let attr_type = type_of(word)?;
    let (place, octets) = placed_value(alloc, rest)?;
    match read_report(alloc, attr_type, octets.as_slice(), place) {
        Ok(report) => report_text(alloc, &report),
        Err(refused) => refusal_text(alloc, refused),
    }
}

/// `report_written TYPE HEX`: what is written of the report that is read.
pub fn report_written(alloc: Global, words: &str) -> Option<String> {
    let (word, digits) = words.split_once(' ')?;
    let attr_type = type_of(word)?;
    let octets = value_of(alloc, digits)?;
    match written_again(alloc, attr_type, octets.as_slice()) {
        Ok(written) => digits_of(alloc, written.as_slice()),
        Err(refused) => refusal_text(alloc, refused),
    }
}

fn written_again(alloc: Global, attr_type: u32, value: &[u8]) -> Result<Octets, FieldRefused>
    requires first { 14 ≤ attr_type }
    requires last { attr_type ≤ 17 }
    requires within { length value.now ≤ 4096 }
{
    let report = read_report(alloc, attr_type, value, 0)?;
    Ok(write_report(alloc, &report)?)
}

/// The type of an attribute that carries a report.
fn type_of(word: &str) -> Option<u32>
    ensures first { IfSome result (λ attr_type. 14 ≤ attr_type) }
    ensures last { IfSome result (λ attr_type. attr_type ≤ 17) }
{
    match word {
        "14" => Some(14),
        "15" => Some(15),
        "16" => Some(16),
        "17" => Some(17),
        _ => None,
    }
}
