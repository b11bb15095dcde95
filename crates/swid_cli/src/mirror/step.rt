//! One attribute of the input: what is printed of it.

ghost use Rattle.std.specs.Prelude.{◌≡◌, ◌+◌, ◌≤◌, ◌<◌, ◌^◌, List, ℕ, IfOk, length};
ghost use Rattle.pa_attrs.specs.Numbers.{HEADER};
ghost use Rattle.swid_cli.specs.Steps.{Advances, IsStep, TakesStep};
ghost use Rattle.swid_cli.specs.Stream.{INPUT_OCTETS, attribute_step, report_step};
ghost use Rattle.command_text.specs.Text.{fault_line, refusal};
ghost use Rattle.swima_reports.specs.ReportReading.{read_report};
ghost use Rattle.swima_reports.specs.ReportType.{IsReportType};
ghost use Rattle.wire_base.specs.Reading.{whole};
ghost use Rattle.wire_base.specs.Outside.{HasCause};
ghost use Rattle.wire_base.specs.Passing.{is_fault};

use crate::mirror::first_attribute::{Front, Piece, take_front};
use crate::mirror::supported::carries_report;
use command_text::{fault_line, refusal, skipped_line, took_line};
use pa_attrs::{Attr, HEADER_OCTETS, INVALID_PARAMETER};
use std::alloc::Global;
use swima_reports::read_report;
use validator_core::Mirror;
use wire_base::{FieldRefused, Memory, Octets, Source, Stopped};

/// The most octets of the input.
pub(crate) const MOST_INPUT_OCTETS: u32 = 1073741824;

/// What is printed next.
#[derive(Debug, Drop)]
pub(crate) enum Step {
    /// A line, and then what the octets after an attribute of this length make.
    Goes(Octets, u32),
    /// The line of a refusal, and nothing after it.
    Refused(Octets),
    /// What the mirror holds: nothing is left of the input.
    End,
}

/// Takes the first attribute of what is left of the input, which begins at `at`, into the mirror.
pub(crate) fn next_step<S: Source>(
    alloc: Global,
    input: &mut S,
    buf: &mut Piece,
    at: u32,
    mirror: &mut Mirror,
) -> Result<Step, Stopped>
    requires { at ≤ INPUT_OCTETS }
    ensures step { IfOk result (λ taken.
        TakesStep at mirror.old (S.left input.old) (S.left input.new) taken mirror.new) }
    ensures advances { IfOk result (λ taken. Advances at taken) }
    ensures cause { HasCause (S.faults input.old) (S.faults input.new) (is_fault result) }
{
    let first = take_front(alloc, input, buf, (MOST_INPUT_OCTETS - at) as usize)?;
    match first {
        Front::End => Ok(Step::End),
        Front::Torn(have) => Ok(refuse(alloc, "torn", have)?),
        Front::Limit => Ok(refuse(alloc, "limit", MOST_INPUT_OCTETS)?),
        Front::Faulty(fault) => Ok(fault_at(alloc, fault.code, at + fault.at as u32)?),
        Front::Whole(attr, len) => Ok(take_attribute(alloc, &attr, len, at, mirror)?),
    }
}

fn refuse(alloc: Global, word: &str, number: u32) -> Result<Step, Memory>
    ensures refused { IfOk result (λ made. made ≡ Step.Refused (refusal word.now number)) }
{
    Ok(Step::Refused(refusal(alloc, word, number as u64)?))
}

fn fault_at(alloc: Global, code: u32, place: u32) -> Result<Step, Memory>
    ensures refused { IfOk result (λ made. made ≡ Step.Refused (fault_line code place)) }
{
    Ok(Step::Refused(fault_line(alloc, code, place as u64)?))
}

/// Takes a whole attribute of `len` octets that begins at `at`: one that carries no report is
/// skipped.
fn take_attribute(
    alloc: Global,
    attr: &Attr,
    len: u32,
    at: u32,
    mirror: &mut Mirror,
) -> Result<Step, Memory>
    requires counted { len ≡ HEADER + length attr.now.value }
    requires places { at + len ≤ INPUT_OCTETS }
    ensures step { IfOk result (λ made. (octets : List ℕ) → IsStep
        (attribute_step at mirror.old octets attr.now len) made mirror.new) }
    ensures advances { IfOk result (λ made. Advances at made) }
{
    let carries_report = carries_report(attr.vendor, attr.kind);
    if !carries_report {
        return Ok(Step::Goes(skipped_line(alloc, attr.vendor, attr.kind)?, len));
    }
    take_report(alloc, attr, len, at, mirror)
}

/// Reads the value of an attribute of `len` octets that begins at `at`, and lets the mirror take
/// the report.
fn take_report(
    alloc: Global,
    attr: &Attr,
    len: u32,
    at: u32,
    mirror: &mut Mirror,
) -> Result<Step, Memory>
    requires kind { IsReportType attr.now.kind }
    requires counted { len ≡ HEADER + length attr.now.value }
    requires places { at + len ≤ INPUT_OCTETS }
    ensures step { IfOk result (λ made. (octets : List ℕ) → IsStep
        (report_step mirror.old octets len
        (whole (read_report attr.now.kind) (at + HEADER) attr.now.value))
        made mirror.new) }
    ensures advances { IfOk result (λ made. Advances at made) }
{
    let base = at + HEADER_OCTETS as u32;
    match read_report(alloc, attr.kind, attr.value.as_slice(), base) {
        Err(FieldRefused::Memory) => Err(Memory),
        Err(FieldRefused::Fault { offset }) => fault_at(alloc, INVALID_PARAMETER, offset),
        Ok(report) => {
            let line = took_line(
                alloc,
                report.point(),
                report.count(),
                mirror.take_owned(report),
            )?;
            Ok(Step::Goes(line, len))
        }
    }
}
