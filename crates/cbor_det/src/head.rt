//! Heads with their arguments.

ghost use Rattle.std.specs.Prelude.{◌≡◌, ◌≤◌, IfOk};
ghost use Rattle.cbor_det.specs.Standing.{place};
ghost use Rattle.cbor_det.specs.Frames.{state_of, StepFits};
ghost use Rattle.cbor_det.specs.Machine.{argued, filled_array, filled_map};
ghost use Rattle.cbor_det.specs.Term.{no_terms, no_pairs};
ghost use Rattle.cbor_det.specs.declared.initial.Major.TheVariants as major;
ghost use Rattle.std.specs.Prelude.{Some};

use crate::fault::{CborFault, CborFaultKind};
use crate::frame::{Frame, PartialString, Phase, StepOutcome};
use crate::initial::Major;
use crate::item::{Item, Pairs};
use crate::limits::Limits;
use crate::nesting::{close_item, open_frame};
use crate::string::string_ended;
use crate::string_kind::StringKind;
use std::alloc::Global;
use wire_base::{List, Memory};

/// Begins what the head says, after `taken` octets of the item.
#[tactic(auto, unfolding(crate::specs::Machine::argued))]
pub(crate) fn item_from_head(
    alloc: Global,
    limits: Limits,
    taken: u64,
    stack: &mut Vec<Frame>,
    at: u64,
    major: Major,
    argument: u64,
) -> Result<StepOutcome, Memory>
    requires { taken ≤ limits.octets }
    ensures argued { IfOk result
        (λ came. state_of (place stack.new.items) came ≡ argued limits taken (place stack.old.items) at major argument) }
    ensures fits { IfOk result StepFits }
{
    match major {
        Major::Unsigned => {
            if argument >= 1 << 63 {
                return Ok(StepOutcome::Fault(CborFault {
                    kind: CborFaultKind::Range as u8,
                    at,
                }));
            }
            close_item(alloc, stack, at, Item::Int(argument as i64))
        }
        Major::Negative => {
            if argument >= 1 << 63 {
                return Ok(StepOutcome::Fault(CborFault {
                    kind: CborFaultKind::Range as u8,
                    at,
                }));
            }
            close_item(alloc, stack, at, Item::Int(-1 - argument as i64))
        }
        Major::String(kind) => begin_string(alloc, limits, taken, stack, at, kind, argument),
        Major::Array => begin_array(alloc, stack, at, argument),
        Major::Map => begin_map(alloc, stack, at, argument),
        Major::Tag => {
            let number = argument;
            open_frame(stack, Frame::Content { at, number })
        }
    }
}

/// A definite string of `len` octets.
#[tactic(auto, unfolding(crate::specs::Machine::argued))]
fn begin_string(
    alloc: Global,
    limits: Limits,
    taken: u64,
    stack: &mut Vec<Frame>,
    at: u64,
    kind: StringKind,
    len: u64,
) -> Result<StepOutcome, Memory>
    requires { taken ≤ limits.octets }
    ensures argued { IfOk result
        (λ came. state_of (place stack.new.items) came ≡ argued limits taken (place stack.old.items) at (major.String kind) len) }
    ensures fits { IfOk result StepFits }
{
    if len > limits.octets - taken {
        return Ok(StepOutcome::Fault(CborFault {
            kind: CborFaultKind::TooLong as u8,
            at,
        }));
    }
    let came = List::new(alloc);
    if len == 0 {
        return string_ended(alloc, stack, at, kind, came);
    }
    Ok(StepOutcome::Goes(Phase::String(PartialString {
        at,
        kind,
        left: len,
        came,
    })))
}

/// An array of `count` items.
fn begin_array(
    alloc: Global,
    stack: &mut Vec<Frame>,
    at: u64,
    count: u64,
) -> Result<StepOutcome, Memory>
    ensures filled { IfOk result
        (λ came. state_of (place stack.new.items) came ≡ filled_array (place stack.old.items) at (Some count) no_terms) }
    ensures fits { IfOk result StepFits }
{
    if count == 0 {
        return close_item(alloc, stack, at, Item::Array(List::new(alloc)));
    }
    open_frame(stack, Frame::elements(alloc, at, Some(count))?)
}

/// A map of `count` pairs.
fn begin_map(
    alloc: Global,
    stack: &mut Vec<Frame>,
    at: u64,
    count: u64,
) -> Result<StepOutcome, Memory>
    ensures filled { IfOk result
        (λ came. state_of (place stack.new.items) came ≡ filled_map (place stack.old.items) at (Some count) no_pairs) }
    ensures fits { IfOk result StepFits }
{
    if count == 0 {
        return close_item(alloc, stack, at, Item::Map(Pairs::new(alloc)));
    }
    open_frame(stack, Frame::map(alloc, at, Some(count))?)
}
