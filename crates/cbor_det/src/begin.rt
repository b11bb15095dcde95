//! What begins or ends at an initial byte.

ghost use Rattle.std.specs.Prelude.{◌≡◌, ◌<◌, IfOk, None};
ghost use Rattle.cbor_det.specs.FaultKinds.{fault_number};
ghost use Rattle.cbor_det.specs.Faults.{Place};
ghost use Rattle.cbor_det.specs.Standing.{inside, place};
ghost use Rattle.cbor_det.specs.Frames.{state_of, StepFits, chunk_kind, low_kind, end_state, BeginFits};
ghost use Rattle.cbor_det.specs.Machine.{begun, due, item_ended, opened, step, is_string, string_head};
ghost use Rattle.cbor_det.specs.View.{view};
ghost use Rattle.cbor_det.specs.declared.initial.Initial.TheVariants as initial;
ghost use Rattle.cbor_det.specs.declared.frame.Frame.TheVariants as frames;
ghost use Rattle.cbor_det.specs.declared.frame.StepOutcome.TheVariants as step_outcome;
ghost use Rattle.cbor_det.specs.declared.item.Item.TheVariants as code;

use crate::fault::{CborFault, CborFaultKind};
use crate::frame::{Frame, PartialHead, Phase, StepOutcome};
use crate::head::item_from_head;
use crate::initial::{Beginning, Initial, Major, initial_of};
use crate::item::{Item, Items};
use crate::limits::Limits;
use crate::members::Members;
use crate::nesting::{close_item, open_frame};
use crate::string::string_ended;
use crate::string_kind::StringKind;
use std::alloc::Global;
use wire_base::Memory;

/// Begins or ends what an initial byte says, after `taken` octets of the item.
pub(crate) fn read_initial_byte(
    alloc: Global,
    limits: Limits,
    taken: u64,
    stack: &mut Vec<Frame>,
    octet: u8,
) -> Result<StepOutcome, Memory>
    requires room { taken < limits.octets }
    ensures stepped { IfOk result (λ came. state_of (place stack.new.items) came ≡ step limits taken (due (place stack.old.items)) octet) }
    ensures fits { IfOk result StepFits }
{
    match initial_of(octet) {
        Initial::Item(beginning) => start_item(alloc, limits, taken, stack, beginning),
        Initial::Break => read_break(alloc, taken, stack),
        Initial::Float => Ok(refused(stack.as_slice(), taken, CborFaultKind::Float)),
        Initial::Simple => Ok(refused(stack.as_slice(), taken, CborFaultKind::Simple)),
        Initial::Malformed => Ok(refused(stack.as_slice(), taken, CborFaultKind::Malformed)),
    }
}

/// A fault of this kind, or a malformed chunk where a chunk is due.
fn refused(stack: &[Frame], at: u64, kind: CborFaultKind) -> StepOutcome
    ensures fault { result ≡ step_outcome.Fault (record { kind = low_kind (place stack.now) (fault_number kind); at = at }) }
{
    match chunk_due(stack) {
        None => StepOutcome::Fault(CborFault {
            kind: kind as u8,
            at,
        }),
        Some(_) => StepOutcome::Fault(CborFault {
            kind: CborFaultKind::Malformed as u8,
            at,
        }),
    }
}

/// The kind of the string of which a chunk is due; `None` where an item is.
pub(crate) fn chunk_due(stack: &[Frame]) -> Option<StringKind>
    ensures kind { result ≡ chunk_kind (place stack.now) }
{
    match stack.last() {
        None => None,
        Some(frame) => kind_of(frame),
    }
}

/// The kind of the string that is open.
fn kind_of(frame: &Frame) -> Option<StringKind>
    ensures kind { (p : Place) → result ≡ chunk_kind (inside p frame.now) }
{
    match frame {
        Frame::Chunks { kind, .. } => Some(*kind),
        Frame::Elements { .. } => None,
        Frame::Map { .. } => None,
        Frame::Content { .. } => None,
    }
}

/// Begins an item, or a chunk where one is due.
fn start_item(
    alloc: Global,
    limits: Limits,
    taken: u64,
    stack: &mut Vec<Frame>,
    beginning: Beginning,
) -> Result<StepOutcome, Memory>
    requires room { taken < limits.octets }
    requires head { BeginFits beginning }
    ensures begun { IfOk result
        (λ came. state_of (place stack.new.items) came ≡ begun limits taken (place stack.old.items) (initial.Item beginning)) }
    ensures fits { IfOk result StepFits }
{
    let due = chunk_due(stack.as_slice());
    match due {
        Some(kind) => {
            if !is_chunk(kind, beginning) {
                return Ok(StepOutcome::Fault(CborFault {
                    kind: CborFaultKind::Malformed as u8,
                    at: taken,
                }));
            }
            start_allowed_item(alloc, limits, taken, stack, beginning)
        }
        None => {
            if stack.len() as u64 >= u64::from(limits.depth) {
                return Ok(StepOutcome::Fault(CborFault {
                    kind: CborFaultKind::Depth as u8,
                    at: taken,
                }));
            }
            start_allowed_item(alloc, limits, taken, stack, beginning)
        }
    }
}

/// Whether this is the head of a chunk of the kind.
fn is_chunk(kind: StringKind, beginning: Beginning) -> bool
    ensures chunk { result ≡ string_head kind (initial.Item beginning) }
{
    match beginning {
        Beginning::Argued(major, _) => is_string(kind, major),
        Beginning::Argument(major, _) => is_string(kind, major),
        Beginning::Chunks(_) => false,
        Beginning::Elements => false,
        Beginning::Members => false,
        Beginning::Bool(_) => false,
    }
}

/// Whether the major type is that of strings of the kind.
fn is_string(kind: StringKind, major: Major) -> bool
    ensures string { result ≡ is_string kind major }
{
    match major {
        Major::String(of) => kind == of,
        Major::Unsigned => false,
        Major::Negative => false,
        Major::Array => false,
        Major::Map => false,
        Major::Tag => false,
    }
}

/// Begins what may stand here.
#[tactic(auto, unfolding(crate::specs::Machine::opened))]
fn start_allowed_item(
    alloc: Global,
    limits: Limits,
    taken: u64,
    stack: &mut Vec<Frame>,
    beginning: Beginning,
) -> Result<StepOutcome, Memory>
    requires room { taken < limits.octets }
    requires head { BeginFits beginning }
    ensures opened { IfOk result (λ came. state_of (place stack.new.items) came ≡ opened limits taken (place stack.old.items) beginning) }
    ensures fits { IfOk result StepFits }
{
    match beginning {
        Beginning::Argued(major, argument) => item_from_head(
            alloc,
            limits,
            taken + 1,
            stack,
            taken,
            major,
            argument,
        ),
        Beginning::Argument(major, left) => Ok(StepOutcome::Goes(Phase::Head(PartialHead::new(
            taken, major, left,
        )))),
        Beginning::Chunks(kind) => open_frame(stack, Frame::chunks(alloc, taken, kind)),
        Beginning::Elements => open_frame(stack, Frame::elements(alloc, taken, None)?),
        Beginning::Members => open_frame(stack, Frame::map(alloc, taken, None)?),
        Beginning::Bool(value) => close_item(alloc, stack, taken, Item::Bool(value)),
    }
}

/// Ends the innermost construct by a break at the offset `taken`; a fault where a break ends
/// nothing.
fn read_break(alloc: Global, taken: u64, stack: &mut Vec<Frame>) -> Result<StepOutcome, Memory>
    ensures ended { IfOk result (λ came. state_of (place stack.new.items) came ≡ end_state taken (place stack.old.items)) }
    ensures fits { IfOk result StepFits }
{
    match stack.pop() {
        None => Ok(StepOutcome::Fault(CborFault {
            kind: CborFaultKind::Malformed as u8,
            at: taken,
        })),
        Some(frame) => end_frame(alloc, taken, stack, frame),
    }
}

/// Ends `frame`, inside of what is open. A break ends what has no count; of a map, between two
/// pairs only.
#[tactic(auto, unfolding(crate::specs::Machine::broken))]
fn end_frame(
    alloc: Global,
    taken: u64,
    stack: &mut Vec<Frame>,
    frame: Frame,
) -> Result<StepOutcome, Memory>
    ensures ended { IfOk result (λ came. state_of (place stack.new.items) came ≡ end_state taken (inside (place stack.old.items) frame)) }
    ensures fits { IfOk result StepFits }
{
    match frame {
        Frame::Chunks { at, kind, joined } => string_ended(alloc, stack, at, kind, joined),
        Frame::Elements {
            at,
            all: None,
            items,
        } => end_array(alloc, stack, at, items),
        Frame::Map {
            at,
            all: None,
            members,
        } => end_map(alloc, taken, stack, at, members),
        _ => Ok(unended(taken)),
    }
}

/// Ends an array without a count.
#[tactic(auto, unfolding(crate::specs::Machine::broken))]
fn end_array(
    alloc: Global,
    stack: &mut Vec<Frame>,
    at: u64,
    items: Items,
) -> Result<StepOutcome, Memory>
    ensures ended { IfOk result (λ came. state_of (place stack.new.items) came ≡ item_ended (place stack.old.items) at (view (code.Array items))) }
    ensures fits { IfOk result StepFits }
{
    let mut items = items;
    items.shrink_to_fit();
    close_item(alloc, stack, at, Item::Array(items))
}

/// Ends a map without a count, where no key has come without its value.
#[tactic(auto, unfolding(crate::specs::Machine::broken))]
fn end_map(
    alloc: Global,
    taken: u64,
    stack: &mut Vec<Frame>,
    at: u64,
    members: Members,
) -> Result<StepOutcome, Memory>
    ensures ended { IfOk result (λ came. state_of (place stack.new.items) came ≡ end_state taken (inside (place stack.old.items) (frames.Map at None members))) }
    ensures fits { IfOk result StepFits }
{
    if !members.is_key_due() {
        return Ok(unended(taken));
    }
    let mut members = members;
    let pairs = members.take_pairs(alloc)?;
    close_item(alloc, stack, at, Item::Map(pairs))
}

/// A break that ends nothing.
fn unended(at: u64) -> StepOutcome
    ensures fault { result ≡ step_outcome.Fault (record { kind = 2; at = at }) }
{
    StepOutcome::Fault(CborFault {
        kind: CborFaultKind::Malformed as u8,
        at,
    })
}
