//! Reading octets of an item, in any pieces.

ghost use Rattle.std.specs.Prelude.{◌≡◌, ◌+◌, ◌++◌, ◌^◌, ◌<◌, ◌≤◌, ℕ, List, IfOk, drop, length};
ghost use Rattle.cbor_det.specs.declared.limits.Limits.{Limits};
ghost use Rattle.cbor_det.specs.Standing.{place};
ghost use Rattle.cbor_det.specs.Frames.{state_of, phase_state, ArgumentFits, Fits, StepFits, EndsBehindSome, Takes};
ghost use Rattle.cbor_det.specs.Machine.{argument, content, run, step};

use crate::begin::read_initial_byte;
use crate::frame::{Frame, PartialHead, PartialString, Phase, StepOutcome};
use crate::head::item_from_head;
use crate::limits::Limits;
use crate::string::string_ended;
use std::alloc::Global;
use wire_base::Memory;

/// Reads a piece, after `taken` octets of the item, until an item or a fault ends it, and reports
/// how many octets of it were read.
pub(crate) fn run_piece(
    alloc: Global,
    limits: Limits,
    taken: u64,
    stack: &mut Vec<Frame>,
    phase: Phase,
    piece: &[u8],
) -> Result<(StepOutcome, usize), Memory>
    requires small { limits.octets ≤ 2 ^ 24 }
    requires room { taken + length piece.now ≤ limits.octets }
    requires fits { Fits phase }
    ensures ran { IfOk result
        (λ read. run limits taken (phase_state (place stack.old.items) phase) piece.now
        ≡ (state_of (place stack.new.items) read.0, drop read.1 piece.now)) }
    ensures within { IfOk result (λ read. read.1 ≤ length piece.now) }
    ensures some { IfOk result (λ read. EndsBehindSome read.0 read.1) }
    ensures fits { IfOk result (λ read. StepFits read.0) }
{
    let mut phase = phase;
    let mut used = 0;
    while used < piece.len() {
        let count = taken_at_once(&phase, piece.len() - used);
        let front = &piece[used..used + count];
        let stepped = advance(alloc, limits, taken + used as u64, stack, phase, front)?;
        used += count;
        match stepped {
            StepOutcome::Goes(next) => phase = next,
            StepOutcome::Whole(item) => return Ok((StepOutcome::Whole(item), used)),
            StepOutcome::Fault(fault) => return Ok((StepOutcome::Fault(fault), used)),
        }
    }
    Ok((StepOutcome::Goes(phase), used))
}

/// How many of the octets are taken at once: one, or as much of a string as is there.
fn taken_at_once(phase: &Phase, there: usize) -> usize
    requires some { 0 < there }
    requires fits { Fits phase.now }
    ensures takes { Takes phase.now result }
    ensures within { result ≤ there }
{
    match phase {
        Phase::Due => 1,
        Phase::Head(_) => 1,
        Phase::String(string) => there.min(string.left as usize),
    }
}

/// Takes these octets at once.
fn advance(
    alloc: Global,
    limits: Limits,
    taken: u64,
    stack: &mut Vec<Frame>,
    phase: Phase,
    octets: &[u8],
) -> Result<StepOutcome, Memory>
    requires small { limits.octets ≤ 2 ^ 24 }
    requires room { taken + length octets.now ≤ limits.octets }
    requires fits { Fits phase }
    requires takes { Takes phase (length octets.now) }
    ensures ran { IfOk result
        (λ came. (rest : List ℕ) → run limits taken (phase_state (place stack.old.items) phase) (octets.now ++ rest)
        ≡ run limits (taken + length octets.now) (state_of (place stack.new.items) came) rest) }
    ensures fits { IfOk result StepFits }
{
    match phase {
        Phase::Due => read_initial_byte(alloc, limits, taken, stack, octets[0]),
        Phase::Head(head) => read_argument_octet(alloc, limits, taken, stack, head, octets[0]),
        Phase::String(string) => take_content(alloc, stack, string, octets),
    }
}

/// Reads one octet of an argument.
fn read_argument_octet(
    alloc: Global,
    limits: Limits,
    taken: u64,
    stack: &mut Vec<Frame>,
    head: PartialHead,
    octet: u8,
) -> Result<StepOutcome, Memory>
    requires room { taken < limits.octets }
    requires fits { ArgumentFits head.left head.number }
    ensures stepped { IfOk result
        (λ came. state_of (place stack.new.items) came
        ≡ step limits taken (argument (place stack.old.items) head.at head.major head.left head.number) octet) }
    ensures fits { IfOk result StepFits }
{
    let PartialHead {
        at,
        major,
        left,
        number,
    } = head;
    let number = 256 * number + u64::from(octet);
    if left == 1 {
        return item_from_head(alloc, limits, taken + 1, stack, at, major, number);
    }
    Ok(StepOutcome::Goes(Phase::Head(PartialHead {
        at,
        major,
        left: left - 1,
        number,
    })))
}

/// Takes octets of a definite string.
fn take_content(
    alloc: Global,
    stack: &mut Vec<Frame>,
    string: PartialString,
    octets: &[u8],
) -> Result<StepOutcome, Memory>
    requires some { 1 ≤ length octets.now }
    requires left { length octets.now ≤ string.left }
    ensures ran { IfOk result
        (λ came. (limits : Limits) → (taken : ℕ) → (rest : List ℕ)
        → run limits taken (content (place stack.old.items) string.at string.kind string.left string.came) (octets.now ++ rest)
        ≡ run limits (taken + length octets.now) (state_of (place stack.new.items) came) rest) }
    ensures fits { IfOk result StepFits }
{
    let PartialString {
        at,
        kind,
        left,
        came,
    } = string;
    let mut came = came;
    came.extend(octets)?;
    let left = left - octets.len() as u64;
    if left == 0 {
        return string_ended(alloc, stack, at, kind, came);
    }
    Ok(StepOutcome::Goes(Phase::String(PartialString {
        at,
        kind,
        left,
        came,
    })))
}
