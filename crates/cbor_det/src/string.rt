//! Definite strings that ended: items, and chunks of indefinite strings.

ghost use Rattle.std.specs.Prelude.{◌≡◌, ◌≢◌, IfOk, OnOk, MatchOption, false, true, None};
ghost use Rattle.std.specs.Str.{is_utf8};
ghost use Rattle.cbor_det.specs.Faults.{Place};
ghost use Rattle.cbor_det.specs.Standing.{inside, place};
ghost use Rattle.cbor_det.specs.Frames.{state_of, StepFits, chunk_kind, chunk_joined};
ghost use Rattle.cbor_det.specs.Machine.{string_ended, is_part};

use crate::begin::chunk_due;
use crate::fault::{CborFault, CborFaultKind};
use crate::frame::{Frame, Phase, StepOutcome};
use crate::item::Item;
use crate::nesting::close_item;
use crate::string_kind::StringKind;
use std::alloc::Global;
use std::str::from_utf8;
use wire_base::{Memory, Octets, Text};

/// Takes a definite string, whose initial byte stands at `at`, as an item or as a chunk.
pub(crate) fn string_ended(
    alloc: Global,
    stack: &mut Vec<Frame>,
    at: u64,
    kind: StringKind,
    octets: Octets,
) -> Result<StepOutcome, Memory>
    ensures ended { IfOk result (λ came. state_of (place stack.new.items) came ≡ string_ended (place stack.old.items) at kind octets) }
    ensures fits { IfOk result StepFits }
{
    match chunk_due(stack.as_slice()) {
        None => string_item(alloc, stack, at, kind, octets),
        Some(_) => chunk_ended(stack, at, kind, octets),
    }
}

/// Takes a definite string as a chunk.
fn chunk_ended(
    stack: &mut Vec<Frame>,
    at: u64,
    kind: StringKind,
    octets: Octets,
) -> Result<StepOutcome, Memory>
    requires chunk { chunk_kind (place stack.old.items) ≢ None }
    ensures ended { IfOk result (λ came. state_of (place stack.new.items) came ≡ string_ended (place stack.old.items) at kind octets) }
    ensures fits { IfOk result StepFits }
{
    if !is_part(kind, octets.as_slice()) {
        return Ok(StepOutcome::Fault(CborFault {
            kind: CborFaultKind::NotUtf8 as u8,
            at,
        }));
    }
    join_chunk(stack, octets.as_slice())?;
    Ok(StepOutcome::Goes(Phase::Due))
}

/// Puts the octets after those of the string that is open.
fn join_chunk(stack: &mut Vec<Frame>, octets: &[u8]) -> Result<(), Memory>
    ensures joined { OnOk result (place stack.new.items ≡ chunk_joined (place stack.old.items) octets.now) }
{
    match stack.last_mut() {
        None => Ok(()),
        Some(frame) => join(frame, octets),
    }
}

/// Puts the octets after those of the construct, where it is a string.
fn join(frame: &mut Frame, octets: &[u8]) -> Result<(), Memory>
    ensures joined { OnOk result ((p : Place) → inside p frame.new ≡ chunk_joined (inside p frame.old) octets.now) }
{
    match frame {
        Frame::Chunks { joined, .. } => joined.extend(octets),
        Frame::Elements { .. } => Ok(()),
        Frame::Map { .. } => Ok(()),
        Frame::Content { .. } => Ok(()),
    }
}

/// Takes a definite string as an item.
fn string_item(
    alloc: Global,
    stack: &mut Vec<Frame>,
    at: u64,
    kind: StringKind,
    octets: Octets,
) -> Result<StepOutcome, Memory>
    requires item { chunk_kind (place stack.old.items) ≡ None }
    ensures ended { IfOk result (λ came. state_of (place stack.new.items) came ≡ string_ended (place stack.old.items) at kind octets) }
    ensures fits { IfOk result StepFits }
{
    match kind {
        StringKind::ByteString => close_item(alloc, stack, at, Item::Bytes(octets)),
        StringKind::TextString => {
            let text = text_of(octets);
            match text {
                Some(text) => close_item(alloc, stack, at, Item::Text(text)),
                None => Ok(StepOutcome::Fault(CborFault {
                    kind: CborFaultKind::NotUtf8 as u8,
                    at,
                })),
            }
        }
    }
}

/// The octets as a text; `None` exactly where they are not UTF-8. It takes no memory.
fn text_of(octets: Octets) -> Option<Text>
    ensures text { MatchOption result (is_utf8 octets ≡ false) (λ text. (text ≡ octets) × (is_utf8 octets ≡ true)) }
{
    match String::from_utf8(octets.into_vec()) {
        Ok(text) => Some(Text::from_string(text)),
        Err(_) => None,
    }
}

/// Whether the octets may be a string of this kind.
fn is_part(kind: StringKind, octets: &[u8]) -> bool
    ensures part { result ≡ is_part kind octets.now }
{
    match kind {
        StringKind::ByteString => true,
        StringKind::TextString => match from_utf8(octets) {
            Ok(_) => true,
            Err(_) => false,
        },
    }
}
