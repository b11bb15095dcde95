//! Taking an item that ended into what is open round it.

ghost use Rattle.std.specs.Prelude.{◌≡◌, ℕ, map, IfOk};
ghost use Rattle.cbor_det.specs.Faults.{Place, at_element};
ghost use Rattle.cbor_det.specs.Standing.{inside, map_place, place};
ghost use Rattle.cbor_det.specs.Frames.{state_of, StepFits};
ghost use Rattle.cbor_det.specs.Absorbing.{absorbed_state};
ghost use Rattle.cbor_det.specs.Machine.{due, item_ended, is_full};
ghost use Rattle.cbor_det.specs.Held.{due_key, members_view};
ghost use Rattle.cbor_det.specs.View.{view, terms_of};
ghost use Rattle.cbor_det.specs.declared.frame.Frame.TheVariants as frame;

use crate::fault::{CborFault, CborFaultKind};
use crate::frame::{Frame, Phase, StepOutcome};
use crate::item::{Item, Items};
use crate::members::Members;
use std::alloc::Global;
use std::mem;
use wire_base::{Boxed, List, Memory};

/// What a construct that is open makes of an item.
#[derive(Drop)]
pub(crate) enum Absorbed {
    /// It is still open.
    Open,
    /// It ended too: an item that began at the offset.
    Ended(u64, Item),
    /// A fault showed.
    Fault(CborFault),
}

/// Opens a construct, inside of what is open.
pub(crate) fn open_frame(stack: &mut Vec<Frame>, frame: Frame) -> Result<StepOutcome, Memory>
    ensures due { IfOk result (λ came. state_of (place stack.new.items) came ≡ due (inside (place stack.old.items) frame)) }
    ensures fits { IfOk result StepFits }
{
    stack.push(frame)?;
    Ok(StepOutcome::Goes(Phase::Due))
}

/// Takes an item that began at `at` into the innermost construct that is open, and each one that
/// ends by it into the next.
pub(crate) fn close_item(
    alloc: Global,
    stack: &mut Vec<Frame>,
    at: u64,
    item: Item,
) -> Result<StepOutcome, Memory>
    ensures given { IfOk result (λ came. state_of (place stack.new.items) came ≡ item_ended (place stack.old.items) at (view item)) }
    ensures fits { IfOk result StepFits }
{
    let mut began = at;
    let mut item = item;
    while let Some(frame) = stack.last_mut() {
        match absorb_item(alloc, frame, began, item)? {
            Absorbed::Open => return Ok(StepOutcome::Goes(Phase::Due)),
            Absorbed::Ended(at, made) => {
                began = at;
                item = made;
            }
            Absorbed::Fault(fault) => return Ok(StepOutcome::Fault(fault)),
        }
        stack.truncate(stack.len().saturating_sub(1));
    }
    Ok(StepOutcome::Whole(item))
}

/// Takes an item into the construct. Where the construct ended too, what stood in it is in the
/// item.
fn absorb_item(alloc: Global, frame: &mut Frame, at: u64, item: Item) -> Result<Absorbed, Memory>
    ensures taken { IfOk result (λ came. (p : Place) → absorbed_state p frame.new came ≡ item_ended (inside p frame.old) at (view item)) }
{
    match frame {
        // No item is read where a chunk is due.
        Frame::Chunks { .. } => Ok(Absorbed::Fault(CborFault {
            kind: CborFaultKind::Malformed as u8,
            at,
        })),
        Frame::Elements {
            at: began,
            all,
            items,
        } => take_element(alloc, *began, *all, items, item),
        Frame::Map {
            at: began,
            all,
            members,
        } => take_member(alloc, *began, *all, members, at, item),
        Frame::Content { at: began, number } => {
            Ok(Absorbed::Ended(*began, Item::Tag(*number, Boxed::new(alloc, item)?)))
        }
    }
}

/// An element of an array that began at `at`.
fn take_element(
    alloc: Global,
    at: u64,
    all: Option<u64>,
    items: &mut Items,
    item: Item,
) -> Result<Absorbed, Memory>
    ensures taken { IfOk result
        (λ came. (p : Place) → (began : ℕ) → absorbed_state p (frame.Elements at all items.new) came
        ≡ item_ended (at_element at all (terms_of (map view items.old)) p) began (view item)) }
{
    items.push(item)?;
    if is_full(all, items.len()) {
        let whole = mem::replace(items, List::new(alloc));
        return Ok(Absorbed::Ended(at, Item::Array(whole)));
    }
    Ok(Absorbed::Open)
}

/// A key or a value that began at `began`, of a map that began at `at`.
fn take_member(
    alloc: Global,
    at: u64,
    all: Option<u64>,
    members: &mut Members,
    began: u64,
    item: Item,
) -> Result<Absorbed, Memory>
    ensures taken { IfOk result
        (λ came. (p : Place) → absorbed_state p (frame.Map at all members.new) came
        ≡ item_ended (map_place at all (members_view members.old) (due_key members.old) p) began (view item)) }
{
    if !members.take(alloc, item)? {
        return Ok(Absorbed::Fault(CborFault {
            kind: CborFaultKind::DuplicateKey as u8,
            at: began,
        }));
    }
    if members.is_whole(all) {
        return Ok(Absorbed::Ended(at, Item::Map(members.take_pairs(alloc)?)));
    }
    Ok(Absorbed::Open)
}

/// Whether that many are all that the head counts.
pub(crate) fn is_full(all: Option<u64>, there: usize) -> bool
    ensures full { result ≡ is_full all there }
{
    match all {
        None => false,
        Some(all) => there as u64 == all,
    }
}
