//! Reading a piece of the octets of an item.

ghost use Rattle.std.specs.Prelude.{◌≡◌, ◌≤◌, ◌^◌, ℕ, List, IfOk};
ghost use Rattle.cbor_det.specs.Frames.{Fits};
ghost use Rattle.cbor_det.specs.Standing.{Stands};
ghost use Rattle.cbor_det.specs.Pieces.{IsPieceOutcome, PieceOutcomeFits};

use crate::fault::{CborFault, CborFaultKind};
use crate::frame::{Frame, Phase, StepOutcome};
use crate::item::Item;
use crate::limits::Limits;
use crate::read::up_to;
use crate::step::run_piece;
use std::alloc::Global;
use wire_base::Memory;

/// What came of a piece.
#[derive(Drop)]
pub(crate) enum PieceOutcome {
    /// Neither an item nor a fault; that many octets of the item were taken.
    More(Phase, u64),
    /// An item, and how many octets of the piece it took.
    Done(Item, usize),
    /// A fault.
    Fault(CborFault),
}

/// Reads a piece after `taken` octets of the item.
pub(crate) fn read_on(
    alloc: Global,
    limits: Limits,
    taken: u64,
    stack: &mut Vec<Frame>,
    phase: Phase,
    piece: &[u8],
) -> Result<PieceOutcome, Memory>
    requires small { limits.octets ≤ 2 ^ 24 }
    requires room { taken ≤ limits.octets }
    requires fits { Fits phase }
    ensures came { (before : List ℕ) → Stands limits stack.old.items phase taken before → IfOk result
        (IsPieceOutcome limits before piece.now stack.new.items) }
    ensures fits { IfOk result (PieceOutcomeFits limits) }
{
    let front = up_to(piece, limits.octets - taken);
    let (stepped, used) = run_piece(alloc, limits, taken, stack, phase, front)?;
    match stepped {
        StepOutcome::Whole(item) => Ok(PieceOutcome::Done(item, used)),
        StepOutcome::Fault(fault) => Ok(PieceOutcome::Fault(fault)),
        StepOutcome::Goes(phase) => {
            let taken = taken + front.len() as u64;
            if taken == limits.octets {
                return Ok(PieceOutcome::Fault(CborFault {
                    kind: CborFaultKind::TooLong as u8,
                    at: limits.octets,
                }));
            }
            Ok(PieceOutcome::More(phase, taken))
        }
    }
}
