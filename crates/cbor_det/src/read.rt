//! Reading an item from the start of octets.

ghost use Rattle.std.specs.Prelude.{◌≡◌, ◌≤◌, ◌^◌, ℕ, IfOk, IfErr, if◌then◌else◌, length, nat_lt, take};
ghost use Rattle.cbor_det.specs.Answers.{IsRefusal, GivesItem, GivesFault};
ghost use Rattle.cbor_det.specs.Faults.{Begins, IsFault, IsCut};
ghost use Rattle.cbor_det.specs.Term.{Term};
ghost use Rattle.cbor_det.specs.View.{view};

use crate::fault::{CborFault, CborFaultKind, CborRefused};
use crate::frame::{Phase, StepOutcome};
use crate::item::Item;
use crate::limits::Limits;
use crate::step::run_piece;
use std::alloc::Global;

/// The item whose spelling `bytes` begin with, and the number of its octets. `Fault` exactly where
/// there is none within the limits, with the fault that shows first, or kind 1 where `bytes` are
/// cut short; `Memory` where there is no room.
pub fn read_item(alloc: Global, bytes: &[u8], limits: Limits) -> Result<(Item, usize), CborRefused>
    requires octets { limits.octets ≤ 2 ^ 24 }
    requires depth { limits.depth ≤ 64 }
    ensures found { IfOk result (λ read. Begins limits bytes.now (view read.0) read.1) }
    ensures refused { IfErr result (IsRefusal limits bytes.now) }
    ensures only { (t : Term) (n : ℕ) → Begins limits bytes.now t n → GivesItem t n result }
    ensures fault { (kind at : ℕ) → IsFault limits bytes.now kind at → GivesFault kind at result }
    ensures cut { IsCut limits bytes.now → GivesFault 1 (length bytes.now) result }
{
    read_front(alloc, bytes, limits)
}

fn read_front(alloc: Global, bytes: &[u8], limits: Limits) -> Result<(Item, usize), CborRefused>
    requires { limits.octets ≤ 2 ^ 24 }
    ensures found { IfOk result (λ read. Begins limits bytes.now (view read.0) read.1) }
    ensures refused { IfErr result (IsRefusal limits bytes.now) }
{
    let mut stack = Vec::new(alloc);
    let front = up_to(bytes, limits.octets);
    let (stepped, used) = run_piece(alloc, limits, 0, &mut stack, Phase::Due, front)?;
    match stepped {
        StepOutcome::Whole(item) => Ok((item, used)),
        StepOutcome::Fault(fault) => Err(CborRefused::Fault(fault)),
        StepOutcome::Goes(_) => Err(CborRefused::Fault(unfinished(
            bytes.len() as u64,
            limits.octets,
        ))),
    }
}

/// The prefix of `bytes`, of at most `limit` octets.
pub(crate) fn up_to(bytes: &[u8], limit: u64) -> &[u8]
    ensures front { result.now ≡ take limit bytes.now }
{
    let (front, _) = bytes.split_at(bytes.len().min(limit as usize));
    front
}

/// The fault of `len` octets that are no item and show no other.
fn unfinished(len: u64, limit: u64) -> CborFault
    ensures fault { result ≡ (if nat_lt len limit then record { kind = 1; at = len } else record { kind = 9; at = limit }) }
{
    if len < limit {
        return CborFault {
            kind: CborFaultKind::Truncated as u8,
            at: len,
        };
    }
    CborFault {
        kind: CborFaultKind::TooLong as u8,
        at: limit,
    }
}
