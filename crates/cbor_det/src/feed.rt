//! Reading items from octets that come in pieces.

ghost use Rattle.std.specs.Prelude.{◌≡◌, ◌≤◌, ◌^◌, ℕ, List, []};
ghost use Rattle.cbor_det.specs.Frames.{Fits};
ghost use Rattle.cbor_det.specs.Frames.{fits_prop};
ghost use Rattle.cbor_det.specs.declared.fault.CborFault.{CborFault};
ghost use Rattle.cbor_det.specs.declared.feed.CborFed.TheVariants as fed;

use crate::fault::CborFault;
use crate::frame::{Frame, Phase};
use crate::item::Item;
use crate::limits::Limits;
use crate::piece::{PieceOutcome, read_on};
use std::alloc::Global;
use std::marker::Model;
use std::mem;

/// What a feed answers for a piece.
#[derive(Drop)]
pub enum CborFed {
    /// The octets so far are neither an item nor a fault.
    More,
    /// An item, and how many octets of the piece it took. What follows them belongs to the next
    /// item.
    Done(Item, usize),
    /// The octets so far show a fault. The feed answers it from now on.
    Fault(CborFault),
    /// Out of memory. The feed answers it from now on.
    Memory,
}

/// What is read at the place, which fits its types.
#[derive(Drop)]
pub(crate) struct Reading {
    phase: Phase,
    ghost fits: { Fits phase } by { fits_prop phase },
}

/// How far a feed is.
#[derive(Drop)]
pub(crate) enum Progress {
    /// It reads.
    Reading(Reading),
    /// It has answered a fault.
    Failed(CborFault),
    /// It has answered that memory ran out.
    OutOfMemory,
}

/// A reader of items from octets that come in pieces. Its answers depend on the joined pieces
/// alone.
#[derive(Drop)]
pub struct CborFeed {
    limits: Limits,
    taken: u64,
    stack: Vec<Frame>,
    progress: Progress,
}

impl Model for CborFeed {
    ghost use Rattle.cbor_det.specs.Feeding.{Feed, IsKept, feed_coded};

    ghost Value = { Feed };

    ghost coded = { feed_coded };

    ghost view = { λ feed. record { limits = feed.limits; taken = feed.taken; frames = feed.stack.items; progress = feed.progress } };

    ghost invariant = { λ feed. IsKept (record { limits = feed.limits; taken = feed.taken; frames = feed.stack.items; progress = feed.progress }) };
}

impl CborFeed {
    ghost use Rattle.cbor_det.specs.Standing.{Stands};
    ghost use Rattle.cbor_det.specs.Feeding.{HasFailed, HasSome, HasTaken, IsFed, IsMemory, IsReleased, IsReleasedAt, IsSpent, TakesSome};

    /// A feed of items within the limits. It takes no memory.
    pub fn new(alloc: Global, limits: Limits) -> Self
        requires octets { limits.octets ≤ 2 ^ 24 }
        requires depth { limits.depth ≤ 64 }
        ensures taken { HasTaken result [] }
        ensures limits { result.limits ≡ limits }
        ensures released { IsReleased result }
    {
        CborFeed {
            limits,
            taken: 0,
            stack: Vec::new(alloc),
            progress: Progress::Reading(Reading { phase: Phase::Due }),
        }
    }

    /// Takes the next piece of the octets. Offsets of faults count from the first octet of the
    /// item, whatever the pieces were. After a fault or running out of memory it holds nothing of
    /// the item.
    pub fn feed(&mut self, piece: &[u8]) -> CborFed
        ensures fed { (before : List ℕ) → HasTaken self.old before → IsFed self.old.limits before piece.now result self.new }
        ensures within { TakesSome result piece.now }
        ensures stays { (f : CborFault) → HasFailed self.old f → (result ≡ fed.Fault f) × HasFailed self.new f }
        ensures spent { IsSpent self.old → IsMemory result × IsSpent self.new }
        ensures some { HasSome self.new }
        ensures released { IsReleased self.new }
        ensures limits { self.new.limits ≡ self.old.limits }
    {
        match mem::replace(&mut self.progress, Progress::OutOfMemory) {
            Progress::Reading(reading) => {
                let Reading { phase } = reading;
                let (progress, answer) = Self::read_next(
                    self.limits,
                    &mut self.taken,
                    &mut self.stack,
                    phase,
                    piece,
                );
                self.progress = progress;
                answer
            }
            Progress::Failed(fault) => {
                self.progress = Progress::Failed(fault);
                CborFed::Fault(fault)
            }
            Progress::OutOfMemory => CborFed::Memory,
        }
    }

    /// Reads a piece after `taken` octets of the item, where `phase` is what is read: how far the
    /// feed is then, and what it answers.
    fn read_next(
        limits: Limits,
        taken: &mut u64,
        stack: &mut Vec<Frame>,
        phase: Phase,
        piece: &[u8],
    ) -> (Progress, CborFed)
        requires small { limits.octets ≤ 2 ^ 24 }
        requires room { taken.old ≤ limits.octets }
        requires fits { Fits phase }
        ensures fed { (before : List ℕ) → Stands limits stack.old.items phase taken.old before
            → IsFed limits before piece.now result.1 (record { limits = limits; taken = taken.new; frames = stack.new.items; progress = result.0 }) }
        ensures room { taken.new ≤ limits.octets }
        ensures released { IsReleasedAt result.0 stack.new.items }
    {
        let alloc = *stack.allocator();
        let read = read_on(alloc, limits, *taken, stack, phase, piece);
        match read {
            Err(_) => {
                stack.clear();
                (Progress::OutOfMemory, CborFed::Memory)
            }
            Ok(came) => match came {
                PieceOutcome::More(phase, count) => {
                    *taken = count;
                    (Progress::Reading(Reading { phase }), CborFed::More)
                }
                PieceOutcome::Done(item, used) => {
                    *taken = 0;
                    stack.clear();
                    let phase = Phase::Due;
                    (
                        Progress::Reading(Reading { phase }),
                        CborFed::Done(item, used),
                    )
                }
                PieceOutcome::Fault(found) => {
                    stack.clear();
                    (Progress::Failed(found), CborFed::Fault(found))
                }
            },
        }
    }
}
