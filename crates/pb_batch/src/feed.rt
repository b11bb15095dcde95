//! Batches from octets that come in pieces.

ghost use Rattle.std.specs.Prelude.{◌≡◌, ◌≤◌, None, IfOk, OnErr, length};
ghost use Rattle.pb_batch.specs.Feeding.{Feeds, Filled, Grows, IfDone};
ghost use Rattle.pb_batch.specs.Form.{BATCH_OCTETS};
ghost use Rattle.pb_batch.specs.Front.{front_of};
ghost use Rattle.pb_batch.specs.Written.{IsBatch};
ghost use Rattle.wire_base.specs.Feeding.{More, fresh};

use crate::batch::Batch;
use crate::batch_header::read_header;
use crate::fault::{BatchRefused, PbFault};
use crate::numbers::HEADER;
use crate::read_messages::read_messages;
use std::alloc::Global;
use std::marker::Model;
use std::mem;
use wire_base::{List, Memory, Octets, Refused};

/// What a feed answers to a piece.
#[derive(Debug, Drop)]
pub enum BatchFed {
    /// The octets so far may be the beginning of a batch.
    More,
    /// A batch is whole, with that many octets of the piece, at least one. Those after them were
    /// not looked at.
    Done(Batch, usize),
    /// The octets so far have a fault.
    Fault(PbFault),
    /// Out of memory.
    Memory,
}

/// Takes the octets of one batch after another in pieces of any size. Once it has answered a fault
/// or that memory ran out, it answers the same for ever.
#[derive(Debug, Drop)]
pub struct BatchFeed {
    from_server: bool,
    held: Octets,
    stopped: Option<BatchRefused>,
}

impl Model for BatchFeed {
    ghost use Rattle.std.specs.Prelude.{◌≡◌};
    ghost use Rattle.pb_batch.specs.Feeding.{Feed};
    ghost use Rattle.pb_batch.specs.Front.{front_of};
    ghost use Rattle.wire_base.specs.Feeding.{More};

    ghost Value = { Feed };

    ghost view = { λ feed. record {
      from_server = feed.from_server;
      feeding = record { octets = feed.held; stopped = feed.stopped };
    } };

    ghost invariant = { λ feed. front_of feed.from_server feed.held ≡ More };
}

impl BatchFeed {
    /// A feed of batches of the server, or else of the client, that has taken nothing. It takes no
    /// memory.
    #[tactic(auto, using(crate::proofs::Fronts::front_none))]
    pub fn new(alloc: Global, from_server: bool) -> Self
        ensures made { result ≡ record { from_server = from_server; feeding = fresh } }
    {
        BatchFeed {
            from_server,
            held: List::new(alloc),
            stopped: None,
        }
    }

    /// How many octets of a batch that is not whole yet were taken; 0 after a fault. It takes no
    /// memory.
    pub fn have(&self) -> u64
        ensures have { result ≡ length self.now.feeding.octets }
        ensures within { result ≤ BATCH_OCTETS }
    {
        self.held.len() as u64
    }

    /// Takes a piece, up to the end of the batch where that is in it.
    pub fn feed(&mut self, piece: &[u8]) -> BatchFed
        ensures fed { Feeds self.old piece.now result self.new }
        ensures writable { IfDone result IsBatch }
        ensures torn { front_of self.new.from_server self.new.feeding.octets ≡ More }
    {
        match self.stopped {
            None => self.take(piece),
            Some(Refused::Fault(fault)) => BatchFed::Fault(fault),
            Some(Refused::Memory) => BatchFed::Memory,
        }
    }

    /// The same of a feed that has not stopped.
    #[tactic(auto, using(crate::proofs::Fronts::front_none))]
    fn take(&mut self, piece: &[u8]) -> BatchFed
        requires live { self.old.feeding.stopped ≡ None }
        ensures fed { Feeds self.old piece.now result self.new }
        ensures writable { IfDone result IsBatch }
        ensures torn { front_of self.new.from_server self.new.feeding.octets ≡ More }
    {
        let alloc = self.held.allocator();
        let have = self.held.len();
        let mut held = mem::replace(&mut self.held, List::new(alloc));
        match grow(alloc, self.from_server, &mut held, piece) {
            Ok(None) => {
                self.held = held;
                BatchFed::More
            }
            Ok(Some((batch, used))) => BatchFed::Done(batch, used),
            Err(Refused::Fault(fault)) => {
                self.stopped = Some(Refused::Fault(fault));
                BatchFed::Fault(fault)
            }
            Err(Refused::Memory) => {
                held.truncate(have);
                self.held = held;
                self.stopped = Some(Refused::Memory);
                BatchFed::Memory
            }
        }
    }
}

/// Takes a piece after the octets that are held, which are no batch yet: `None` where they are none
/// with it either, else the batch and how many octets of the piece are in it.
fn grow(
    alloc: Global,
    from_server: bool,
    held: &mut Octets,
    piece: &[u8],
) -> Result<Option<(Batch, usize)>, BatchRefused>
    requires torn { front_of from_server held.old ≡ More }
    ensures grown { Grows from_server held.old piece.now result held.new }
{
    let first = fill(held, piece, HEADER)?;
    let Some(header) = read_header(from_server, held.as_slice())? else {
        return Ok(None);
    };
    let (_, rest) = piece.split_at(first);
    let more = fill(held, rest, header.length as usize)?;
    if held.len() < header.length as usize {
        return Ok(None);
    }
    let messages = read_messages(alloc, held.as_slice())?;
    let batch = Batch {
        from_server,
        kind: header.kind,
        messages,
    };
    Ok(Some((batch, first + more)))
}

/// Puts octets of the piece after those that are held, up to `want` in all, and returns how many.
/// At `Memory` they are as they were.
fn fill(held: &mut Octets, piece: &[u8], want: usize) -> Result<usize, Memory>
    ensures filled { IfOk result (λ count. Filled want held.old piece.now held.new count) }
    ensures unchanged { OnErr result (held.new ≡ held.old) }
{
    let count = want.saturating_sub(held.len()).min(piece.len());
    held.extend(&piece[..count])?;
    Ok(count)
}
