//! The inventory of one endpoint, and its changes.
//!
//! The contract of a call says its result twice. `done` and its like (`point`, `live`, `moved`,
//! `answer`) speak of what this book holds, for a caller who has one book.
//!
//! `stands` speaks of every chronicle that the book represents: of the whole history, of which the
//! log keeps only the end. It is for a caller who compares answers of different moments, or shares
//! a book with others: it does not depend on what the log forgot.

ghost use Rattle.std.specs.Prelude.{◌≡◌, ◌≤◌, ◌+◌, [], IfOk, length};
ghost use Rattle.std.specs.Option.{option_copied};
ghost use Rattle.wire_base.specs.Stamp.{IsStamp};
ghost use Rattle.swima_model.specs.declared.record.Record.{Record};
ghost use Rattle.swima_model.specs.Live.{record_of};
ghost use Rattle.collector_core.specs.declared.chronicle.Entry.TheVariants as entry;
ghost use Rattle.collector_core.specs.Answering.{AnswerIs, answer_at, moved_at};
ghost use Rattle.collector_core.specs.BookAnswer.{book_answer, book_moved};
ghost use Rattle.collector_core.specs.Chronicle.{Chronicle, current, first_kept, last_eid, live_now, next_id, point_of};
ghost use Rattle.collector_core.specs.Refusals.{alter_refusal, create_refusal, delete_refusal, epoch_refusal, new_refusal, trim_refusal};
ghost use Rattle.collector_core.specs.Standing.{BookView, Changes, ChangesExactly, Enters, IsAlteration, IsCreation, IsDeletion, MakesBook, Stands, StandsForSome};

mod answering;
mod changing;
pub(crate) mod edit;

use crate::answer::Answer;
use crate::error::BookError;
use crate::live::Live;
use crate::records::{identified, octets_of};
use event_log::EventLog;
use std::alloc::Global;
use std::marker::Model;
use swima_model::{Content, MOST_RECORDS, MOST_RECORDS_OCTETS, Point, Record};
use swima_request::{Idents, Request};
use wire_base::Memory;

/// The inventory of one endpoint: its live records, the current epoch, and the epoch's latest
/// events.
#[derive(Debug, Drop)]
pub struct Book {
    epoch: u32,
    octet_count: u64,
    records: Live,
    log: EventLog,
}

impl Model for Book {
    ghost use Rattle.collector_core.specs.Standing.{BookView, StandsForSome};

    ghost Value = { BookView };

    ghost use Rattle.collector_core.specs.Book.{IsBook};

    ghost view = { λ book. record { epoch = book.epoch; next = book.records.next; records = book.records.records; log = book.log } };

    ghost invariant = { λ book. IsBook book.records.next book.octet_count book.records.records
        × StandsForSome (record { epoch = book.epoch; next = book.records.next; records = book.records.records; log = book.log }) };
}

impl Book {
    /// A book of an epoch that is not 0, which keeps at most `cap` events, from 1 to 4,096. The
    /// contents of `base` get the identifiers 1, 2 and so on, without events. Refusals:
    /// `RecordsFull`, `BytesFull`, `Memory`.
    pub fn new(alloc: Global, epoch: u32, cap: usize, base: &[Content]) -> Result<Self, BookError>
        requires some { 1 ≤ cap }
        requires few { cap ≤ 4096 }
        requires numbered { 1 ≤ epoch }
        ensures made { MakesBook (record { epoch = epoch; cap = cap; contents = base.now }) (new_refusal base.now) result }
        ensures stands { IfOk result (λ book. Stands book
            (record { start = record { epoch = epoch; cap = cap; contents = base.now }; entries = [] })) }
    {
        if base.len() > MOST_RECORDS {
            return Err(BookError::RecordsFull {
                count: MOST_RECORDS as u32,
            });
        }
        let octets = octets_of(base);
        if octets > MOST_RECORDS_OCTETS {
            return Err(BookError::BytesFull {
                held: 0,
                given: octets,
            });
        }
        Ok(Book {
            epoch,
            octet_count: octets,
            records: identified(alloc, base)?,
            log: EventLog::new(alloc, cap)?,
        })
    }

    /// The point: the current epoch and its last event identifier. It takes no memory.
    pub fn point(&self) -> Point
        ensures some { StandsForSome self.now }
        ensures point { result ≡ record { epoch = self.now.epoch; eid = self.now.log.last } }
        ensures stands { (chronicle : Chronicle) → Stands self.now chronicle → result ≡ point_of chronicle }
    {
        Point {
            epoch: self.epoch,
            eid: self.log.last(),
        }
    }

    /// The event identifier of the first event that is kept; 1 above the last where none is. It
    /// takes no memory.
    pub fn first(&self) -> u32
        ensures first { result ≡ self.now.log.first }
        ensures stands { (chronicle : Chronicle) → Stands self.now chronicle → result ≡ first_kept chronicle }
    {
        self.log.first()
    }

    /// How many records are live. It takes no memory.
    pub fn count(&self) -> u32
        ensures count { result ≡ length self.now.records }
        ensures stands { (chronicle : Chronicle) → Stands self.now chronicle → result ≡ length (live_now chronicle) }
    {
        self.records.len() as u32
    }

    /// The live record of this identifier; `None` exactly where there is none. It takes no memory.
    pub fn record(&self, id: u32) -> Option<&Record>
        ensures live { option_copied result ≡ record_of id self.now.records }
        ensures stands { (chronicle : Chronicle) → Stands self.now chronicle → option_copied result ≡ record_of id (live_now chronicle) }
    {
        self.records.get(id)
    }

    /// Whether the epoch of the point is not the current one, or an event after the point is no
    /// longer kept, or one of the targets has an event after it. Where there are no targets, any
    /// event after the point counts. It takes no memory.
    pub fn moved(&self, after: Point, targets: &Idents) -> bool
        ensures some { StandsForSome self.now }
        ensures moved { result ≡ book_moved self.now after targets.now }
        ensures stands { (chronicle : Chronicle) → Stands self.now chronicle → result ≡ moved_at chronicle after targets.now }
    {
        self.has_moved(after, targets)
    }

    /// The answer to a request: a report of at most `max` octets, or the size of one that would
    /// have more; `Memory`.
    pub fn answer(&self, request: &Request, max: u32) -> Answer
        ensures some { StandsForSome self.now }
        ensures answer { AnswerIs result (book_answer self.now request.now max) }
        ensures stands { (chronicle : Chronicle) → Stands self.now chronicle → AnswerIs result (answer_at chronicle request.now max) }
    {
        match self.try_answer(request, max) {
            Ok(answer) => answer,
            Err(Memory) => Answer::Memory,
        }
    }

    /// Creates a record, and gives its identifier. Refusals: `EidsSpent`, `IdsSpent`,
    /// `RecordsFull`, `BytesFull`, `Memory`.
    pub fn create(&mut self, stamp: &[u8; 20], content: &Content) -> Result<u32, BookError>
        requires stamp { IsStamp stamp.now }
        ensures some { StandsForSome self.old }
        ensures done { Changes (IsCreation self.old.log.last self.old.next stamp.now content.now)
            (create_refusal self.old.log.last self.old.next self.old.records content.now) self.old result self.new }
        ensures id { IfOk result (λ id. id ≡ self.old.next) }
        ensures stands { (chronicle : Chronicle) → Stands self.old chronicle
            → Enters (IsCreation (last_eid chronicle) (next_id chronicle) stamp.now content.now)
            (create_refusal (last_eid chronicle) (next_id chronicle) (live_now chronicle) content.now) chronicle result self.new }
    {
        self.try_create(stamp, content)
    }

    /// Replaces the content of a live record. Refusals: `EidsSpent`, `UnknownRecord`, `BytesFull`,
    /// `Memory`.
    pub fn alter(&mut self, stamp: &[u8; 20], id: u32, content: &Content) -> Result<(), BookError>
        requires stamp { IsStamp stamp.now }
        ensures some { StandsForSome self.old }
        ensures done { Changes (IsAlteration self.old.log.last stamp.now id content.now)
            (alter_refusal self.old.log.last self.old.records id content.now) self.old result self.new }
        ensures stands { (chronicle : Chronicle) → Stands self.old chronicle
            → Enters (IsAlteration (last_eid chronicle) stamp.now id content.now)
            (alter_refusal (last_eid chronicle) (live_now chronicle) id content.now) chronicle result self.new }
    {
        self.try_alter(stamp, id, content)
    }

    /// Deletes a live record, which moves to its event whole. Refusals: `EidsSpent`,
    /// `UnknownRecord`. It takes no memory.
    pub fn delete(&mut self, stamp: &[u8; 20], id: u32) -> Result<(), BookError>
        requires stamp { IsStamp stamp.now }
        ensures some { StandsForSome self.old }
        ensures done { ChangesExactly (IsDeletion self.old.log.last self.old.records stamp.now id)
            (delete_refusal self.old.log.last self.old.records id) self.old result self.new }
        ensures stands { (chronicle : Chronicle) → Stands self.old chronicle
            → Enters (IsDeletion (last_eid chronicle) (live_now chronicle) stamp.now id)
            (delete_refusal (last_eid chronicle) (live_now chronicle) id) chronicle result self.new }
    {
        self.try_delete(stamp, id)
    }

    /// Begins an epoch with what is live: its events begin anew with 1. Refusal: `EpochNotNew`. It
    /// takes no memory.
    pub fn begin_epoch(&mut self, epoch: u32) -> Result<(), BookError>
        ensures done { ChangesExactly (λ made. made ≡ entry.Epoch epoch) (epoch_refusal self.old.epoch epoch) self.old result self.new }
        ensures stands { (chronicle : Chronicle) → Stands self.old chronicle
            → Enters (λ made. made ≡ entry.Epoch epoch) (epoch_refusal (current chronicle).number epoch) chronicle result self.new }
    {
        self.try_begin_epoch(epoch)
    }

    /// Keeps no event below `first` from now on. Refusal: `TrimPast`. It takes no memory.
    pub fn trim(&mut self, first: u32) -> Result<(), BookError>
        ensures done { ChangesExactly (λ made. made ≡ entry.Trim first) (trim_refusal self.old.log.last first) self.old result self.new }
        ensures stands { (chronicle : Chronicle) → Stands self.old chronicle
            → Enters (λ made. made ≡ entry.Trim first) (trim_refusal (last_eid chronicle) first) chronicle result self.new }
    {
        self.try_trim(first)
    }
}
