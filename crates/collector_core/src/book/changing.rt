//! How a book is changed. The clauses are of the book alone.

ghost use Rattle.std.specs.Prelude.{false, Err, ◌≡◌, ◌<◌, ◌≤◌, ◌+◌, ◌-◌, ◌^◌, Some, None, IfErr, IfOk, IsSome, OnErr, OnOk, nat_lt, if◌then◌else◌};
ghost use Rattle.wire_base.specs.Stamp.{IsStamp};
ghost use Rattle.swima_model.specs.declared.record.Record.{Record};
ghost use Rattle.swima_model.specs.Live.{record_of};
ghost use Rattle.swima_model.specs.Size.{MOST_CONTENT_OCTETS, MOST_RECORDS_OCTETS, are_large, records_octets};
ghost use Rattle.event_log.specs.Log.{IsLog};
ghost use Rattle.collector_core.specs.declared.chronicle.Entry.{Entry};
ghost use Rattle.collector_core.specs.declared.chronicle.Entry.TheVariants as entry;
ghost use Rattle.collector_core.specs.Book.{IsExchange};
ghost use Rattle.collector_core.specs.declared.error.BookError.TheVariants as refused;
ghost use Rattle.collector_core.specs.Legal.{IsContent};
ghost use Rattle.collector_core.specs.Refusals.{alter_refusal, create_refusal, delete_refusal, epoch_refusal, others_than, trim_refusal};
ghost use Rattle.collector_core.specs.Standing.{Changes, ChangesExactly, IsAlteration, IsCreation, IsDeletion, StandsForSome, alteration, book_after, creation};

use super::Book;
use crate::error::BookError;
use crate::records::within_limits;
use swima_model::{Action, Content, Event, MOST_RECORDS, MOST_RECORDS_OCTETS, Record};
use wire_base::Memory;

impl Book {
    /// Creates a record where nothing refuses it. Its clauses are of the book alone.
    pub(super) fn try_create(
        &mut self,
        stamp: &[u8; 20],
        content: &Content,
    ) -> Result<u32, BookError>
        requires stamp { IsStamp stamp.now }
        ensures some { StandsForSome self.old }
        ensures done { Changes (IsCreation self.old.log.last self.old.next stamp.now content.now)
            (create_refusal self.old.log.last self.old.next self.old.records content.now) self.old result self.new }
        ensures id { IfOk result (λ id. id ≡ self.old.next) }
        ensures log { IsLog self.old.log }
        ensures fresh { record_of self.old.next self.old.records ≡ None }
        ensures next { self.old.next < 2 ^ 32 }
        ensures content { IsContent content.now }
        ensures fits { OnOk result (are_large self.new.records ≡ false) }
    {
        self.is_sound();
        within_limits(content);
        if let Some(error) = self.create_refused(content) {
            return Err(error);
        }
        Ok(self.add(stamp, content)?)
    }

    /// Replaces the content of a record where nothing refuses it. Its clauses are of the book
    /// alone.
    pub(super) fn try_alter(
        &mut self,
        stamp: &[u8; 20],
        id: u32,
        content: &Content,
    ) -> Result<(), BookError>
        requires stamp { IsStamp stamp.now }
        ensures some { StandsForSome self.old }
        ensures done { Changes (IsAlteration self.old.log.last stamp.now id content.now)
            (alter_refusal self.old.log.last self.old.records id content.now) self.old result self.new }
        ensures log { IsLog self.old.log }
        ensures content { IsContent content.now }
        ensures fits { OnOk result (are_large self.new.records ≡ false) }
    {
        within_limits(content);
        let held = self.octets_beside(id)?;
        let given = content.octets();
        if let Some(error) = bytes_refused(held, given) {
            return Err(error);
        }
        Ok(self.replace(stamp, id, content, held + given)?)
    }

    /// Deletes a record where nothing refuses it. Its clauses are of the book alone.
    pub(super) fn try_delete(&mut self, stamp: &[u8; 20], id: u32) -> Result<(), BookError>
        requires stamp { IsStamp stamp.now }
        ensures some { StandsForSome self.old }
        ensures done { ChangesExactly (IsDeletion self.old.log.last self.old.records stamp.now id)
            (delete_refusal self.old.log.last self.old.records id) self.old result self.new }
        ensures log { IsLog self.old.log }
        ensures content { OnOk result ((held : Record) → record_of id self.old.records ≡ Some held → IsContent held.content) }
        ensures fits { OnOk result (are_large self.new.records ≡ false) }
    {
        let octets = self.octets_beside(id)?;
        self.remove(stamp, id, octets);
        Ok(())
    }

    /// Begins an epoch where nothing refuses it. Its clause is of the book alone.
    pub(super) fn try_begin_epoch(&mut self, epoch: u32) -> Result<(), BookError>
        ensures done { ChangesExactly (λ made. made ≡ entry.Epoch epoch) (epoch_refusal self.old.epoch epoch) self.old result self.new }
    {
        if epoch <= self.epoch {
            return Err(BookError::EpochNotNew {
                latest: self.epoch,
                given: epoch,
            });
        }
        self.epoch = epoch;
        self.log.clear();
        Ok(())
    }

    /// Keeps no event below `first` where nothing refuses it. Its clause is of the book alone.
    pub(super) fn try_trim(&mut self, first: u32) -> Result<(), BookError>
        ensures done { ChangesExactly (λ made. made ≡ entry.Trim first) (trim_refusal self.old.log.last first) self.old result self.new }
    {
        let last = self.log.last();
        if first as u64 > last as u64 + 1 {
            return Err(BookError::TrimPast { last, given: first });
        }
        self.log.trim(first);
        Ok(())
    }

    /// Says what is true of each book. It does nothing.
    fn is_sound(&self)
        ensures some { StandsForSome self.now }
        ensures log { IsLog self.now.log }
        ensures fresh { record_of self.now.next self.now.records ≡ None }
        ensures next { self.now.next < 2 ^ 32 }
    {
        let _next = self.records.next();
        let _first = self.log.first();
    }

    /// Why a record of this content is not created, except running out of memory.
    fn create_refused(&self, content: &Content) -> Option<BookError>
        ensures refusal { result ≡ create_refusal self.now.log.last self.now.next self.now.records content.now }
    {
        let last = self.log.last();
        if last == u32::MAX {
            return Some(BookError::EidsSpent { last });
        }
        let next = self.records.next();
        if next == u32::MAX {
            return Some(BookError::IdsSpent { next });
        }
        if self.records.len() >= MOST_RECORDS {
            return Some(BookError::RecordsFull {
                count: MOST_RECORDS as u32,
            });
        }
        bytes_refused(self.octet_count, content.octets())
    }

    /// How many octets the other records have, where a record may be altered or deleted; or why it
    /// may not.
    fn octets_beside(&self, id: u32) -> Result<u64, BookError>
        ensures some { StandsForSome self.now }
        ensures allowed { OnOk result (delete_refusal self.now.log.last self.now.records id ≡ None) }
        ensures held { OnOk result (IsSome (record_of id self.now.records)) }
        ensures beside { IfOk result (λ octets. octets ≡ records_octets (others_than id self.now.records)) }
        ensures within { IfOk result (λ octets. octets ≤ MOST_RECORDS_OCTETS) }
        ensures refusal { IfErr result (λ error. (delete_refusal self.now.log.last self.now.records id ≡ Some error)) }
        ensures memory { result ≡ Err refused.Memory → ⊥ }
        ensures log { IsLog self.now.log }
    {
        let last = self.log.last();
        if last == u32::MAX {
            return Err(BookError::EidsSpent { last });
        }
        match self.records.get(id) {
            None => Err(BookError::UnknownRecord { id }),
            Some(held) => Ok(self.octet_count - held.content.octets()),
        }
    }

    /// Adds a record, which nothing refuses except running out of memory.
    fn add(&mut self, stamp: &[u8; 20], content: &Content) -> Result<u32, Memory>
        requires stamp { IsStamp stamp.now }
        requires content { IsContent content.now }
        requires allowed { create_refusal self.old.log.last self.old.next self.old.records content.now ≡ None }
        ensures added { IfOk result (λ id. (id ≡ self.old.next)
            × (self.new ≡ book_after self.old (entry.Event (creation self.old.log.last self.old.next stamp.now content.now)))) }
        ensures unchanged { OnErr result (self.new ≡ self.old) }
        ensures fits { OnOk result (are_large self.new.records ≡ false) }
    {
        let id = self.records.next();
        let octets = self.octet_count + content.octets();
        let content = self.records.add(content)?;
        self.octet_count = octets;
        let event = Event {
            eid: self.log.last() + 1,
            stamp: *stamp,
            action: Action::Creation,
            subject: Record { id, content },
        };
        let _oldest = self.log.push(event);
        Ok(id)
    }

    /// Replaces the content of a record, which nothing refuses except running out of memory.
    fn replace(
        &mut self,
        stamp: &[u8; 20],
        id: u32,
        content: &Content,
        octets: u64,
    ) -> Result<(), Memory>
        requires stamp { IsStamp stamp.now }
        requires content { IsContent content.now }
        requires last { self.old.log.last < 2 ^ 32 - 1 }
        requires held { IsSome (record_of id self.old.records) }
        requires octets { IsExchange self.old.records id content.now octets }
        ensures altered { OnOk result (self.new
            ≡ book_after self.old (entry.Event (alteration self.old.log.last stamp.now id content.now))) }
        ensures unchanged { OnErr result (self.new ≡ self.old) }
        ensures fits { OnOk result (are_large self.new.records ≡ false) }
    {
        let content = self.records.replace(id, content)?;
        self.octet_count = octets;
        let event = Event {
            eid: self.log.last() + 1,
            stamp: *stamp,
            action: Action::Alteration,
            subject: Record { id, content },
        };
        let _oldest = self.log.push(event);
        Ok(())
    }

    /// Moves a record to its event. It takes no memory.
    fn remove(&mut self, stamp: &[u8; 20], id: u32, octets: u64)
        requires stamp { IsStamp stamp.now }
        requires last { self.old.log.last < 2 ^ 32 - 1 }
        requires held { IsSome (record_of id self.old.records) }
        requires octets { octets ≡ records_octets (others_than id self.old.records) }
        ensures removed { (made : Entry) × IsDeletion self.old.log.last self.old.records stamp.now id made
            × (self.new ≡ book_after self.old made) }
        ensures content { (held : Record) → record_of id self.old.records ≡ Some held → IsContent held.content }
        ensures fits { are_large self.new.records ≡ false }
    {
        let subject = self.records.take(id).unwrap();
        within_limits(&subject.content);
        self.octet_count = octets;
        let event = Event {
            eid: self.log.last() + 1,
            stamp: *stamp,
            action: Action::Deletion,
            subject,
        };
        let _oldest = self.log.push(event);
    }
}

/// Why that many octets may not stand beside those that are held.
fn bytes_refused(held: u64, given: u64) -> Option<BookError>
    requires held { held ≤ MOST_RECORDS_OCTETS }
    requires given { given ≤ MOST_CONTENT_OCTETS }
    ensures refusal { result ≡ (if nat_lt MOST_RECORDS_OCTETS (held + given) then Some (refused.BytesFull held given) else None) }
{
    if held + given > MOST_RECORDS_OCTETS {
        return Some(BookError::BytesFull { held, given });
    }
    None
}
