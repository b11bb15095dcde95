//! What a book answers, in terms of what it holds.

ghost use Rattle.std.specs.Prelude.{◌≡◌, ◌<◌, ◌≤◌, ◌+◌, IfOk, nat_lt};
ghost use Rattle.event_log.specs.Log.{events_from};
ghost use Rattle.collector_core.specs.Answering.{if_fits, told, wanted_events, wanted_records};
ghost use Rattle.collector_core.specs.BookAnswer.{book_answer, book_moved, book_point, inventory_of};
ghost use Rattle.collector_core.specs.Standing.{StandsForSome};

use super::Book;
use crate::answer::{Answer, inventory, told};
use crate::moved::has_later;
use crate::targets::{Targets, wanted_events, wanted_records};
use swima_model::Point;
use swima_request::{Idents, Request};
use wire_base::Memory;

impl Book {
    /// Whether something has moved, in terms of what the book holds.
    pub(super) fn has_moved(&self, after: Point, targets: &Idents) -> bool
        ensures some { StandsForSome self.now }
        ensures moved { result ≡ book_moved self.now after targets.now }
    {
        after.epoch != self.epoch
            || after.eid as u64 + 1 < self.log.first() as u64
            || has_later(&self.log, after.eid, targets)
    }

    /// The answer; an error says that memory ran out.
    pub(super) fn try_answer(&self, request: &Request, max: u32) -> Result<Answer, Memory>
        ensures some { StandsForSome self.now }
        ensures answer { IfOk result (λ answer. answer ≡ book_answer self.now request.now max) }
    {
        let targets = Targets::new(self.records.allocator(), &request.targets)?;
        if self.is_dropped(request.earliest) {
            return self.inventory(request, &targets, max);
        }
        self.told(request, &targets, max)
    }

    /// Whether an event identifier is below the first event that is kept. The first is at least 1,
    /// so 0 is below it.
    fn is_dropped(&self, eid: u32) -> bool
        ensures dropped { result ≡ nat_lt eid self.now.log.first }
        ensures begins { 1 ≤ self.now.log.first }
    {
        eid < self.log.first()
    }

    /// The inventory of the records that are asked for.
    fn inventory(&self, request: &Request, targets: &Targets, max: u32) -> Result<Answer, Memory>
        ensures answer { IfOk result (λ answer. answer
            ≡ if_fits max (inventory_of request.now (book_point self.now) (wanted_records targets.now self.now.records))) }
    {
        let alloc = self.records.allocator();
        let records = wanted_records(alloc, targets, &self.records)?;
        inventory(alloc, request, self.point(), records.as_slice(), max)
    }

    /// The events that are asked for, from the earliest on.
    fn told(&self, request: &Request, targets: &Targets, max: u32) -> Result<Answer, Memory>
        requires kept { self.now.log.first ≤ request.now.earliest }
        ensures answer { IfOk result (λ answer. answer
            ≡ if_fits max (told request.now (book_point self.now)
            (wanted_events targets.now (events_from request.now.earliest self.now.log.events)) max)) }
    {
        let alloc = self.records.allocator();
        let events = wanted_events(alloc, targets, &self.log, request.earliest)?;
        told(alloc, request, self.point(), events.as_slice(), max)
    }
}
