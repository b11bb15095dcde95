//! The log of the latest events.

ghost use Rattle.std.specs.Prelude.{◌≡◌, ◌≤◌, ◌+◌, ◌-◌, ◌↔◌, ◌++◌, ◌∷◌, [], None, IfOk, IsSome, drop, length, nat_lt, slice_get, if◌then◌else◌};
ghost use Rattle.std.specs.Option.{option_copied};
ghost use Rattle.circular_buffer.specs.Buffer.{buffer, keep_last};
ghost use Rattle.event_log.specs.Log.{IsLog, Log, empty_log, event_at, kept_from, pushed};

use circular_buffer::HeapCircularBuffer;
use std::alloc::Global;
use std::marker::Model;
use swima_model::Event;
use wire_base::Memory;

/// The latest events of an epoch, by their event identifiers: a ring, so that the oldest goes when
/// a newer one comes and no other event moves.
#[derive(Debug, Drop)]
pub struct EventLog {
    cap: usize,
    last: u32,
    events: HeapCircularBuffer<Event>,
}

impl Model for EventLog {
    ghost use Rattle.std.specs.Prelude.{◌≡◌};
    ghost use Rattle.event_log.specs.Log.{IsLog, Log, log_of};

    ghost Value = { Log };

    ghost view = { λ log. log_of log.cap log.last log.events.items };

    ghost invariant = { λ log. (log.events.capacity ≡ log.cap) × IsLog (log_of log.cap log.last log.events.items) };
}

impl EventLog {
    /// The log of an epoch without events, with room for `cap` events, from 1 to 4,096.
    pub fn new(alloc: Global, cap: usize) -> Result<Self, Memory>
        requires some { 1 ≤ cap }
        requires few { cap ≤ 4096 }
        ensures empty { IfOk result (λ log. log ≡ empty_log cap) }
    {
        Ok(EventLog {
            cap,
            last: 0,
            events: HeapCircularBuffer::with_capacity(alloc, cap)?,
        })
    }

    /// Puts the next event at the end, and gives back the oldest event where the log was full. It
    /// takes no memory.
    pub fn push(&mut self, event: Event) -> Option<Event>
        requires next { event.eid ≡ self.old.last + 1 }
        ensures pushed { self.new ≡ pushed self.old event }
        ensures oldest { result ≡ (if nat_lt (length self.old.events) self.old.cap then None else slice_get self.old.events 0) }
    {
        self.last = event.eid;
        put_last(&mut self.events, event)
    }

    /// The event identifier of the first event that is kept; 1 above the last where none is. It
    /// takes no memory.
    pub fn first(&self) -> u32
        ensures first { result ≡ self.now.first }
        ensures log { IsLog self.now }
    {
        self.last - self.events.len() as u32 + 1
    }

    /// The event identifier of the last event that was pushed; 0 where there was none. It takes no
    /// memory.
    pub fn last(&self) -> u32
        ensures last { result ≡ self.now.last }
        ensures log { IsLog self.now }
    {
        self.last
    }

    /// The event of this event identifier; `None` exactly outside the first to the last. It takes
    /// no memory.
    pub fn get(&self, eid: u32) -> Option<&Event>
        ensures event { option_copied result ≡ event_at self.now eid }
        ensures some { IsSome result ↔ (self.now.first ≤ eid) × (eid ≤ self.now.last) }
    {
        let place = eid.checked_sub(self.first())?;
        self.events.get(place as usize)
    }

    /// Drops the events below `first`, which is at most 1 above the last. It takes no memory.
    pub fn trim(&mut self, first: u32)
        requires within { first ≤ self.old.last + 1 }
        ensures trimmed { self.new ≡ kept_from first self.old }
    {
        let count = first.saturating_sub(self.first());
        drop_front(&mut self.events, count as usize);
    }

    /// Drops all events; the next is the first of an epoch. It takes no memory.
    pub fn clear(&mut self)
        ensures cleared { self.new ≡ empty_log self.old.cap }
    {
        self.events.clear();
        self.last = 0;
    }
}

/// Puts an event at the end, and takes the first out where there was no room.
fn put_last(events: &mut HeapCircularBuffer<Event>, event: Event) -> Option<Event>
    ensures oldest { result ≡ (if nat_lt (length events.old.items) events.old.capacity then None
        else slice_get (events.old.items ++ event ∷ []) 0) }
    ensures kept { events.new ≡ buffer (keep_last events.old.capacity (events.old.items ++ event ∷ [])) events.old.capacity }
{
    events.push_back(event)
}

/// Drops that many events from the start, all at once.
fn drop_front(events: &mut HeapCircularBuffer<Event>, count: usize)
    requires within { count ≤ length events.old.items }
    ensures rest { events.new.items ≡ drop count events.old.items }
    ensures room { events.new.capacity ≡ events.old.capacity }
{
    events.truncate_front(events.len() - count);
}
