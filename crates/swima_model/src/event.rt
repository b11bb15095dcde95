//! Changes of an inventory.

ghost use Rattle.std.specs.Prelude.{◌≡◌, ◌≤◌, ◌+◌};
ghost use Rattle.swima_model.specs.Size.{MOST_CONTENT_OCTETS, event_size};

use crate::record::Record;
use crate::report::Kind;
use wire_base::{List, Memory, TryCopy};

/// What an event did to its record (RFC 8412, section 5.8).
#[derive(Clone, Copy, Debug, PartialEq, Eq)]
pub enum Action {
    /// The record was created.
    Creation,
    /// The record was deleted.
    Deletion,
    /// The record was altered.
    Alteration,
}

impl TryCopy for Action {
    fn copy(&self) -> Result<Self, Memory> {
        Ok(*self)
    }
}

/// A change of one record of an inventory (RFC 8412, section 3.7).
#[derive(Debug, Drop)]
pub struct Event {
    /// The event identifier, by which the events of an epoch are numbered from 1.
    pub eid: u32,
    /// The moment of the change, as `YYYY-MM-DDThh:mm:ssZ`.
    pub stamp: [u8; 20],
    /// What was done.
    pub action: Action,
    /// The record as the change left it; of a deletion, the record that went, or the same with an
    /// empty body.
    pub subject: Record,
}

impl Event {
    /// How many octets the event takes in a report of this kind. It takes no memory.
    pub fn size(&self, kind: Kind) -> u64
        ensures size { result ≡ event_size kind self.now }
        ensures within { result ≤ MOST_CONTENT_OCTETS + 42 }
    {
        24 + self.subject.size(kind)
    }
}

impl TryCopy for Event {
    fn copy(&self) -> Result<Self, Memory> {
        Ok(Event {
            eid: self.eid,
            stamp: self.stamp,
            action: self.action,
            subject: self.subject.copy()?,
        })
    }
}

/// Events in order.
pub type Events = List<Event>;
