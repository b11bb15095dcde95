//! The mirror of one collector's inventory, and what it does with a report.

ghost use Rattle.std.specs.Prelude.{◌≡◌, ◌<◌, ◌≤◌, ◌^◌, length, slice_get};
ghost use Rattle.std.specs.Option.{option_copied};
ghost use Rattle.swima_model.specs.Size.{report_count};
ghost use Rattle.validator_core.specs.Held.{Held, empty_mirror};
ghost use Rattle.validator_core.specs.Judge.{Judged, StandsAt, judge};
ghost use Rattle.validator_core.specs.Right.{StaysRight};

mod taking;
pub(crate) mod want;

use crate::lent_or_owned::MaybeOwned;
use std::alloc::Global;
use std::marker::Model;
use swima_model::{Kind, Point, Record, Report};
use wire_base::{Memory, TryCopy};

/// What a mirror answers to a report: the first that fits.
#[derive(Clone, Copy, Debug, PartialEq, Eq)]
pub enum Taken {
    /// The report is not of the mirror's kind.
    WrongKind,
    /// The report has nothing new. An inventory is of the mirror's epoch, and its event
    /// identifier is below the mirror's, or the same while the mark is not set. Of events: nothing
    /// after the mirror's event identifier was consulted.
    Stale,
    /// Two records of an inventory have one identifier.
    Doubled {
        /// The smallest such identifier.
        id: u32,
    },
    /// There are more records than a mirror holds, or more octets of them.
    Large {
        /// How many records there are.
        count: u32,
        /// How many octets they have together.
        octets: u64,
    },
    /// The inventory stands in place of what the mirror held.
    Adopted,
    /// The events are of another epoch than the mirror's, or the mirror has none.
    OtherEpoch {
        /// The mirror's epoch.
        have: Option<u32>,
        /// The epoch of the report.
        got: u32,
    },
    /// The events do not follow on the mirror's, one by one up to the last that was consulted.
    Gap {
        /// The mirror's event identifier.
        have: u32,
        /// The first event identifier that differs; 0 where the events end too early.
        got: u32,
    },
    /// An event creates a record that is held, alters or deletes one that is not, or deletes one
    /// with another content than the one that is held. An empty body in the event counts as equal.
    Contradiction {
        /// The event identifier of the first such event.
        eid: u32,
    },
    /// The events were followed.
    Advanced {
        /// The event identifier at which the mirror stood.
        from: u32,
        /// That at which it stands, the last that was consulted.
        to: u32,
    },
    /// Out of memory; the mirror is as it was.
    Memory,
}

impl TryCopy for Taken {
    fn copy(&self) -> Result<Self, Memory> {
        Ok(*self)
    }
}

/// A copy of one collector's inventory at one point, as its reports give it (RFC 8412,
/// section 3.7).
#[derive(Debug, Drop)]
pub struct Mirror {
    kind: Kind,
    point: Option<Point>,
    records: Vec<Record>,
    octet_count: u64,
    off: bool,
}

impl Model for Mirror {
    ghost use Rattle.validator_core.specs.Held.{Held};
    ghost use Rattle.validator_core.specs.Weighed.{AreWeighed};

    ghost Value = { Held };

    ghost view = { λ mirror. record { kind = mirror.kind; point = mirror.point; records = mirror.records.items; off = mirror.off } };

    ghost invariant = { λ mirror. AreWeighed mirror.records.items mirror.octet_count };
}

impl Mirror {
    /// A mirror that takes reports of `kind` and holds nothing. It takes no memory.
    pub fn new(alloc: Global, kind: Kind) -> Self
        ensures empty { result ≡ empty_mirror kind }
    {
        Mirror {
            kind,
            point: None,
            records: Vec::new(alloc),
            octet_count: 0,
            off: false,
        }
    }

    /// The kind of the reports that it takes.
    pub fn kind(&self) -> Kind
        ensures kind { result ≡ self.now.kind }
    {
        self.kind
    }

    /// The point at which its records stood; `None` before the first inventory.
    pub fn point(&self) -> Option<Point>
        ensures point { result ≡ self.now.point }
    {
        self.point
    }

    /// Whether it has met a report that does not fit what it holds, since the last inventory that
    /// it adopted.
    pub fn off(&self) -> bool
        ensures off { result ≡ self.now.off }
    {
        self.off
    }

    /// How many records it holds.
    pub fn count(&self) -> u32
        ensures count { result ≡ length self.now.records }
        ensures within { result ≤ 65536 }
    {
        self.records.len() as u32
    }

    /// The record at `place` in order of identifier, counted from 0; `None` exactly where there is
    /// none.
    pub fn record_at(&self, place: u32) -> Option<&Record>
        ensures record { option_copied result ≡ slice_get self.now.records place }
    {
        self.records.get(place as usize)
    }

    /// Takes a report: the answer and what the mirror holds then are the first line of the table
    /// that fits. `Memory` may come in place of `Doubled`, `Large`, `Adopted`, `Contradiction` or
    /// `Advanced` alone, and leaves the mirror as it was.
    pub fn take(&mut self, report: &Report) -> Taken
        requires { report_count report.now < 2 ^ 32 }
        ensures judged { Judged self.old (judge self.old report.now) result self.new }
        ensures right { StaysRight self.old report.now result self.new }
        ensures stands { StandsAt self.old report.now result self.new }
    {
        match report {
            Report::Inventory {
                kind,
                point,
                records,
                ..
            } => self.take_inventory(*kind, *point, MaybeOwned::Lent(records)),
            Report::Events {
                kind,
                point,
                consulted,
                events,
                ..
            } => self.take_events(*kind, point.epoch, *consulted, MaybeOwned::Lent(events)),
        }
    }

    /// As `take`, of a report that is given up: what the mirror keeps of it is moved and not
    /// copied.
    pub fn take_owned(&mut self, report: Report) -> Taken
        requires { report_count report < 2 ^ 32 }
        ensures judged { Judged self.old (judge self.old report) result self.new }
        ensures right { StaysRight self.old report result self.new }
        ensures stands { StandsAt self.old report result self.new }
    {
        match report {
            Report::Inventory {
                kind,
                point,
                records,
                ..
            } => self.take_inventory(kind, point, MaybeOwned::Owned(records)),
            Report::Events {
                kind,
                point,
                consulted,
                events,
                ..
            } => self.take_events(kind, point.epoch, consulted, MaybeOwned::Owned(events)),
        }
    }
}
