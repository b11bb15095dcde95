//! Reports of an endpoint's software.

ghost use Rattle.std.specs.Prelude.{◌≡◌};
ghost use Rattle.swima_model.specs.Fulfilling.{fulfilling};
ghost use Rattle.swima_model.specs.Reports.{point_in};
ghost use Rattle.swima_model.specs.Size.{report_count};

use crate::event::Events;
use crate::record::Records;
use wire_base::{Memory, TryCopy};

/// Whether reports carry bodies (RFC 8412, section 5.2).
#[derive(Clone, Copy, Debug, PartialEq, Eq)]
pub enum Kind {
    /// Software identifiers only: what is read of such a report has no bodies.
    Ids,
    /// Whole records.
    Full,
}

impl TryCopy for Kind {
    fn copy(&self) -> Result<Self, Memory> {
        Ok(*self)
    }
}

/// A point in the history of an endpoint's inventory (RFC 8412, section 3.7.1).
#[derive(Clone, Copy, Debug, PartialEq, Eq)]
pub struct Point {
    /// The epoch of the event identifier.
    pub epoch: u32,
    /// The event identifier of the last event; 0 where the epoch has none yet.
    pub eid: u32,
}

impl TryCopy for Point {
    fn copy(&self) -> Result<Self, Memory> {
        Ok(*self)
    }
}

/// What an endpoint reports of its software.
#[derive(Debug, Drop)]
pub enum Report {
    /// All records at a point (RFC 8412, sections 5.7 and 5.9).
    Inventory {
        /// Whether bodies are carried.
        kind: Kind,
        /// Whether the report fulfils a subscription.
        fulfil: bool,
        /// The identifier of the request that it answers.
        id: u32,
        /// The point at which the records stood.
        point: Point,
        /// The records.
        records: Records,
    },
    /// The changes up to a point (RFC 8412, sections 5.8 and 5.10).
    Events {
        /// Whether bodies are carried.
        kind: Kind,
        /// Whether the report fulfils a subscription.
        fulfil: bool,
        /// The identifier of the request that it answers.
        id: u32,
        /// The point of the collector when it answered.
        point: Point,
        /// The event identifier up to which events were looked at, at most that of the point.
        consulted: u32,
        /// The events.
        events: Events,
    },
}

impl Report {
    /// The point that it names (RFC 8412, sections 5.7 to 5.10).
    pub fn point(&self) -> Point
        ensures point { result ≡ point_in self.now }
    {
        match self {
            Report::Inventory { point, .. } => *point,
            Report::Events { point, .. } => *point,
        }
    }

    /// How many records or events it has.
    pub fn count(&self) -> usize
        ensures count { result ≡ report_count self.now }
    {
        match self {
            Report::Inventory { records, .. } => records.len(),
            Report::Events { events, .. } => events.len(),
        }
    }

    /// The same report as one that fulfils a subscription (RFC 8412, sections 5.7 to 5.10). It
    /// takes no memory.
    pub fn fulfilling(self) -> Self
        ensures report { result ≡ fulfilling self }
    {
        match self {
            Report::Inventory {
                kind,
                id,
                point,
                records,
                ..
            } => Report::Inventory {
                kind,
                fulfil: true,
                id,
                point,
                records,
            },
            Report::Events {
                kind,
                id,
                point,
                consulted,
                events,
                ..
            } => Report::Events {
                kind,
                fulfil: true,
                id,
                point,
                consulted,
                events,
            },
        }
    }
}

impl TryCopy for Report {
    fn copy(&self) -> Result<Self, Memory> {
        match self {
            Report::Inventory {
                kind,
                fulfil,
                id,
                point,
                records,
            } => Ok(Report::Inventory {
                kind: *kind,
                fulfil: *fulfil,
                id: *id,
                point: *point,
                records: records.copy()?,
            }),
            Report::Events {
                kind,
                fulfil,
                id,
                point,
                consulted,
                events,
            } => Ok(Report::Events {
                kind: *kind,
                fulfil: *fulfil,
                id: *id,
                point: *point,
                consulted: *consulted,
                events: events.copy()?,
            }),
        }
    }
}
