//! What a validator asks of a collector.

use swima_model::{Ident, Kind};
use wire_base::{List, Memory, TryCopy};

/// Software identifiers in order.
pub type Idents = List<Ident>;

/// Requests in order.
pub type Requests = List<Request>;

/// A request for a report of an endpoint's software (RFC 8412, section 5.6).
#[derive(Debug, Drop)]
pub struct Request {
    /// Whether all subscriptions are to be cleared first.
    pub clear: bool,
    /// Whether reports of later changes are asked for too.
    pub subscribe: bool,
    /// Whether reports are to carry bodies.
    pub kind: Kind,
    /// The identifier of the request, which the reports that answer it repeat.
    pub id: u32,
    /// The event identifier from which on events are asked for; 0 asks for the inventory.
    pub earliest: u32,
    /// The software identifiers that are asked for; none asks for all software.
    pub targets: Idents,
}

impl TryCopy for Request {
    fn copy(&self) -> Result<Self, Memory> {
        Ok(Request {
            clear: self.clear,
            subscribe: self.subscribe,
            kind: self.kind,
            id: self.id,
            earliest: self.earliest,
            targets: self.targets.copy()?,
        })
    }
}
