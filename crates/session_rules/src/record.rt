//! What is noted of a session.

ghost use Rattle.std.specs.Prelude.{◌≡◌, []};

use std::alloc::Global;
use swima_model::Point;
use validator_core::Taken;
use wire_base::List;

/// Points in order.
pub type Points = List<Point>;

/// What a mirror answered to reports, in order.
pub type Takens = List<Taken>;

/// Codes of errors in order.
pub type Codes = List<u32>;

/// What is noted of a session, at either end.
#[derive(Debug, Drop)]
pub struct SessionRecord {
    /// The points of the reports that were written, at a collector.
    pub points: Points,
    /// What the mirror answered to each report, at a validator.
    pub taken: Takens,
    /// The codes of the PA-TNC Errors that were heard.
    pub errors: Codes,
    /// How many reports were written, or taken.
    pub reports: u64,
    /// How many octets were given.
    pub sent: u64,
    /// How many octets were taken.
    pub received: u64,
}

impl SessionRecord {
    /// Before the session. It takes no memory.
    pub fn new(alloc: Global) -> Self
        ensures made { result ≡ record { points = []; taken = []; errors = []; reports = 0; sent = 0; received = 0 } }
    {
        SessionRecord {
            points: List::new(alloc),
            taken: List::new(alloc),
            errors: List::new(alloc),
            reports: 0,
            sent: 0,
            received: 0,
        }
    }
}
