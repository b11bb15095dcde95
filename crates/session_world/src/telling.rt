//! What is reported of the lines of a script.

use collector_core::BookError;
use session_rules::SessionEnd;
use swima_model::Point;
use validator_core::Taken;
use wire_base::{List, Memory, TryCopy};

/// What is reported of a line.
#[derive(Clone, Copy, Debug, PartialEq, Eq)]
pub enum Telling {
    /// The inventory refused the change.
    Refused(BookError),
    /// The mirror took a report.
    Took {
        /// The point of the report.
        point: Point,
        /// How many records or events it has.
        count: u32,
        /// What the mirror answered.
        answer: Taken,
    },
    /// The collector's end is over.
    CollectorEnds(SessionEnd),
    /// The validator's end is over.
    ValidatorEnds(SessionEnd),
}

impl TryCopy for Telling {
    fn copy(&self) -> Result<Self, Memory> {
        Ok(*self)
    }
}

/// What is reported, in order.
pub type Tellings = List<Telling>;
