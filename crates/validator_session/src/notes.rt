//! What a validator notes of a session.

ghost use Rattle.std.specs.Prelude.{◌≡◌, [], None};

use session_rules::SessionRecord;
use std::alloc::Global;
use swima_model::{Point, Report};
use validator_core::Taken;
use wire_base::{List, Memory, TryCopy};

/// A report that the mirror took.
#[derive(Clone, Copy, Debug, PartialEq, Eq)]
pub struct TakenReport {
    /// Its point.
    pub point: Point,
    /// How many records or events it has.
    pub count: u32,
    /// What the mirror answered.
    pub answer: Taken,
}

impl TryCopy for TakenReport {
    fn copy(&self) -> Result<Self, Memory> {
        Ok(*self)
    }
}

/// Reports that were taken, in order.
pub type TakenReports = List<TakenReport>;

/// What is noted of a session, beside the mirror.
#[derive(Debug, Drop)]
pub(crate) struct Notes {
    /// The record.
    pub(crate) record: SessionRecord,
    /// The reports that the mirror took.
    pub(crate) reports: TakenReports,
    /// The last of them.
    pub(crate) last: Option<Report>,
}

impl Notes {
    /// Before the session. It takes no memory.
    pub(crate) fn new(alloc: Global) -> Self
        ensures record { result.record ≡ record { points = []; taken = []; errors = []; reports = 0; sent = 0; received = 0 } }
        ensures reports { result.reports ≡ [] }
        ensures last { result.last ≡ None }
    {
        Notes {
            record: SessionRecord::new(alloc),
            reports: List::new(alloc),
            last: None,
        }
    }

    /// The record.
    pub(crate) fn into_record(self) -> SessionRecord
        ensures record { result ≡ self.record }
    {
        let Notes { record, .. } = self;
        record
    }
}
