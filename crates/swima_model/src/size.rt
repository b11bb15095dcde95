//! How large reports are as attributes carry them (RFC 8412, sections 5.7 to 5.10).

ghost use Rattle.std.specs.Prelude.{◌≡◌, ◌<◌, ◌≤◌, ◌+◌, ◌*◌, ◌^◌, ℕ, length};
ghost use Rattle.std.specs.List.{sum_by};
ghost use Rattle.swima_model.specs.declared.report.Kind.{Kind as KindValue};
ghost use Rattle.swima_model.specs.Size.{event_size, record_size, report_count, report_size};

use crate::event::Event;
use crate::record::Record;
use crate::report::{Kind, Report};

/// How many octets the value of the attribute has that carries the report. It takes no memory.
pub fn size_of(report: &Report) -> u64
    requires few { report_count report.now < 2 ^ 32 }
    ensures size { result ≡ report_size report.now }
{
    match report {
        Report::Inventory { kind, records, .. } => 16 + size_of_all(*kind, records.as_slice()),
        Report::Events { kind, events, .. } => 20 + size_of_all(*kind, events.as_slice()),
    }
}

/// How many octets all of `entries` take in a report of the kind. It takes no memory.
pub fn size_of_all<T: ReportEntry>(kind: Kind, entries: &[T]) -> u64
    requires few { length entries.now < 2 ^ 32 }
    ensures size { result ≡ sum_by (T.entry_size kind) entries.now }
    ensures within { result ≤ 2 ^ 21 * length entries.now }
{
    let mut size = 0;
    for entry in entries {
        size += entry.size(kind);
    }
    size
}

/// What reports have one after another: records, or events.
pub trait ReportEntry {
    /// How many octets one takes in a report of the kind.
    ghost entry_size: { KindValue → Self → ℕ };

    /// How many octets it takes in a report of this kind. It takes no memory.
    fn size(&self, kind: Kind) -> u64
        ensures size { result ≡ entry_size kind self.now }
        ensures within { result ≤ 2 ^ 21 };
}

impl ReportEntry for Record {
    ghost entry_size = { record_size };

    fn size(&self, kind: Kind) -> u64 {
        Record::size(self, kind)
    }
}

impl ReportEntry for Event {
    ghost entry_size = { event_size };

    fn size(&self, kind: Kind) -> u64 {
        Event::size(self, kind)
    }
}

/// What is lent has the size of what it is.
impl<T: ReportEntry> ReportEntry for &T {
    ghost entry_size = { λ kind entry. T.entry_size kind entry.now };

    fn size(&self, kind: Kind) -> u64 {
        (**self).size(kind)
    }
}
