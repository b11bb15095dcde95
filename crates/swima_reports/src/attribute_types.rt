//! The types of the attributes that carry reports.

ghost use Rattle.std.specs.Prelude.{◌≡◌};
ghost use Rattle.swima_reports.specs.ReportType.{IsReportType, report_type};

use swima_model::{Kind, Report};

/// The attribute type of a Software Identifier Inventory (RFC 8412, section 5.2).
pub const SOFTWARE_IDENTIFIER_INVENTORY: u32 = 14;

/// The attribute type of Software Identifier Events (RFC 8412, section 5.2).
pub const SOFTWARE_IDENTIFIER_EVENTS: u32 = 15;

/// The attribute type of a Software Inventory (RFC 8412, section 5.2).
pub const SOFTWARE_INVENTORY: u32 = 16;

/// The attribute type of Software Events (RFC 8412, section 5.2).
pub const SOFTWARE_EVENTS: u32 = 17;

/// The type of the attribute that carries the report, from 14 to 17 (RFC 8412, section 5.2). It
/// takes no memory.
pub fn report_type(report: &Report) -> u32
    ensures attr_type { result ≡ report_type report.now }
    ensures within { IsReportType result }
{
    match report {
        Report::Inventory {
            kind: Kind::Ids,
            ..
        } => SOFTWARE_IDENTIFIER_INVENTORY,
        Report::Events {
            kind: Kind::Ids,
            ..
        } => SOFTWARE_IDENTIFIER_EVENTS,
        Report::Inventory {
            kind: Kind::Full,
            ..
        } => SOFTWARE_INVENTORY,
        Report::Events {
            kind: Kind::Full,
            ..
        } => SOFTWARE_EVENTS,
    }
}
