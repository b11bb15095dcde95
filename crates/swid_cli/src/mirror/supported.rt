//! Which attributes the commands support: those that carry reports.

ghost use Rattle.std.specs.Prelude.{◌≡◌, ◌==◌, IsTrue};
ghost use Rattle.std.specs.List.{list_any};
ghost use Rattle.pa_attrs.specs.Faults.{is_refused};
ghost use Rattle.swid_cli.specs.Front.{REPORT_TYPES, carries_report};
ghost use Rattle.swima_reports.specs.ReportType.{IsReportType};

use pa_attrs::{Header, IETF};
use swima_reports::{
    SOFTWARE_EVENTS, SOFTWARE_IDENTIFIER_EVENTS, SOFTWARE_IDENTIFIER_INVENTORY, SOFTWARE_INVENTORY,
};

/// Whether an attribute of the vendor and the type carries a report (RFC 8412, section 5.2).
pub(crate) fn carries_report(vendor: u32, kind: u32) -> bool
    ensures report { result ≡ carries_report vendor kind }
    ensures listed { IsTrue result → IsReportType kind }
{
    vendor == IETF && is_report_type(kind)
}

/// Whether an attribute with the header carries no report and may not be passed over (RFC 5792,
/// section 4.1).
pub(crate) fn is_refused(header: Header) -> bool
    ensures refused { result ≡ is_refused REPORT_TYPES header }
{
    header.noskip && !carries_report(header.vendor, header.kind)
}

/// Whether attributes of vendor 0 and this type carry reports.
fn is_report_type(kind: u32) -> bool
    ensures listed { result ≡ list_any (λ known. known == kind) REPORT_TYPES }
    ensures between { IsTrue result → IsReportType kind }
{
    match kind {
        SOFTWARE_IDENTIFIER_INVENTORY | SOFTWARE_IDENTIFIER_EVENTS => true,
        SOFTWARE_INVENTORY | SOFTWARE_EVENTS => true,
        _ => false,
    }
}
