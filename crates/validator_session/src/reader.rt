//! What the attributes of a message say to a validator.

ghost use Rattle.std.specs.Prelude.{◌≡◌, ◌+◌, ◌<◌, ◌^◌, length};
ghost use Rattle.session_rules.specs.Taking.{failure_at, list_at, report_at};
ghost use Rattle.swima_reports.specs.ReportType.{IsReportType};
ghost use Rattle.wire_base.specs.Reading.{Gives};

use pa_attrs::{ERROR, PlacedAttr, read_error};
use session_rules::ValidatorWord;
use session_words::WordReader;
use std::alloc::Global;
use swima_reports::{
    SOFTWARE_EVENTS, SOFTWARE_IDENTIFIER_EVENTS, SOFTWARE_IDENTIFIER_INVENTORY, SOFTWARE_INVENTORY,
    read_report,
};
use swima_request::{SUBSCRIPTION_STATUS_RESPONSE, read_status};
use wire_base::FieldRefused;

/// Reads reports, lists of subscriptions, and Errors.
#[derive(Drop)]
pub(crate) struct ValidatorReader;

impl WordReader for ValidatorReader {
    ghost use Rattle.session_rules.specs.Taking.{SUPPORTED, word_of};

    type Word = ValidatorWord;

    ghost types = { λ reader. SUPPORTED };

    ghost reading = { λ reader placed. word_of placed };

    fn supported(&self) -> &[u32] {
        &[
            ERROR,
            SOFTWARE_IDENTIFIER_INVENTORY,
            SOFTWARE_IDENTIFIER_EVENTS,
            SOFTWARE_INVENTORY,
            SOFTWARE_EVENTS,
            SUBSCRIPTION_STATUS_RESPONSE,
        ]
    }

    fn read(&self, alloc: Global, placed: &PlacedAttr) -> Result<ValidatorWord, FieldRefused> {
        let kind = placed.attr.kind;
        let value = placed.attr.value.as_slice();
        if kind == ERROR {
            failure(alloc, value, placed.at)
        } else if kind == SUBSCRIPTION_STATUS_RESPONSE {
            list(alloc, value, placed.at)
        } else {
            report(alloc, kind, value, placed.at)
        }
    }
}

/// The code of a PA-TNC Error (RFC 5792, section 4.2.8).
fn failure(alloc: Global, value: &[u8], at: u32) -> Result<ValidatorWord, FieldRefused>
    requires places { at + length value.now < 2 ^ 32 }
    ensures word { Gives (λ word. word) result (failure_at at value.now) }
{
    let error = read_error(alloc, value, at)?;
    Ok(ValidatorWord::Failure(error.code))
}

/// The requests of the subscriptions (RFC 8412, section 5.12).
fn list(alloc: Global, value: &[u8], at: u32) -> Result<ValidatorWord, FieldRefused>
    requires places { at + length value.now < 2 ^ 32 }
    ensures word { Gives (λ word. word) result (list_at at value.now) }
{
    Ok(ValidatorWord::Lists(read_status(alloc, value, at)?))
}

/// A report (RFC 8412, sections 5.7 to 5.10).
fn report(alloc: Global, kind: u32, value: &[u8], at: u32) -> Result<ValidatorWord, FieldRefused>
    requires kind { IsReportType kind }
    requires places { at + length value.now < 2 ^ 32 }
    ensures word { Gives (λ word. word) result (report_at kind at value.now) }
{
    Ok(ValidatorWord::Reports(read_report(alloc, kind, value, at)?))
}
