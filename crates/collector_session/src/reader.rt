//! What the attributes of a message say to a collector.

ghost use Rattle.std.specs.Prelude.{◌≡◌, ◌+◌, ◌<◌, ◌^◌, length};
ghost use Rattle.wire_base.specs.Reading.{Gives};
ghost use Rattle.session_rules.specs.Answering.{failure_at, request_at, status_at};

use pa_attrs::{ERROR, PlacedAttr, read_error};
use session_rules::CollectorWord;
use session_words::WordReader;
use std::alloc::Global;
use swima_request::{SUBSCRIPTION_STATUS_REQUEST, SWIMA_REQUEST, read_request};
use wire_base::FieldRefused;

/// Reads requests, requests for the status of the subscriptions, and Errors.
#[derive(Drop)]
pub(crate) struct CollectorReader;

impl WordReader for CollectorReader {
    ghost use Rattle.session_rules.specs.Answering.{SUPPORTED, word_of};

    type Word = CollectorWord;

    ghost types = { λ reader. SUPPORTED };

    ghost reading = { λ reader placed. word_of placed };

    fn supported(&self) -> &[u32] {
        &[ERROR, SWIMA_REQUEST, SUBSCRIPTION_STATUS_REQUEST]
    }

    fn read(&self, alloc: Global, placed: &PlacedAttr) -> Result<CollectorWord, FieldRefused> {
        let value = placed.attr.value.as_slice();
        if placed.attr.kind == ERROR {
            failure(alloc, value, placed.at)
        } else if placed.attr.kind == SWIMA_REQUEST {
            request(alloc, value, placed.at)
        } else {
            status(value, placed.at)
        }
    }
}

/// The code of a PA-TNC Error (RFC 5792, section 4.2.8).
fn failure(alloc: Global, value: &[u8], at: u32) -> Result<CollectorWord, FieldRefused>
    requires places { at + length value.now < 2 ^ 32 }
    ensures word { Gives (λ word. word) result (failure_at at value.now) }
{
    let error = read_error(alloc, value, at)?;
    Ok(CollectorWord::Failure(error.code))
}

/// A request (RFC 8412, section 5.6).
fn request(alloc: Global, value: &[u8], at: u32) -> Result<CollectorWord, FieldRefused>
    requires places { at + length value.now < 2 ^ 32 }
    ensures word { Gives (λ word. word) result (request_at at value.now) }
{
    Ok(CollectorWord::Wants(read_request(alloc, value, at)?))
}

/// A request for the status of the subscriptions, whose value is empty (RFC 8412, section 5.11).
fn status(value: &[u8], at: u32) -> Result<CollectorWord, FieldRefused>
    ensures word { Gives (λ word. word) result (status_at at value.now) }
{
    if !value.is_empty() {
        return Err(FieldRefused::Fault { offset: at });
    }
    Ok(CollectorWord::AsksStatus)
}
