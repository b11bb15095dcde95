//! Subscription Status Responses (RFC 8412, section 5.12): the value of an attribute read and
//! written again.

ghost use Rattle.std.specs.Prelude.{◌≤◌, length};

use crate::request::request_text;
use crate::value::{placed_value, value_of};
use conformance_words::{digits_of, refusal_text};
use std::alloc::Global;
use swima_request::{Requests, read_status, status_fits, write_status};
use wire_base::{FieldRefused, Octets};

/// `status PLACE HEX`: the requests of the subscriptions that are the value at the place, or
/// `fault PLACE`.
pub fn status(alloc: Global, words: &str) -> Option<String> {
    let (place, octets) = placed_value(alloc, words)?;
    match read_status(alloc, octets.as_slice(), place) {
        Ok(requests) => status_text(alloc, &requests),
        Err(refused) => refusal_text(alloc, refused),
    }
}

/// `status_written HEX`: what is written of the subscriptions that are read.
pub fn status_written(alloc: Global, words: &str) -> Option<String> {
    let octets = value_of(alloc, words)?;
    match written_again(alloc, octets.as_slice()) {
        Ok(written) => digits_of(alloc, written.as_slice()),
        Err(refused) => refusal_text(alloc, refused),
    }
}

fn written_again(alloc: Global, value: &[u8]) -> Result<Octets, FieldRefused>
    requires within { length value.now ≤ 4096 }
{
    let requests = read_status(alloc, value, 0)?;
    Ok(write_status(alloc, &requests)?)
}

/// `status_fits MOST HEX`: whether the subscriptions that are read take at most that many octets.
pub fn fits(alloc: Global, words: &str) -> Option<String> {
    let (most, digits) = words.split_once(' ')?;
    let most: u32 = most.parse().ok()?;
    let octets = value_of(alloc, digits)?;
    let requests = read_status(alloc, octets.as_slice(), 0).ok()?;
    let word = if status_fits(&requests, most) {
        "yes"
    } else {
        "no"
    };
    String::from_str(alloc, word).ok()
}

/// The requests with `; ` between them; a `-` where there is none.
fn status_text(alloc: Global, requests: &Requests) -> Option<String> {
    if requests.is_empty() {
        return String::from_str(alloc, "-").ok();
    }
    let mut out = String::new(alloc);
    for request in requests.as_slice() {
        let text = request_text(alloc, request)?;
        if !out.is_empty() {
            out.push_str("; ").ok()?;
        }
        out.push_str(text.as_str()).ok()?;
    }
    Some(out)
}
