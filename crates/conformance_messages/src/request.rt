//! Requests (RFC 8412, section 5.6): the value of an attribute read and written again.

ghost use Rattle.std.specs.Prelude.{◌≤◌, length};

use crate::value::{placed_value, value_of};
use conformance_words::{digits_of, kind_word, refusal_text};
use std::alloc::Global;
use swima_request::{Request, read_request, write_request};
use wire_base::{FieldRefused, Octets};

/// `request PLACE HEX`: the request that is the value at the place, or `fault PLACE`.
pub fn request(alloc: Global, words: &str) -> Option<String> {
    let (place, octets) = placed_value(alloc, words)?;
    match read_request(alloc, octets.as_slice(), place) {
        Ok(request) => request_text(alloc, &request),
        Err(refused) => refusal_text(alloc, refused),
    }
}

/// `request_written HEX`: what is written of the request that is read.
pub fn request_written(alloc: Global, words: &str) -> Option<String> {
    let octets = value_of(alloc, words)?;
    match written_again(alloc, octets.as_slice()) {
        Ok(written) => digits_of(alloc, written.as_slice()),
        Err(refused) => refusal_text(alloc, refused),
    }
}

fn written_again(alloc: Global, value: &[u8]) -> Result<Octets, FieldRefused>
    requires within { length value.now ≤ 4096 }
{
    let request = read_request(alloc, value, 0)?;
    Ok(write_request(alloc, &request)?)
}

/// Both flags, the kind, the identifier, the earliest event and the targets; `all` where there is
/// none.
pub fn request_text(alloc: Global, request: &Request) -> Option<String> {
    let clear = if request.clear { "clear" } else { "-" };
    let subscribe = if request.subscribe { "subscribe" } else { "-" };
    let kind = kind_word(request.kind);
    let (id, earliest) = (request.id, request.earliest);
    let mut out = format!(in alloc; "{clear} {subscribe} {kind} {id} {earliest}").ok()?;
    if request.targets.is_empty() {
        out.push_str(" all").ok()?;
    }
    for target in request.targets.as_slice() {
        let digits = digits_of(alloc, target.bytes())?;
        out.push_str(" ").ok()?;
        out.push_str(digits.as_str()).ok()?;
    }
    Some(out)
}
