//! Reading requests.

ghost use Rattle.std.specs.Prelude.{◌≡◌, ◌+◌, ◌<◌, ◌≤◌, ◌^◌, Ok, IfOk, length};
ghost use Rattle.swima_request.specs.declared.request.Request.{Request as RequestValue};
ghost use Rattle.swima_request.specs.RequestForm.{RequestFault, RequestForm, read_request, request_octets};
ghost use Rattle.wire_base.specs.FirstFault.{OnFault};
ghost use Rattle.wire_base.specs.Reading.{Gives, value_alone, whole};

use crate::fields::RequestReader;
use crate::request::Request;
use std::alloc::Global;
use wire_base::{Cursor, FieldReader, FieldRefused};

/// The request that is the value of an attribute of type `SWIMA_REQUEST` (RFC 8412, section 5.6).
///
/// `Fault` comes exactly where the value has no form; its offset is the place of the first fault,
/// counted from `base`, the place of the value's first octet.
///
/// A request that was read from a value of at most 16,777,000 octets meets what `write_request`
/// asks for, by `size`.
pub fn read_request(alloc: Global, value: &[u8], base: u32) -> Result<Request, FieldRefused>
    requires places { base + length value.now < 2 ^ 32 }
    ensures found { IfOk result (λ request. RequestForm request value.now) }
    ensures only { (request : RequestValue) → RequestForm request value.now
        → Gives (λ read. read) result (Ok request) }
    ensures fault { OnFault result (λ place. RequestFault base value.now place) }
    ensures exact { Gives (λ read. read) result (whole read_request base value.now) }
    ensures count { IfOk result (λ request. length request.targets < 2 ^ 24) }
    ensures size { IfOk result (λ request. request_octets request ≡ length value.now) }
{
    request(alloc, Cursor::new(base, value))
}

/// The request in what is left, all of it.
#[tactic(auto, unfolding(crate::specs::RequestForm::read_request))]
fn request(alloc: Global, mut cursor: Cursor) -> Result<Request, FieldRefused>
    ensures request { Gives (λ read. read) result (value_alone (read_request cursor.entry)) }
{
    let request = RequestReader.read(alloc, &mut cursor)?;
    cursor.end()?;
    Ok(request)
}
