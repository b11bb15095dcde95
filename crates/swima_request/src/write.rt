//! Writing requests.

ghost use Rattle.std.specs.Prelude.{◌≡◌, ◌≤◌, IfOk, length};
ghost use Rattle.swima_request.specs.RequestForm.{RequestForm, request_octets, written_request};

use crate::fields::put_request;
use crate::request::Request;
use std::alloc::Global;
use wire_base::{List, Memory, Octets};

/// The octets of a request: the value of its attribute, of type `SWIMA_REQUEST` (RFC 8412,
/// section 5.6), with 0 in the flags that have no meaning.
pub fn write_request(alloc: Global, request: &Request) -> Result<Octets, Memory>
    requires within { request_octets request.now ≤ 16777000 }
    ensures octets { IfOk result (λ made. made ≡ written_request request.now) }
    ensures size { IfOk result (λ made. length made ≡ request_octets request.now) }
    ensures form { IfOk result (λ made. RequestForm request.now made) }
{
    let mut out = List::new(alloc);
    put_request(&mut out, request)?;
    Ok(out)
}
