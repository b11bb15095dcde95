//! Reading and writing the subscriptions of a session.

ghost use Rattle.std.specs.Prelude.{◌≡◌, ◌+◌, ◌++◌, ◌<◌, ◌≤◌, ◌^◌, All, List, Ok, IfOk, OnOk, length};
ghost use Rattle.swima_request.specs.declared.request.Request.{Request as RequestValue};
ghost use Rattle.swima_request.specs.StatusForm.{StatusFault, StatusForm, read_status, status_fields, status_octets, written_status};
ghost use Rattle.wire_base.specs.FirstFault.{OnFault};
ghost use Rattle.wire_base.specs.Reading.{Gives, value_alone, whole};
ghost use Rattle.wire_base.specs.Written.{Fit, written};

use crate::fields::{FEWEST_REQUEST_OCTETS, RequestReader, put_requests};
use crate::request::Requests;
use std::alloc::Global;
use wire_base::{Cursor, FieldRefused, List, Memory, Octets, put_u24, read_several};

/// The requests that established the subscriptions of a session, in order: the value of an
/// attribute of type `SUBSCRIPTION_STATUS_RESPONSE` (RFC 8412, section 5.12).
///
/// `Fault` comes exactly where the value has no form; its offset is the place of the first fault,
/// counted from `base`, the place of the value's first octet.
///
/// Requests that were read from a value of at most 16,777,000 octets meet what `write_status` asks
/// for, by `size`.
pub fn read_status(alloc: Global, value: &[u8], base: u32) -> Result<Requests, FieldRefused>
    requires places { base + length value.now < 2 ^ 32 }
    ensures found { IfOk result (λ requests. StatusForm requests value.now) }
    ensures only { (requests : List RequestValue) → StatusForm requests value.now
        → Gives (λ read. read) result (Ok requests) }
    ensures fault { OnFault result (λ place. StatusFault base value.now place) }
    ensures exact { Gives (λ read. read) result (whole read_status base value.now) }
    ensures size { IfOk result (λ requests. status_octets requests ≡ length value.now) }
{
    status(alloc, Cursor::new(base, value))
}

/// The subscriptions in what is left, all of it.
#[tactic(auto, unfolding(crate::specs::StatusForm::read_status))]
fn status(alloc: Global, mut cursor: Cursor) -> Result<Requests, FieldRefused>
    ensures status { Gives (λ read. read) result (value_alone (read_status cursor.entry)) }
{
    cursor.u8()?;
    let count = cursor.u24()?;
    let requests = read_several(
        alloc,
        &mut cursor,
        &RequestReader,
        count,
        FEWEST_REQUEST_OCTETS,
    )?;
    cursor.end()?;
    Ok(requests)
}

/// The octets of the requests that established the subscriptions of a session: the value of the
/// attribute of type `SUBSCRIPTION_STATUS_RESPONSE` that says them (RFC 8412, section 5.12). The
/// flags that have no meaning are 0. `status_fits` of 16,777,000 is the test for `within`.
pub fn write_status(alloc: Global, requests: &Requests) -> Result<Octets, Memory>
    requires within { status_octets requests.now ≤ 16777000 }
    ensures octets { IfOk result (λ made. made ≡ written_status requests.now) }
    ensures size { IfOk result (λ made. length made ≡ status_octets requests.now) }
    ensures form { IfOk result (λ made. StatusForm requests.now made) }
{
    let mut out = List::new(alloc);
    put_status(&mut out, requests)?;
    Ok(out)
}

/// Puts the subscriptions at the end.
#[tactic(auto, unfolding(wire_base::specs::Written::written))]
fn put_status(out: &mut Octets, requests: &Requests) -> Result<(), Memory>
    requires count { length requests.now < 2 ^ 24 }
    requires targets { All (λ (request : RequestValue). length request.targets < 2 ^ 24) requests.now }
    ensures appended { OnOk result (out.new ≡ out.old ++ written (status_fields requests.now)) }
    ensures fits { OnOk result (Fit (status_fields requests.now)) }
{
    out.push(NO_FLAGS)?;
    put_u24(out, requests.len() as u32)?;
    put_requests(out, requests)
}

/// What is written in the octet of status flags, of which none has a name.
const NO_FLAGS: u8 = 0;
