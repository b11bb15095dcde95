//! How many octets requests have as subscriptions.

ghost use Rattle.std.specs.Prelude.{◌≡◌, ◌-◌, ◌+◌, ◌^◌, ℕ, List, length, min, nat_le};
ghost use Rattle.std.specs.List.{sum_by};
ghost use Rattle.swima_request.specs.RequestForm.{request_octets};
ghost use Rattle.swima_request.specs.StatusForm.{status_octets};

use crate::request::{Idents, Request, Requests};

/// Whether the subscriptions that the requests established take at most that many octets in a
/// Subscription Status Response (RFC 8412, section 5.12). It takes no memory.
pub fn status_fits(requests: &Requests, most: u32) -> bool
    ensures fits { result ≡ nat_le (status_octets requests.now) most }
{
    size_of_requests(requests).saturating_add(4) <= u64::from(most)
}

/// How many octets the requests have, where that is a `u64`, and else the most that one holds.
fn size_of_requests(requests: &Requests) -> u64
    ensures size { result ≡ min (sum_by request_octets requests.now) (2 ^ 64 - 1) }
{
    let mut size: u64 = 0;
    for request in requests.as_slice() {
        size = size.saturating_add(size_of_request(request));
    }
    size
}

/// The same of one request.
fn size_of_request(request: &Request) -> u64
    ensures size { result ≡ min (request_octets request.now) (2 ^ 64 - 1) }
{
    size_of_targets(&request.targets).saturating_add(12)
}

/// The same of targets.
fn size_of_targets(targets: &Idents) -> u64
    ensures size { result ≡ min (sum_by (λ (target : List ℕ). 2 + length target) targets.now) (2 ^ 64 - 1) }
{
    let mut size: u64 = 0;
    for target in targets.as_slice() {
        size = size.saturating_add(2 + target.bytes().len() as u64);
    }
    size
}
