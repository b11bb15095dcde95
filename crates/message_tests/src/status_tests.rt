//! Subscriptions that are made by hand: what is written of them. The octets are worked out by hand
//! from the figures of RFC 8412, sections 5.6 and 5.12.

use std::alloc::Global;
use swima_model::{Ident, Kind, LongRefused};
use swima_request::{
    Idents, Request, Requests, SUBSCRIPTION_STATUS_REQUEST, SUBSCRIPTION_STATUS_RESPONSE,
    SWIMA_ATTRIBUTES, SWIMA_REQUEST, status_fits, write_status,
};
use wire_base::Octets;

/// Two subscriptions.
const TWO: [u8; 38] = [
    0, 0, 0, 2, // status flags, subscription record count
    0x40, 0, 0, 2, // flags, software identifier count
    1, 2, 3, 4, // request
    0, 0, 0, 0, // earliest event
    0, 2, b'a', b'b', // software identifier
    0, 1, b'c', // software identifier
    0xe0, 0, 0, 1, // flags, software identifier count
    0, 0, 0, 5, // request
    0, 0, 0, 3, // earliest event
    0, 1, b'a', // software identifier
];

/// The requests in `TWO`.
fn two(alloc: Global) -> Result<Requests, LongRefused> {
    let mut targets = Idents::new(alloc);
    targets.push(Ident::new(alloc, b"ab")?)?;
    targets.push(Ident::new(alloc, b"c")?)?;
    let mut requests = Requests::new(alloc);
    requests.push(Request {
        clear: false,
        subscribe: true,
        kind: Kind::Full,
        id: 0x0102_0304,
        earliest: 0,
        targets,
    })?;
    let mut targets = Idents::new(alloc);
    targets.push(Ident::new(alloc, b"a")?)?;
    requests.push(Request {
        clear: true,
        subscribe: true,
        kind: Kind::Ids,
        id: 5,
        earliest: 3,
        targets,
    })?;
    Ok(requests)
}

/// The octets of subscriptions; `None` where they are too many, or memory ran out.
fn written(alloc: Global, requests: &Requests) -> Option<Octets> {
    if !status_fits(requests, 16_777_000) {
        return None;
    }
    write_status(alloc, requests).ok()
}

/// Whether the octets of `TWO` are written of its requests.
fn is_written(alloc: Global) -> Result<bool, LongRefused> {
    let requests = two(alloc)?;
    match written(alloc, &requests) {
        Some(octets) => Ok(octets.as_slice() == TWO.as_slice()),
        None => Ok(false),
    }
}

#[test]
fn subscriptions_are_written(rt: HostRuntime) {
    assert!(rt; is_written(rt.alloc()) == Ok(true));
}

/// The numbers that RFC 8412 gives to the messages and attributes, in sections 5.1 and 5.2.
#[test]
fn attributes_have_the_numbers_of_the_rfc(rt: HostRuntime) {
    let messages = SWIMA_ATTRIBUTES == 9;
    let requests = (SWIMA_REQUEST == 13) & (SUBSCRIPTION_STATUS_REQUEST == 18);
    let responses = SUBSCRIPTION_STATUS_RESPONSE == 19;
    assert!(rt; messages & requests & responses);
}
