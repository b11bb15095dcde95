//! A copy of a request.

use std::alloc::Global;
use std::test::Fail;
use swima_model::{Ident, Kind, LongRefused};
use swima_request::Request;
use wire_base::{List, TryCopy};

fn request(alloc: Global) -> Result<Request, LongRefused> {
    let mut targets = List::new(alloc);
    targets.push(Ident::new(alloc, b"first")?)?;
    targets.push(Ident::new(alloc, b"second")?)?;
    Ok(Request {
        clear: true,
        subscribe: false,
        kind: Kind::Full,
        id: 11,
        earliest: 4_294_967_295,
        targets,
    })
}

/// Whether that is `request`.
fn is_request(request: &Request) -> bool {
    let wanted = request.clear & !request.subscribe & (request.kind == Kind::Full);
    let numbers = (request.id, request.earliest) == (11, 4_294_967_295);
    let targets = match request.targets.as_slice() {
        [first, second] => {
            (first.bytes() == b"first".as_slice()) & (second.bytes() == b"second".as_slice())
        }
        _ => false,
    };
    wanted & numbers & targets
}

/// Whether a copy of the request equals it.
fn is_copied(alloc: Global) -> Result<bool, LongRefused> {
    let copy = request(alloc)?.copy()?;
    Ok(is_request(&copy))
}

#[test]
fn a_copy_of_a_request_equals_it(rt: HostRuntime) -> Result<(), Fail> {
    assert!(rt; is_copied(rt.alloc())?);
    Ok(())
}
