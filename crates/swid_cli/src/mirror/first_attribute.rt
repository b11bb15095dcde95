//! The first attribute of what is left of the input.

ghost use Rattle.std.specs.Prelude.{◌≡◌, ◌<◌, ◌≤◌, ◌^◌, ◌++◌, List, ℕ, Some, IfOk};
ghost use Rattle.swid_cli.specs.Front.{cut};
ghost use Rattle.swid_cli.specs.Steps.{IsBegun, IsWithin, TakesFirst, TakesFront};
ghost use Rattle.swid_cli.specs.Stream.{INPUT_OCTETS};
ghost use Rattle.wire_base.specs.Outside.{HasCause};
ghost use Rattle.wire_base.specs.Passing.{is_fault};

use crate::mirror::supported::is_refused;
use pa_attrs::{
    Attr, AttrFault, AttrFed, AttrFeed, HEADER_OCTETS, UNSUPPORTED_ATTRIBUTE, read_header,
};
use std::alloc::Global;
use wire_base::{List, Source, Stopped, fill};

/// How many octets of a value one call of the input is asked for at most.
const PIECE: usize = 65536;

/// Octets of a value that one call of the input gives.
pub(crate) type Piece = [u8; PIECE];

/// A piece with no octets of the input yet.
pub(crate) fn new_piece() -> Piece {
    [0; PIECE]
}

/// What stands first in what is left of the input.
#[derive(Debug, Drop)]
pub(crate) enum Front {
    /// Nothing is left.
    End,
    /// The input ends inside an attribute, after that many octets of it.
    Torn(u32),
    /// The input has more octets than it may have.
    Limit,
    /// An attribute has a fault in its header; its place is counted from the first octet of the
    /// attribute.
    Faulty(AttrFault),
    /// A whole attribute, and how many octets it has.
    Whole(Attr, u32),
}

/// Takes the first attribute of what is left of the input, of which `room` octets may be looked at.
/// It reads no octet after what it has to look at, and holds no more than that attribute and `buf`.
pub(crate) fn take_front<S: Source>(
    alloc: Global,
    input: &mut S,
    buf: &mut Piece,
    room: usize,
) -> Result<Front, Stopped>
    requires { room ≤ INPUT_OCTETS }
    ensures front { IfOk result
        (λ first. TakesFront room (S.left input.old) (S.left input.new) first) }
    ensures within { IfOk result (λ first. IsWithin room first) }
    ensures cause { HasCause (S.faults input.old) (S.faults input.new) (is_fault result) }
{
    let mut start = List::new(alloc);
    fill(input, &mut start, HEADER_OCTETS.min(room + 1))?;
    if start.len().min(room) < HEADER_OCTETS {
        return Ok(cut(room, start.len()));
    }
    let header = read_header(start.as_slice());
    if is_refused(header) {
        return Ok(Front::Faulty(AttrFault {
            code: UNSUPPORTED_ATTRIBUTE,
            at: 0,
        }));
    }
    let mut feed = AttrFeed::new(alloc);
    match feed.feed(start.as_slice()) {
        AttrFed::More => take_value(input, buf, &mut feed, header.length, room),
        AttrFed::Done(attr, _) => Ok(Front::Whole(attr, header.length)),
        AttrFed::Fault(fault) => Ok(Front::Faulty(fault)),
        AttrFed::Memory => Err(Stopped::Memory),
    }
}

/// Takes what is wanting of an attribute of `len` octets that the feed has begun, of which `room`
/// may be looked at.
fn take_value<S: Source>(
    input: &mut S,
    buf: &mut Piece,
    feed: &mut AttrFeed,
    len: u32,
    room: usize,
) -> Result<Front, Stopped>
    requires room { room ≤ INPUT_OCTETS }
    requires begun { IsBegun room len feed.old }
    ensures front { IfOk result (λ first. (rest : List ℕ) → S.left input.old ≡ Some rest
        → TakesFirst room (feed.old.octets ++ rest) (S.left input.new) first) }
    ensures within { IfOk result (λ first. IsWithin room first) }
    ensures cause { HasCause (S.faults input.old) (S.faults input.new) (is_fault result) }
{
    loop {
        let have = feed.have() as usize;
        let wanting = (len as usize).min(room + 1) - have;
        let count = input.read(&mut buf[..wanting.min(PIECE)])?;
        if count == 0 {
            return Ok(Front::Torn(have as u32));
        }
        if room < have + count {
            return Ok(Front::Limit);
        }
        match feed.feed(&buf[..count]) {
            AttrFed::More => {}
            AttrFed::Done(attr, _) => return Ok(Front::Whole(attr, len)),
            AttrFed::Fault(fault) => return Ok(Front::Faulty(fault)),
            AttrFed::Memory => return Err(Stopped::Memory),
        }
    }
}

/// What stands first where the `held` octets that are left are no whole attribute.
fn cut(room: usize, held: usize) -> Front
    requires { held < 2 ^ 32 }
    ensures front { result ≡ cut room held }
{
    if room < held {
        Front::Limit
    } else if held == 0 {
        Front::End
    } else {
        Front::Torn(held as u32)
    }
}
