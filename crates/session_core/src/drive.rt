//! The loop over a link, for either end.

ghost use Rattle.std.specs.Prelude.{◌≡◌, ◌≢◌, ◌<◌, ◌≤◌, [], List, ℕ, Option, None, Some, IfOk, OnErr, OnOk, is_err, false, length, take};
ghost use Rattle.session_core.specs.Driving.{Drives, answer_of, is_memory};
ghost use Rattle.session_rules.specs.declared.end.SessionEnd.TheVariants as end;
ghost use Rattle.wire_base.specs.Outside.{Adds, HasCause};
ghost use Rattle.wire_base.specs.Turns.{Turn as LinkTurn};

use crate::session_core::SessionCore;
use session_rules::{SessionEnd, Turn};
use std::alloc::Global;
use wire_base::{Failed, Link, Took};

/// How many octets one call of a link is asked for at most.
const PIECE: usize = 16_384;

/// Drives a core over a link until the session is over: gives all that waits, then takes once, and
/// so on. What waits at the end is given too, unless memory ran out. `Failed` comes where a call of
/// the link failed.
pub(crate) fn drive<O, C: SessionCore<O>, L: Link>(
    alloc: Global,
    core: &mut C,
    beside: &mut O,
    link: &mut L,
) -> Result<SessionEnd, Failed>
    requires live { C.over core.old ≡ None }
    ensures drives { Drives C.ran core.old beside.old core.new beside.new (L.taken link.old) (L.taken link.new) (L.given link.old) (L.given link.new) }
    ensures over { IfOk result (λ by. C.over core.new ≡ Some by) }
    ensures given { IfOk result (λ by. is_memory by ≡ false → C.waits core.new ≡ []) }
    ensures memory { OnErr result (C.over core.new ≢ Some end.Memory) }
    ensures cause { HasCause (L.faults link.old) (L.faults link.new) (is_err result) }
{
    let mut buf = [0u8; PIECE];
    loop {
        let turn = round(alloc, core, beside, link, &mut buf)?;
        if let Turn::Over(by) = turn {
            return finish(core, link, by);
        }
    }
}

/// Gives all that waits, and takes once.
fn round<O, C: SessionCore<O>, L: Link>(
    alloc: Global,
    core: &mut C,
    beside: &mut O,
    link: &mut L,
    buf: &mut [u8],
) -> Result<Turn, Failed>
    requires live { C.over core.old ≡ None }
    requires some { 0 < length buf.old }
    ensures drives { Drives C.ran core.old beside.old core.new beside.new (L.taken link.old) (L.taken link.new) (L.given link.old) (L.given link.new) }
    ensures turn { IfOk result (λ turn. turn ≡ answer_of (C.over core.new)) }
    ensures less { OnOk result (C.over core.new ≡ None → C.weight core.new < C.weight core.old) }
    ensures live { OnErr result (C.over core.new ≡ None) }
    ensures cause { HasCause (L.faults link.old) (L.faults link.new) (is_err result) }
{
    give_waiting(core, link)?;
    take_turn(alloc, core, beside, link, buf)
}

/// Takes one turn of the link, with no more octets than the limit leaves.
fn take_turn<O, C: SessionCore<O>, L: Link>(
    alloc: Global,
    core: &mut C,
    beside: &mut O,
    link: &mut L,
    buf: &mut [u8],
) -> Result<Turn, Failed>
    requires live { C.over core.old ≡ None }
    requires some { 0 < length buf.old }
    ensures drives { Drives C.ran core.old beside.old core.new beside.new (L.taken link.old) (L.taken link.new) (L.given link.old) (L.given link.new) }
    ensures turn { IfOk result (λ turn. turn ≡ answer_of (C.over core.new)) }
    ensures less { OnOk result (C.over core.new ≡ None → C.weight core.new < C.weight core.old) }
    ensures live { OnErr result (C.over core.new ≡ None) }
    ensures cause { HasCause (L.faults link.old) (L.faults link.new) (is_err result) }
{
    let room = core.allowed(buf.len());
    let piece = &mut buf[..room];
    match link.take(piece) {
        Took::Bytes(count) => Ok(core.hear(alloc, beside, &piece[..count])),
        Took::Idle => Ok(core.idle(alloc, beside)),
        Took::Ended => Ok(Turn::Over(core.link_ended())),
        Took::Failed => Err(Failed),
    }
}

/// Gives what waits at the end of a session, unless memory ran out in it.
fn finish<O, C: SessionCore<O>, L: Link>(
    core: &mut C,
    link: &mut L,
    by: SessionEnd,
) -> Result<SessionEnd, Failed>
    requires over { C.over core.old ≡ Some by }
    ensures drives { (start : C) (begun beside : O) (taken : Option (List LinkTurn)) (given : Option (List ℕ))
        → Drives C.ran start begun core.old beside taken (L.taken link.old) given (L.given link.old)
        → Drives C.ran start begun core.new beside taken (L.taken link.new) given (L.given link.new) }
    ensures over { IfOk result (λ last. C.over core.new ≡ Some last) }
    ensures given { IfOk result (λ last. is_memory last ≡ false → C.waits core.new ≡ []) }
    ensures memory { OnErr result (C.over core.new ≢ Some end.Memory) }
    ensures cause { HasCause (L.faults link.old) (L.faults link.new) (is_err result) }
{
    if is_memory(by) {
        return Ok(by);
    }
    give_waiting(core, link)?;
    Ok(by)
}

/// Whether a session ended since memory ran out.
fn is_memory(by: SessionEnd) -> bool
    ensures memory { result ≡ is_memory by }
{
    match by {
        SessionEnd::Memory => true,
        SessionEnd::Closed => false,
        SessionEnd::PeerClosed => false,
        SessionEnd::PeerError { .. } => false,
        SessionEnd::Refused { .. } => false,
        SessionEnd::Ended => false,
        SessionEnd::Torn { .. } => false,
        SessionEnd::LinkFault => false,
        SessionEnd::IdleOut { .. } => false,
        SessionEnd::Enough => false,
    }
}

/// Gives all that waits.
fn give_waiting<O, C: SessionCore<O>, L: Link>(core: &mut C, link: &mut L) -> Result<(), Failed>
    ensures drives { (beside : O) → Drives C.ran core.old beside core.new beside (L.taken link.old) (L.taken link.new) (L.given link.old) (L.given link.new) }
    ensures given { OnOk result (C.waits core.new ≡ []) }
    ensures over { C.over core.new ≡ C.over core.old }
    ensures weight { C.weight core.new ≡ C.weight core.old }
    ensures cause { HasCause (L.faults link.old) (L.faults link.new) (is_err result) }
{
    let mut count = 0;
    let result = give_all(link, core.waiting(), &mut count);
    core.carried(count);
    result
}

/// Gives a text, and counts the octets of it that were given: all of them, unless a call of the
/// link failed.
fn give_all<L: Link>(link: &mut L, text: &[u8], count: &mut usize) -> Result<(), Failed>
    requires none { count.old ≡ 0 }
    ensures within { count.new ≤ length text.now }
    ensures whole { OnOk result (count.new ≡ length text.now) }
    ensures gave { Adds (L.given link.old) (L.given link.new) (take count.new text.now) }
    ensures taken { L.taken link.new ≡ L.taken link.old }
    ensures cause { HasCause (L.faults link.old) (L.faults link.new) (is_err result) }
{
    while *count < text.len() {
        let more = link.give(&text[*count..])?;
        *count += more;
    }
    Ok(())
}
