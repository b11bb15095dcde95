//! The validator's end of a session with a new mirror.

ghost use Rattle.std.specs.Prelude.{◌<◌};

use crate::noted::{Cut, Run, push_counts, push_turn};
use crate::settings::{Following, following_of};
use conformance_inventory::mirror::{state_text, taken_text};
use conformance_words::{digits_of, octets_of, push_text};
use session_rules::SessionRecord;
use std::alloc::Global;
use swima_model::Kind;
use validator_core::Mirror;
use validator_session::FollowCore;

/// The most octets of a piece.
const MOST: usize = 1 << 16;

/// `validator SETTINGS TURN TURN ..`: what a validator writes before the first turn and at each,
/// how its session stands then, what is noted of it, and its mirror then.
///
/// A turn is octets, `idle`, or `end`, at which the link ends. Octets in pieces of 1, 2 and 3 have
/// to give the same, except that octets after the last batch of a session are not taken then.
pub fn validator(alloc: Global, words: &str) -> Option<String> {
    let (settings, turns) = words.split_once(' ')?;
    let following = following_of(settings)?;
    let (mut text, received) = session(alloc, following, turns, MOST)?;
    for size in 1..4 {
        let (again, _) = session(alloc, following, turns, size)?;
        if again.as_str() != text.as_str() {
            return format!(in alloc; "{text}, and {again} in pieces of {size}").ok();
        }
    }
    push_text(&mut text, format!(in alloc; "; received {received}").ok())?;
    Some(text)
}

/// What comes of a session in pieces of the size, and how many octets were taken.
fn session(alloc: Global, following: Following, turns: &str, size: usize) -> Option<(String, u64)>
    requires some { 0 < size }
{
    let mut mirror = mirror_of(alloc, following);
    session_with(alloc, &mut mirror, following, turns, size)
}

/// The same with the mirror.
fn session_with(
    alloc: Global,
    mirror: &mut Mirror,
    following: Following,
    turns: &str,
    size: usize,
) -> Option<(String, u64)>
    requires some { 0 < size }
{
    let mut core = core_of(alloc, following)?;
    played(alloc, mirror, &mut core, turns, size)
}

/// A new mirror.
fn mirror_of(alloc: Global, following: Following) -> Mirror {
    let kind = if following.full {
        Kind::Full
    } else {
        Kind::Ids
    };
    Mirror::new(alloc, kind)
}

/// A validator at the start of a session.
fn core_of(alloc: Global, following: Following) -> Option<FollowCore> {
    let config = following.config;
    if config.rounds == 0 || config.idle == 0 || config.octets == 0 {
        return None;
    }
    Some(FollowCore::new(alloc, &config))
}

/// Takes all turns. Gives what comes of them, and how many octets were taken.
fn played(
    alloc: Global,
    mirror: &mut Mirror,
    core: &mut FollowCore,
    turns: &str,
    size: usize,
) -> Option<(String, u64)>
    requires some { 0 < size }
{
    let mut out = String::new(alloc);
    push_written(alloc, &mut out, core)?;
    for turn in turns.split(' ') {
        take(alloc, mirror, core, turn, size)?;
        out.push_str(" ").ok()?;
        push_written(alloc, &mut out, core)?;
    }
    out.push_str("; ").ok()?;
    push_turn(alloc, &mut out, core.hear(alloc, mirror, &[]))?;
    push_noted(alloc, &mut out, core.record())?;
    push_mirror(alloc, &mut out, mirror)?;
    Some((out, core.record().received))
}

/// Takes one turn.
fn take(
    alloc: Global,
    mirror: &mut Mirror,
    core: &mut FollowCore,
    turn: &str,
    size: usize,
) -> Option<()>
    requires some { 0 < size }
{
    match turn {
        "idle" => {
            core.idle(alloc, mirror);
        }
        "end" => {
            core.link_ended();
        }
        digits => hear(alloc, mirror, core, digits, size)?,
    }
    Some(())
}

/// Hears octets in pieces of the size.
fn hear(
    alloc: Global,
    mirror: &mut Mirror,
    core: &mut FollowCore,
    digits: &str,
    size: usize,
) -> Option<()>
    requires some { 0 < size }
{
    let octets = octets_of(alloc, digits)?;
    for piece in octets.chunks(size) {
        core.hear(alloc, mirror, piece);
    }
    Some(())
}

/// Puts the octets that wait at the end of the text. They are given.
fn push_written(alloc: Global, out: &mut String, core: &mut FollowCore) -> Option<()> {
    let waiting = core.waiting();
    let count = waiting.len();
    push_text(out, digits_of(alloc, waiting))?;
    core.carried(count);
    Some(())
}

/// Puts what is noted of a session at the end of the text, except the octets that were taken.
fn push_noted(alloc: Global, out: &mut String, record: &SessionRecord) -> Option<()> {
    let mut separator = "; took ";
    for taken in record.taken.as_slice() {
        out.push_str(separator).ok()?;
        push_text(out, taken_text(alloc, *taken))?;
        separator = ", ";
    }
    push_counts(alloc, out, record)
}

/// Puts the mirror at the end of the text.
fn push_mirror(alloc: Global, out: &mut String, mirror: &Mirror) -> Option<()> {
    out.push_str("; ").ok()?;
    push_text(out, state_text(alloc, mirror))
}

/// `validator_cut SETTINGS HEX`: how the session ends, and how many octets it has written, where
/// the link ends after none of the octets, after one, and so on up to all. Consecutive ends within
/// one batch are one entry.
pub fn cut(alloc: Global, words: &str) -> Option<String> {
    let (settings, digits) = words.split_once(' ')?;
    let following = following_of(settings)?;
    let octets = octets_of(alloc, digits)?;
    let mut out = String::new(alloc);
    let mut run = Run::new(cut_after(alloc, following, &[])?);
    for count in 0..octets.len() {
        let next = cut_after(alloc, following, &octets[..count + 1])?;
        match run.with(next) {
            Some(longer) => run = longer,
            None => {
                run.push(alloc, &mut out)?;
                run = Run::new(next);
            }
        }
    }
    run.push(alloc, &mut out)?;
    Some(out)
}

/// How the session ends where the link ends after the octets.
fn cut_after(alloc: Global, following: Following, octets: &[u8]) -> Option<Cut> {
    let mut mirror = mirror_of(alloc, following);
    cut_after_with(alloc, &mut mirror, following, octets)
}

/// The same with the mirror.
fn cut_after_with(
    alloc: Global,
    mirror: &mut Mirror,
    following: Following,
    octets: &[u8],
) -> Option<Cut> {
    let mut core = core_of(alloc, following)?;
    core.hear(alloc, mirror, octets);
    let end = core.link_ended();
    Some(Cut {
        end,
        sent: core.waiting().len() as u64,
    })
}
