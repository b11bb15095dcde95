//! Whole sessions over a link in memory, some of whose calls fail.

ghost use Rattle.std.specs.Prelude.{◌<◌};

use crate::noted::push_turn;
use crate::settings::{following_of, serving_of};
use collector_core::Book;
use conformance_words::{digits_of, octets_of, push_text, word_list};
use session_core::{FollowConfig, ServeConfig, SessionEnd, Turn, follow_session, serve_session};
use std::alloc::Global;
use swima_model::Kind;
use validator_core::Mirror;
use wire_base::{LinkTurn, List, MemLink};

/// `collector_link SETTINGS PIECE ROOM CALLS TURN TURN ..`: the octets that a collector without
/// software gives on a link, how its session ends, and how many octets were given and taken.
///
/// A call of the link moves at most PIECE octets, ROOM are given at most, and the calls of these
/// numbers fail. A turn is octets or `idle`. After the turns the link ends.
pub fn collector(alloc: Global, words: &str) -> Option<String> {
    let (settings, rest) = words.split_once(' ')?;
    let serving = serving_of(settings)?;
    let mut link = link_of(alloc, rest)?;
    let (end, sent, received) = served(alloc, serving.config, &mut link)?;
    text_of(alloc, &link, end, sent, received)
}

/// How the session of a collector without software ends, and how many octets its record has as
/// given and as taken.
fn served(
    alloc: Global,
    config: ServeConfig,
    link: &mut MemLink,
) -> Option<(SessionEnd, u64, u64)> {
    if config.max > 16_000_000 || config.idle == 0 || config.octets == 0 {
        return None;
    }
    let mut book = Book::new(alloc, 7, 4, &[]).ok()?;
    let (record, end) = serve_session(alloc, &mut book, link, &config);
    Some((end, record.sent, record.received))
}

/// `validator_link SETTINGS PIECE ROOM CALLS TURN TURN ..`: the same of a validator with a new
/// mirror.
pub fn validator(alloc: Global, words: &str) -> Option<String> {
    let (settings, rest) = words.split_once(' ')?;
    let following = following_of(settings)?;
    let mut link = link_of(alloc, rest)?;
    let (end, sent, received) = followed(alloc, following.config, &mut link)?;
    text_of(alloc, &link, end, sent, received)
}

/// The same of a validator with a new mirror.
fn followed(
    alloc: Global,
    config: FollowConfig,
    link: &mut MemLink,
) -> Option<(SessionEnd, u64, u64)> {
    if config.rounds == 0 || config.idle == 0 || config.octets == 0 {
        return None;
    }
    let mut mirror = Mirror::new(alloc, Kind::Ids);
    let (record, end) = follow_session(alloc, &mut mirror, link, &config);
    Some((end, record.sent, record.received))
}

/// The link of the words `PIECE ROOM CALLS TURN TURN ..`.
fn link_of(alloc: Global, words: &str) -> Option<MemLink> {
    let (piece, rest) = words.split_once(' ')?;
    let (room, rest) = rest.split_once(' ')?;
    let (calls, turns) = rest.split_once(' ')?;
    let piece: usize = piece.parse().ok()?;
    let failing = calls_of(alloc, calls)?;
    let turns = turns_of(alloc, turns)?;
    MemLink::new(
        alloc,
        turns,
        piece.max(1),
        room.parse().ok()?,
        failing.as_slice(),
    )
    .ok()
}

/// The numbers of calls between commas; a `-` is none.
fn calls_of(alloc: Global, words: &str) -> Option<Vec<u64>> {
    let mut calls = Vec::new(alloc);
    for word in word_list(alloc, words)?.as_slice() {
        calls.push(word.parse().ok()?).ok()?;
    }
    Some(calls)
}

/// The turns that the words are.
fn turns_of(alloc: Global, words: &str) -> Option<List<LinkTurn>> {
    let mut turns = List::new(alloc);
    for word in words.split(' ') {
        match word {
            "idle" => turns.push(LinkTurn::Idle).ok()?,
            digits => push_octets(&mut turns, octets_of(alloc, digits)?.as_slice())?,
        }
    }
    Some(turns)
}

fn push_octets(turns: &mut List<LinkTurn>, octets: &[u8]) -> Option<()> {
    for octet in octets {
        turns.push(LinkTurn::Octet(*octet)).ok()?;
    }
    Some(())
}

/// The octets that were given, the end, and the numbers.
fn text_of(
    alloc: Global,
    link: &MemLink,
    end: SessionEnd,
    sent: u64,
    received: u64,
) -> Option<String> {
    let mut out = digits_of(alloc, link.given())?;
    out.push_str("; ").ok()?;
    push_turn(alloc, &mut out, Turn::Over(end))?;
    push_text(
        &mut out,
        format!(in alloc; "; sent {sent}; received {received}").ok(),
    )?;
    Some(out)
}
