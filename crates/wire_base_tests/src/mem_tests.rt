//! Links, a clock and a door in memory.

ghost use Rattle.std.specs.List.{All};
ghost use Rattle.std.specs.Prelude.{◌≡◌, false, IfOk};

use std::alloc::Global;
use std::test::Fail;
use wire_base::{
    Came, Clock, Door, Failed, Link, LinkTurn, List, MemClock, MemDoor, MemLink, Memory,
    NoFaultLink, Took,
};

/// The turns a, b, idle, c.
fn four_turns(alloc: Global) -> Result<List<LinkTurn>, Memory> {
    let (a, b, c) = (
        LinkTurn::Octet(b'a'),
        LinkTurn::Octet(b'b'),
        LinkTurn::Octet(b'c'),
    );
    List::from_slice(alloc, &[a, b, LinkTurn::Idle, c])
}

/// Whether the next turn of a link is this octet alone.
fn gives_octet<L: Link>(link: &mut L, octet: u8) -> bool {
    let mut buf = [0; 4];
    (link.take(&mut buf) == Took::Bytes(1)) & (buf[0] == octet)
}

/// Whether the next call of `take` answers this, which is no octets.
fn answers<L: Link>(link: &mut L, wanted: Took) -> bool {
    let mut buf = [0; 4];
    link.take(&mut buf) == wanted
}

/// Whether a link that moves one octet in a call gives the four turns, and then its end.
fn gives_four_turns<L: Link>(link: &mut L) -> bool {
    gives_octet(link, b'a')
        && gives_octet(link, b'b')
        && answers(link, Took::Idle)
        && gives_octet(link, b'c')
        && answers(link, Took::Ended)
}

/// Whether a link that never fails gives its turns, and takes all that it is given.
fn never_fails(turns: List<LinkTurn>) -> bool {
    let mut link = NoFaultLink::new(turns, 1);
    (link.most() == 1) & gives_four_turns(&mut link) & (link.give(b"xy") == Ok(2))
}

/// Whether a link whose sixth and eighth call fail gives its turns before, and takes one octet
/// between.
fn fails_twice(mut link: MemLink) -> bool {
    let turns = gives_four_turns(&mut link) & answers(&mut link, Took::Failed);
    let given = (link.give(b"xy") == Ok(1)) & (link.give(b"y") == Err(Failed));
    turns & given & (link.given() == b"x".as_slice()) & (link.faults() == 2)
}

#[test]
fn links_in_memory_give_their_turns(rt: HostRuntime) -> Result<(), Fail> {
    let alloc = rt.alloc();
    let passed = never_fails(four_turns(alloc)?);
    let failed = fails_twice(MemLink::new(alloc, four_turns(alloc)?, 1, 2, &[6, 8])?);
    assert!(rt; passed & failed);
    Ok(())
}

/// Four moments of a clock, with a rest after the second.
fn four_moments(mut clock: MemClock) -> (u64, u64, u64, u64) {
    let first = clock.now();
    let second = clock.now();
    clock.rest();
    (first, second, clock.now(), clock.now())
}

/// Whether a clock gives two moments in turn, and then its last one twice.
fn gives_its_last_moment(alloc: Global) -> Result<bool, Memory> {
    let moments = List::from_slice(alloc, &[5, 3])?;
    Ok(four_moments(MemClock::new(moments, 9)) == (5, 3, 9, 9))
}

#[test]
fn a_clock_gives_its_last_moment_after_the_others(rt: HostRuntime) -> Result<(), Fail> {
    assert!(rt; gives_its_last_moment(rt.alloc())?);
    Ok(())
}

/// What came of a link that was asked for.
#[derive(Clone, Copy, PartialEq, Eq)]
enum Outcome {
    Gave,
    CouldNotGive,
    Ended,
    Failed,
}

/// Takes the next link of a door, gives one octet on it, and hands it back.
fn give_on_next<D: Door>(door: &mut D) -> Outcome
    requires home { D.out door.old ≡ false }
    ensures home { D.out door.new ≡ false }
{
    match door.next() {
        Came::Link(mut link) => {
            let given = link.give(b"x").is_ok();
            door.back(link);
            if given {
                Outcome::Gave
            } else {
                Outcome::CouldNotGive
            }
        }
        Came::Ended => Outcome::Ended,
        Came::Failed => Outcome::Failed,
    }
}

/// A link without turns and with room for one octet, which fails at the calls numbered in
/// `failing`.
fn quiet_link(alloc: Global, failing: &[u64]) -> Result<MemLink, Memory>
    ensures fresh { IfOk result (λ link. link.faults ≡ 0) }
{
    MemLink::new(alloc, List::new(alloc), 1, 1, failing)
}

/// A link that does not fail, and one that fails at its first call.
fn two_links(alloc: Global) -> Result<List<MemLink>, Memory>
    ensures fresh { IfOk result (λ links. All (λ link. link.faults ≡ 0) links) }
{
    let mut links = List::new(alloc);
    links.push(quiet_link(alloc, &[])?)?;
    links.push(quiet_link(alloc, &[1])?)?;
    Ok(links)
}

/// Whether these are the two links, after an octet was given to each of them.
fn are_both(links: &[MemLink]) -> bool {
    match links {
        [one, other] => one.given() == b"x".as_slice() && other.given().is_empty(),
        _ => false,
    }
}

/// Whether a door whose second call fails hands out its links in turn, and has them back.
fn hands_out_in_turn(alloc: Global) -> Result<bool, Memory> {
    let mut door = MemDoor::new(alloc, two_links(alloc)?, &[2])?;
    let first = give_on_next(&mut door);
    let second = give_on_next(&mut door);
    let third = give_on_next(&mut door);
    let fourth = give_on_next(&mut door);
    let before = (first == Outcome::Gave) & (second == Outcome::Failed);
    let after = (third == Outcome::CouldNotGive) & (fourth == Outcome::Ended);
    Ok(before & after & are_both(door.returned()))
}

#[test]
fn a_door_hands_out_its_links_in_turn(rt: HostRuntime) -> Result<(), Fail> {
    assert!(rt; hands_out_in_turn(rt.alloc())?);
    Ok(())
}
