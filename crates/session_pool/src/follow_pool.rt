//! Mirrors that follow several doors at once.

ghost use Rattle.std.specs.List.{All};
ghost use Rattle.std.specs.Prelude.{◌≡◌, ◌<◌, ◌≤◌, ◌+◌, ◌^◌, [], IsSome, None, Some, false, get_or, length, vec_capacity};
ghost use Rattle.session_door.specs.Following.{IsWithin};
ghost use Rattle.session_door.specs.Visits.{door_state};
ghost use Rattle.session_pool.specs.Followers.{FollowsAll};
ghost use Rattle.session_pool.specs.Rooms.{AreSeated, GiveMirrors, GivesMirror, HasRoom, IsOutcomeOf};
ghost use Rattle.session_pool.specs.Stands.{AreReady, AtEach, FollowsAt};

use crate::at_stand::follow_stand;
use crate::outcome::{Bools, DoorEnds, Outcome};
use crate::stand::Stand;
use session_core::FollowConfig;
use session_door::{Gate, Work};
use std::alloc::Global;
use std::thread::Threads;
use std::{mem, thread};
use validator_core::Mirror;
use wire_base::{Door, Memory};

/// What came of a pool that follows.
#[derive(Debug, Drop)]
pub struct Followed {
    /// What is noted of the sessions of each door.
    pub ends: DoorEnds,
    /// Whether each door failed.
    pub door_failed: Bools,
}

/// Follows each mirror's door, by a worker each, which holds its sessions one after another.
/// `Memory` comes in two cases. There is no room for the outcome: nothing was done. A worker has no
/// room to note one more session: what was done stays.
pub fn follow_all<D: Door + Send, G: Gate + Sync, R: Threads + Sync>(
    alloc: Global,
    rt: &R,
    mirrors: &mut [Mirror],
    doors: &mut [Stand<D>],
    sessions: u32,
    config: &FollowConfig,
    gate: &G,
) -> Result<Followed, Memory>
where
    D::L: Send,
    requires within { IsWithin config.now }
    requires some { 0 < sessions }
    requires many { length mirrors.old ≡ length doors.old }
    requires few { length doors.old < 2 ^ 32 }
    requires ready { AreReady D.out doors.old }
    ensures followed { FollowsAll D.L.taken D.L.given D.L.faults (door_state D.left D.returned D.last D.faults)
        config.now sessions mirrors.old doors.old mirrors.new doors.new result }
    ensures ready { AreReady D.out doors.new }
{
    let mut outcome = Outcome::with_room(alloc, doors.len())?;
    seat(alloc, mirrors, doors);
    follow_stands(alloc, rt, doors, sessions, config, gate);
    clear(mirrors, doors, &mut outcome);
    let (ends, door_failed) = outcome.whole()?;
    Ok(Followed { ends, door_failed })
}

/// Puts each mirror into its stand, and an empty one in its place.
fn seat<D>(alloc: Global, mirrors: &mut [Mirror], doors: &mut [Stand<D>])
    requires many { length mirrors.old ≡ length doors.old }
    ensures many { length mirrors.new ≡ length mirrors.old }
    ensures seated { AreSeated mirrors.old doors.old doors.new }
{
    for place in 0..doors.len() {
        seat_one(alloc, &mut mirrors[place], &mut doors[place]);
    }
}

/// Puts a mirror into a stand, and an empty one in its place.
fn seat_one<D>(alloc: Global, mirror: &mut Mirror, stand: &mut Stand<D>)
    ensures seated { stand.new ≡ record stand.old { mirror = Some mirror.old } }
{
    let empty = Mirror::new(alloc, mirror.kind());
    stand.mirror = Some(mem::replace(mirror, empty));
}

/// Follows at each stand, in a thread each where one can be made.
fn follow_stands<D: Door + Send, G: Gate + Sync, R: Threads + Sync>(
    alloc: Global,
    rt: &R,
    doors: &mut [Stand<D>],
    sessions: u32,
    config: &FollowConfig,
    gate: &G,
)
where
    D::L: Send,
    requires within { IsWithin config.now }
    requires some { 0 < sessions }
    requires few { length doors.old < 2 ^ 32 }
    requires home { All (λ stand. D.out stand.door ≡ false) doors.old }
    requires mirrors { All (λ stand. IsSome stand.mirror) doors.old }
    ensures follows { AtEach (FollowsAt D.L.taken D.L.given D.L.faults (door_state D.left D.returned D.last D.faults) D.out config.now sessions) doors.old doors.new }
{
    // At least one is asked for, also for no doors.
    let threads = doors.len().max(1);
    thread::for_each_mut(
        rt,
        doors,
        threads,
        &|place: usize, stand: &mut Stand<D>|
            requires { (place + 1 < 2 ^ 32) × IsWithin config.now × (0 < sessions) × (D.out stand.old.door ≡ false) × IsSome stand.old.mirror }
            ensures { FollowsAt D.L.taken D.L.given D.L.faults (door_state D.left D.returned D.last D.faults) D.out config.entry.now sessions stand.old stand.new }
        { follow_stand(alloc, stand, place as u32 + 1, sessions, gate, config) },
    );
}

/// Takes the mirrors out of the stands, and what came of their workers.
fn clear<D>(mirrors: &mut [Mirror], doors: &mut [Stand<D>], outcome: &mut Outcome)
    requires many { length mirrors.old ≡ length doors.old }
    requires mirrors { All (λ stand. IsSome stand.mirror) doors.old }
    requires works { All (λ stand. IsSome stand.work) doors.old }
    requires none { IsOutcomeOf [] outcome.old }
    requires room { HasRoom (length doors.old) outcome.old }
    ensures gives { GiveMirrors doors.old mirrors.new doors.new outcome.new }
    ensures many { length mirrors.new ≡ length mirrors.old }
{
    for place in 0..doors.len() {
        let work = clear_one(&mut mirrors[place], &mut doors[place]);
        outcome.add(work);
    }
}

/// Takes the mirror out of a stand, and what came of its worker.
fn clear_one<D>(mirror: &mut Mirror, stand: &mut Stand<D>) -> Work
    requires mirror { IsSome stand.old.mirror }
    requires work { IsSome stand.old.work }
    ensures gives { GivesMirror stand.old mirror.new stand.new result }
{
    *mirror = stand.take_mirror();
    stand.take_work()
}
