//! A worker at its stand, of either end.

ghost use Rattle.std.specs.Prelude.{◌≡◌, ◌<◌, false, IfSome, IsSome};
ghost use Rattle.session_door.specs.Following as following;
ghost use Rattle.session_door.specs.Serving as serving;
ghost use Rattle.session_door.specs.Visits.{door_state};
ghost use Rattle.session_pool.specs.Stands.{FollowsAt, ServesAt};

use crate::config::PoolConfig;
use crate::stand::Stand;
use book_lock::Shelf;
use session_core::FollowConfig;
use session_door::{Gate, follow_door, serve_door};
use std::alloc::Global;
use std::sync::Wait;
use wire_base::Door;

/// Serves the links of a stand's door, with the pass in the stand.
pub(crate) fn serve_stand<D: Door, G: Gate, R: Wait>(
    alloc: Global,
    wait: &R,
    shelf: &Shelf,
    stand: &mut Stand<D>,
    worker: u32,
    gate: &G,
    config: &PoolConfig,
)
    requires within { serving.IsWithin config.now.serve }
    requires some { 0 < config.now.sessions }
    requires home { D.out stand.old.door ≡ false }
    requires pass { IsSome stand.old.pass }
    requires here { IfSome stand.old.pass (λ pass. pass.shelf ≡ shelf.now) }
    ensures serves { ServesAt D.L.taken D.L.given D.L.faults (door_state D.left D.returned D.last D.faults) D.out
        config.now.serve config.now.sessions stand.old stand.new }
{
    let pass = stand.take_pass();
    let door = &mut stand.door;
    let (pass, work) = serve_door(
        alloc,
        wait,
        shelf,
        pass,
        door,
        worker,
        config.sessions,
        gate,
        &config.serve,
    );
    stand.pass = Some(pass);
    stand.work = Some(work);
}

/// Follows the links of a stand's door, with the mirror in the stand.
pub(crate) fn follow_stand<D: Door, G: Gate>(
    alloc: Global,
    stand: &mut Stand<D>,
    worker: u32,
    sessions: u32,
    gate: &G,
    config: &FollowConfig,
)
    requires within { following.IsWithin config.now }
    requires some { 0 < sessions }
    requires home { D.out stand.old.door ≡ false }
    requires mirror { IsSome stand.old.mirror }
    ensures follows { FollowsAt D.L.taken D.L.given D.L.faults (door_state D.left D.returned D.last D.faults) D.out
        config.now sessions stand.old stand.new }
{
    let mut mirror = stand.take_mirror();
    let door = &mut stand.door;
    let work = follow_door(alloc, &mut mirror, door, worker, sessions, gate, config);
    stand.mirror = Some(mirror);
    stand.work = Some(work);
}
