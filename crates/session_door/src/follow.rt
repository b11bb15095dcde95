//! A worker that follows the links of its door.

ghost use Rattle.std.specs.Prelude.{◌≡◌, ◌<◌, false};
ghost use Rattle.session_door.specs.Following.{FollowsLinks, IsWithin};
ghost use Rattle.session_door.specs.Visits.{door_state};

use crate::door::work_door;
use crate::gate::Gate;
use crate::session::Session;
use crate::work::Work;
use session_core::{FollowConfig, SessionEnd, SessionRecord, follow_session};
use std::alloc::Global;
use validator_core::Mirror;
use wire_base::{Door, Link};

impl<L: Link> Session<Mirror, L> for FollowConfig {
    ghost use Rattle.session_core.specs.Followed.{Followed};
    ghost use Rattle.session_door.specs.Following.{IsWithin};

    ghost sound = { IsWithin };

    ghost held = { λ c before after came went noted by.
        Followed c before after (L.taken came) (L.taken went) (L.given came) (L.given went) noted by };

    fn hold(
        &self,
        alloc: Global,
        mirror: &mut Mirror,
        link: &mut L,
    ) -> (SessionRecord, SessionEnd) {
        follow_session(alloc, mirror, link, self)
    }
}

/// Follows the links of a door with a mirror, one after another, until that many sessions were
/// held, or the door has ended or failed. Gives what is noted of them. Workers are numbered from 1.
/// A mirror that was right stays right, where each report that it took answers from the history.
pub fn follow_door<D: Door, G: Gate>(
    alloc: Global,
    mirror: &mut Mirror,
    door: &mut D,
    worker: u32,
    sessions: u32,
    gate: &G,
    config: &FollowConfig,
) -> Work
    requires within { IsWithin config.now }
    requires some { 0 < sessions }
    requires home { D.out door.old ≡ false }
    ensures followed { FollowsLinks D.L.taken D.L.given D.L.faults config.now sessions mirror.old (door_state D.left D.returned D.last D.faults door.old)
        mirror.new (door_state D.left D.returned D.last D.faults door.new) result }
    ensures home { D.out door.new ≡ false }
{
    work_door(alloc, config, mirror, door, worker, sessions, gate)
}
