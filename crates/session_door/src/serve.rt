//! A worker that serves the links of its door.

ghost use Rattle.std.specs.Prelude.{◌≡◌, ◌<◌, false};
ghost use Rattle.session_door.specs.Serving.{IsWithin, Serves};
ghost use Rattle.session_door.specs.Visits.{door_state};

use crate::door::work_door;
use crate::gate::Gate;
use crate::session::Session;
use crate::work::Work;
use book_lock::{Pass, Shelf};
use collector_core::Desk;
use session_core::{ServeConfig, SessionEnd, SessionRecord, serve_session};
use std::alloc::Global;
use std::sync::Wait;
use wire_base::{Door, Link};

impl<K: Desk, L: Link> Session<K, L> for ServeConfig {
    ghost use Rattle.session_core.specs.Served.{Served};
    ghost use Rattle.session_door.specs.Serving.{IsWithin};

    ghost sound = { IsWithin };

    ghost held = { λ c before after came went noted by.
        Served K.stands K.went c before after (L.taken came) (L.taken went) (L.given came) (L.given went) noted by };

    fn hold(&self, alloc: Global, desk: &mut K, link: &mut L) -> (SessionRecord, SessionEnd) {
        serve_session(alloc, desk, link, self)
    }
}

/// Serves the links of a door, one after another, over a clerk of the pass, until that many
/// sessions were held, or the door has ended or failed. Gives the pass back, which has seen what
/// its sessions saw, with what is noted of them. Workers are numbered from 1.
pub fn serve_door<D: Door, G: Gate, R: Wait>(
    alloc: Global,
    wait: &R,
    shelf: &Shelf,
    pass: Pass,
    door: &mut D,
    worker: u32,
    sessions: u32,
    gate: &G,
    config: &ServeConfig,
) -> (Pass, Work)
    requires within { IsWithin config.now }
    requires some { 0 < sessions }
    requires here { pass.shelf ≡ shelf.now }
    requires home { D.out door.old ≡ false }
    ensures served { Serves D.L.taken D.L.given D.L.faults config.now sessions pass (door_state D.left D.returned D.last D.faults door.old)
        result.0 (door_state D.left D.returned D.last D.faults door.new) result.1 }
    ensures home { D.out door.new ≡ false }
{
    let mut clerk = shelf.clerk(wait, pass);
    let work = work_door(alloc, config, &mut clerk, door, worker, sessions, gate);
    (clerk.done(), work)
}
