//! A session of a collector over a link.

ghost use Rattle.std.specs.Prelude.{◌<◌, ◌≤◌};
ghost use Rattle.session_core.specs.Driving.{is_link_fault};
ghost use Rattle.session_core.specs.Served.{Served};
ghost use Rattle.wire_base.specs.Outside.{HasCause};

use crate::drive::drive;
use collector_core::Desk;
use collector_session::ServeCore;
use session_rules::{ServeConfig, SessionEnd, SessionRecord};
use std::alloc::Global;
use wire_base::{Failed, Link};

/// Serves one session on a link: answers requests of the other end by the desk, until one of the
/// ends of `SessionEnd`. Gives what is noted of the session, and how it ended.
pub fn serve_session<D: Desk, L: Link>(
    alloc: Global,
    desk: &mut D,
    link: &mut L,
    config: &ServeConfig,
) -> (SessionRecord, SessionEnd)
    requires max { config.now.max ≤ 16000000 }
    requires idle { 0 < config.now.idle }
    requires octets { 0 < config.now.octets }
    ensures served { Served D.stands D.went config.now desk.old desk.new (L.taken link.old) (L.taken link.new) (L.given link.old) (L.given link.new) result.0 result.1 }
    ensures cause { HasCause (L.faults link.old) (L.faults link.new) (is_link_fault result.1) }
{
    let Ok(mut core) = ServeCore::new(alloc, config) else {
        return (SessionRecord::new(alloc), SessionEnd::Memory);
    };
    match drive(alloc, &mut core, desk, link) {
        Ok(by) => (core.into_record(), by),
        Err(Failed) => (core.into_record(), SessionEnd::LinkFault),
    }
}
