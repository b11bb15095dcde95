//! A session of a validator over a link.

ghost use Rattle.std.specs.Prelude.{◌<◌};
ghost use Rattle.session_core.specs.Driving.{is_link_fault};
ghost use Rattle.session_core.specs.Followed.{Followed};
ghost use Rattle.wire_base.specs.Outside.{HasCause};

use crate::drive::drive;
use session_rules::{FollowConfig, SessionEnd, SessionRecord};
use std::alloc::Global;
use validator_core::Mirror;
use validator_session::FollowCore;
use wire_base::{Failed, Link};

/// Follows one session on a link: asks the other end and lets the mirror take its reports, until
/// one of the ends of `SessionEnd`. Gives what is noted of the session, and how it ended.
pub fn follow_session<L: Link>(
    alloc: Global,
    mirror: &mut Mirror,
    link: &mut L,
    config: &FollowConfig,
) -> (SessionRecord, SessionEnd)
    requires rounds { 0 < config.now.rounds }
    requires idle { 0 < config.now.idle }
    requires octets { 0 < config.now.octets }
    ensures followed { Followed config.now mirror.old mirror.new (L.taken link.old) (L.taken link.new) (L.given link.old) (L.given link.new) result.0 result.1 }
    ensures cause { HasCause (L.faults link.old) (L.faults link.new) (is_link_fault result.1) }
{
    let mut core = FollowCore::new(alloc, config);
    match drive(alloc, &mut core, mirror, link) {
        Ok(by) => (core.into_record(), by),
        Err(Failed) => (core.into_record(), SessionEnd::LinkFault),
    }
}
