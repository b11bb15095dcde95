//! How a collector stands in a session.

ghost use Rattle.std.specs.Prelude.{◌≡◌};
ghost use Rattle.collector_session.specs.Standing.{not_begun};

use pb_machine::Machine;
use session_rules::{SessionEnd, SessionRecord};
use std::alloc::Global;
use swima_subs::Subs;

/// How a collector stands.
#[derive(Debug, Drop)]
pub(crate) struct Standing {
    /// Its state machine.
    pub(crate) machine: Machine,
    /// The subscriptions.
    pub(crate) subs: Subs,
    /// The number of the last PA-TNC message.
    pub(crate) numbered: u32,
    /// What is noted of the session.
    pub(crate) record: SessionRecord,
    /// How the session ended, if it has.
    pub(crate) over: Option<SessionEnd>,
}

impl Standing {
    /// Before the session. It takes no memory.
    pub(crate) fn new(alloc: Global) -> Self
        ensures made { result ≡ not_begun }
    {
        Standing {
            machine: Machine::client(),
            subs: Subs::new(alloc),
            numbered: 0,
            record: SessionRecord::new(alloc),
            over: None,
        }
    }
}
