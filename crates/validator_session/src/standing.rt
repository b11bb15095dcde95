//! How a validator stands in a session.

ghost use Rattle.std.specs.Prelude.{◌≡◌, None};
ghost use Rattle.pb_machine.specs.declared.machine.Role.TheVariants as role;
ghost use Rattle.pb_machine.specs.declared.machine.State.TheVariants as state;
ghost use Rattle.session_rules.specs.Following.{begin};
ghost use Rattle.validator_core.specs.Held.{Held};
ghost use Rattle.validator_session.specs.Noting.{IsNoted};
ghost use Rattle.validator_session.specs.Standing.{stand_of};

use crate::notes::Notes;
use pb_machine::Machine;
use session_rules::SessionEnd;
use std::alloc::Global;
use swima_model::Point;

/// The latest requests of the round.
#[derive(Clone, Copy, Debug)]
pub(crate) struct Tries {
    /// The mirror's point at each of them.
    pub(crate) point: Option<Point>,
    /// How many there were, at most three.
    pub(crate) count: u32,
}

/// How a validator stands.
#[derive(Debug, Drop)]
pub(crate) struct Standing {
    /// Its state machine.
    pub(crate) machine: Machine,
    /// The number of the last PA-TNC message.
    pub(crate) numbered: u32,
    /// How many requests it has made.
    pub(crate) asked: u32,
    /// The latest requests of the round.
    pub(crate) tries: Option<Tries>,
    /// Whether it wrote an SRETRY since the last CDATA that it heard.
    pub(crate) retried: bool,
    /// How many rounds have ended.
    pub(crate) rounds: u32,
    /// What is noted of the session.
    pub(crate) notes: Notes,
    /// How the session ended, if it has.
    pub(crate) over: Option<SessionEnd>,
}

impl Standing {
    /// Before the session. It takes no memory.
    pub(crate) fn new(alloc: Global) -> Self
        ensures begins { (mirror : Held) → stand_of result mirror ≡ begin mirror }
        ensures machine { result.machine ≡ record { role = role.Server; state = state.Init } }
        ensures rounds { result.rounds ≡ 0 }
        ensures over { result.over ≡ None }
        ensures noted { IsNoted result.notes }
        ensures sent { result.notes.record.sent ≡ 0 }
        ensures received { result.notes.record.received ≡ 0 }
    {
        Standing {
            machine: Machine::server(),
            numbered: 0,
            asked: 0,
            tries: None,
            retried: false,
            rounds: 0,
            notes: Notes::new(alloc),
            over: None,
        }
    }
}
