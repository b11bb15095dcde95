//! A session of either end, as a worker sees it.

ghost use Rattle.session_core.specs.Driving.{is_link_fault};
ghost use Rattle.wire_base.specs.Outside.{HasCause};

use session_core::{SessionEnd, SessionRecord};
use std::alloc::Global;
use wire_base::Link;

/// How the sessions of a worker are held, on any link. `O` is what they ask or change beside: a
/// desk, or a mirror.
pub(crate) trait Session<O, L: Link> {
    ghost use Rattle.session_rules.specs.declared.end.SessionEnd.{SessionEnd as EndValue};
    ghost use Rattle.session_rules.specs.declared.record.SessionRecord.{SessionRecord as RecordValue};

    /// Its numbers are within their limits.
    ghost sound: { Self → Type 0 };

    /// From the one state to the other a session was held on a link: as the link was before and
    /// after, with what is noted of it, and how it ended.
    ghost held: { Self → O → O → L → L → RecordValue → EndValue → Type 0 };

    /// Holds one session.
    fn hold(&self, alloc: Global, beside: &mut O, link: &mut L) -> (SessionRecord, SessionEnd)
        requires sound { sound self.now }
        ensures held { held self.now beside.old beside.new link.old link.new result.0 result.1 }
        ensures cause { HasCause (L.faults link.old) (L.faults link.new) (is_link_fault result.1) };
}
