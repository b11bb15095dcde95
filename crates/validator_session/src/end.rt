//! A validator as the rules of an end.

ghost use Rattle.std.specs.Prelude.{◌≡◌, ◌<◌, false, is_some};
ghost use Rattle.validator_session.specs.Doing.{Idled};
ghost use Rattle.validator_session.specs.Noting.{IsNoted};
ghost use Rattle.validator_session.specs.Ready.{CanGoOn};

use crate::standing::Standing;
use crate::{rules, writing};
use pb_batch::{Batch, PbFault};
use session_hear::End;
use session_rules::{FollowConfig, SessionEnd, SessionRecord};
use std::alloc::Global;
use validator_core::Mirror;
use wire_base::{Memory, Octets};

/// A validator: how it is configured, how it stands, and what waits to be given.
#[derive(Debug, Drop)]
pub struct FollowEnd {
    /// How it follows.
    pub(crate) config: FollowConfig,
    /// How it stands.
    pub(crate) standing: Standing,
    /// What waits to be given.
    pub(crate) out: Octets,
}

impl End<Mirror> for FollowEnd {
    ghost use Rattle.std.specs.Prelude.{is_some};
    ghost use Rattle.validator_session.specs.Doing.{Did, IsReady};
    ghost use Rattle.validator_session.specs.DoingLaws.{did_broke, did_none, did_rests, did_stops, did_then};

    ghost did = { Did };

    ghost over = { λ end. is_some end.standing.over };

    ghost ready = { IsReady };

    ghost none = { did_none };

    ghost then = { did_then };

    ghost stops = { did_stops };

    ghost broke = { did_broke };

    ghost rests = { did_rests };

    fn come(&mut self, alloc: Global, beside: &mut Mirror, batch: &Batch) -> Result<(), Memory> {
        rules::hear(
            alloc,
            beside,
            &self.config,
            &mut self.standing,
            &mut self.out,
            batch,
        )
    }

    fn refuse(
        &mut self,
        alloc: Global,
        _beside: &mut Mirror,
        fault: PbFault,
    ) -> Result<(), Memory> {
        writing::refuse(alloc, &mut self.standing, &mut self.out, fault)
    }

    fn is_over(&self) -> bool {
        self.standing.over.is_some()
    }
}

impl FollowEnd {
    /// Does what the rules say to an idle turn. Where memory runs out the session ends.
    pub(crate) fn idle(&mut self, alloc: Global, mirror: &Mirror, turns: u32)
        requires ready { CanGoOn self.old.standing self.old.config.rounds }
        requires noted { IsNoted self.old.standing.notes }
        ensures idled { Idled self.old mirror.now turns self.new }
        ensures config { self.new.config ≡ self.old.config }
        ensures ready { is_some self.new.standing.over ≡ false → CanGoOn self.new.standing self.new.config.rounds }
        ensures calm { is_some self.new.standing.over ≡ false → turns < self.new.config.idle }
        ensures noted { IsNoted self.new.standing.notes }
        ensures sent { self.new.standing.notes.record.sent ≡ self.old.standing.notes.record.sent }
        ensures received { self.new.standing.notes.record.received ≡ self.old.standing.notes.record.received }
    {
        match rules::idle(
            alloc,
            mirror,
            &self.config,
            &mut self.standing,
            &mut self.out,
            turns,
        ) {
            Ok(()) => {}
            Err(Memory) => self.standing.over = Some(SessionEnd::Memory),
        }
    }

    /// What is noted of the session.
    pub(crate) fn into_record(self) -> SessionRecord
        ensures record { result ≡ self.standing.notes.record }
    {
        let FollowEnd { standing, .. } = self;
        let Standing { notes, .. } = standing;
        notes.into_record()
    }
}
