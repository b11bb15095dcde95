//! A collector as the rules of an end.

ghost use Rattle.std.specs.Prelude.{◌≡◌, ◌≢◌, ◌<◌, ◌∷◌, [], None, OnOk, Some, is_ok};
ghost use Rattle.collector_session.specs.Doing.{Did, IsReady};
ghost use Rattle.session_hear.specs.Step.{Quiet};
ghost use Rattle.session_rules.specs.declared.end.SessionEnd.TheVariants as end;

use crate::look::rest;
use crate::rules;
use crate::standing::Standing;
use collector_core::Desk;
use pb_batch::{Batch, PbFault};
use session_hear::End;
use session_rules::{ServeConfig, SessionEnd, SessionRecord};
use std::alloc::Global;
use wire_base::{Memory, Octets};

/// A collector: how it is configured, how it stands, and what waits to be given.
#[derive(Debug, Drop)]
pub struct ServeEnd {
    /// How it serves.
    pub(crate) config: ServeConfig,
    /// How it stands.
    pub(crate) standing: Standing,
    /// What waits to be given.
    pub(crate) out: Octets,
}

impl<D: Desk> End<D> for ServeEnd {
    ghost use Rattle.std.specs.Prelude.{is_some};
    ghost use Rattle.collector_session.specs.Doing.{Did, IsReady};
    ghost use Rattle.collector_session.specs.DoingLaws.{did_broke, did_none, did_rests, did_stops, did_then};

    ghost did = { Did D.stands D.went };

    ghost over = { λ end. is_some end.standing.over };

    ghost ready = { IsReady };

    ghost none = { did_none D.stands D.went D.stays D.follows D.carries };

    ghost then = { did_then D.stands D.went D.stays D.follows D.carries };

    ghost stops = { did_stops D.stands D.went };

    ghost broke = { did_broke D.stands D.went };

    ghost rests = { did_rests D.stands D.went D.stays D.follows D.carries };

    fn come(&mut self, alloc: Global, beside: &mut D, batch: &Batch) -> Result<(), Memory> {
        rules::hear(
            alloc,
            beside,
            &self.config,
            &mut self.standing,
            &mut self.out,
            batch,
        )
    }

    fn refuse(&mut self, alloc: Global, _beside: &mut D, fault: PbFault) -> Result<(), Memory> {
        rules::refuse(alloc, &mut self.standing, &mut self.out, fault)
    }

    fn is_over(&self) -> bool {
        self.standing.over.is_some()
    }
}

impl ServeEnd {
    /// Ends the session where the last octet was taken that the limit allows.
    pub(crate) fn spend(&mut self)
        ensures over { self.old.standing.over ≢ None → self.new ≡ self.old }
        ensures last { self.old.standing.over ≡ None → self.old.standing.record.received ≡ self.old.config.octets
            → self.new ≡ record self.old { standing = record self.old.standing { over = Some end.Enough } } }
        ensures left { self.old.standing.over ≡ None → self.old.standing.record.received ≢ self.old.config.octets → self.new ≡ self.old }
        ensures config { self.new.config ≡ self.old.config }
        ensures received { self.new.standing.record.received ≡ self.old.standing.record.received }
    {
        if self.standing.over.is_some() {
            return;
        }
        if self.standing.record.received == self.config.octets {
            self.standing.over = Some(SessionEnd::Enough);
        }
    }

    /// An idle turn, with that many since the last octet.
    pub(crate) fn rest<D: Desk>(
        &mut self,
        alloc: Global,
        desk: &mut D,
        turns: u32,
    ) -> Result<(), Memory>
        requires live { self.old.standing.over ≡ None }
        requires ready { IsReady self.old }
        ensures did { Did D.stands D.went self.old desk.old (Quiet turns ∷ []) self.new desk.new (is_ok result) }
        ensures ready { OnOk result (self.new.standing.over ≡ None → IsReady self.new) }
        ensures patient { OnOk result (self.new.standing.over ≡ None → turns < self.old.config.idle) }
        ensures config { self.new.config ≡ self.old.config }
        ensures received { self.new.standing.record.received ≡ self.old.standing.record.received }
        ensures taken { self.new.standing.record.taken ≡ self.old.standing.record.taken }
        ensures own { self.old.standing.over ≢ Some end.LinkFault → self.new.standing.over ≢ Some end.LinkFault }
    {
        rest(
            alloc,
            desk,
            &self.config,
            &mut self.standing,
            &mut self.out,
            turns,
        )
    }

    /// What is noted of the session.
    pub(crate) fn into_record(self) -> SessionRecord
        ensures record { result ≡ self.standing.record }
    {
        let ServeEnd { standing, .. } = self;
        let Standing { record, .. } = standing;
        record
    }
}
