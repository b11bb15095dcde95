//! What a collector does at an idle turn (RFC 8412, section 3.8.5).

ghost use Rattle.std.specs.Prelude.{◌≡◌, ◌≢◌, ◌<◌, [], None, Some, IsTrue, OnOk, true};
ghost use Rattle.collector_session.specs.Looking.{is_decided};
ghost use Rattle.collector_session.specs.Standing.{notes_of, stand_of};
ghost use Rattle.pb_batch.specs.declared.kind.BatchKind.TheVariants as kinds;
ghost use Rattle.pb_machine.specs.Table.{may_send};
ghost use Rattle.pb_machine.specs.declared.machine.Role.TheVariants.{Client};
ghost use Rattle.pb_machine.specs.declared.machine.State.TheVariants.{Decided, End};
ghost use Rattle.session_rules.specs.Clauses.{Spoken, Talked, Talks};
ghost use Rattle.session_rules.specs.Questions.{at_places};
ghost use Rattle.session_rules.specs.ServeRules.{idles, looks, looks_from, rests, retries_if};
ghost use Rattle.session_rules.specs.declared.end.SessionEnd.TheVariants as end;
ghost use Rattle.session_talk.specs.Course.{Gives};

use crate::rules::write;
use crate::standing::Standing;
use collector_core::Desk;
use pb_batch::BatchKind::Cretry;
use pb_machine::State;
use session_rules::{ServeConfig, SessionEnd};
use std::alloc::Global;
use swima_subs::{Subs, Waiting};
use wire_base::{List, Memory, Octets};

/// An idle turn, with that many since the last octet. The last that is allowed ends the session.
pub(crate) fn rest<D: Desk>(
    alloc: Global,
    desk: &mut D,
    config: &ServeConfig,
    standing: &mut Standing,
    out: &mut Octets,
    turns: u32,
) -> Result<(), Memory>
    requires client { standing.old.machine.role ≡ Client }
    requires live { standing.old.machine.state ≢ End }
    ensures talked { Talked D.stands D.went desk.old desk.new out.old out.new (notes_of standing.old.record)
        (idles config.now (stand_of standing.old) turns) (stand_of standing.new) (notes_of standing.new.record) result }
    ensures client { standing.new.machine.role ≡ Client }
    ensures live { OnOk result (standing.new.over ≡ None → standing.new.machine.state ≢ End) }
    ensures patient { OnOk result (standing.new.over ≡ None → turns < config.now.idle) }
    ensures sent { standing.new.record.sent ≡ standing.old.record.sent }
    ensures received { standing.new.record.received ≡ standing.old.record.received }
    ensures taken { standing.new.record.taken ≡ standing.old.record.taken }
    ensures own { standing.old.over ≢ Some end.LinkFault → standing.new.over ≢ Some end.LinkFault }
{
    if config.idle <= turns {
        standing.over = Some(SessionEnd::IdleOut { turns });
        return Ok(());
    }
    look(alloc, desk, standing, out)
}

/// Looks at the subscriptions, in the state Decided.
fn look<D: Desk>(
    alloc: Global,
    desk: &mut D,
    standing: &mut Standing,
    out: &mut Octets,
) -> Result<(), Memory>
    requires client { standing.old.machine.role ≡ Client }
    requires live { standing.old.machine.state ≢ End }
    ensures talked { Talked D.stands D.went desk.old desk.new out.old out.new (notes_of standing.old.record)
        (rests (stand_of standing.old) standing.old.machine.state) (stand_of standing.new) (notes_of standing.new.record) result }
    ensures client { standing.new.machine.role ≡ Client }
    ensures live { OnOk result (standing.new.machine.state ≢ End) }
    ensures sent { standing.new.record.sent ≡ standing.old.record.sent }
    ensures received { standing.new.record.received ≡ standing.old.record.received }
    ensures taken { standing.new.record.taken ≡ standing.old.record.taken }
    ensures own { standing.old.over ≢ Some end.LinkFault → standing.new.over ≢ Some end.LinkFault }
{
    if !is_decided(standing.machine.state()) {
        return Ok(());
    }
    if !has_one_moved(desk, &standing.subs) {
        return Ok(());
    }
    retry(alloc, standing, out)
}

/// Whether the machine is in the state Decided.
fn is_decided(state: State) -> bool
    ensures decided { result ≡ is_decided state }
{
    match state {
        State::Decided => true,
        State::Init => false,
        State::ServerWorking => false,
        State::ClientWorking => false,
        State::End => false,
    }
}

/// Whether some subscription has moved. The desk is asked of them in order, until one has.
fn has_one_moved<D: Desk>(desk: &mut D, subs: &Subs) -> bool
    ensures looked { Talks D.stands D.went desk.old desk.new [] [] (λ chronicle places out. Gives (at_places chronicle) (looks subs.now) places out result) }
{
    for held in subs.as_slice() {
        if has_moved(desk, held) {
            return true;
        }
    }
    false
}

/// Whether something has changed since a subscription was fulfilled.
fn has_moved<D: Desk>(desk: &mut D, held: &Waiting) -> bool
    ensures looked { Talks D.stands D.went desk.old desk.new [] [] (λ chronicle places out. Gives (at_places chronicle) (looks_from held.now.request held.now.place) places out result) }
{
    match held.place {
        None => false,
        Some(since) => desk.moved(since, &held.request.targets),
    }
}

/// Writes an empty CRETRY.
fn retry(alloc: Global, standing: &mut Standing, out: &mut Octets) -> Result<(), Memory>
    requires may { IsTrue (may_send standing.old.machine kinds.Cretry) }
    requires client { standing.old.machine.role ≡ Client }
    ensures spoken { Spoken out.old out.new (notes_of standing.old.record) (retries_if (stand_of standing.old) true)
        (stand_of standing.new) (notes_of standing.new.record) result }
    ensures client { standing.new.machine.role ≡ Client }
    ensures live { OnOk result (standing.new.machine.state ≢ End) }
    ensures sent { standing.new.record.sent ≡ standing.old.record.sent }
    ensures received { standing.new.record.received ≡ standing.old.record.received }
    ensures taken { standing.new.record.taken ≡ standing.old.record.taken }
    ensures own { standing.old.over ≢ Some end.LinkFault → standing.new.over ≢ Some end.LinkFault }
{
    write(alloc, &mut standing.machine, out, Cretry, List::new(alloc))
}
