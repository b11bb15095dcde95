//! The rules of a validator, which is the server of PB-TNC (RFC 5793, section 3.2): one function
//! for each, for batches and for idle turns.

ghost use Rattle.std.specs.Prelude.{◌≡◌, ◌<◌, OnOk, false, is_some};
ghost use Rattle.pb_batch.specs.Written.{IsBatch};
ghost use Rattle.pb_machine.specs.declared.machine.Role.TheVariants as role;
ghost use Rattle.pb_machine.specs.declared.machine.State.TheVariants as state;
ghost use Rattle.session_rules.specs.FollowRules.{hears, idles, judged, obeys, rests, retries};
ghost use Rattle.validator_session.specs.Drafting.{Goes};
ghost use Rattle.validator_session.specs.Noting.{IsNoted};
ghost use Rattle.validator_session.specs.Ready.{CanGoOn, MayFollow};
ghost use Rattle.validator_session.specs.Standing.{stand_of};

use crate::answering::{answer_data, answer_retry};
use crate::standing::Standing;
use crate::take::Draft;
use crate::writing::{refuse, write_request};
use pb_batch::Batch;
use pb_batch::BatchKind::{Cdata, Close, Cretry, Outcome, Sdata, Sretry};
use pb_machine::State;
use session_rules::{FollowConfig, SessionEnd, Verdict};
use session_words::verdict_of;
use std::alloc::Global;
use validator_core::Mirror;
use wire_base::{Memory, Octets};

/// A batch: it goes to the machine first, and then by what the machine says of its kind.
pub(crate) fn hear(
    alloc: Global,
    mirror: &mut Mirror,
    config: &FollowConfig,
    standing: &mut Standing,
    out: &mut Octets,
    batch: &Batch,
) -> Result<(), Memory>
    requires ready { CanGoOn standing.old config.now.rounds }
    requires noted { IsNoted standing.old.notes }
    requires batch { IsBatch batch.now }
    ensures goes { Goes standing.old mirror.old out.old (hears config.now (stand_of standing.old mirror.old) batch.now) standing.new mirror.new out.new result }
    ensures ready { OnOk result (is_some standing.new.over ≡ false → CanGoOn standing.new config.now.rounds) }
    ensures noted { IsNoted standing.new.notes }
    ensures sent { standing.new.notes.record.sent ≡ standing.old.notes.record.sent }
    ensures received { standing.new.notes.record.received ≡ standing.old.notes.record.received }
{
    let heard = standing.machine.receive(batch.kind);
    let verdict = verdict_of(heard, batch);
    follow(alloc, mirror, config, standing, out, batch, verdict)
}

/// A batch that the machine has heard, by its verdict.
fn follow(
    alloc: Global,
    mirror: &mut Mirror,
    config: &FollowConfig,
    standing: &mut Standing,
    out: &mut Octets,
    batch: &Batch,
    verdict: Verdict,
) -> Result<(), Memory>
    requires role { standing.old.machine.role ≡ role.Server }
    requires rounds { standing.old.rounds < config.now.rounds }
    requires follows { MayFollow verdict standing.old.machine }
    requires noted { IsNoted standing.old.notes }
    requires batch { IsBatch batch.now }
    ensures goes { Goes standing.old mirror.old out.old (judged config.now (stand_of standing.old mirror.old) batch.now verdict) standing.new mirror.new out.new result }
    ensures ready { OnOk result (is_some standing.new.over ≡ false → CanGoOn standing.new config.now.rounds) }
    ensures noted { IsNoted standing.new.notes }
    ensures sent { standing.new.notes.record.sent ≡ standing.old.notes.record.sent }
    ensures received { standing.new.notes.record.received ≡ standing.old.notes.record.received }
{
    match verdict {
        Verdict::PassesOver => Ok(()),
        Verdict::Refuses(fault) => refuse(alloc, standing, out, fault),
        Verdict::EndsBy(by) => {
            standing.over = Some(by);
            Ok(())
        }
        Verdict::GoesOn => obey(alloc, mirror, config, standing, out, batch),
    }
}

/// A batch that the machine goes on with.
fn obey(
    alloc: Global,
    mirror: &mut Mirror,
    config: &FollowConfig,
    standing: &mut Standing,
    out: &mut Octets,
    batch: &Batch,
) -> Result<(), Memory>
    requires ready { CanGoOn standing.old config.now.rounds }
    requires working { standing.old.machine.state ≡ state.ServerWorking }
    requires noted { IsNoted standing.old.notes }
    requires batch { IsBatch batch.now }
    ensures goes { Goes standing.old mirror.old out.old (obeys config.now (stand_of standing.old mirror.old) batch.now.kind batch.now.messages) standing.new mirror.new out.new result }
    ensures ready { OnOk result (is_some standing.new.over ≡ false → CanGoOn standing.new config.now.rounds) }
    ensures noted { IsNoted standing.new.notes }
    ensures sent { standing.new.notes.record.sent ≡ standing.old.notes.record.sent }
    ensures received { standing.new.notes.record.received ≡ standing.old.notes.record.received }
{
    match batch.kind {
        Cdata => answer_data(alloc, mirror, config, standing, out, &batch.messages),
        Cretry => answer_retry(alloc, mirror, config, standing, out, &batch.messages),
        Sdata => Ok(()),
        Outcome => Ok(()),
        Sretry => Ok(()),
        Close => Ok(()),
    }
}

/// An idle turn. In Decided it begins a round by an SRETRY with a request, unless it has
/// subscribed.
pub(crate) fn idle(
    alloc: Global,
    mirror: &Mirror,
    config: &FollowConfig,
    standing: &mut Standing,
    out: &mut Octets,
    turns: u32,
) -> Result<(), Memory>
    requires ready { CanGoOn standing.old config.now.rounds }
    requires noted { IsNoted standing.old.notes }
    ensures goes { Goes standing.old mirror.now out.old (idles config.now (stand_of standing.old mirror.now) turns) standing.new mirror.now out.new result }
    ensures ready { OnOk result (is_some standing.new.over ≡ false → CanGoOn standing.new config.now.rounds) }
    ensures calm { OnOk result (is_some standing.new.over ≡ false → turns < config.now.idle) }
    ensures noted { IsNoted standing.new.notes }
    ensures sent { standing.new.notes.record.sent ≡ standing.old.notes.record.sent }
    ensures received { standing.new.notes.record.received ≡ standing.old.notes.record.received }
{
    if config.idle <= turns {
        standing.over = Some(SessionEnd::IdleOut { turns });
        return Ok(());
    }
    rest(alloc, mirror, config, standing, out)
}

/// An idle turn that does not end the session.
fn rest(
    alloc: Global,
    mirror: &Mirror,
    config: &FollowConfig,
    standing: &mut Standing,
    out: &mut Octets,
) -> Result<(), Memory>
    requires ready { CanGoOn standing.old config.now.rounds }
    requires noted { IsNoted standing.old.notes }
    ensures goes { Goes standing.old mirror.now out.old (rests config.now (stand_of standing.old mirror.now) standing.old.machine.state) standing.new mirror.now out.new result }
    ensures ready { OnOk result (CanGoOn standing.new config.now.rounds) }
    ensures noted { IsNoted standing.new.notes }
    ensures sent { standing.new.notes.record.sent ≡ standing.old.notes.record.sent }
    ensures received { standing.new.notes.record.received ≡ standing.old.notes.record.received }
{
    match standing.machine.state() {
        State::Decided => retry_unless(alloc, mirror, config, standing, out),
        State::Init => Ok(()),
        State::ServerWorking => Ok(()),
        State::ClientWorking => Ok(()),
        State::End => Ok(()),
    }
}

/// In Decided it begins a round, unless it has subscribed.
fn retry_unless(
    alloc: Global,
    mirror: &Mirror,
    config: &FollowConfig,
    standing: &mut Standing,
    out: &mut Octets,
) -> Result<(), Memory>
    requires ready { CanGoOn standing.old config.now.rounds }
    requires decided { standing.old.machine.state ≡ state.Decided }
    requires noted { IsNoted standing.old.notes }
    ensures goes { Goes standing.old mirror.now out.old (rests config.now (stand_of standing.old mirror.now) state.Decided) standing.new mirror.now out.new result }
    ensures ready { OnOk result (CanGoOn standing.new config.now.rounds) }
    ensures noted { IsNoted standing.new.notes }
    ensures sent { standing.new.notes.record.sent ≡ standing.old.notes.record.sent }
    ensures received { standing.new.notes.record.received ≡ standing.old.notes.record.received }
{
    if config.subscribe {
        return Ok(());
    }
    retry(alloc, mirror, config, standing, out)
}

/// Begins a round by an SRETRY with a request.
fn retry(
    alloc: Global,
    mirror: &Mirror,
    config: &FollowConfig,
    standing: &mut Standing,
    out: &mut Octets,
) -> Result<(), Memory>
    requires ready { CanGoOn standing.old config.now.rounds }
    requires decided { standing.old.machine.state ≡ state.Decided }
    requires noted { IsNoted standing.old.notes }
    ensures goes { Goes standing.old mirror.now out.old (retries config.now (stand_of standing.old mirror.now)) standing.new mirror.now out.new result }
    ensures ready { OnOk result (CanGoOn standing.new config.now.rounds) }
    ensures noted { IsNoted standing.new.notes }
    ensures sent { standing.new.notes.record.sent ≡ standing.old.notes.record.sent }
    ensures received { standing.new.notes.record.received ≡ standing.old.notes.record.received }
{
    standing.retried = true;
    let draft = Draft::new(alloc, standing.numbered);
    write_request(alloc, mirror, config, standing, out, Sretry, draft)
}
