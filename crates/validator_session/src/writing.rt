//! The batches that a validator writes (RFC 5793, section 4.1).

ghost use Rattle.std.specs.Prelude.{◌≡◌, ◌≢◌, ◌++◌, IsTrue, OnErr, OnOk, false, is_some, nat_le, true};
ghost use Rattle.pb_batch.specs.Written.{IsBatch, IsTold, written};
ghost use Rattle.pb_machine.specs.Table.{may_send, sent};
ghost use Rattle.pb_machine.specs.declared.machine.Role.TheVariants as role;
ghost use Rattle.pb_machine.specs.declared.machine.State.TheVariants as state;
ghost use Rattle.session_rules.specs.FollowRules.{closes_if, decides, refuses, writes_request};
ghost use Rattle.session_rules.specs.Messages.{server_batch};
ghost use Rattle.validator_core.specs.Held.{Held};
ghost use Rattle.validator_session.specs.Drafting.{Goes, with_codes, writes};
ghost use Rattle.validator_session.specs.Noting.{IsNoted};
ghost use Rattle.validator_session.specs.Ready.{CanGoOn};
ghost use Rattle.validator_session.specs.Sizes.{Fits};
ghost use Rattle.validator_session.specs.Standing.{stand_of};

use crate::asking::{ask, count_request};
use crate::counts::one_more;
use crate::standing::Standing;
use crate::take::Draft;
use pb_batch::BatchKind::{Close, Outcome};
use pb_batch::{Batch, BatchKind, Message, Messages, PbFault, fault_batch, write_batch};
use pb_machine::Machine;
use session_rules::{FollowConfig, SessionEnd};
use std::alloc::Global;
use validator_core::Mirror;
use wire_base::{List, Memory, Octets};

/// "Don't know" (RFC 5793, section 4.6).
const DO_NOT_KNOW: u32 = 4;

/// Writes a batch with a request after the answers.
pub(crate) fn write_request(
    alloc: Global,
    mirror: &Mirror,
    config: &FollowConfig,
    standing: &mut Standing,
    out: &mut Octets,
    kind: BatchKind,
    mut draft: Draft,
) -> Result<(), Memory>
    requires may { IsTrue (may_send standing.old.machine kind) }
    requires noted { IsNoted standing.old.notes }
    requires fits { Fits draft.answers }
    ensures goes { Goes standing.old mirror.now out.old (writes_request config.now (with_codes (stand_of standing.old mirror.now) draft.errors) kind draft.answers) standing.new mirror.now out.new result }
    ensures machine { OnOk result (standing.new.machine ≡ sent standing.old.machine kind) }
    ensures rounds { standing.new.rounds ≡ standing.old.rounds }
    ensures noted { IsNoted standing.new.notes }
    ensures sent { standing.new.notes.record.sent ≡ standing.old.notes.record.sent }
    ensures received { standing.new.notes.record.received ≡ standing.old.notes.record.received }
{
    draft.answers.push(ask(alloc, config, mirror, standing)?)?;
    count_request(mirror, standing);
    write_draft(alloc, standing, out, kind, draft)
}

/// A RESULT ends a round; after the last the session is closed at once.
pub(crate) fn decide(
    alloc: Global,
    config: &FollowConfig,
    standing: &mut Standing,
    out: &mut Octets,
    mut draft: Draft,
) -> Result<(), Memory>
    requires ready { CanGoOn standing.old config.now.rounds }
    requires working { standing.old.machine.state ≡ state.ServerWorking }
    requires noted { IsNoted standing.old.notes }
    requires fits { Fits draft.answers }
    ensures goes { (mirror : Held) → Goes standing.old mirror out.old (decides config.now (with_codes (stand_of standing.old mirror) draft.errors) draft.answers) standing.new mirror out.new result }
    ensures ready { OnOk result (is_some standing.new.over ≡ false → CanGoOn standing.new config.now.rounds) }
    ensures noted { IsNoted standing.new.notes }
    ensures sent { standing.new.notes.record.sent ≡ standing.old.notes.record.sent }
    ensures received { standing.new.notes.record.received ≡ standing.old.notes.record.received }
{
    draft.answers.insert(0, Message::Assessment(DO_NOT_KNOW))?;
    write_draft(alloc, standing, out, Outcome, draft)?;
    standing.tries = None;
    standing.rounds = one_more(standing.rounds, config.rounds);
    close_if_last(alloc, config, standing, out)
}

/// Writes what was drafted as a batch of the kind, which may be sent, and then notes the codes of
/// the Errors that were heard.
pub(crate) fn write_draft(
    alloc: Global,
    standing: &mut Standing,
    out: &mut Octets,
    kind: BatchKind,
    draft: Draft,
) -> Result<(), Memory>
    requires may { IsTrue (may_send standing.old.machine kind) }
    requires noted { IsNoted standing.old.notes }
    requires batch { IsBatch (server_batch kind draft.answers) }
    ensures goes { (mirror : Held) → Goes standing.old mirror out.old (writes (with_codes (stand_of standing.old mirror) draft.errors) kind draft.answers) standing.new mirror out.new result }
    ensures machine { OnOk result (standing.new.machine ≡ sent standing.old.machine kind) }
    ensures rounds { standing.new.rounds ≡ standing.old.rounds }
    ensures noted { IsNoted standing.new.notes }
    ensures sent { standing.new.notes.record.sent ≡ standing.old.notes.record.sent }
    ensures received { standing.new.notes.record.received ≡ standing.old.notes.record.received }
{
    write(alloc, &mut standing.machine, out, kind, draft.answers)?;
    standing.notes.record.errors.extend(draft.errors.as_slice())
}

/// After the last round the session is closed at once.
fn close_if_last(
    alloc: Global,
    config: &FollowConfig,
    standing: &mut Standing,
    out: &mut Octets,
) -> Result<(), Memory>
    requires role { standing.old.machine.role ≡ role.Server }
    requires live { standing.old.machine.state ≢ state.End }
    requires noted { IsNoted standing.old.notes }
    ensures goes { (mirror : Held) → Goes standing.old mirror out.old (closes_if (stand_of standing.old mirror) (nat_le config.now.rounds standing.old.rounds)) standing.new mirror out.new result }
    ensures ready { OnOk result (is_some standing.new.over ≡ false → CanGoOn standing.new config.now.rounds) }
    ensures noted { IsNoted standing.new.notes }
    ensures sent { standing.new.notes.record.sent ≡ standing.old.notes.record.sent }
    ensures received { standing.new.notes.record.received ≡ standing.old.notes.record.received }
{
    if standing.rounds < config.rounds {
        return Ok(());
    }
    write(alloc, &mut standing.machine, out, Close, List::new(alloc))?;
    standing.over = Some(SessionEnd::Closed);
    Ok(())
}

/// Writes a batch of the kind, which may be sent.
fn write(
    alloc: Global,
    machine: &mut Machine,
    out: &mut Octets,
    kind: BatchKind,
    messages: Messages,
) -> Result<(), Memory>
    requires may { IsTrue (may_send machine.old kind) }
    requires batch { IsBatch (server_batch kind messages) }
    ensures written { OnOk result (out.new ≡ out.old ++ written (server_batch kind messages)) }
    ensures sent { OnOk result (machine.new ≡ sent machine.old kind) }
    ensures unchanged { OnErr result (out.new ≡ out.old) }
    ensures still { OnErr result (machine.new ≡ machine.old) }
{
    let batch = Batch {
        from_server: true,
        kind,
        messages,
    };
    let octets = write_batch(alloc, &batch)?;
    out.extend(octets.as_slice())?;
    machine.send(kind);
    Ok(())
}

/// A fault is answered by the CLOSE that reports it, and ends the session (RFC 5793, section 4.9).
pub(crate) fn refuse(
    alloc: Global,
    standing: &mut Standing,
    out: &mut Octets,
    fault: PbFault,
) -> Result<(), Memory>
    requires live { standing.old.machine.state ≢ state.End }
    requires told { IsTold fault.code }
    requires noted { IsNoted standing.old.notes }
    ensures goes { (mirror : Held) → Goes standing.old mirror out.old (refuses (stand_of standing.old mirror) fault) standing.new mirror out.new result }
    ensures over { OnOk result (is_some standing.new.over ≡ true) }
    ensures noted { IsNoted standing.new.notes }
    ensures sent { standing.new.notes.record.sent ≡ standing.old.notes.record.sent }
    ensures received { standing.new.notes.record.received ≡ standing.old.notes.record.received }
{
    let octets = fault_batch(alloc, true, &fault)?;
    out.extend(octets.as_slice())?;
    standing.machine.send(Close);
    standing.over = Some(SessionEnd::Refused {
        code: fault.code,
        offset: fault.offset,
    });
    Ok(())
}
