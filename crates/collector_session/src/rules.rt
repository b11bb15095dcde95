//! The rules of a collector, which is the client of PB-TNC (RFC 5793, section 3.2).

ghost use Rattle.std.specs.Prelude.{◌≡◌, ◌≢◌, ◌≤◌, ◌++◌, [], None, Some, IsTrue, OnErr, OnOk, false};
ghost use Rattle.collector_session.specs.Judging.{MayAnswer, MayFollow};
ghost use Rattle.collector_session.specs.Sizes.{MOST_ROOM};
ghost use Rattle.collector_session.specs.Standing.{Noted, draft_of, notes_of, stand_of};
ghost use Rattle.pb_batch.specs.Written.{IsBatch, IsTold, fault_batch_of, written};
ghost use Rattle.pb_batch.specs.declared.kind.BatchKind.TheVariants as kinds;
ghost use Rattle.pb_machine.specs.Table.{may_send, sent};
ghost use Rattle.pb_machine.specs.declared.machine.Role.TheVariants.{Client};
ghost use Rattle.pb_machine.specs.declared.machine.State.TheVariants.{End};
ghost use Rattle.session_rules.specs.Clauses.{Spoken, Talked};
ghost use Rattle.session_rules.specs.Messages.{client_batch};
ghost use Rattle.session_rules.specs.declared.end.SessionEnd.TheVariants as end;
ghost use Rattle.session_rules.specs.ServeRules.{closes_if, hears, is_enough, judged, obeys, refuses, replies, writes_draft};

use crate::batch::answer_batch;
use crate::draft::Draft;
use crate::standing::Standing;
use collector_core::Desk;
use pb_batch::BatchKind::{Cdata, Close, Cretry, Outcome, Sdata, Sretry};
use pb_batch::{Batch, BatchKind, Messages, PbFault, fault_batch, write_batch};
use pb_machine::Machine;
use session_rules::{Codes, Points, ServeConfig, SessionEnd, SessionRecord, Verdict};
use session_words::verdict_of;
use std::alloc::Global;
use std::mem;
use swima_subs::Subs;
use wire_base::{List, Memory, Octets};

/// A session begins with an empty CDATA.
pub(crate) fn begin(alloc: Global, machine: &mut Machine, out: &mut Octets) -> Result<(), Memory>
    requires may { IsTrue (may_send machine.old kinds.Cdata) }
    ensures written { OnOk result (out.new ≡ out.old ++ written (client_batch kinds.Cdata [])) }
    ensures sent { OnOk result (machine.new ≡ sent machine.old kinds.Cdata) }
    ensures unchanged { OnErr result (out.new ≡ out.old) }
{
    write(alloc, machine, out, Cdata, List::new(alloc))
}

/// A batch: it goes to the machine first, and then by what the machine says of its kind.
pub(crate) fn hear<D: Desk>(
    alloc: Global,
    desk: &mut D,
    config: &ServeConfig,
    standing: &mut Standing,
    out: &mut Octets,
    batch: &Batch,
) -> Result<(), Memory>
    requires client { standing.old.machine.role ≡ Client }
    requires live { standing.old.machine.state ≢ End }
    requires max { config.now.max ≤ MOST_ROOM }
    requires batch { IsBatch batch.now }
    ensures talked { Talked D.stands D.went desk.old desk.new out.old out.new (notes_of standing.old.record)
        (hears config.now (stand_of standing.old) batch.now) (stand_of standing.new) (notes_of standing.new.record) result }
    ensures client { standing.new.machine.role ≡ Client }
    ensures live { OnOk result (standing.new.over ≡ None → standing.new.machine.state ≢ End) }
    ensures sent { standing.new.record.sent ≡ standing.old.record.sent }
    ensures received { standing.new.record.received ≡ standing.old.record.received }
    ensures taken { standing.new.record.taken ≡ standing.old.record.taken }
    ensures own { standing.old.over ≢ Some end.LinkFault → standing.new.over ≢ Some end.LinkFault }
{
    let heard = standing.machine.receive(batch.kind);
    let verdict = verdict_of(heard, batch);
    judge(alloc, desk, config, standing, out, batch, verdict)
}

/// A batch that the machine has heard, by its verdict.
fn judge<D: Desk>(
    alloc: Global,
    desk: &mut D,
    config: &ServeConfig,
    standing: &mut Standing,
    out: &mut Octets,
    batch: &Batch,
    verdict: Verdict,
) -> Result<(), Memory>
    requires client { standing.old.machine.role ≡ Client }
    requires may { MayFollow standing.old.machine batch.now.kind verdict }
    requires max { config.now.max ≤ MOST_ROOM }
    requires batch { IsBatch batch.now }
    ensures talked { Talked D.stands D.went desk.old desk.new out.old out.new (notes_of standing.old.record)
        (judged config.now (stand_of standing.old) batch.now verdict) (stand_of standing.new) (notes_of standing.new.record) result }
    ensures client { standing.new.machine.role ≡ Client }
    ensures live { OnOk result (standing.new.over ≡ None → standing.new.machine.state ≢ End) }
    ensures sent { standing.new.record.sent ≡ standing.old.record.sent }
    ensures received { standing.new.record.received ≡ standing.old.record.received }
    ensures taken { standing.new.record.taken ≡ standing.old.record.taken }
    ensures own { standing.old.over ≢ Some end.LinkFault → standing.new.over ≢ Some end.LinkFault }
{
    match verdict {
        Verdict::PassesOver => Ok(()),
        Verdict::Refuses(fault) => refuse(alloc, standing, out, fault),
        Verdict::EndsBy(by) => {
            standing.over = Some(by);
            Ok(())
        }
        Verdict::GoesOn => obey(alloc, desk, config, standing, out, batch),
    }
}

/// A batch that the machine goes on with, after which it awaits an answer of its kind.
fn obey<D: Desk>(
    alloc: Global,
    desk: &mut D,
    config: &ServeConfig,
    standing: &mut Standing,
    out: &mut Octets,
    batch: &Batch,
) -> Result<(), Memory>
    requires client { standing.old.machine.role ≡ Client }
    requires may { MayAnswer standing.old.machine batch.now.kind }
    requires max { config.now.max ≤ MOST_ROOM }
    requires batch { IsBatch batch.now }
    ensures talked { Talked D.stands D.went desk.old desk.new out.old out.new (notes_of standing.old.record)
        (obeys config.now (stand_of standing.old) batch.now.kind batch.now.messages) (stand_of standing.new) (notes_of standing.new.record) result }
    ensures client { standing.new.machine.role ≡ Client }
    ensures live { OnOk result (standing.new.over ≡ None → standing.new.machine.state ≢ End) }
    ensures sent { standing.new.record.sent ≡ standing.old.record.sent }
    ensures received { standing.new.record.received ≡ standing.old.record.received }
    ensures taken { standing.new.record.taken ≡ standing.old.record.taken }
    ensures own { standing.old.over ≢ Some end.LinkFault → standing.new.over ≢ Some end.LinkFault }
{
    match batch.kind {
        Sdata => reply(alloc, desk, config, standing, out, &batch.messages),
        Sretry => reply(alloc, desk, config, standing, out, &batch.messages),
        Outcome => close_if(alloc, config, standing, out),
        Cdata => Ok(()),
        Cretry => Ok(()),
        Close => Ok(()),
    }
}

/// After SDATA or SRETRY it writes CDATA, with the answers to the messages.
fn reply<D: Desk>(
    alloc: Global,
    desk: &mut D,
    config: &ServeConfig,
    standing: &mut Standing,
    out: &mut Octets,
    messages: &Messages,
) -> Result<(), Memory>
    requires client { standing.old.machine.role ≡ Client }
    requires may { IsTrue (may_send standing.old.machine kinds.Cdata) }
    requires max { config.now.max ≤ MOST_ROOM }
    requires batch { IsBatch (client_batch kinds.Sdata messages.now) }
    ensures talked { Talked D.stands D.went desk.old desk.new out.old out.new (notes_of standing.old.record)
        (replies config.now (stand_of standing.old) messages.now) (stand_of standing.new) (notes_of standing.new.record) result }
    ensures client { standing.new.machine.role ≡ Client }
    ensures live { OnOk result (standing.new.machine.state ≢ End) }
    ensures sent { standing.new.record.sent ≡ standing.old.record.sent }
    ensures received { standing.new.record.received ≡ standing.old.record.received }
    ensures taken { standing.new.record.taken ≡ standing.old.record.taken }
    ensures own { standing.old.over ≢ Some end.LinkFault → standing.new.over ≢ Some end.LinkFault }
{
    let subs = mem::replace(&mut standing.subs, Subs::new(alloc));
    let mut draft = Draft::new(alloc, subs, config.max, standing.numbered);
    answer_batch(alloc, desk, config, &mut draft, messages)?;
    write_draft(alloc, standing, out, draft)
}

/// Writes what was drafted as a CDATA, and then notes it.
fn write_draft(
    alloc: Global,
    standing: &mut Standing,
    out: &mut Octets,
    draft: Draft,
) -> Result<(), Memory>
    requires may { IsTrue (may_send standing.old.machine kinds.Cdata) }
    requires batch { IsBatch (client_batch kinds.Cdata draft.messages) }
    ensures spoken { Spoken out.old out.new (notes_of standing.old.record) (writes_draft (stand_of standing.old) (draft_of draft))
        (stand_of standing.new) (notes_of standing.new.record) result }
    ensures role { standing.new.machine.role ≡ standing.old.machine.role }
    ensures machine { OnOk result (standing.new.machine ≡ sent standing.old.machine kinds.Cdata) }
    ensures sent { standing.new.record.sent ≡ standing.old.record.sent }
    ensures received { standing.new.record.received ≡ standing.old.record.received }
    ensures taken { standing.new.record.taken ≡ standing.old.record.taken }
    ensures own { standing.old.over ≢ Some end.LinkFault → standing.new.over ≢ Some end.LinkFault }
{
    write(alloc, &mut standing.machine, out, Cdata, draft.messages)?;
    standing.subs = draft.subs;
    standing.numbered = draft.numbered;
    note_draft(&mut standing.record, &draft.errors, &draft.points)
}

/// Notes the codes of the Errors that were heard, and then the points of the reports.
fn note_draft(notes: &mut SessionRecord, errors: &Codes, points: &Points) -> Result<(), Memory>
    ensures noted { Noted notes.old errors.now points.now notes.new result }
    ensures sent { notes.new.sent ≡ notes.old.sent }
    ensures received { notes.new.received ≡ notes.old.received }
    ensures taken { notes.new.taken ≡ notes.old.taken }
{
    notes.errors.extend(errors.as_slice())?;
    notes.points.extend(points.as_slice())?;
    notes.reports = notes.reports.saturating_add(points.len() as u64);
    Ok(())
}

/// Writes a batch of the kind, which may be sent.
pub(crate) fn write(
    alloc: Global,
    machine: &mut Machine,
    out: &mut Octets,
    kind: BatchKind,
    messages: Messages,
) -> Result<(), Memory>
    requires may { IsTrue (may_send machine.old kind) }
    requires batch { IsBatch (client_batch kind messages) }
    ensures written { OnOk result (out.new ≡ out.old ++ written (client_batch kind messages)) }
    ensures sent { OnOk result (machine.new ≡ sent machine.old kind) }
    ensures unchanged { OnErr result (out.new ≡ out.old) }
    ensures still { OnErr result (machine.new ≡ machine.old) }
{
    let batch = Batch {
        from_server: false,
        kind,
        messages,
    };
    let octets = write_batch(alloc, &batch)?;
    // The messages may have as many octets again.
    drop(batch);
    out.extend(octets.as_slice())?;
    machine.send(kind);
    Ok(())
}

/// A fault is answered by the CLOSE that reports it, and ends the session (RFC 5793, section 4.9).
pub(crate) fn refuse(
    alloc: Global,
    standing: &mut Standing,
    out: &mut Octets,
    fault: PbFault,
) -> Result<(), Memory>
    requires may { IsTrue (may_send standing.old.machine kinds.Close) }
    requires told { IsTold fault.code }
    ensures spoken { Spoken out.old out.new (notes_of standing.old.record) (refuses (stand_of standing.old) fault)
        (stand_of standing.new) (notes_of standing.new.record) result }
    ensures over { OnOk result (standing.new.over ≢ None) }
    ensures role { standing.new.machine.role ≡ standing.old.machine.role }
    ensures sent { standing.new.record.sent ≡ standing.old.record.sent }
    ensures received { standing.new.record.received ≡ standing.old.record.received }
    ensures taken { standing.new.record.taken ≡ standing.old.record.taken }
    ensures own { standing.old.over ≢ Some end.LinkFault → standing.new.over ≢ Some end.LinkFault }
{
    write_fault(alloc, out, &fault)?;
    standing.machine.send(Close);
    standing.over = Some(SessionEnd::Refused {
        code: fault.code,
        offset: fault.offset,
    });
    Ok(())
}

/// Writes the CLOSE that reports a fault.
fn write_fault(alloc: Global, out: &mut Octets, fault: &PbFault) -> Result<(), Memory>
    requires told { IsTold fault.now.code }
    ensures written { OnOk result (out.new ≡ out.old ++ written (fault_batch_of false fault.now)) }
    ensures unchanged { OnErr result (out.new ≡ out.old) }
{
    let octets = fault_batch(alloc, false, fault)?;
    out.extend(octets.as_slice())
}

/// After RESULT it closes the session where as many reports were written as are wanted.
fn close_if(
    alloc: Global,
    config: &ServeConfig,
    standing: &mut Standing,
    out: &mut Octets,
) -> Result<(), Memory>
    requires may { IsTrue (may_send standing.old.machine kinds.Close) }
    ensures spoken { Spoken out.old out.new (notes_of standing.old.record)
        (closes_if (stand_of standing.old) (is_enough config.now.reports standing.old.record.reports)) (stand_of standing.new) (notes_of standing.new.record) result }
    ensures role { standing.new.machine.role ≡ standing.old.machine.role }
    ensures machine { OnOk result (standing.new.over ≡ None → standing.new.machine ≡ standing.old.machine) }
    ensures sent { standing.new.record.sent ≡ standing.old.record.sent }
    ensures received { standing.new.record.received ≡ standing.old.record.received }
    ensures taken { standing.new.record.taken ≡ standing.old.record.taken }
    ensures own { standing.old.over ≢ Some end.LinkFault → standing.new.over ≢ Some end.LinkFault }
{
    if !is_enough(config.reports, standing.record.reports) {
        return Ok(());
    }
    write(alloc, &mut standing.machine, out, Close, List::new(alloc))?;
    standing.over = Some(SessionEnd::Closed);
    Ok(())
}

/// Whether as many reports were written as are wanted.
fn is_enough(wanted: Option<u32>, reports: u64) -> bool
    ensures enough { result ≡ is_enough wanted reports }
{
    match wanted {
        None => false,
        Some(wanted) => u64::from(wanted) <= reports,
    }
}
