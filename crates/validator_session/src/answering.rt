//! What a validator does after CDATA and CRETRY: it takes the messages, and then it asks, decides
//! or answers (RFC 5793, section 3.2).

ghost use Rattle.std.specs.Prelude.{◌≡◌, ◌≤◌, All, IfOk, OnOk, false, is_some, length};
ghost use Rattle.pb_batch.specs.Form.{BATCH_OCTETS, body_of};
ghost use Rattle.pb_batch.specs.declared.batch.Message.{Message as MessageValue};
ghost use Rattle.pb_machine.specs.declared.machine.State.TheVariants as state;
ghost use Rattle.session_rules.specs.FollowRules.{after_data, after_retry};
ghost use Rattle.session_rules.specs.Following.{Draft as DraftTalk};
ghost use Rattle.session_rules.specs.Taking.{drafts};
ghost use Rattle.session_talk.specs.Talk.{and_then};
ghost use Rattle.validator_session.specs.Drafting.{Goes, TookAll, draft_of};
ghost use Rattle.validator_session.specs.Noting.{IsNoted};
ghost use Rattle.validator_session.specs.Ready.{CanGoOn};
ghost use Rattle.validator_session.specs.Sizes.{Fits};
ghost use Rattle.validator_session.specs.Standing.{stand_of};

use crate::asking::asks_more;
use crate::notes::Notes;
use crate::standing::Standing;
use crate::take::{Draft, take_message};
use crate::writing::{decide, write_draft, write_request};
use pb_batch::BatchKind::Sdata;
use pb_batch::Messages;
use session_rules::FollowConfig;
use std::alloc::Global;
use validator_core::Mirror;
use wire_base::{Memory, Octets};

/// After CDATA it asks again or decides.
pub(crate) fn answer_data(
    alloc: Global,
    mirror: &mut Mirror,
    config: &FollowConfig,
    standing: &mut Standing,
    out: &mut Octets,
    messages: &Messages,
) -> Result<(), Memory>
    requires ready { CanGoOn standing.old config.now.rounds }
    requires working { standing.old.machine.state ≡ state.ServerWorking }
    requires noted { IsNoted standing.old.notes }
    requires bodies { All (λ (message : MessageValue). length (body_of message) ≤ BATCH_OCTETS) messages.now }
    ensures goes { Goes standing.old mirror.old out.old (and_then (drafts (stand_of standing.old mirror.old) messages.now) (λ (d : DraftTalk). after_data config.now (stand_of standing.old mirror.old) d)) standing.new mirror.new out.new result }
    ensures ready { OnOk result (is_some standing.new.over ≡ false → CanGoOn standing.new config.now.rounds) }
    ensures noted { IsNoted standing.new.notes }
    ensures sent { standing.new.notes.record.sent ≡ standing.old.notes.record.sent }
    ensures received { standing.new.notes.record.received ≡ standing.old.notes.record.received }
{
    let numbered = standing.numbered;
    let draft = take_all(alloc, mirror, &mut standing.notes, numbered, messages)?;
    go_on(alloc, mirror, config, standing, out, draft)
}

/// After the messages of a CDATA were taken it asks again or decides.
fn go_on(
    alloc: Global,
    mirror: &Mirror,
    config: &FollowConfig,
    standing: &mut Standing,
    out: &mut Octets,
    draft: Draft,
) -> Result<(), Memory>
    requires ready { CanGoOn standing.old config.now.rounds }
    requires working { standing.old.machine.state ≡ state.ServerWorking }
    requires noted { IsNoted standing.old.notes }
    requires fits { Fits draft.answers }
    ensures goes { Goes standing.old mirror.now out.old (after_data config.now (stand_of standing.old mirror.now) (draft_of draft standing.old.notes mirror.now)) standing.new mirror.now out.new result }
    ensures ready { OnOk result (is_some standing.new.over ≡ false → CanGoOn standing.new config.now.rounds) }
    ensures noted { IsNoted standing.new.notes }
    ensures sent { standing.new.notes.record.sent ≡ standing.old.notes.record.sent }
    ensures received { standing.new.notes.record.received ≡ standing.old.notes.record.received }
{
    standing.numbered = draft.numbered;
    standing.retried = false;
    if asks_more(mirror, standing) {
        write_request(alloc, mirror, config, standing, out, Sdata, draft)
    } else {
        decide(alloc, config, standing, out, draft)
    }
}

/// After CRETRY it asks where it wrote an SRETRY since the last CDATA.
pub(crate) fn answer_retry(
    alloc: Global,
    mirror: &mut Mirror,
    config: &FollowConfig,
    standing: &mut Standing,
    out: &mut Octets,
    messages: &Messages,
) -> Result<(), Memory>
    requires ready { CanGoOn standing.old config.now.rounds }
    requires working { standing.old.machine.state ≡ state.ServerWorking }
    requires noted { IsNoted standing.old.notes }
    requires bodies { All (λ (message : MessageValue). length (body_of message) ≤ BATCH_OCTETS) messages.now }
    ensures goes { Goes standing.old mirror.old out.old (and_then (drafts (stand_of standing.old mirror.old) messages.now) (λ (d : DraftTalk). after_retry config.now (stand_of standing.old mirror.old) d)) standing.new mirror.new out.new result }
    ensures ready { OnOk result (CanGoOn standing.new config.now.rounds) }
    ensures noted { IsNoted standing.new.notes }
    ensures sent { standing.new.notes.record.sent ≡ standing.old.notes.record.sent }
    ensures received { standing.new.notes.record.received ≡ standing.old.notes.record.received }
{
    let numbered = standing.numbered;
    let draft = take_all(alloc, mirror, &mut standing.notes, numbered, messages)?;
    go_on_retried(alloc, mirror, config, standing, out, draft)
}

/// After the messages of a CRETRY were taken it asks, or answers alone.
fn go_on_retried(
    alloc: Global,
    mirror: &Mirror,
    config: &FollowConfig,
    standing: &mut Standing,
    out: &mut Octets,
    draft: Draft,
) -> Result<(), Memory>
    requires ready { CanGoOn standing.old config.now.rounds }
    requires working { standing.old.machine.state ≡ state.ServerWorking }
    requires noted { IsNoted standing.old.notes }
    requires fits { Fits draft.answers }
    ensures goes { Goes standing.old mirror.now out.old (after_retry config.now (stand_of standing.old mirror.now) (draft_of draft standing.old.notes mirror.now)) standing.new mirror.now out.new result }
    ensures ready { OnOk result (CanGoOn standing.new config.now.rounds) }
    ensures noted { IsNoted standing.new.notes }
    ensures sent { standing.new.notes.record.sent ≡ standing.old.notes.record.sent }
    ensures received { standing.new.notes.record.received ≡ standing.old.notes.record.received }
{
    standing.numbered = draft.numbered;
    if standing.retried {
        write_request(alloc, mirror, config, standing, out, Sdata, draft)
    } else {
        write_draft(alloc, standing, out, Sdata, draft)
    }
}

/// Takes the messages of a batch in order.
fn take_all(
    alloc: Global,
    mirror: &mut Mirror,
    notes: &mut Notes,
    numbered: u32,
    messages: &Messages,
) -> Result<Draft, Memory>
    requires noted { IsNoted notes.old }
    requires bodies { All (λ (message : MessageValue). length (body_of message) ≤ BATCH_OCTETS) messages.now }
    ensures took { TookAll numbered notes.old notes.new mirror.old mirror.new messages.now result }
    ensures fits { IfOk result (λ draft. Fits draft.answers) }
    ensures noted { IsNoted notes.new }
    ensures sent { notes.new.record.sent ≡ notes.old.record.sent }
    ensures received { notes.new.record.received ≡ notes.old.record.received }
{
    let mut draft = Draft::new(alloc, numbered);
    for message in messages.as_slice() {
        take_message(alloc, mirror, notes, &mut draft, message)?;
    }
    Ok(draft)
}
