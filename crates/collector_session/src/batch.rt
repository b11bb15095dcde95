//! The batch that answers the messages of another.

ghost use Rattle.std.specs.Prelude.{◌≡◌, [], OnOk};
ghost use Rattle.collector_session.specs.Sizes.{Fits};
ghost use Rattle.collector_session.specs.Drafting.{drafting};
ghost use Rattle.pb_batch.specs.declared.kind.BatchKind.TheVariants as kinds;
ghost use Rattle.pb_batch.specs.Written.{IsBatch};
ghost use Rattle.collector_session.specs.Standing.{draft_of};
ghost use Rattle.session_rules.specs.Answering.{answers_message};
ghost use Rattle.session_rules.specs.Clauses.{Drafted};
ghost use Rattle.session_rules.specs.Messages.{client_batch};
ghost use Rattle.session_talk.specs.Talk.{each};

use crate::draft::Draft;
use crate::message::answer_message;
use crate::renew::renew;
use collector_core::Desk;
use pb_batch::Messages;
use session_rules::ServeConfig;
use std::alloc::Global;
use wire_base::Memory;

/// Answers the messages in a batch that has none yet, and then fulfils the subscriptions of earlier
/// batches.
pub(crate) fn answer_batch<D: Desk>(
    alloc: Global,
    desk: &mut D,
    config: &ServeConfig,
    draft: &mut Draft,
    messages: &Messages,
) -> Result<(), Memory>
    requires batch { IsBatch (client_batch kinds.Sdata messages.now) }
    requires fits { Fits draft.old }
    requires empty { draft.old.messages ≡ [] }
    requires none { draft.old.attrs ≡ [] }
    ensures drafted { Drafted D.stands D.went desk.old desk.new (drafting config.now (draft_of draft.old) messages.now) (draft_of draft.new) result }
    ensures fits { OnOk result (Fits draft.new) }
{
    answer_all(alloc, desk, draft, messages)?;
    renew(alloc, desk, config, draft)
}

/// Answers the messages, one after another, in a batch that has none yet.
fn answer_all<D: Desk>(
    alloc: Global,
    desk: &mut D,
    draft: &mut Draft,
    messages: &Messages,
) -> Result<(), Memory>
    requires batch { IsBatch (client_batch kinds.Sdata messages.now) }
    requires fits { Fits draft.old }
    requires empty { draft.old.messages ≡ [] }
    requires none { draft.old.attrs ≡ [] }
    ensures drafted { Drafted D.stands D.went desk.old desk.new (each answers_message (draft_of draft.old) messages.now) (draft_of draft.new) result }
    ensures fits { OnOk result (Fits draft.new) }
    ensures none { OnOk result (draft.new.attrs ≡ []) }
{
    for message in messages.as_slice() {
        answer_message(alloc, desk, draft, message)?;
    }
    Ok(())
}
