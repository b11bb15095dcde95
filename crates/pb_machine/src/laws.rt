//! What the tables of both machines mean, proved of every batch and of every session: the calls do
//! nothing.

ghost use Rattle.pb_machine.specs.Table.{MayAnswer, MayClose, NoneUnexpectedAtEnd, OnlyGoMoves};
ghost use Rattle.pb_machine.specs.World.{EndsAgree};

/// A batch that an end ignores, or does not expect, leaves its state as it is.
pub fn only_go_moves()
    ensures law { OnlyGoMoves }
{}

/// Each end may send CLOSE in every state except End.
pub fn may_close()
    ensures law { MayClose }
{}

/// No batch is unexpected at End, so CLOSE may be sent after each batch that is unexpected.
pub fn none_unexpected_at_end()
    ensures law { NoneUnexpectedAtEnd }
{}

/// An end may answer a batch that it goes on with: the client may send CDATA after SDATA and
/// SRETRY, and CRETRY after RESULT; the server may send SDATA and RESULT after CDATA and CRETRY.
pub fn may_answer()
    ensures law { MayAnswer }
{}

/// Two ends that keep to the tables agree, however the batches on their way are delayed. Neither
/// hears a batch that it does not expect, and where none is on its way both are in one state.
pub fn ends_agree()
    ensures law { EndsAgree }
{}
