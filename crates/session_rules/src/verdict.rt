//! What becomes of a batch.

use crate::end::SessionEnd;
use pb_batch::PbFault;

/// What an end does with a batch before it looks into it.
#[derive(Clone, Copy, Debug, PartialEq, Eq)]
pub enum Verdict {
    /// It is not looked into.
    PassesOver,
    /// It is answered by a CLOSE that reports the fault.
    Refuses(PbFault),
    /// It ends the session, and nothing else of it is looked at.
    EndsBy(SessionEnd),
    /// Its messages are looked at.
    GoesOn,
}
