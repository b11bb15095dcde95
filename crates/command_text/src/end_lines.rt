//! How sessions end.

ghost use Rattle.std.specs.Prelude.{◌≡◌, ◌∷◌, IfOk};
ghost use Rattle.command_text.specs.Ends.{end_words};
ghost use Rattle.command_text.specs.Text.{line};

use crate::numbered_lines::{one_number, two_numbers, words};
use session_rules::SessionEnd;
use std::alloc::Global;
use wire_base::{Memory, Octets};

/// The line of how an end of a session is over: who that is, and the words of its end.
pub fn end_line(alloc: Global, who: &str, end: SessionEnd) -> Result<Octets, Memory>
    ensures line { IfOk result (λ made. made ≡ line (who.now ∷ end_words end)) }
{
    match end {
        SessionEnd::Closed => words(alloc, who, "closed"),
        SessionEnd::PeerClosed => words(alloc, who, "peer-closed"),
        SessionEnd::PeerError { vendor, code } => {
            two_numbers(alloc, who, "peer-error", vendor as u64, code as u64)
        }
        SessionEnd::Refused { code, offset } => {
            two_numbers(alloc, who, "refused", code as u64, offset as u64)
        }
        SessionEnd::Ended => words(alloc, who, "ended"),
        SessionEnd::Torn { have } => one_number(alloc, who, "torn", have as u64),
        SessionEnd::LinkFault => words(alloc, who, "link-fault"),
        SessionEnd::IdleOut { turns } => one_number(alloc, who, "idle-out", turns as u64),
        SessionEnd::Enough => words(alloc, who, "enough"),
        SessionEnd::Memory => words(alloc, who, "memory"),
    }
}
