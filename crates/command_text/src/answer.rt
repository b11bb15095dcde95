//! What is printed at once of the octets of an input.

ghost use Rattle.std.specs.Prelude.{◌≡◌, IfOk};
ghost use Rattle.command_text.specs.Answer.{ending_of, limit_answer, refusal_answer};
ghost use Rattle.command_text.specs.Text.{refusal};

use crate::ending::Ending;
use crate::refusal_lines::refusal;
use std::alloc::Global;
use wire_base::{Memory, Octets};

/// A text, and how the output ends with it.
#[derive(Debug, Drop)]
pub struct Answer {
    /// What is printed.
    pub text: Octets,
    /// How it ends.
    pub ending: Ending,
}

/// The answer to an input that is refused.
pub fn refused(text: Octets) -> Answer
    ensures refused { result ≡ refusal_answer text }
{
    Answer {
        text,
        ending: Ending::Refused,
    }
}

/// The answer to an input that is longer than it may be, or has more parts: the most that it may
/// have.
pub fn beyond_limit(alloc: Global, most: usize) -> Result<Answer, Memory>
    ensures limit { IfOk result (λ made. made ≡ limit_answer most) }
{
    Ok(refused(refusal(alloc, "limit", most as u64)?))
}

/// How the text of an input ends in which all this is wrong.
pub fn ending_of<T>(wrong: &[T]) -> Ending
    ensures ending { result ≡ ending_of wrong.now }
{
    if wrong.is_empty() {
        return Ending::Whole;
    }
    Ending::Findings
}
