//! The command `replay`.

ghost use Rattle.std.specs.Prelude.{IfSome};
ghost use Rattle.session_script.specs.Replay.{ReplayTells, SCRIPT_OCTETS};
ghost use Rattle.swid_cli.specs.Causes.{HasCauses};
ghost use Rattle.swid_cli.specs.Telling.{RanTelling};

use command_text::Ending;
use session_script::{MOST_SCRIPT_OCTETS, replay_answer};
use std::alloc::Global;
use wire_base::{List, Sink, Source, Stopped, fill, write_all};

/// Reads a script of both ends of sessions, to the end of the input, and prints what happens, or
/// which line is bad.
pub(crate) fn replay<S: Source, K: Sink>(
    alloc: Global,
    input: &mut S,
    output: &mut K,
) -> Result<Ending, Stopped>
    ensures printed { IfSome (S.left input.old) (λ octets. RanTelling SCRIPT_OCTETS ReplayTells octets
        (S.left input.new) (K.written output.old) (K.written output.new) result) }
    ensures causes { HasCauses (S.faults input.old) (S.faults input.new)
        (K.faults output.old) (K.faults output.new) result }
{
    let mut held = List::new(alloc);
    fill(input, &mut held, MOST_SCRIPT_OCTETS + 1)?;
    let answer = replay_answer(alloc, held.as_slice())?;
    write_all(output, answer.text.as_slice())?;
    Ok(answer.ending)
}
