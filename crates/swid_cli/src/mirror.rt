//! The command `mirror`.

pub(crate) mod first_attribute;
mod pieces;
pub(crate) mod step;
pub(crate) mod supported;

ghost use Rattle.std.specs.Prelude.{◌≡◌, List, ℕ, IfOk, IfSome, is_err};
ghost use Rattle.swid_cli.specs.Run.{Ran};
ghost use Rattle.swid_cli.specs.Stream.{stream_text};
ghost use Rattle.swid_cli.specs.Causes.{HasCauses};

use crate::mirror::first_attribute::new_piece;
use crate::mirror::pieces::write_mirror;
use crate::mirror::step::{Step, next_step};
use command_text::Ending;
use std::alloc::Global;
use std::mem;
use swima_model::Kind;
use validator_core::Mirror;
use wire_base::{Sink, Source, Stopped, write_all};

/// Lets a mirror of `kind` take the attributes of the input one after another, and prints what it
/// answers to each and, at the end, what it holds.
pub(crate) fn mirror<S: Source, K: Sink>(
    alloc: Global,
    kind: Kind,
    input: &mut S,
    output: &mut K,
) -> Result<Ending, Stopped>
    ensures printed { IfSome (S.left input.old) (λ octets.
        Ran (stream_text kind octets) (S.left input.new)
        (K.written output.old) (K.written output.new) result) }
    ensures causes { HasCauses (S.faults input.old) (S.faults input.new)
        (K.faults output.old) (K.faults output.new) result }
{
    let mut mirror = Mirror::new(alloc, kind);
    let mut buf = new_piece();
    let mut at = 0;
    loop {
        let next = next_step(alloc, input, &mut buf, at, &mut mirror)?;
        match next {
            Step::Goes(line, length) => {
                write_all(output, line.as_slice())?;
                at += length;
            }
            Step::Refused(refusal) => {
                write_all(output, refusal.as_slice())?;
                return Ok(Ending::Refused);
            }
            Step::End => {
                write_mirror(alloc, &mirror, output)?;
                // The program ends now. To give back each record takes a twentieth of its time.
                mem::forget(mirror);
                return Ok(Ending::Whole);
            }
        }
    }
}
