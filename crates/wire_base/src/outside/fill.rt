//! Octets from a source into memory, in as many calls as it takes.

ghost use Rattle.std.specs.Bool.{OnTrue};
ghost use Rattle.std.specs.Prelude.{◌≤◌, length, OnOk};
ghost use Rattle.wire_base.specs.Outside.{HasCause};
ghost use Rattle.wire_base.specs.Passing.{Fills, Gains, is_fault};

use crate::outside::source::Source;
use crate::outside::stopped::Stopped;
use crate::values::list::Octets;

/// How many octets one call of a source is asked for at most.
const PIECE: usize = 4096;

/// Reads until `held` has `want` octets or the input ends, and no octet more. Where a call fails,
/// `held` has what was read before it; where memory runs out nothing is said of what was read.
pub fn fill<S: Source>(input: &mut S, held: &mut Octets, want: usize) -> Result<(), Stopped>
    requires { length held.old ≤ want }
    ensures fills { OnOk result
        (Fills want (S.left input.old) (S.left input.new) held.old held.new) }
    ensures kept { OnTrue (is_fault result)
        (Gains (S.left input.old) (S.left input.new) held.old held.new) }
    ensures within { length held.new ≤ want }
    ensures cause { HasCause (S.faults input.old) (S.faults input.new) (is_fault result) }
{
    let mut buf = [0u8; PIECE];
    while held.len() < want {
        let room = (want - held.len()).min(PIECE);
        let count = input.read(&mut buf[..room])?;
        if count == 0 {
            return Ok(());
        }
        held.extend(&buf[..count])?;
    }
    Ok(())
}
