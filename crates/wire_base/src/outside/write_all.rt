//! Octets from memory into a sink, in as many calls as it takes.

ghost use Rattle.std.specs.Prelude.{OnOk, is_err};
ghost use Rattle.wire_base.specs.Outside.{Adds, HasCause};
ghost use Rattle.wire_base.specs.Passing.{AddsFront};

use crate::outside::sink::Sink;
use crate::outside::source::Failed;

/// Writes all of `text`; where a call fails a prefix of it was written.
pub fn write_all<K: Sink>(output: &mut K, text: &[u8]) -> Result<(), Failed>
    ensures whole { OnOk result (Adds (K.written output.old) (K.written output.new) text.now) }
    ensures front { AddsFront (K.written output.old) (K.written output.new) text.now }
    ensures cause { HasCause (K.faults output.old) (K.faults output.new) (is_err result) }
{
    let mut rest = text;
    while !rest.is_empty() {
        let count = output.write(rest)?;
        let (_, after) = rest.split_at(count);
        rest = after;
    }
    Ok(())
}
