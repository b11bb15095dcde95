//! The command `make`.

ghost use Rattle.session_day.specs.Day.{IsCount};
ghost use Rattle.swid_cli.specs.Making.{RanMaking};
ghost use Rattle.wire_base.specs.Outside.{HasCause};
ghost use Rattle.wire_base.specs.Passing.{is_fault};

use command_text::Ending;
use session_day::day_text;
use std::alloc::Global;
use wire_base::{Sink, Stopped, write_all};

/// Plays the day of an endpoint with that many packages, and prints a summary of it.
pub(crate) fn make<K: Sink>(alloc: Global, count: u32, output: &mut K) -> Result<Ending, Stopped>
    requires count { IsCount count }
    ensures printed { RanMaking count (K.written output.old) (K.written output.new) result }
    ensures cause { HasCause (K.faults output.old) (K.faults output.new) (is_fault result) }
{
    let text = day_text(alloc, count)?;
    write_all(output, text.as_slice())?;
    Ok(Ending::Whole)
}
