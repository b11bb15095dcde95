//! How a command ends that prints one text at its end.

ghost use Rattle.swid_run.specs.Ends.{Prints, output_state};

use command_text::Ending;
use wire_base::{Sink, Stopped, write_all};

/// Prints the text of a command that came to `how`, and says how the command ends. That memory ran
/// out goes before a fault.
pub(crate) fn print_text<K: Sink>(
    text: &[u8],
    how: Result<Ending, Stopped>,
    output: &mut K,
) -> Result<Ending, Stopped>
    ensures prints { Prints text.now how (output_state K.written K.faults output.old) (output_state K.written K.faults output.new) result }
{
    let written = write_all(output, text);
    match how {
        Err(Stopped::Memory) => Err(Stopped::Memory),
        Err(Stopped::Fault) => Err(Stopped::Fault),
        Ok(ending) => {
            written?;
            Ok(ending)
        }
    }
}
