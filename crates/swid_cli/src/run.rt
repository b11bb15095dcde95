//! The top call.

ghost use Rattle.std.specs.Prelude.{◌≡◌, ◌≢◌, ◌≤◌, ◌⊎◌, ◌↔◌, List, ℕ, IfSome, map};
ghost use Rattle.swid_cli.specs.Answering.{AllAnswer, PrintsRight};
ghost use Rattle.swid_cli.specs.Printing.{WordsBegin, WordsPrint, WordsRead};
ghost use Rattle.swid_cli.specs.Run.{status_of, usage};
ghost use Rattle.swid_cli.specs.Running.{IsFit, RunsCommand};
ghost use Rattle.swid_cli.specs.Words.{IsCommandLine, IsMake, IsMirror, IsTagVerify};
ghost use Rattle.swima_model.specs.History.{History, IsHonest};
ghost use Rattle.swima_model.specs.declared.report.Kind.{Kind as KindValue};
ghost use Rattle.wire_base.specs.Outside.{Adds, Rose};
ghost use Rattle.wire_base.specs.Passing.{AddsFront};

use crate::command::{Command, command_of};
use crate::links::links;
use crate::make::make;
use crate::mirror::mirror;
use crate::replay::replay;
use crate::tag::tag;
use command_text::Ending;
use std::alloc::Global;
use wire_base::{Files, Sink, Source, Stopped, write_all};

/// What is printed where the words are no command line.
const USAGE: &[u8; 6] = b"usage\n";

/// Does what the words of the command line say, over the objects of the outside that it is lent,
/// and answers the status. The first row that holds is the one:
///
/// | status | when |
/// |---|---|
/// | 2 | exactly where the words are no command line |
/// | 4 | memory ran out |
/// | 3 | exactly where a count of faults rose |
/// | 1 | exactly where the input was refused, or something is wrong with what it holds |
/// | 0 | else, and then a command that reads the input read it to its end |
///
/// The program ends after it, so `mirror` does not give back the memory of its records.
pub fn run_plain<S: Source, K: Sink, F: Files>(
    alloc: Global,
    words: &[&str],
    input: &mut S,
    output: &mut K,
    files: &mut F,
) -> u8
    // Words that are no command line: `usage` is printed, and nothing is read.
    ensures usage { (result ≡ 2) ↔ ¬ IsCommandLine (map (λ word. word.now) words.now) }
    ensures usage_front { result ≡ 2
        → AddsFront (K.written output.old) (K.written output.new) usage }
    ensures usage_text { result ≡ 2
        → Adds (K.written output.old) (K.written output.new) usage
        ⊎ Rose (K.faults output.old) (K.faults output.new) }
    ensures usage_input { result ≡ 2 → input.new ≡ input.old }

    // Words that are one. The text, the status and what is left of the input are those of the
    // command that the words say, where it reads no input or this exposes its octets. Where a call
    // failed or memory ran out, a prefix of the text was printed.
    ensures printed { result ≢ 2 → result ≢ 3 → result ≢ 4
        → WordsPrint (map (λ word. word.now) words.now) (F.contents files.old)
        (S.left input.old) (S.left input.new) (K.written output.old) (K.written output.new) result }
    ensures front { result ≢ 2
        → WordsBegin (map (λ word. word.now) words.now) (F.contents files.old)
        (S.left input.old) (K.written output.old) (K.written output.new) }
    // `make` reads nothing.
    ensures unread { (count : ℕ) → IsMake count (map (λ word. word.now) words.now)
        → input.new ≡ input.old }
    // The files that it reads, however it ends.
    ensures reads { result ≢ 2
        → IfSome (S.left input.old) (λ octets.
        WordsRead (map (λ word. word.now) words.now) octets result
        (F.reads files.old) (F.reads files.new)) }

    // At status 0 what `mirror` printed ends with a mirror that is right over each honest history
    // from which the reports answer.
    ensures right { result ≡ 0 → (kind : KindValue)
        → IsMirror kind (map (λ word. word.now) words.now)
        → IfSome (S.left input.old) (λ octets. (history : History)
        → IsHonest history → AllAnswer history kind octets
        → PrintsRight history kind (K.written output.old) (K.written output.new)) }

    // Status 3 reports a fault, no other status hides one, and no count falls.
    ensures fault { result ≡ 3
        → Rose (S.faults input.old) (S.faults input.new)
        ⊎ Rose (K.faults output.old) (K.faults output.new)
        ⊎ (IsTagVerify (map (λ word. word.now) words.now)
        × Rose (F.faults files.old) (F.faults files.new)) }
    ensures no_input_fault { result ≢ 3 → S.faults input.new ≡ S.faults input.old }
    ensures no_output_fault { result ≢ 2 → result ≢ 3
        → K.faults output.new ≡ K.faults output.old }
    ensures no_files_fault { result ≢ 3 → F.faults files.new ≡ F.faults files.old }
    ensures input_count { S.faults input.old ≤ S.faults input.new }
    ensures output_count { K.faults output.old ≤ K.faults output.new }
    ensures files_count { F.faults files.old ≤ F.faults files.new }
    ensures status { result ≤ 4 }

    // Files are left as they are, and nothing but `tag verify` looks at them.
    ensures contents { F.contents files.new ≡ F.contents files.old }
    ensures files { ¬ IsTagVerify (map (λ word. word.now) words.now) → files.new ≡ files.old }
{
    match command_of(words) {
        Some(command) => status(run_command(alloc, command, input, output, files)),
        None => {
            let _ = write_all(output, USAGE);
            2
        }
    }
}

/// Does what a command says.
fn run_command<S: Source, K: Sink, F: Files>(
    alloc: Global,
    command: Command,
    input: &mut S,
    output: &mut K,
    files: &mut F,
) -> Result<Ending, Stopped>
    requires fit { IsFit command }
    ensures runs { RunsCommand S.left S.faults K.written K.faults F.contents F.reads F.faults
        command input.old output.old files.old input.new output.new files.new result }
{
    match command {
        Command::Mirror(kind) => mirror(alloc, kind, input, output),
        Command::Tag(scope) => tag(alloc, scope, input, output, files),
        Command::Links => links(alloc, input, output),
        Command::Replay => replay(alloc, input, output),
        Command::Make(count) => make(alloc, count, output),
    }
}

/// The status of a command that ended so: 0 where all is well, 1 where something was refused or
/// found, 3 at a fault of what is outside, and 4 where memory ran out.
pub fn status(ended: Result<Ending, Stopped>) -> u8
    ensures status { result ≡ status_of ended }
{
    match ended {
        Ok(Ending::Whole) => 0,
        Ok(Ending::Refused) => 1,
        Ok(Ending::Findings) => 1,
        Err(Stopped::Fault) => 3,
        Err(Stopped::Memory) => 4,
    }
}
