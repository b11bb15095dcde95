//! The words of the command line.

ghost use Rattle.std.specs.Prelude.{◌≡◌, ◌↔◌, ◌∷◌, [], IsTrue, map};
ghost use Rattle.swid_cli.specs.Commands.{Says};
ghost use Rattle.line_words.specs.Reading.{FindsExactly};
ghost use Rattle.swid_cli.specs.Words.{IsCommandLine, IsCountWord};

use line_words::read_number;
use session_day::{FEWEST_PACKAGES, MOST_PACKAGES};
use swima_model::Kind;

/// What `tag` checks.
#[derive(Clone, Copy, Debug, PartialEq, Eq)]
pub(crate) enum Scope {
    /// The tag alone.
    Tag,
    /// The tag, and the files of its payload.
    Files,
}

/// A command that waits for nobody.
#[derive(Clone, Copy, Debug, PartialEq, Eq)]
pub(crate) enum Command {
    /// `mirror ids` or `mirror full`: take the reports of a kind that come in, and show what a
    /// mirror holds then.
    Mirror(Kind),
    /// `tag` or `tag verify`: say what a tag is and what is wrong with it, and with `verify`
    /// what is wrong with its files.
    Tag(Scope),
    /// `links`: say what is wrong between tags.
    Links,
    /// `replay`: play a script of both ends of sessions.
    Replay,
    /// `make`: play the day of an endpoint with that many packages.
    Make(u32),
}

/// The command that the words say; `None` exactly where they say none.
pub(crate) fn command_of(words: &[&str]) -> Option<Command>
    ensures said { FindsExactly (λ command. Says command (map (λ word. word.now) words.now)) result }
{
    match words {
        [word] => of_one_word(word),
        [first, second] => of_two_words(first, second),
        _ => None,
    }
}

/// The command that one word says.
fn of_one_word(word: &str) -> Option<Command>
    ensures said { FindsExactly (λ command. Says command (word.now ∷ [])) result }
{
    match word {
        "tag" => Some(Command::Tag(Scope::Tag)),
        "links" => Some(Command::Links),
        "replay" => Some(Command::Replay),
        _ => None,
    }
}

/// The command that two words say.
fn of_two_words(first: &str, second: &str) -> Option<Command>
    ensures said { FindsExactly (λ command. Says command (first.now ∷ second.now ∷ [])) result }
{
    match (first, second) {
        ("mirror", "ids") => Some(Command::Mirror(Kind::Ids)),
        ("mirror", "full") => Some(Command::Mirror(Kind::Full)),
        ("tag", "verify") => Some(Command::Tag(Scope::Files)),
        ("make", word) => match count_of(word) {
            Some(count) => Some(Command::Make(count)),
            None => None,
        },
        _ => None,
    }
}

/// Whether the words are a command line.
pub fn is_command_line(words: &[&str]) -> bool
    ensures known { IsTrue result ↔ IsCommandLine (map (λ word. word.now) words.now) }
{
    command_of(words).is_some()
}

/// The number of packages that a word is, if a day may have that many.
fn count_of(word: &str) -> Option<u32>
    ensures count { FindsExactly (IsCountWord word.now) result }
{
    match read_number(word.as_bytes()) {
        Some(count) if FEWEST_PACKAGES <= count && count <= MOST_PACKAGES => Some(count),
        _ => None,
    }
}
