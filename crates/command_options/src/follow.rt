//! The options of `follow`.

ghost use Rattle.clap.specs.Words.{app_of, found_of, rows_of};
ghost use Rattle.command_options.specs.Follow.{FollowMeans, FollowThere, FollowWithin, IsFollow, follow_app, kind_word, yes_word};
ghost use Rattle.command_options.specs.Given.{Finds, Names, Reads};
ghost use Rattle.std.specs.Prelude.{◌≡◌, IfOk, map};

use crate::arguments::{bare, number_or, required_words, text_or};
use crate::given::{Texts, found, number_of, text_of, texts_of};
use crate::refused::OptionsRefused;
use clap::{ArgMatches, Command};
use std::alloc::{AllocError, Global};
use swima_model::Kind;

/// What the words after `follow` say.
#[derive(Debug, Drop)]
pub struct FollowOptions {
    /// The kind of the reports that are asked for.
    pub kind: Kind,
    /// Whether the first request of a session establishes a subscription.
    pub subscribe: bool,
    /// After how many rounds a session is closed, at least 1.
    pub rounds: u32,
    /// How many sessions there are with each address, at least 1.
    pub sessions: u32,
    /// The addresses of the collectors, from 1 to 64.
    pub addresses: Texts,
}

/// The options that the words after `follow` say. `Usage` exactly where they say none; `Memory`
/// where memory ran out.
pub fn follow_options(alloc: Global, words: &[&str]) -> Result<FollowOptions, OptionsRefused>
    ensures options { Reads (IsFollow (map (λ word. word.now) words.now)) result }
    ensures within { IfOk result (λ options. FollowWithin options) }
{
    let matches = follow_found(alloc, words)?;
    options_of(alloc, &matches)
}

/// What `clap` finds in the words after `follow`.
fn follow_found<'a>(alloc: Global, words: &'a [&'a str]) -> Result<ArgMatches<'a>, OptionsRefused>
    ensures found { Finds follow_app (map (λ word. word.now) words.entry.now) result }
{
    found(follow_command(alloc)?, words)
}

/// The options that `clap` found; `Usage` where its words for `--kind` and `--subscribe` name none.
fn options_of(alloc: Global, matches: &ArgMatches<'_>) -> Result<FollowOptions, OptionsRefused>
    requires there { FollowThere (rows_of (found_of matches.now)) }
    ensures options { Reads (FollowMeans (rows_of (found_of matches.now))) result }
{
    let Some(kind) = kind_of(text_of(matches, "kind")) else {
        return Err(OptionsRefused::Usage);
    };
    let Some(subscribe) = is_yes(text_of(matches, "subscribe")) else {
        return Err(OptionsRefused::Usage);
    };
    Ok(FollowOptions {
        kind,
        subscribe,
        rounds: number_of(matches, "rounds"),
        sessions: number_of(matches, "sessions"),
        addresses: texts_of(alloc, matches, "addresses")?,
    })
}

/// The kind of reports that a word names.
fn kind_of(word: &str) -> Option<Kind>
    ensures kind { Names kind_word word.now result }
{
    match word {
        "ids" => Some(Kind::Ids),
        "full" => Some(Kind::Full),
        _ => None,
    }
}

/// Whether a word is `yes`, or `no`.
fn is_yes(word: &str) -> Option<bool>
    ensures yes { Names yes_word word.now result }
{
    match word {
        "yes" => Some(true),
        "no" => Some(false),
        _ => None,
    }
}

/// The command, as `clap` has it.
fn follow_command<'a>(alloc: Global) -> Result<Command<'a>, AllocError>
    ensures app { IfOk result (λ command. app_of command ≡ follow_app) }
{
    bare(alloc, "follow")
        .arg(text_or(alloc, "kind", "ids"))?
        .arg(text_or(alloc, "subscribe", "no"))?
        .arg(number_or(alloc, "rounds", u32::MAX, "1"))?
        .arg(number_or(alloc, "sessions", u32::MAX, "1"))?
        .arg(required_words(alloc, "addresses", 1, 64))
}
