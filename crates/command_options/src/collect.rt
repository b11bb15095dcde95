//! The options of `collect`.

ghost use Rattle.clap.specs.Words.{app_of, found_of, rows_of};
ghost use Rattle.command_options.specs.Collect.{CollectMeans, CollectThere, CollectWithin, IsCollect, collect_app};
ghost use Rattle.command_options.specs.Given.{Finds, Reads};
ghost use Rattle.std.specs.Prelude.{◌≡◌, IfOk, map};

use crate::arguments::{bare, number_or, required_number, required_text, words};
use crate::given::{Texts, found, number_of, text_of, texts_of};
use crate::refused::OptionsRefused;
use clap::{ArgMatches, Command};
use std::alloc::{AllocError, Global};
use wire_base::{Memory, Text};

/// What the words after `collect` say.
#[derive(Debug, Drop)]
pub struct CollectOptions {
    /// The address to listen on.
    pub listen: Text,
    /// The epoch of the inventory, at least 1.
    pub epoch: u32,
    /// How many events the inventory keeps at most, from 1 to 4096.
    pub cap: u32,
    /// How many workers serve sessions side by side, from 1 to 64.
    pub workers: u32,
    /// How many sessions each worker serves, at least 1.
    pub sessions: u32,
    /// How many sweeps over the sources are made, at least 1.
    pub sweeps: u32,
    /// The files with the lines of sources, at most 255.
    pub names: Texts,
}

/// The options that the words after `collect` say. `Usage` exactly where they say none; `Memory`
/// where memory ran out.
pub fn collect_options(alloc: Global, words: &[&str]) -> Result<CollectOptions, OptionsRefused>
    ensures options { Reads (IsCollect (map (λ word. word.now) words.now)) result }
    ensures within { IfOk result (λ options. CollectWithin options) }
{
    let matches = collect_found(alloc, words)?;
    Ok(options_of(alloc, &matches)?)
}

/// What `clap` finds in the words after `collect`.
fn collect_found<'a>(alloc: Global, words: &'a [&'a str]) -> Result<ArgMatches<'a>, OptionsRefused>
    ensures found { Finds collect_app (map (λ word. word.now) words.entry.now) result }
{
    found(collect_command(alloc)?, words)
}

/// The options that `clap` found.
fn options_of(alloc: Global, matches: &ArgMatches<'_>) -> Result<CollectOptions, Memory>
    requires there { CollectThere (rows_of (found_of matches.now)) }
    ensures options { IfOk result (CollectMeans (rows_of (found_of matches.now))) }
{
    Ok(CollectOptions {
        listen: Text::new(alloc, text_of(matches, "listen"))?,
        epoch: number_of(matches, "epoch"),
        cap: number_of(matches, "cap"),
        workers: number_of(matches, "workers"),
        sessions: number_of(matches, "sessions"),
        sweeps: number_of(matches, "sweeps"),
        names: texts_of(alloc, matches, "names")?,
    })
}

/// The command, as `clap` has it.
fn collect_command<'a>(alloc: Global) -> Result<Command<'a>, AllocError>
    ensures app { IfOk result (λ command. app_of command ≡ collect_app) }
{
    bare(alloc, "collect")
        .arg(required_text(alloc, "listen"))?
        .arg(required_number(alloc, "epoch", u32::MAX))?
        .arg(number_or(alloc, "cap", 4096, "1024"))?
        .arg(number_or(alloc, "workers", 64, "2"))?
        .arg(number_or(alloc, "sessions", u32::MAX, "1"))?
        .arg(number_or(alloc, "sweeps", u32::MAX, "1"))?
        .arg(words(alloc, "names", 0, 255))
}
