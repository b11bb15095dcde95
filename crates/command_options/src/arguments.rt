//! The arguments of commands, as `clap` has them.

ghost use Rattle.clap.specs.Words.{app_of, rule_of};
ghost use Rattle.command_options.specs.Arguments.{command, default_rule, number_rule, required_rule, text_rule, words_rule};
ghost use Rattle.std.specs.Prelude.{◌≡◌, ◌≤◌, [], false};

use clap::builder::ValueParser;
use clap::{Arg, ArgAction, Command};
use std::alloc::Global;

/// A command over the words after its name, without help, version or arguments.
pub(crate) fn bare<'a>(alloc: Global, name: &'a str) -> Command<'a>
    ensures app { app_of result ≡ command name.entry.now [] }
{
    Command::new(alloc, name)
        .no_binary_name(true)
        .disable_help_flag(true)
        .disable_version_flag(true)
}

/// The argument `--ID TEXT`.
fn text<'a>(alloc: Global, id: &'a str) -> Arg<'a>
    ensures rule { rule_of result ≡ text_rule id.entry.now }
    ensures local { result.global ≡ false }
{
    Arg::new(alloc, id).long(id).action(ArgAction::Set)
}

/// The argument `--ID N` for a number from 1 to `most`.
fn number<'a>(alloc: Global, id: &'a str, most: u32) -> Arg<'a>
    ensures rule { rule_of result ≡ number_rule id.entry.now most }
    ensures local { result.global ≡ false }
{
    text(alloc, id).value_parser(ValueParser::unsigned(1, u64::from(most)))
}

/// The argument `--ID TEXT`, which has to be there.
pub(crate) fn required_text<'a>(alloc: Global, id: &'a str) -> Arg<'a>
    ensures rule { rule_of result ≡ required_rule (text_rule id.entry.now) }
    ensures local { result.global ≡ false }
{
    text(alloc, id).required(true)
}

/// The argument `--ID TEXT`; `default` stands for it where it is not there.
pub(crate) fn text_or<'a>(alloc: Global, id: &'a str, default: &'a str) -> Arg<'a>
    ensures rule { rule_of result ≡ default_rule (text_rule id.entry.now) default.entry.now }
    ensures local { result.global ≡ false }
{
    text(alloc, id).default_value(default)
}

/// The argument `--ID N` for a number from 1 to `most`, which has to be there.
pub(crate) fn required_number<'a>(alloc: Global, id: &'a str, most: u32) -> Arg<'a>
    ensures rule { rule_of result ≡ required_rule (number_rule id.entry.now most) }
    ensures local { result.global ≡ false }
{
    number(alloc, id, most).required(true)
}

/// The argument `--ID N` for a number from 1 to `most`; `default` stands for it where it is not
/// there.
pub(crate) fn number_or<'a>(alloc: Global, id: &'a str, most: u32, default: &'a str) -> Arg<'a>
    ensures rule { rule_of result ≡ default_rule (number_rule id.entry.now most) default.entry.now }
    ensures local { result.global ≡ false }
{
    number(alloc, id, most).default_value(default)
}

/// From `least` to `most` words in a row that belong to no option.
pub(crate) fn words<'a>(alloc: Global, id: &'a str, least: usize, most: usize) -> Arg<'a>
    requires order { least ≤ most }
    ensures rule { rule_of result ≡ words_rule id.entry.now least most }
    ensures local { result.global ≡ false }
{
    Arg::new(alloc, id)
        .num_args(least..=most)
        .action(ArgAction::Set)
}

/// Such words, which have to be there.
pub(crate) fn required_words<'a>(alloc: Global, id: &'a str, least: usize, most: usize) -> Arg<'a>
    requires order { least ≤ most }
    ensures rule { rule_of result ≡ required_rule (words_rule id.entry.now least most) }
    ensures local { result.global ≡ false }
{
    words(alloc, id, least, most).required(true)
}
