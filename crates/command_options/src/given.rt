//! What `clap` found for an argument.

ghost use Rattle.clap.specs.Words.{app_of, first_of, found_of, is_simple_and_free, rows_of};
ghost use Rattle.command_options.specs.Given.{Finds, IsNumber, number_of, texts_of};
ghost use Rattle.std.specs.Prelude.{◌≡◌, IfOk, IsSome, Some, map, true};

use crate::refused::OptionsRefused;
use clap::error::ErrorKind;
use clap::{ArgMatches, Command};
use std::alloc::Global;
use wire_base::{List, Memory, Text};

/// Texts in order.
pub type Texts = List<Text>;

/// What a command finds in the words after its name.
pub(crate) fn found<'a>(
    command: Command<'a>,
    words: &'a [&'a str],
) -> Result<ArgMatches<'a>, OptionsRefused>
    requires simple { is_simple_and_free (app_of command) ≡ true }
    ensures found { Finds (app_of command.entry) (map (λ word. word.now) words.entry.now) result }
{
    match command.try_get_matches_from(words) {
        Ok(matches) => Ok(matches),
        Err(error) => match error.kind() {
            ErrorKind::OutOfMemory => Err(OptionsRefused::Memory),
            _ => Err(OptionsRefused::Usage),
        },
    }
}

/// The text of an argument that has one.
pub(crate) fn text_of<'a>(matches: &ArgMatches<'a>, id: &str) -> &'a str
    requires there { IsSome (first_of id.now (rows_of (found_of matches.now))) }
    ensures text { first_of id.now (rows_of (found_of matches.now)) ≡ Some result.now }
{
    matches.get_str(id).unwrap()
}

/// The number that the text of an argument spells, of an argument with one of 32 bits.
pub(crate) fn number_of(matches: &ArgMatches<'_>, id: &str) -> u32
    requires there { IsNumber id.now (rows_of (found_of matches.now)) }
    ensures number { number_of id.now (rows_of (found_of matches.now)) ≡ Some result }
{
    matches.get_one::<u32>(id).unwrap()
}

/// The words of an argument, in their order.
pub(crate) fn texts_of(alloc: Global, matches: &ArgMatches<'_>, id: &str) -> Result<Texts, Memory>
    ensures texts { IfOk result (λ texts. texts_of id.now (rows_of (found_of matches.now)) ≡ texts) }
{
    match matches.get_strs(id) {
        Some(words) => copied(alloc, words),
        None => Ok(List::new(alloc)),
    }
}

/// Words as texts.
fn copied(alloc: Global, words: &[&str]) -> Result<Texts, Memory>
    ensures texts { IfOk result (λ texts. texts ≡ map (λ word. word.now) words.now) }
{
    let mut texts = List::new(alloc);
    for word in words {
        texts.push(Text::new(alloc, word)?)?;
    }
    Ok(texts)
}
