//! The lines of a script after the first.

ghost use Rattle.std.specs.Prelude.{◌≡◌, IfOk, map};
ghost use Rattle.line_words.specs.Reading.{Finds};
ghost use Rattle.session_script.specs.Script.{IsContent, LineIs, alone, alters, creates, epoch_line, numbered, with_number, words_of};

use crate::words::{is_word, words_of};
use line_words::{bounded, read_number, read_octets, read_text};
use std::alloc::Global;
use swima_model::{Content, Locator, Model};
use wire_base::Memory;

/// A line.
#[derive(Debug, Drop)]
pub enum Line {
    /// Creates a record.
    Create(Content),
    /// Gives a record another content.
    Alter(u32, Content),
    /// Deletes a record.
    Delete(u32),
    /// Begins an epoch.
    Epoch(u32),
    /// Keeps no event below an event identifier.
    Trim(u32),
    /// Begins a session.
    Open,
    /// Carries at most that many octets to the validator.
    Up(u32),
    /// Carries at most that many octets to the collector.
    Down(u32),
    /// Carries all until nothing waits.
    Run,
    /// An idle turn of both ends.
    Idle,
    /// Cuts the session.
    Cut,
    /// The mirror takes the last report once more.
    Again,
    /// Prints what waits.
    Waits,
    /// Prints the mirror.
    Show,
}

/// The line, if it is one.
pub(crate) fn read_line(alloc: Global, line: &[u8]) -> Result<Option<Line>, Memory>
    ensures line { IfOk result (λ said. LineIs (words_of line.now) said) }
{
    let words = words_of(alloc, line)?;
    line_of(alloc, words.as_slice())
}

/// What the words say.
fn line_of(alloc: Global, words: &[&[u8]]) -> Result<Option<Line>, Memory>
    ensures line { IfOk result (λ said. LineIs (map (λ word. word.now) words.now) said) }
{
    match words {
        [name] => Ok(alone(name)),
        [name, number] => Ok(numbered(name, read_number(number))),
        [name, ident, digits] => Ok(creates(name, content_of(alloc, ident, digits)?)),
        [name, id, ident, digits] => {
            let content = content_of(alloc, ident, digits)?;
            Ok(alters(name, read_number(id), content))
        }
        _ => Ok(None),
    }
}

/// A line of one word.
fn alone(name: &[u8]) -> Option<Line>
    ensures line { result ≡ alone name.now }
{
    if is_word(name, "open") {
        Some(Line::Open)
    } else if is_word(name, "run") {
        Some(Line::Run)
    } else if is_word(name, "idle") {
        Some(Line::Idle)
    } else if is_word(name, "cut") {
        Some(Line::Cut)
    } else if is_word(name, "again") {
        Some(Line::Again)
    } else if is_word(name, "waits") {
        Some(Line::Waits)
    } else if is_word(name, "show") {
        Some(Line::Show)
    } else {
        None
    }
}

/// A line of a word and a number.
fn numbered(name: &[u8], number: Option<u32>) -> Option<Line>
    ensures line { result ≡ numbered name.now number }
{
    match number {
        None => None,
        Some(number) => with_number(name, number),
    }
}

fn with_number(name: &[u8], number: u32) -> Option<Line>
    ensures line { result ≡ with_number name.now number }
{
    if is_word(name, "epoch") {
        epoch_line(number)
    } else if is_word(name, "delete") {
        Some(Line::Delete(number))
    } else if is_word(name, "trim") {
        Some(Line::Trim(number))
    } else if is_word(name, "up") {
        Some(Line::Up(number))
    } else if is_word(name, "down") {
        Some(Line::Down(number))
    } else {
        None
    }
}

/// No epoch has the number 0.
fn epoch_line(number: u32) -> Option<Line>
    ensures line { result ≡ epoch_line number }
{
    if number == 0 {
        None
    } else {
        Some(Line::Epoch(number))
    }
}

/// A line that creates a record.
fn creates(name: &[u8], content: Option<Content>) -> Option<Line>
    ensures line { result ≡ creates name.now content }
{
    match content {
        Some(content) if is_word(name, "create") => Some(Line::Create(content)),
        _ => None,
    }
}

/// A line that gives a record another content.
fn alters(name: &[u8], id: Option<u32>, content: Option<Content>) -> Option<Line>
    ensures line { result ≡ alters name.now id content }
{
    match (id, content) {
        (Some(id), Some(content)) if is_word(name, "alter") => Some(Line::Alter(id, content)),
        _ => None,
    }
}

/// The content of a record, by the text of its identifier and the digits of its body.
fn content_of(alloc: Global, ident: &[u8], digits: &[u8]) -> Result<Option<Content>, Memory>
    ensures content { Finds (IsContent ident.now digits.now) result }
{
    let Some(ident) = read_text(alloc, ident)? else {
        return Ok(None);
    };
    let Some(octets) = read_octets(alloc, digits)? else {
        return Ok(None);
    };
    let Some(body) = bounded(alloc, octets.as_slice())? else {
        return Ok(None);
    };
    Ok(Some(Content {
        model: Model { pen: 0, kind: 2 },
        source: 0,
        ident,
        locator: Locator::empty(alloc),
        body,
    }))
}
