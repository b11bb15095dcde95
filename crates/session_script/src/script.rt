//! A script, line by line.

ghost use Rattle.std.specs.Prelude.{◌≡◌, ◌<◌, ◌≤◌, ◌+◌, IfOk};
ghost use Rattle.session_script.specs.Played.{PlaysAll, PlaysOne, StandsFor};
ghost use Rattle.session_script.specs.Replay.{PlaysScript, ReplayTells, Playing as PlayingValue, after_text, at_end, bad, past_lines, unended};
ghost use Rattle.session_script.specs.Script.{split_once};

use crate::header::read_header;
use crate::line::read_line;
use crate::playing::Playing;
use crate::words::split_once;
use command_text::{Answer, Ending, beyond_limit, refusal, refused};
use std::alloc::Global;
use wire_base::{List, Memory, Octets};

/// The most octets of a script.
pub const MOST_SCRIPT_OCTETS: usize = 16_777_216;

/// The most lines of a script.
const MOST_LINES: u32 = 100_000;

/// What is printed of a script of both ends of sessions, which are all octets of an input or the
/// first 16777217; `Memory` where there is no room.
pub fn replay_answer(alloc: Global, octets: &[u8]) -> Result<Answer, Memory>
    ensures told { IfOk result (λ made. ReplayTells octets.now made.text made.ending) }
{
    let (within, _) = octets.split_at(MOST_SCRIPT_OCTETS.min(octets.len()));
    play(alloc, within, MOST_SCRIPT_OCTETS < octets.len())
}

/// Plays a script, and gives what is printed of it. `goes_on` says that the input has more octets
/// than may be looked at.
fn play(alloc: Global, octets: &[u8], goes_on: bool) -> Result<Answer, Memory>
    ensures plays { IfOk result (λ made. PlaysScript goes_on (split_once 10 octets.now) made) }
{
    let Some((first, rest)) = split_once(octets, b'\n') else {
        return unended(alloc, 1, goes_on);
    };
    match read_header(alloc, first)? {
        None => bad(alloc, 1),
        Some(header) => {
            let mut playing = Playing::new(alloc, header)?;
            play_on(alloc, &mut playing, rest, goes_on)
        }
    }
}

/// Plays the lines after the first.
fn play_on(
    alloc: Global,
    playing: &mut Playing,
    octets: &[u8],
    goes_on: bool,
) -> Result<Answer, Memory>
    requires changes { playing.old.changes ≡ 0 }
    ensures plays { IfOk result (λ made. (p : PlayingValue) → StandsFor playing.old p
        → PlaysAll goes_on p octets.now made) }
{
    let mut out = List::new(alloc);
    let mut rest = octets;
    for number in 2..MOST_LINES + 1 {
        let Some((line, after)) = split_once(rest, b'\n') else {
            return ended(out, at_end(alloc, number, goes_on, rest)?);
        };
        let is_line = play_line(alloc, playing, line, &mut out)?;
        if !is_line {
            return ended(out, bad(alloc, number)?);
        }
        rest = after;
    }
    ended(out, past_lines(alloc, goes_on, rest)?)
}

/// A text before an answer.
fn ended(mut text: Octets, answer: Answer) -> Result<Answer, Memory>
    ensures after { IfOk result (λ made. made ≡ after_text text answer) }
{
    text.extend(answer.text.as_slice())?;
    Ok(Answer {
        text,
        ending: answer.ending,
    })
}

/// Plays a line, and puts what is printed of it at the end of `out`; whether it is a line at all.
fn play_line(
    alloc: Global,
    playing: &mut Playing,
    line: &[u8],
    out: &mut Octets,
) -> Result<bool, Memory>
    requires changes { playing.old.changes < 100000 }
    ensures plays { IfOk result (λ is_line. (p : PlayingValue) → StandsFor playing.old p
        → PlaysOne p line.now out.old is_line playing.new out.new) }
    ensures changes { playing.new.changes ≤ playing.old.changes + 1 }
{
    match read_line(alloc, line)? {
        None => Ok(false),
        Some(said) => {
            let text = playing.play(alloc, said)?;
            out.extend(text.as_slice())?;
            Ok(true)
        }
    }
}

/// What is printed where no line feed comes any more.
fn at_end(alloc: Global, number: u32, goes_on: bool, rest: &[u8]) -> Result<Answer, Memory>
    ensures answer { IfOk result (λ made. made ≡ at_end number goes_on rest.now) }
{
    if rest.is_empty() && !goes_on {
        return Ok(Answer {
            text: List::new(alloc),
            ending: Ending::Whole,
        });
    }
    unended(alloc, number, goes_on)
}

/// What is printed after the last line that there may be.
fn past_lines(alloc: Global, goes_on: bool, rest: &[u8]) -> Result<Answer, Memory>
    ensures answer { IfOk result (λ made. made ≡ past_lines 100001 goes_on rest.now) }
{
    if rest.is_empty() {
        return at_end(alloc, MOST_LINES + 1, goes_on, rest);
    }
    bad(alloc, MOST_LINES + 1)
}

/// The refusal of a line that has no end, which the limit on octets may have cut.
fn unended(alloc: Global, number: u32, goes_on: bool) -> Result<Answer, Memory>
    ensures answer { IfOk result (λ made. made ≡ unended number goes_on) }
{
    if goes_on {
        beyond_limit(alloc, MOST_SCRIPT_OCTETS)
    } else {
        bad(alloc, number)
    }
}

/// The refusal of a line.
fn bad(alloc: Global, number: u32) -> Result<Answer, Memory>
    ensures answer { IfOk result (λ made. made ≡ bad number) }
{
    Ok(refused(refusal(alloc, "script", u64::from(number))?))
}
