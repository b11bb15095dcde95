//! The lines that `replay` prints.

ghost use Rattle.std.specs.Prelude.{◌≡◌, ◌∷◌, [], IfOk, string_bytes};
ghost use Rattle.std.specs.Fmt.{decimal};
ghost use Rattle.std.specs.List.{flat_map};
ghost use Rattle.session_script.specs.Replay.{octets_text, telling_line, waits_line, waits_text};
ghost use Rattle.command_text.specs.Text.{line};
ghost use Rattle.session_world.specs.declared.telling.Telling.TheVariants as telling;

use collector_core::BookError;
use command_text::{end_line, from_string, refusal, took_line};
use session_world::{Telling, Tellings};
use std::alloc::Global;
use wire_base::{List, Memory, Octets};

/// What is reported, a line for each.
pub(crate) fn told_text(alloc: Global, told: &Tellings) -> Result<Octets, Memory>
    ensures text { IfOk result (λ made. made ≡ flat_map telling_line told.now) }
{
    let mut out = List::new(alloc);
    for one in told.as_slice() {
        let line = telling_line(alloc, *one)?;
        out.extend(line.as_slice())?;
    }
    Ok(out)
}

/// A line of what is reported.
fn telling_line(alloc: Global, told: Telling) -> Result<Octets, Memory>
    ensures line { IfOk result (λ made. made ≡ telling_line told) }
{
    match told {
        Telling::Refused(error) => book_line(alloc, error),
        Telling::Took {
            point,
            count,
            answer,
        } => took_line(alloc, point, count as usize, answer),
        Telling::CollectorEnds(end) => end_line(alloc, "collector", end),
        Telling::ValidatorEnds(end) => end_line(alloc, "validator", end),
    }
}

/// Why the inventory refused a change.
fn book_line(alloc: Global, error: BookError) -> Result<Octets, Memory>
    ensures line { IfOk result (λ made. made ≡ telling_line (telling.Refused error)) }
{
    match error {
        BookError::EidsSpent { last } => refusal(alloc, "book eids-spent", u64::from(last)),
        BookError::IdsSpent { next } => refusal(alloc, "book ids-spent", u64::from(next)),
        BookError::UnknownRecord { id } => refusal(alloc, "book unknown-record", u64::from(id)),
        BookError::RecordsFull { count } => refusal(alloc, "book records-full", u64::from(count)),
        BookError::BytesFull { held, given } => two_numbers(alloc, "book bytes-full", held, given),
        BookError::EpochNotNew { latest, given } => {
            two_numbers(
                alloc,
                "book epoch-not-new",
                u64::from(latest),
                u64::from(given),
            )
        }
        BookError::TrimPast { last, given } => {
            two_numbers(alloc, "book trim-past", u64::from(last), u64::from(given))
        }
        BookError::Memory => Err(Memory),
    }
}

fn two_numbers(alloc: Global, word: &str, one: u64, other: u64) -> Result<Octets, Memory>
    ensures line { IfOk result (λ made. made ≡ line (word.now ∷ decimal one ∷ decimal other ∷ [])) }
{
    Ok(from_string(format!(in alloc; "{word} {one} {other}\n")?))
}

/// What waits for the validator, and for the collector.
pub(crate) fn waits_text(alloc: Global, up: &[u8], down: &[u8]) -> Result<Octets, Memory>
    ensures text { IfOk result (λ made. made ≡ waits_text up.now down.now) }
{
    let mut out = waits_line(alloc, "up", up)?;
    let second = waits_line(alloc, "down", down)?;
    out.extend(second.as_slice())?;
    Ok(out)
}

fn waits_line(alloc: Global, way: &str, octets: &[u8]) -> Result<Octets, Memory>
    ensures line { IfOk result (λ made. made ≡ waits_line way.now octets.now) }
{
    let digits = digits_of(alloc, octets)?;
    Ok(from_string(format!(in alloc; "waits {way} {digits}\n")?))
}

/// Octets as two hexadecimal digits each, or a dash where there are none.
fn digits_of(alloc: Global, octets: &[u8]) -> Result<String, Memory>
    ensures digits { IfOk result (λ made. string_bytes made ≡ octets_text octets.now) }
{
    if octets.is_empty() {
        return Ok(format!(in alloc; "-")?);
    }
    Ok(hex::encode(alloc, octets)?)
}
