//! What `collect` prints.

ghost use Rattle.std.specs.Prelude.{◌≡◌, ◌++◌, IfOk, OnOk};
ghost use Rattle.std.specs.List.{zip};
ghost use Rattle.pool_text.specs.Text.{book_line, collect_text, door_text, numbered, stop_word, stopped_line, swept_line};

use crate::door_lines::{Ends, put_door};
use command_text::from_string;
use source_set::{SweepError, Swept};
use source_sweeps::SweepStop;
use std::alloc::Global;
use swima_model::Point;
use wire_base::{List, Memory, Octets};

/// What `collect` prints. The lines of each door come first, by what is noted of its sessions and
/// whether it failed. After them comes what the sweeps did, and why they stopped, if they did. The
/// last line is the inventory's point in the end, with the number of its records.
pub fn collect_text(
    alloc: Global,
    ends: &[Ends],
    door_failed: &[bool],
    swept: Swept,
    stopped: Option<SweepStop>,
    point: Point,
    count: u32,
) -> Result<Octets, Memory>
    ensures text { IfOk result (λ made. made ≡ collect_text ends.now door_failed.now swept stopped point count) }
{
    let mut out = List::new(alloc);
    put_doors(&mut out, ends, door_failed)?;
    let swept = swept_line(alloc, swept)?;
    out.extend(swept.as_slice())?;
    put_stopped(&mut out, stopped)?;
    let book = book_line(alloc, point, count)?;
    out.extend(book.as_slice())?;
    Ok(out)
}

/// Puts the lines of each door at the end of `out`.
fn put_doors(out: &mut Octets, ends: &[Ends], door_failed: &[bool]) -> Result<(), Memory>
    ensures appended { OnOk result (out.new ≡ out.old ++ numbered door_text 1 (zip ends.now door_failed.now)) }
{
    let count = ends.len().min(door_failed.len());
    for place in 0..count {
        put_door(out, place as u64 + 1, &ends[place], door_failed[place])?;
    }
    Ok(())
}

fn swept_line(alloc: Global, swept: Swept) -> Result<Octets, Memory>
    ensures line { IfOk result (λ made. made ≡ swept_line swept) }
{
    let Swept {
        added,
        changed,
        gone,
        dropped,
    } = swept;
    Ok(from_string(format!(in alloc; "swept {added} {changed} {gone} {dropped}\n")?))
}

/// Puts why sweeping stopped at the end of `out`, where it did.
fn put_stopped(out: &mut Octets, stopped: Option<SweepStop>) -> Result<(), Memory>
    ensures appended { OnOk result (out.new ≡ out.old ++ stopped_line stopped) }
{
    match stopped {
        None => Ok(()),
        Some(why) => {
            out.extend(b"stopped ")?;
            out.extend(stop_word(why).as_bytes())?;
            out.push(b'\n')
        }
    }
}

/// The word that says why sweeping stopped.
fn stop_word(why: SweepStop) -> &'static str
    ensures word { result.now ≡ stop_word why }
{
    match why {
        SweepStop::Sweep(SweepError::SourceFailed { .. }) => "source-failed",
        SweepStop::Sweep(SweepError::BadLine { .. }) => "bad-line",
        SweepStop::Sweep(SweepError::UnknownKey { .. }) => "unknown-key",
        SweepStop::Sweep(SweepError::Book(_)) => "book",
        SweepStop::Sweep(SweepError::Memory) => "memory",
        SweepStop::ClockRange { .. } => "clock",
    }
}

fn book_line(alloc: Global, point: Point, count: u32) -> Result<Octets, Memory>
    ensures line { IfOk result (λ made. made ≡ book_line point count) }
{
    let Point { epoch, eid } = point;
    Ok(from_string(format!(in alloc; "book {epoch} {eid} {count}\n")?))
}
