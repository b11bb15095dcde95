//! The lines of a door: those of its sessions, and whether it failed.

ghost use Rattle.std.specs.Prelude.{◌≡◌, ◌++◌, IfOk, OnOk, true};
ghost use Rattle.pool_text.specs.Text.{door_text, failed_line, numbered, session_line};

use command_text::{end_line, from_string};
use session_core::{SessionEnd, SessionRecord};
use std::alloc::Global;
use wire_base::{List, Memory, Octets};

/// What is noted of each session at a door, in order, and how it ended.
pub type Ends = List<(SessionRecord, SessionEnd)>;

/// Puts the lines of the door of this number at the end of `out`.
pub(crate) fn put_door(
    out: &mut Octets,
    worker: u64,
    ends: &Ends,
    failed: bool,
) -> Result<(), Memory>
    ensures appended { OnOk result (out.new ≡ out.old ++ door_text worker (ends.now, failed)) }
{
    put_sessions(out, worker, ends.as_slice())?;
    put_failed(out, worker, failed)
}

/// Puts a line for each session of a worker at the end of `out`.
fn put_sessions(
    out: &mut Octets,
    worker: u64,
    ends: &[(SessionRecord, SessionEnd)],
) -> Result<(), Memory>
    ensures appended { OnOk result (out.new ≡ out.old ++ numbered (session_line worker) 1 ends.now) }
{
    for (place, noted) in ends.iter().enumerate() {
        let line = session_line(out.allocator(), worker, place as u64 + 1, noted)?;
        out.extend(line.as_slice())?;
    }
    Ok(())
}

/// The line of the session of this number, of a worker.
fn session_line(
    alloc: Global,
    worker: u64,
    session: u64,
    noted: &(SessionRecord, SessionEnd),
) -> Result<Octets, Memory>
    ensures line { IfOk result (λ made. made ≡ session_line worker session noted.now) }
{
    let reports = noted.0.reports;
    let who = format!(in alloc; "session {worker}.{session} reports {reports}")?;
    end_line(alloc, &who, noted.1)
}

/// Puts that a door failed at the end of `out`, where it did.
fn put_failed(out: &mut Octets, worker: u64, failed: bool) -> Result<(), Memory>
    ensures appended { OnOk result (out.new ≡ out.old ++ failed_line worker failed) }
{
    if !failed {
        return Ok(());
    }
    let line = failed_line(out.allocator(), worker)?;
    out.extend(line.as_slice())
}

/// The line of a door that failed.
fn failed_line(alloc: Global, worker: u64) -> Result<Octets, Memory>
    ensures line { IfOk result (λ made. made ≡ failed_line worker true) }
{
    Ok(from_string(format!(in alloc; "door {worker} failed\n")?))
}
