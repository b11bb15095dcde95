//! How `collect` and `follow` end.

ghost use Rattle.std.specs.Prelude.{◌≡◌, ◌||◌};
ghost use Rattle.std.specs.List.{list_any};
ghost use Rattle.session_core.specs.Driving.{is_link_fault, is_memory};
ghost use Rattle.source_sweeps.specs.Sweepings.{stopped_failed};
ghost use Rattle.pool_text.specs.Endings.{collect_ending, follow_ending, is_wrong, some_end, some_end_at, stopped_memory, stopped_wrong};

use crate::door_lines::Ends;
use command_text::Ending;
use session_core::SessionEnd;
use source_set::SweepError;
use source_sweeps::SweepStop;
use wire_base::Stopped;

/// How `collect` ends: the first row that holds.
///
/// | answer | when |
/// |---|---|
/// | `Memory` | a session or the sweeping ended since memory ran out |
/// | `Fault` | a call of a link, a door or a source failed |
/// | `Findings` | an end refused, a link ended within a batch, or sweeping stopped otherwise |
/// | `Whole` | else |
pub fn collect_ending(
    ends: &[Ends],
    door_failed: &[bool],
    stopped: Option<SweepStop>,
) -> Result<Ending, Stopped>
    ensures ending { result ≡ collect_ending ends.now door_failed.now stopped }
{
    if ran_out(ends, stopped) {
        return Err(Stopped::Memory);
    }
    if has_failed(ends, door_failed, stopped) {
        return Err(Stopped::Fault);
    }
    if went_wrong(ends, stopped) {
        return Ok(Ending::Findings);
    }
    Ok(Ending::Whole)
}

/// How `follow` ends: as `collect`, without the sweeping.
pub fn follow_ending(ends: &[Ends], door_failed: &[bool]) -> Result<Ending, Stopped>
    ensures ending { result ≡ follow_ending ends.now door_failed.now }
{
    collect_ending(ends, door_failed, None)
}

/// Whether memory ran out, for a session or for the sweeping.
fn ran_out(ends: &[Ends], stopped: Option<SweepStop>) -> bool
    ensures memory { result ≡ (some_end_at is_memory ends.now || stopped_memory stopped) }
{
    some_memory(ends) || is_stopped_memory(stopped)
}

/// Whether a call of a link, a door or a source failed.
fn has_failed(ends: &[Ends], door_failed: &[bool], stopped: Option<SweepStop>) -> bool
    ensures failed { result ≡ (some_end_at is_link_fault ends.now || list_any (λ failed. failed) door_failed.now || stopped_failed stopped) }
{
    some_link_fault(ends) || some_failed(door_failed) || is_stopped_failed(stopped)
}

/// Whether something is wrong with what a session heard, or with what the sweeps met.
fn went_wrong(ends: &[Ends], stopped: Option<SweepStop>) -> bool
    ensures wrong { result ≡ (some_end_at is_wrong ends.now || stopped_wrong stopped) }
{
    some_wrong(ends) || is_stopped_wrong(stopped)
}

// ---- the sessions at all doors

fn some_memory(doors: &[Ends]) -> bool
    ensures memory { result ≡ some_end_at is_memory doors.now }
{
    doors.iter().any(|ends| has_memory(ends))
}

fn some_link_fault(doors: &[Ends]) -> bool
    ensures failed { result ≡ some_end_at is_link_fault doors.now }
{
    doors.iter().any(|ends| has_link_fault(ends))
}

fn some_wrong(doors: &[Ends]) -> bool
    ensures wrong { result ≡ some_end_at is_wrong doors.now }
{
    doors.iter().any(|ends| has_wrong(ends))
}

fn some_failed(door_failed: &[bool]) -> bool
    ensures failed { result ≡ list_any (λ failed. failed) door_failed.now }
{
    door_failed.iter().any(|failed| *failed)
}

// ---- the sessions at a door

fn has_memory(ends: &Ends) -> bool
    ensures memory { result ≡ some_end is_memory ends.now }
{
    ends.as_slice().iter().any(|noted| is_memory(noted.1))
}

fn has_link_fault(ends: &Ends) -> bool
    ensures failed { result ≡ some_end is_link_fault ends.now }
{
    ends.as_slice().iter().any(|noted| is_link_fault(noted.1))
}

fn has_wrong(ends: &Ends) -> bool
    ensures wrong { result ≡ some_end is_wrong ends.now }
{
    ends.as_slice().iter().any(|noted| is_wrong(noted.1))
}

// ---- the end of a session

fn is_memory(by: SessionEnd) -> bool
    ensures memory { result ≡ is_memory by }
{
    by == SessionEnd::Memory
}

fn is_link_fault(by: SessionEnd) -> bool
    ensures failed { result ≡ is_link_fault by }
{
    by == SessionEnd::LinkFault
}

fn is_wrong(by: SessionEnd) -> bool
    ensures wrong { result ≡ is_wrong by }
{
    matches!(
        by,
        SessionEnd::Refused { .. } | SessionEnd::PeerError { .. } | SessionEnd::Torn { .. }
    )
}

// ---- why sweeping stopped

fn is_stopped_memory(stopped: Option<SweepStop>) -> bool
    ensures memory { result ≡ stopped_memory stopped }
{
    matches!(stopped, Some(SweepStop::Sweep(SweepError::Memory)))
}

fn is_stopped_failed(stopped: Option<SweepStop>) -> bool
    ensures failed { result ≡ stopped_failed stopped }
{
    matches!(
        stopped,
        Some(SweepStop::Sweep(SweepError::SourceFailed { .. }))
    )
}

fn is_stopped_wrong(stopped: Option<SweepStop>) -> bool
    ensures wrong { result ≡ stopped_wrong stopped }
{
    matches!(
        stopped,
        Some(SweepStop::Sweep(SweepError::BadLine { .. }))
            | Some(SweepStop::Sweep(SweepError::UnknownKey { .. }))
            | Some(SweepStop::Sweep(SweepError::Book(_)))
            | Some(SweepStop::ClockRange { .. })
    )
}
