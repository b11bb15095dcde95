//! What is printed of doors, sweeps and mirrors, and how it ends.

use command_text::Ending;
use pool_text::{Ends, collect_ending, collect_text, follow_ending, follow_text};
use session_core::{SessionEnd, SessionRecord};
use source_set::{SweepError, Swept};
use source_sweeps::SweepStop;
use std::alloc::Global;
use swima_model::{Kind, Point};
use validator_core::Mirror;
use wire_base::{List, Memory, Octets, Stopped};

/// Sessions at a door, each with that many reports and that end.
fn sessions(alloc: Global, noted: &[(u64, SessionEnd)]) -> Result<Ends, Memory> {
    let mut ends = List::new(alloc);
    for (reports, by) in noted {
        let mut record = SessionRecord::new(alloc);
        record.reports = *reports;
        ends.push((record, *by))?;
    }
    Ok(ends)
}

/// The sessions at two doors.
fn two_doors(alloc: Global) -> Result<[Ends; 2], Memory> {
    let refused = SessionEnd::Refused { code: 1, offset: 4 };
    let one = sessions(alloc, &[(2, SessionEnd::PeerClosed), (0, refused)])?;
    let other = sessions(alloc, &[(1, SessionEnd::IdleOut { turns: 600 })])?;
    Ok([one, other])
}

/// Whether a text is this one.
fn is_text(text: &Octets, wanted: &str) -> bool {
    text.as_slice() == wanted.as_bytes()
}

/// Whether `collect` prints the sessions at two doors, of which the second failed, the sweeps, why
/// they stopped, and the book.
fn collect_prints(alloc: Global, doors: &[Ends]) -> Result<bool, Memory> {
    let swept = Swept {
        added: 5,
        changed: 1,
        gone: 2,
        dropped: 1,
    };
    let stop = SweepStop::Sweep(SweepError::BadLine { source: 0, line: 7 });
    let point = Point { epoch: 7, eid: 8 };
    let failed = [false, true];
    let text = collect_text(alloc, doors, &failed, swept, Some(stop), point, 3)?;
    let wanted = "session 1.1 reports 2 peer-closed\nsession 1.2 reports 0 refused 1 4\n\
        session 2.1 reports 1 idle-out 600\ndoor 2 failed\nswept 5 1 2 1\nstopped bad-line\n\
        book 7 8 3\n";
    Ok(is_text(&text, wanted))
}

/// What `collect_prints` answers for the two doors.
fn collect_prints_two_doors(alloc: Global) -> Result<bool, Memory> {
    let doors = two_doors(alloc)?;
    collect_prints(alloc, &doors)
}

#[test]
fn collect_prints_doors_sweeps_and_the_book(rt: HostRuntime) -> Result<(), Memory> {
    assert!(rt; collect_prints_two_doors(rt.alloc())?);
    Ok(())
}

/// Whether `follow` prints the sessions at two doors, of which the first failed, and two mirrors
/// that hold nothing.
fn follow_prints(alloc: Global, doors: &[Ends], mirrors: &[Mirror]) -> Result<bool, Memory> {
    let text = follow_text(alloc, doors, &[true, false], mirrors)?;
    let wanted = "session 1.1 reports 2 peer-closed\nsession 1.2 reports 0 refused 1 4\n\
        door 1 failed\nendpoint 1\nmirror none\nsession 2.1 reports 1 idle-out 600\nendpoint 2\n\
        mirror none\n";
    Ok(is_text(&text, wanted))
}

/// What `follow_prints` answers for the two doors and two new mirrors.
fn follow_prints_two_doors(alloc: Global) -> Result<bool, Memory> {
    let doors = two_doors(alloc)?;
    let mirrors = [
        Mirror::new(alloc, Kind::Ids),
        Mirror::new(alloc, Kind::Full),
    ];
    follow_prints(alloc, &doors, &mirrors)
}

#[test]
fn follow_prints_doors_and_mirrors(rt: HostRuntime) -> Result<(), Memory> {
    assert!(rt; follow_prints_two_doors(rt.alloc())?);
    Ok(())
}

/// Whether running out of memory counts before a door that failed, and that before findings.
fn first_rows_count(alloc: Global) -> Result<bool, Memory> {
    let doors = two_doors(alloc)?;
    let stop = Some(SweepStop::Sweep(SweepError::Memory));
    let memory = collect_ending(&doors, &[false, true], stop) == Err(Stopped::Memory);
    let fault = follow_ending(&doors, &[false, true]) == Err(Stopped::Fault);
    let findings = follow_ending(&doors, &[false, false]) == Ok(Ending::Findings);
    Ok(memory & fault & findings)
}

/// Whether the ending is whole where the one session was closed.
fn is_whole_where_closed(alloc: Global) -> Result<bool, Memory> {
    let closed = [sessions(alloc, &[(1, SessionEnd::Closed)])?];
    Ok(collect_ending(&closed, &[false], None) == Ok(Ending::Whole))
}

#[test]
fn the_first_row_of_an_ending_counts(rt: HostRuntime) -> Result<(), Memory> {
    let first_rows = first_rows_count(rt.alloc())?;
    let last_row = is_whole_where_closed(rt.alloc())?;
    assert!(rt; first_rows & last_row);
    Ok(())
}
