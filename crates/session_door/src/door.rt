//! The links of one door, one after another, for either end.

ghost use Rattle.std.specs.Prelude.{◌≡◌, ◌<◌, ◌++◌, ◌∷◌, [], IsTrue, false, vec_capacity, vec_len};
ghost use Rattle.session_door.specs.Visits.{Notes, VisitsNext, Works, door_state};

use crate::gate::Gate;
use crate::session::Session;
use crate::work::{Stop, Work};
use session_core::{SessionEnd, SessionRecord};
use std::alloc::Global;
use wire_base::{Came, Door, List};

/// Holds sessions on the links of a door, one after another, until that many were held, or the door
/// has ended or failed. Each link goes back after its session. Where memory runs out for what is
/// noted of one more session, no link is taken for it.
pub(crate) fn work_door<O, D: Door, S: Session<O, D::L>, G: Gate>(
    alloc: Global,
    session: &S,
    beside: &mut O,
    door: &mut D,
    worker: u32,
    sessions: u32,
    gate: &G,
) -> Work
    requires sound { S.sound session.now }
    requires home { D.out door.old ≡ false }
    requires some { 0 < sessions }
    ensures works { Works (S.held session.now) D.L.faults sessions beside.old (door_state D.left D.returned D.last D.faults door.old)
        beside.new (door_state D.left D.returned D.last D.faults door.new) result }
    ensures home { D.out door.new ≡ false }
{
    let mut ends = Vec::new(alloc);
    let stop = visit_all(
        alloc, session, beside, door, worker, sessions, gate, &mut ends,
    );
    Work {
        ends: List::from_vec(ends),
        stop,
    }
}

/// Holds the sessions, and puts what is noted of each at the end of `ends`. Gives why no further
/// link was taken.
fn visit_all<O, D: Door, S: Session<O, D::L>, G: Gate>(
    alloc: Global,
    session: &S,
    beside: &mut O,
    door: &mut D,
    worker: u32,
    sessions: u32,
    gate: &G,
    ends: &mut Vec<(SessionRecord, SessionEnd)>,
) -> Stop
    requires sound { S.sound session.now }
    requires home { D.out door.old ≡ false }
    requires some { 0 < sessions }
    requires none { ends.old.items ≡ [] }
    ensures works { Works (S.held session.now) D.L.faults sessions beside.old (door_state D.left D.returned D.last D.faults door.old)
        beside.new (door_state D.left D.returned D.last D.faults door.new) (record { ends = ends.new.items; stop = result }) }
    ensures home { D.out door.new ≡ false }
{
    for done in 0..sessions {
        let visited = visit_and_note(alloc, session, beside, door, worker, done + 1, gate, ends);
        if let Err(stop) = visited {
            return stop;
        }
    }
    Stop::Done
}

/// Holds a session on the next link of a door, and puts what is noted of it at the end of `ends`.
/// Where there is no room for that, no link is taken.
fn visit_and_note<O, D: Door, S: Session<O, D::L>, G: Gate>(
    alloc: Global,
    session: &S,
    beside: &mut O,
    door: &mut D,
    worker: u32,
    number: u32,
    gate: &G,
    ends: &mut Vec<(SessionRecord, SessionEnd)>,
) -> Result<(), Stop>
    requires sound { S.sound session.now }
    requires home { D.out door.old ≡ false }
    ensures notes { Notes (S.held session.now) D.L.faults beside.old (door_state D.left D.returned D.last D.faults door.old) ends.old.items
        beside.new (door_state D.left D.returned D.last D.faults door.new) ends.new.items result }
    ensures home { D.out door.new ≡ false }
{
    if !make_room(ends) {
        return Err(Stop::Memory);
    }
    let noted = visit_next(alloc, session, beside, door, worker, number, gate)?;
    put(ends, noted);
    Ok(())
}

/// Makes room for what is noted of one more session; whether there is room.
fn make_room(ends: &mut Vec<(SessionRecord, SessionEnd)>) -> bool
    ensures same { ends.new.items ≡ ends.old.items }
    ensures room { IsTrue result → vec_len ends.new < vec_capacity ends.new }
{
    ends.reserve(1).is_ok()
}

/// Puts what is noted of a session at the end, where there is room.
fn put(ends: &mut Vec<(SessionRecord, SessionEnd)>, noted: (SessionRecord, SessionEnd))
    requires room { vec_len ends.old < vec_capacity ends.old }
    ensures appended { ends.new.items ≡ ends.old.items ++ noted ∷ [] }
{
    ends.push(noted).unwrap();
}

/// Holds a session on the next link of a door, where one comes.
fn visit_next<O, D: Door, S: Session<O, D::L>, G: Gate>(
    alloc: Global,
    session: &S,
    beside: &mut O,
    door: &mut D,
    worker: u32,
    number: u32,
    gate: &G,
) -> Result<(SessionRecord, SessionEnd), Stop>
    requires sound { S.sound session.now }
    requires home { D.out door.old ≡ false }
    ensures visits { VisitsNext (S.held session.now) D.L.faults beside.old (door_state D.left D.returned D.last D.faults door.old)
        beside.new (door_state D.left D.returned D.last D.faults door.new) result }
    ensures home { D.out door.new ≡ false }
{
    match door.next() {
        Came::Link(mut link) => {
            gate.enter(worker, number);
            let noted = session.hold(alloc, beside, &mut link);
            gate.leave(worker, number, noted.1);
            door.back(link);
            Ok(noted)
        }
        Came::Ended => Err(Stop::Ended),
        Came::Failed => Err(Stop::Failed),
    }
}
