//! Events of a mirror's records in any order of their identifiers.

ghost use Rattle.std.specs.Prelude.{◌<◌, ◌^◌, IfSome};
ghost use Rattle.swima_model.specs.Size.{report_count};

use crate::reports::{inventory, push_event, push_record, report_of};
use std::alloc::Global;
use swima_model::Action::{Alteration, Creation, Deletion};
use swima_model::{Action, Events, Kind, Point, Records, Report};
use validator_core::{Mirror, Taken};
use wire_base::List;

/// A mirror at the event 1 of the epoch 1 that holds the records 10, 20 and 30, which came in
/// another order.
fn mirror(alloc: Global) -> Option<Mirror> {
    let whole = inventory(records(alloc, &[(20, b'b'), (30, b'c'), (10, b'a')])?)?;
    let mut mirror = Mirror::new(alloc, Kind::Full);
    match mirror.take_owned(whole) {
        Taken::Adopted => Some(mirror),
        _ => None,
    }
}

/// Records with these identifiers, whose locators are these octets.
fn records(alloc: Global, parts: &[(u32, u8)]) -> Option<Records> {
    let mut records = List::new(alloc);
    push_all(alloc, &mut records, parts)?;
    Some(records)
}

fn push_all(alloc: Global, records: &mut Records, parts: &[(u32, u8)]) -> Option<()> {
    for (id, octet) in parts {
        push_record(alloc, records, *id, &[*octet])?;
    }
    Some(())
}

/// The events of a report, from the event 2 on: what each does to which record, and the octet that
/// is the record's locator.
fn report(alloc: Global, changes: &[(Action, u32, u8)]) -> Option<Report>
    ensures few { IfSome result (λ report. report_count report < 2 ^ 32) }
{
    let mut events = Events::new(alloc);
    let eid = push_changes(alloc, &mut events, changes)?;
    report_of(events, eid)
}

/// Pushes an event for each change, from the event 2 on, and gives the last event.
fn push_changes(alloc: Global, events: &mut Events, changes: &[(Action, u32, u8)]) -> Option<u32> {
    let mut eid = 1u32;
    for (action, id, octet) in changes {
        eid = eid.checked_add(1)?;
        push_event(alloc, events, eid, *action, *id, &[*octet])?;
    }
    Some(eid)
}

/// Whether the mirror holds exactly these records, in this order.
fn holds(mirror: &Mirror, wanted: &[(u32, u8)]) -> bool {
    let mut place = 0u32;
    let mut all = wanted.len() == mirror.count() as usize;
    for (id, octet) in wanted {
        let Some(record) = mirror.record_at(place) else {
            return false;
        };
        all = all & (record.id == *id) & (record.content.locator.bytes() == [*octet].as_slice());
        place = place.wrapping_add(1);
    }
    all
}

/// Whether the mirror follows the changes and then holds exactly these records.
fn makes(alloc: Global, changes: &[(Action, u32, u8)], wanted: &[(u32, u8)]) -> Option<bool> {
    let mut mirror = mirror(alloc)?;
    Some(advances(alloc, &mut mirror, changes) & holds(&mirror, wanted))
}

/// Whether the mirror follows the changes from the event 1 on.
fn advances(alloc: Global, mirror: &mut Mirror, changes: &[(Action, u32, u8)]) -> bool {
    match report(alloc, changes) {
        Some(report) => matches!(mirror.take_owned(report), Taken::Advanced { from: 1, .. }),
        None => false,
    }
}

#[test]
fn records_are_put_in_place(rt: HostRuntime) {
    let changes = [
        (Alteration, 20, b'B'),
        (Creation, 40, b'd'),
        (Creation, 50, b'e'),
        (Alteration, 40, b'D'),
    ];
    let wanted = [(10, b'a'), (20, b'B'), (30, b'c'), (40, b'D'), (50, b'e')];
    assert!(rt; makes(rt.alloc(), &changes, &wanted) == Some(true));
}

#[test]
fn records_come_among_others(rt: HostRuntime) {
    let changes = [
        (Creation, 40, b'd'),
        (Creation, 25, b'x'),
        (Creation, 5, b'y'),
        (Alteration, 30, b'C'),
    ];
    let wanted = [
        (5, b'y'),
        (10, b'a'),
        (20, b'b'),
        (25, b'x'),
        (30, b'C'),
        (40, b'd'),
    ];
    assert!(rt; makes(rt.alloc(), &changes, &wanted) == Some(true));
}

#[test]
fn records_go_and_others_stay(rt: HostRuntime) {
    let changes = [
        (Deletion, 10, b'a'),
        (Alteration, 30, b'C'),
        (Creation, 40, b'd'),
        (Deletion, 40, b'd'),
    ];
    let two_go = makes(rt.alloc(), &changes, &[(20, b'b'), (30, b'C')]) == Some(true);
    let changes = [
        (Deletion, 30, b'c'),
        (Creation, 15, b'x'),
        (Deletion, 10, b'a'),
    ];
    let one_comes = makes(rt.alloc(), &changes, &[(15, b'x'), (20, b'b')]) == Some(true);
    let changes = [
        (Deletion, 10, b'a'),
        (Deletion, 30, b'c'),
        (Deletion, 20, b'b'),
    ];
    let all_go = makes(rt.alloc(), &changes, &[]) == Some(true);
    assert!(rt; two_go & one_comes & all_go);
}

#[test]
fn a_record_comes_again(rt: HostRuntime) {
    let changes = [
        (Deletion, 20, b'b'),
        (Creation, 20, b'B'),
        (Alteration, 20, b'Z'),
    ];
    let wanted = [(10, b'a'), (20, b'Z'), (30, b'c')];
    let held = makes(rt.alloc(), &changes, &wanted) == Some(true);
    let changes = [
        (Creation, 40, b'd'),
        (Deletion, 40, b'd'),
        (Creation, 40, b'e'),
        (Deletion, 30, b'c'),
    ];
    let wanted = [(10, b'a'), (20, b'b'), (40, b'e')];
    let created = makes(rt.alloc(), &changes, &wanted) == Some(true);
    assert!(rt; held & created);
}

/// The events 2 to 4097: 4,095 that create records, in falling order of their identifiers, and the
/// last, which creates record 20 again.
fn last_contradicts(alloc: Global) -> Option<Report>
    ensures few { IfSome result (λ report. report_count report < 2 ^ 32) }
{
    let mut events = Events::new(alloc);
    push_falling(alloc, &mut events)?;
    push_event(alloc, &mut events, 4097, Creation, 20, b"x")?;
    report_of(events, 4097)
}

/// Pushes the events 2 to 4096, which create records in falling order of their identifiers.
fn push_falling(alloc: Global, events: &mut Events) -> Option<()> {
    for eid in 2..4097u32 {
        let id = 5000u32.checked_sub(eid)?;
        push_event(alloc, events, eid, Creation, id, b"x")?;
    }
    Some(())
}

/// Whether a mirror refuses a report for its last event.
fn refuses_the_last(alloc: Global, mirror: &mut Mirror) -> bool {
    match last_contradicts(alloc) {
        Some(report) => {
            matches!(
                mirror.take_owned(report),
                Taken::Contradiction { eid: 4097 }
            )
        }
        None => false,
    }
}

/// Whether a report whose last event alone does not fit leaves a mirror as it was, with its mark.
fn stays_whole(alloc: Global) -> Option<bool> {
    let mut mirror = mirror(alloc)?;
    let refused = refuses_the_last(alloc, &mut mirror);
    let stays = mirror.point() == Some(Point { epoch: 1, eid: 1 });
    let held = holds(&mirror, &[(10, b'a'), (20, b'b'), (30, b'c')]);
    Some(refused & stays & held & mirror.off())
}

#[test]
fn a_contradiction_after_4095_events_leaves_all(rt: HostRuntime) {
    assert!(rt; stays_whole(rt.alloc()) == Some(true));
}
