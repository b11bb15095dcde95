//! How many records and octets a mirror holds, and copies of its answers.

ghost use Rattle.std.specs.Prelude.{◌<◌, ◌^◌, IfSome};
ghost use Rattle.swima_model.specs.Size.{report_count};

use crate::reports::{inventory, push_event, push_record, record, report_of};
use std::alloc::Global;
use std::test::Fail;
use swima_model::Action::{Creation, Deletion};
use swima_model::{Body, Events, Kind, Locator, Records, Report};
use validator_core::{Mirror, Taken};
use wire_base::{List, Memory, TryCopy};

/// Records of the identifiers from 0 to below `count`, without octets.
fn records_below(alloc: Global, count: u32) -> Option<Records> {
    let mut records = List::new(alloc);
    push_below(alloc, &mut records, count)?;
    Some(records)
}

fn push_below(alloc: Global, records: &mut Records, count: u32) -> Option<()> {
    for id in 0..count {
        push_record(alloc, records, id, b"")?;
    }
    Some(())
}

/// The answer of a new mirror to records of the identifiers from 0 to below `count`, and of `last`.
fn answer_to(alloc: Global, count: u32, last: u32) -> Option<Taken> {
    let mut records = records_below(alloc, count)?;
    push_record(alloc, &mut records, last, b"")?;
    let report = inventory(records)?;
    Some(Mirror::new(alloc, Kind::Full).take_owned(report))
}

#[test]
fn adopts_up_to_65536_records(rt: HostRuntime) {
    let large = Taken::Large {
        count: 65537,
        octets: 0,
    };
    let adopted = answer_to(rt.alloc(), 65535, 65535) == Some(Taken::Adopted);
    let one_more = answer_to(rt.alloc(), 65536, 65536) == Some(large);
    let doubled = answer_to(rt.alloc(), 65536, 3) == Some(Taken::Doubled { id: 3 });
    assert!(rt; adopted & one_more & doubled);
}

/// A record more at the event 2, with a locator of one octet, and one less at the event 3, whose
/// identifier is 0.
fn one_more_one_less(alloc: Global, more: u32) -> Option<Report>
    ensures few { IfSome result (λ report. report_count report < 2 ^ 32) }
{
    let mut events = Events::new(alloc);
    push_event(alloc, &mut events, 2, Creation, more, b"/")?;
    push_event(alloc, &mut events, 3, Deletion, 0, b"")?;
    report_of(events, 3)
}

/// A record less at the event 2, whose identifier is 0, and one more at the event 3.
fn one_less_one_more(alloc: Global, more: u32) -> Option<Report>
    ensures few { IfSome result (λ report. report_count report < 2 ^ 32) }
{
    let mut events = Events::new(alloc);
    push_event(alloc, &mut events, 2, Deletion, 0, b"")?;
    push_event(alloc, &mut events, 3, Creation, more, b"")?;
    report_of(events, 3)
}

/// Whether the mirror answers so, and then holds that many records with this mark.
fn answers(mirror: &mut Mirror, report: Report, wanted: Taken, count: u32, off: bool) -> bool
    requires few { report_count report < 2 ^ 32 }
{
    let taken = mirror.take(&report) == wanted;
    taken & ((mirror.count(), mirror.off()) == (count, off))
}

/// Whether a new mirror follows events while there are never more than 65536 records.
fn follows_up_to_65536_records(alloc: Global) -> Option<bool> {
    let mut mirror = Mirror::new(alloc, Kind::Full);
    follows_events(alloc, &mut mirror)
}

/// What `follows_up_to_65536_records` answers for its mirror.
fn follows_events(alloc: Global, mirror: &mut Mirror) -> Option<bool> {
    let whole = inventory(records_below(alloc, 65536)?)?;
    let adopted = answers(mirror, whole, Taken::Adopted, 65536, false);
    let large = Taken::Large {
        count: 65537,
        octets: 1,
    };
    let more = one_more_one_less(alloc, 70000)?;
    let refused = answers(mirror, more, large, 65536, true);
    let less = one_less_one_more(alloc, 70000)?;
    let advanced = Taken::Advanced { from: 1, to: 3 };
    Some(adopted & refused & answers(mirror, less, advanced, 65536, true))
}

#[test]
fn follows_events_up_to_65536_records(rt: HostRuntime) {
    assert!(rt; follows_up_to_65536_records(rt.alloc()) == Some(true));
}

/// 256 records with bodies of 1048576 octets: 268435456 together, which a mirror holds.
fn large_records(alloc: Global) -> Option<Records> {
    let octets = vec![in alloc; 0; 1_048_576].ok()?;
    let mut records = List::new(alloc);
    push_large(alloc, &mut records, &octets)?;
    Some(records)
}

/// Pushes 256 records with this body.
fn push_large(alloc: Global, records: &mut Records, octets: &[u8]) -> Option<()> {
    for id in 0..256 {
        let body = Body::new(alloc, octets).ok()?;
        let record = record(alloc, id, Locator::empty(alloc), body);
        records.push(record).ok()?;
    }
    Some(())
}

/// Whether a new mirror holds as many octets, and no more: the octet of a locator is one too many.
fn holds_most_octets(alloc: Global) -> Option<bool> {
    let mut mirror = Mirror::new(alloc, Kind::Full);
    holds_no_more(alloc, &mut mirror)
}

/// What `holds_most_octets` answers for its mirror.
fn holds_no_more(alloc: Global, mirror: &mut Mirror) -> Option<bool> {
    let whole = inventory(large_records(alloc)?)?;
    let adopted = answers(mirror, whole, Taken::Adopted, 256, false);
    let large = Taken::Large {
        count: 257,
        octets: 268_435_457,
    };
    let more = one_more_one_less(alloc, 256)?;
    Some(adopted & answers(mirror, more, large, 256, true))
}

#[test]
fn holds_up_to_268435456_octets(rt: HostRuntime) {
    assert!(rt; holds_most_octets(rt.alloc()) == Some(true));
}

/// Whether a copy of an answer in a list is that answer.
fn is_copied(alloc: Global, taken: Taken) -> Result<bool, Memory> {
    let answers = List::from_slice(alloc, &[taken])?;
    Ok(answers.copy()?.as_slice() == [taken].as_slice())
}

#[test]
fn answers_can_be_copied(rt: HostRuntime) -> Result<(), Fail> {
    assert!(rt; is_copied(rt.alloc(), Taken::Gap { have: 3, got: 0 })?);
    Ok(())
}
