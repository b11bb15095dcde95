//! Sessions of a collector with a validator, by the cores of both ends, beside the same reports
//! without batches. The collector's log is full, and the validator's mirror is empty at first.

ghost use Rattle.std.specs.Bool.{OnTrue};
ghost use Rattle.std.specs.Prelude.{◌<◌, ◌≤◌, ◌^◌};
ghost use Rattle.swima_model.specs.Reports.{ConsultsWithin, HasStamps};
ghost use Rattle.swima_model.specs.Size.{report_count, report_size};

use crate::book::{alterations, full_book, latest};
use crate::trouble::Trouble;
use collector_core::{Answer, Book};
use collector_session::ServeCore;
use session_rules::{FollowConfig, ServeConfig};
use std::alloc::Global;
use swima_model::{Kind, Report};
use swima_reports::{read_report, report_type, size_of, write_report};
use validator_core::Mirror;
use validator_session::FollowCore;
use wire_base::FieldRefused;

/// How many octets of reports a batch may have.
const MOST: u32 = 16_000_000;

/// How many octets the value of an attribute may have.
const MOST_VALUE: u64 = 16_777_000;

/// How the collector serves: to the validator's end.
const SERVING: ServeConfig = ServeConfig {
    max: MOST,
    reports: None,
    idle: 1,
    octets: 4_294_967_295,
};

/// How the validator follows: for one round.
const FOLLOWING: FollowConfig = FollowConfig {
    subscribe: false,
    rounds: 1,
    idle: 1,
    octets: 4_294_967_295,
};

/// How often all that waits is carried, up and down, until a session of one round is over.
const ROUNDS: u32 = 3;

/// The first session over a book of that many records, in pieces of `size` octets. It gives how
/// many records the mirror has then.
pub(crate) fn first(alloc: Global, records: u32, size: usize) -> Result<u64, Trouble>
    requires some { 0 < size }
{
    let mut book = full_book(alloc, records)?;
    first_over(alloc, &mut book, size)
}

/// The first session over a book.
fn first_over(alloc: Global, book: &mut Book, size: usize) -> Result<u64, Trouble>
    requires some { 0 < size }
{
    let mut mirror = Mirror::new(alloc, Kind::Full);
    exchange(alloc, book, &mut mirror, size)?;
    Ok(u64::from(mirror.count()))
}

/// The inventory of a book of that many records, and the mirror that takes it.
pub(crate) fn alone(alloc: Global, records: u32) -> Result<u64, Trouble> {
    let book = full_book(alloc, records)?;
    match inventory(alloc, &book) {
        Answer::Report(report) => mirrored(alloc, report),
        Answer::TooLarge { .. } => Err(Trouble::Book),
        Answer::Memory => Err(Trouble::Memory),
    }
}

/// The same inventory, written and read again, and the mirror that takes it.
pub(crate) fn octets(alloc: Global, records: u32) -> Result<u64, Trouble> {
    let book = full_book(alloc, records)?;
    match inventory(alloc, &book) {
        Answer::Report(report) => mirrored(alloc, read_again(alloc, &report)?),
        Answer::TooLarge { .. } => Err(Trouble::Book),
        Answer::Memory => Err(Trouble::Memory),
    }
}

/// The inventory of a book.
fn inventory(alloc: Global, book: &Book) -> Answer {
    let request = latest(alloc, 0);
    book.answer(&request, MOST)
}

/// How many records a mirror has that takes a report.
fn mirrored(alloc: Global, report: Report) -> Result<u64, Trouble> {
    if !is_countable(&report) {
        return Err(Trouble::Book);
    }
    let mut mirror = Mirror::new(alloc, Kind::Full);
    mirror.take_owned(report);
    Ok(u64::from(mirror.count()))
}

/// The report that the octets of an inventory give.
fn read_again(alloc: Global, report: &Report) -> Result<Report, Trouble> {
    if !is_writable(report) {
        return Err(Trouble::Book);
    }
    let value = write_report(alloc, report)?;
    match read_report(alloc, report_type(report), value.as_slice(), 0) {
        Ok(read) => Ok(read),
        Err(FieldRefused::Memory) => Err(Trouble::Memory),
        Err(_) => Err(Trouble::Session),
    }
}

/// Whether a report is an inventory that an attribute can hold.
fn is_writable(report: &Report) -> bool
    ensures fits { OnTrue result ((report_count report.now < 2 ^ 24) × (report_size report.now ≤ 16777000) × HasStamps report.now × ConsultsWithin report.now) }
{
    match report {
        Report::Inventory { records, .. } => {
            records.len() < 1 << 24 && size_of(report) <= MOST_VALUE
        }
        Report::Events { .. } => false,
    }
}

/// Whether the records or events of a report are fewer than 2^32.
fn is_countable(report: &Report) -> bool
    ensures few { OnTrue result (report_count report.now < 2 ^ 32) }
{
    report.count() <= u32::MAX as usize
}

/// After a first session over a book of that many records, that many further sessions, each after
/// `events` alterations. It gives how many sessions there were.
pub(crate) fn updates(
    alloc: Global,
    records: u32,
    events: u32,
    times: u32,
) -> Result<u64, Trouble> {
    let mut book = full_book(alloc, records)?;
    let mut mirror = Mirror::new(alloc, Kind::Full);
    exchange(alloc, &mut book, &mut mirror, usize::MAX)?;
    update(alloc, &mut book, &mut mirror, events, times)
}

/// That many sessions, each after `events` alterations. It gives how many sessions there were.
fn update(
    alloc: Global,
    book: &mut Book,
    mirror: &mut Mirror,
    events: u32,
    times: u32,
) -> Result<u64, Trouble> {
    let mut done: u64 = 0;
    for _ in 0..times {
        alterations(alloc, book, events)?;
        exchange(alloc, book, mirror, usize::MAX)?;
        done = done.saturating_add(1);
    }
    Ok(done)
}

/// A session of one round, in pieces of `size` octets.
fn exchange(alloc: Global, book: &mut Book, mirror: &mut Mirror, size: usize) -> Result<(), Trouble>
    requires some { 0 < size }
{
    let mut serve = ServeCore::new(alloc, &SERVING)?;
    let mut follow = FollowCore::new(alloc, &FOLLOWING);
    for _ in 0..ROUNDS {
        carry_up(alloc, &mut serve, &mut follow, mirror, size);
        carry_down(alloc, &mut follow, &mut serve, book, size);
    }
    Ok(())
}

/// Carries all that waits to the validator.
fn carry_up(
    alloc: Global,
    serve: &mut ServeCore,
    follow: &mut FollowCore,
    mirror: &mut Mirror,
    size: usize,
)
    requires some { 0 < size }
{
    let waiting = serve.waiting();
    let count = waiting.len();
    for piece in waiting.chunks(size) {
        follow.hear(alloc, mirror, piece);
    }
    serve.carried(count);
}

/// Carries all that waits to the collector.
fn carry_down(
    alloc: Global,
    follow: &mut FollowCore,
    serve: &mut ServeCore,
    book: &mut Book,
    size: usize,
)
    requires some { 0 < size }
{
    let waiting = follow.waiting();
    let count = waiting.len();
    for piece in waiting.chunks(size) {
        serve.hear(alloc, book, piece);
    }
    follow.carried(count);
}
