//! What a command line is lent in tests, by its plan.

ghost use Rattle.std.specs.List.{All};
ghost use Rattle.std.specs.Prelude.{◌≡◌, ◌≤◌, IfOk, IfSome, length, map};
ghost use Rattle.session_pool.specs.Stands.{AreReady, IsReady};
ghost use Rattle.swid_run.specs.Words.{AreLent, IsFresh};

use session_pool::{OpenGate, Stand, Watch};
use source_lines::LineSource;
use source_set::{SourceSet, Sources, TagSource};
use std::alloc::Global;
use std::sync::Wait;
use std::thread::Threads;
use swid_run::{Plan, plan, run};
use test_talks::link;
use wire_base::{
    Failed, List, MemClock, MemDoor, MemFiles, MemLink, MemSink, MemSource, Memory, NoFaultSource,
    Octets, Source,
};

/// What each file of sources has: a source adds a tag, is quiet once, and then ends.
const LINES: &[u8] = b"add 1 /opt/a da53574944a400616101616202a2181f61631821010c00\nquiet\nend\n";

/// What a command line came to.
#[derive(Drop)]
pub(crate) struct Ran {
    /// The status.
    pub(crate) status: u8,
    /// What was printed.
    pub(crate) output: MemSink,
    /// The doors.
    pub(crate) doors: Vec<Stand<MemDoor>>,
}

/// Runs a command line over an empty input, and doors of one link each, on which these octets come.
/// The calls of the output whose numbers are in `failing` fail, of each door those in `no_link`,
/// and of each source those in `no_octet`. The clock gives these moments first. `watch` is told of
/// sessions and sweeps.
pub(crate) fn try_run<W: Watch + Sync, R: Threads + Wait + Sync>(
    alloc: Global,
    rt: &R,
    words: &[&str],
    octets: &[u8],
    failing: &[u64],
    no_link: &[u64],
    no_octet: &[u64],
    moments: &[u64],
    watch: &W,
) -> Result<Ran, Memory> {
    let (doors, sources) = counts_of(alloc, words)?;
    let mut doors = stands(alloc, doors, octets, no_link)?;
    let mut output = MemSink::new(alloc, 4096, failing)?;
    let status = status_at(
        alloc,
        rt,
        words,
        &mut output,
        doors.as_mut_slice(),
        sources,
        no_octet,
        moments,
        watch,
    )?;
    Ok(Ran {
        status,
        output,
        doors,
    })
}

/// Whether a command line ends with a status and prints a text.
pub(crate) fn prints<R: Threads + Wait + Sync>(
    alloc: Global,
    rt: &R,
    words: &[&str],
    octets: &[u8],
    expected: (u8, &str),
) -> Result<bool, Memory> {
    let ran = try_run(alloc, rt, words, octets, &[], &[], &[], &[], &OpenGate)?;
    Ok((ran.status == expected.0) & (ran.output.written() == expected.1.as_bytes()))
}

/// Whether a command line ends with a status and prints nothing, where the output fails at its
/// first call.
pub(crate) fn fails<R: Threads + Wait + Sync>(
    alloc: Global,
    rt: &R,
    words: &[&str],
    octets: &[u8],
    status: u8,
) -> Result<bool, Memory> {
    let ran = try_run(alloc, rt, words, octets, &[1], &[], &[], &[], &OpenGate)?;
    Ok((ran.status == status) & ran.output.written().is_empty())
}

/// Whether a command line ends with a status and prints a text, where each door fails at once.
pub(crate) fn prints_of_no_link<R: Threads + Wait + Sync>(
    alloc: Global,
    rt: &R,
    words: &[&str],
    expected: (u8, &str),
) -> Result<bool, Memory> {
    let ran = try_run(alloc, rt, words, &[], &[], &[1], &[], &[], &OpenGate)?;
    Ok((ran.status == expected.0) & (ran.output.written() == expected.1.as_bytes()))
}

/// The status of a command line over these doors, and that many sources. The calls of each source
/// whose numbers are in `no_octet` fail, and the clock gives these moments first.
fn status_at<W: Watch + Sync, R: Threads + Wait + Sync>(
    alloc: Global,
    rt: &R,
    words: &[&str],
    output: &mut MemSink,
    doors: &mut [Stand<MemDoor>],
    sources: usize,
    no_octet: &[u64],
    moments: &[u64],
    watch: &W,
) -> Result<u8, Memory>
    requires lent { AreLent (map (λ word. word.now) words.now) (length doors.old) sources }
    requires few { sources ≤ 255 }
    requires ready { AreReady (λ door. door.out) doors.old }
{
    let mut clock = MemClock::new(List::from_slice(alloc, moments)?, 0);
    let mut sources = all_sources(alloc, sources, no_octet)?;
    Ok(status_over(
        alloc,
        rt,
        words,
        output,
        doors,
        &mut clock,
        &mut sources,
        watch,
    ))
}

/// The status of a command line over these doors, this clock and these sources.
fn status_over<W: Watch + Sync, R: Threads + Wait + Sync>(
    alloc: Global,
    rt: &R,
    words: &[&str],
    output: &mut MemSink,
    doors: &mut [Stand<MemDoor>],
    clock: &mut MemClock,
    sources: &mut SourceSet,
    watch: &W,
) -> u8
    requires lent { AreLent (map (λ word. word.now) words.now) (length doors.old) (length sources.old.seats) }
    requires fresh { IsFresh sources.old }
    requires ready { AreReady (λ door. door.out) doors.old }
{
    let mut input = NoFaultSource::new(List::new(alloc));
    let mut files = MemFiles::empty(alloc);
    run(
        alloc, rt, words, &mut input, output, &mut files, doors, clock, sources, watch,
    )
}

/// How many doors and how many sources a command line is lent.
fn counts_of(alloc: Global, words: &[&str]) -> Result<(usize, usize), Memory>
    ensures lent { IfOk result (λ counts. AreLent (map (λ word. word.now) words.now) counts.0 counts.1) }
    ensures few { IfOk result (λ counts. counts.1 ≤ 255) }
{
    match plan(alloc, words) {
        Plan::Plain => Ok((0, 0)),
        Plan::Collect { workers, names, .. } => Ok((workers as usize, names.len())),
        Plan::Follow { addresses } => Ok((addresses.len(), 0)),
        Plan::Usage => Ok((0, 0)),
        Plan::Memory => Err(Memory),
    }
}

/// That many stands at doors of one link each, which gives these octets. The calls of a door whose
/// numbers are in `no_link` fail.
fn stands(
    alloc: Global,
    count: usize,
    octets: &[u8],
    no_link: &[u64],
) -> Result<Vec<Stand<MemDoor>>, Memory>
    ensures count { IfOk result (λ made. length made.items ≡ count) }
    ensures ready { IfOk result (λ made. AreReady (λ door. door.out) made.items) }
{
    let mut stands = Vec::new(alloc);
    for _ in 0..count {
        stands.push(stand(alloc, octets, no_link)?)?;
    }
    Ok(stands)
}

/// A stand at a door of one link, which gives these octets.
fn stand(alloc: Global, octets: &[u8], no_link: &[u64]) -> Result<Stand<MemDoor>, Memory>
    ensures ready { IfOk result (λ stand. IsReady (λ door. door.out) stand) }
{
    let mut links = List::new(alloc);
    links.push(link(alloc, octets, &[])?)?;
    stand_of(alloc, links, no_link)
}

/// A stand at a door of these links.
fn stand_of(alloc: Global, links: List<MemLink>, no_link: &[u64]) -> Result<Stand<MemDoor>, Memory>
    requires fresh { All (λ link. link.faults ≡ 0) links }
    ensures ready { IfOk result (λ stand. IsReady (λ door. door.out) stand) }
{
    Ok(Stand::new(MemDoor::new(alloc, links, no_link)?))
}

/// A source that gives an octet at each call.
#[derive(Drop)]
struct OneByOne(MemSource);

impl Source for OneByOne {
    ghost use Rattle.std.specs.Prelude.{None};

    ghost left = { λ _. None };

    ghost faults = { λ source. source.0.faults };

    fn read(&mut self, buf: &mut [u8]) -> Result<usize, Failed> {
        self.0.read(&mut buf[..1])
    }
}

/// That many sources, of the same lines each. The calls whose numbers are in `no_octet` fail.
fn all_sources(alloc: Global, count: usize, no_octet: &[u64]) -> Result<SourceSet, Memory>
    requires few { count ≤ 255 }
    ensures count { IfOk result (λ made. length made.seats ≡ count) }
    ensures fresh { IfOk result (λ made. IsFresh made) }
{
    let mut boxes: Vec<Box<dyn TagSource + Send>> = Vec::new(alloc);
    for _ in 0..count {
        boxes.push(Box::new(alloc, line_source(alloc, no_octet)?)?)?;
    }
    Sources::new(alloc, boxes)
}

/// A source of the lines. The calls whose numbers are in `no_octet` fail.
fn line_source(alloc: Global, no_octet: &[u64]) -> Result<LineSource<OneByOne>, Memory> {
    let octets = Octets::from_slice(alloc, LINES)?;
    LineSource::new(alloc, OneByOne(MemSource::new(alloc, octets, no_octet)?))
}
