//! `collect`: an inventory is served in sessions, while sources change it.

ghost use Rattle.std.specs.Prelude.{◌≡◌, ◌<◌, ◌^◌, ◌∷◌, IfOk, length, true};
ghost use Rattle.collector_core.specs.Chronicle.{Chronicle, live_now, point_of};
ghost use Rattle.collector_core.specs.Standing.{Stands};
ghost use Rattle.command_options.specs.Collect.{CollectWithin};
ghost use Rattle.session_door.specs.Visits.{door_state};
ghost use Rattle.session_pool.specs.Stands.{AreReady};
ghost use Rattle.swid_run.specs.Collecting.{PrintsServed, RunsCollect, beginning, collect_state, opening, pool_config};
ghost use Rattle.swid_run.specs.Counts.{HasCauses, door_counts};
ghost use Rattle.swid_run.specs.Ends.{output_state};

use crate::ending::print_text;
use crate::limits::{IDLE_TURNS, MOST_OCTETS};
use book_lock::{Pass, Shelf};
use collector_core::{Book, BookError};
use command_options::CollectOptions;
use command_text::Ending;
use pool_text::{collect_ending, collect_text};
use session_core::ServeConfig;
use session_pool::{PoolConfig, Served, Stand, Watch, serve_all};
use source_set::{Sources, TagSource};
use std::alloc::Global;
use std::sync::Wait;
use std::thread::Threads;
use wire_base::{Clock, Door, Memory, Sink, Stopped};

/// Serves an inventory that begins without a record at each door, while the sources change it, and
/// prints what came of it. Meanwhile `watch` is told of sessions and sweeps.
pub(crate) fn collect<
    K: Sink,
    D: Door + Send,
    C: Clock + Send,
    B: TagSource + Send,
    W: Watch + Sync,
    R: Threads + Wait + Sync,
>(
    alloc: Global,
    rt: &R,
    options: &CollectOptions,
    output: &mut K,
    doors: &mut [Stand<D>],
    clock: &mut C,
    sources: &mut Sources<B>,
    watch: &W,
) -> Result<Ending, Stopped>
where
    D::L: Send,
    requires within { CollectWithin options.now }
    requires few { length doors.old < 2 ^ 32 }
    requires ready { AreReady D.out doors.old }
    ensures collects { RunsCollect D.L.taken D.L.given D.L.faults (door_state D.left D.returned D.last D.faults) B.reports B.faults options.now
        (collect_state sources.old (C.moments clock.old) doors.old (output_state K.written K.faults output.old))
        (collect_state sources.new (C.moments clock.new) doors.new (output_state K.written K.faults output.new)) result }
    ensures causes { HasCauses (K.faults output.old ∷ sources.old.faults ∷ door_counts D.faults doors.old)
        (K.faults output.new ∷ sources.new.faults ∷ door_counts D.faults doors.new) result }
    ensures ready { AreReady D.out doors.new }
{
    let (shelf, mut pass) = opened(alloc, options)?;
    let config = pool_config(options);
    let served = serve_all(
        alloc, rt, &shelf, &mut pass, doors, sources, clock, watch, &config,
    );
    let closed = shelf.close(rt, pass);
    print_served(alloc, &served?, &closed.book, output)
}

/// An inventory of the epoch and cap that the options say, without a record, on a shelf, and the
/// first pass of the shelf.
fn opened(alloc: Global, options: &CollectOptions) -> Result<(Shelf, Pass), Memory>
    requires within { CollectWithin options.now }
    ensures opened { IfOk result (λ made. made.1 ≡ opening options.now made.0) }
    ensures stands { IfOk result (λ made. Stands made.1.start (beginning options.now)) }
    ensures here { IfOk result (λ made. made.1.shelf ≡ made.0) }
    ensures may { IfOk result (λ made. made.1.may_change ≡ true) }
{
    let book = match Book::new(alloc, options.epoch, options.cap as usize, &[]) {
        Ok(book) => book,
        Err(BookError::Memory) => return Err(Memory),
        Err(_) => unreachable!(),
    };
    match Shelf::open(alloc, book) {
        Ok(opened) => Ok(opened),
        Err(_book) => Err(Memory),
    }
}

/// How the pool serves.
fn pool_config(options: &CollectOptions) -> PoolConfig
    ensures config { result ≡ pool_config options.now }
{
    PoolConfig {
        serve: ServeConfig {
            max: 16_000_000,
            reports: None,
            idle: IDLE_TURNS,
            octets: MOST_OCTETS,
        },
        sessions: options.sessions,
        sweeps: options.sweeps,
    }
}

/// Prints what came of the pool, and of the inventory.
fn print_served<K: Sink>(
    alloc: Global,
    served: &Served,
    book: &Book,
    output: &mut K,
) -> Result<Ending, Stopped>
    ensures prints { (chronicle : Chronicle) → Stands book.now chronicle → PrintsServed served.now chronicle
        (output_state K.written K.faults output.old) (output_state K.written K.faults output.new) result }
{
    let ends = served.ends.as_slice();
    let failed = served.door_failed.as_slice();
    let stopped = served.stopped;
    let point = book.point();
    let text = collect_text(
        alloc,
        ends,
        failed,
        served.swept,
        stopped,
        point,
        book.count(),
    )?;
    print_text(
        text.as_slice(),
        collect_ending(ends, failed, stopped),
        output,
    )
}
