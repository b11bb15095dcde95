//! The top call.

ghost use Rattle.std.specs.Prelude.{◌≡◌, ◌≢◌, ◌≤◌, ◌⊎◌, ◌∷◌, ℕ, Result, length, map};
ghost use Rattle.command_options.specs.declared.collect.CollectOptions.{CollectOptions as CollectWords};
ghost use Rattle.command_options.specs.declared.follow.FollowOptions.{FollowOptions as FollowWords};
ghost use Rattle.session_door.specs.Visits.{door_state};
ghost use Rattle.session_pool.specs.Stands.{AreReady};
ghost use Rattle.swid_cli.specs.Run.{status_of};
ghost use Rattle.swid_run.specs.Collecting.{RunsCollect, collect_state};
ghost use Rattle.swid_run.specs.Counts.{NoneFell, OneRose, door_counts};
ghost use Rattle.swid_run.specs.Ends.{EndsWith, output_state};
ghost use Rattle.swid_run.specs.Following.{RunsFollow};
ghost use Rattle.swid_run.specs.Plain.{RunsPlain};
ghost use Rattle.swid_run.specs.Words.{AreLent, IsFresh, IsLine, SaysCollect, SaysFollow, SaysNeither, Waits};

use crate::collect::collect;
use crate::follow::follow;
use crate::order::{Order, order_of};
use session_pool::{Stand, Watch};
use source_set::{Sources, TagSource};
use std::alloc::Global;
use std::sync::Wait;
use std::thread::Threads;
use swid_cli::{run_plain, status};
use wire_base::{Clock, Door, Files, Memory, Sink, Source};

/// Does what the words of the command line say, over the objects of the outside that it is lent,
/// and answers the status. The first row that holds is the one:
///
/// | status | when |
/// |---|---|
/// | 2 | exactly where the words are no command line, unless memory ran out while they were read |
/// | 4 | memory ran out, for the command, for a session or for a sweep |
/// | 3 | exactly where a count of faults rose: of input, output, files, a door or the sources |
/// | 1 | exactly where something was refused or found, as below |
/// | 0 | else, and then a command that reads the input read it to its end |
///
/// Status 1 comes where the input was refused or has a finding; where a session ended by `Refused`,
/// `PeerError` or `Torn`; or where a bad line, an unknown key, the book or the clock stopped the
/// sweeping.
///
/// For `collect` it is lent as many doors as there are workers, and a source for each file; for
/// `follow` a door for each address; for other words neither. No other words than these two wait.
/// While they do, `watch` is told of sessions as they begin and end, and why sweeping stopped.
pub fn run<
    S: Source,
    K: Sink,
    F: Files,
    D: Door + Send,
    C: Clock + Send,
    B: TagSource + Send,
    W: Watch + Sync,
    R: Threads + Wait + Sync,
>(
    alloc: Global,
    rt: &R,
    words: &[&str],
    input: &mut S,
    output: &mut K,
    files: &mut F,
    doors: &mut [Stand<D>],
    clock: &mut C,
    sources: &mut Sources<B>,
    watch: &W,
) -> u8
where
    D::L: Send,
    requires lent { AreLent (map (λ word. word.now) words.now) (length doors.old) (length sources.old.seats) }
    requires fresh { IsFresh sources.old }
    requires ready { AreReady D.out doors.old }

    // Words that are no command line.
    ensures usage { result ≡ 2 → ¬ IsLine (map (λ word. word.now) words.now) }
    ensures no_line { ¬ IsLine (map (λ word. word.now) words.now)
        → (result ≡ 2) ⊎ ((result ≡ 4) × Waits (map (λ word. word.now) words.now)) }

    // Words of neither `collect` nor `follow`: as `run_plain` says. Memory may run out where the
    // words after one of these two are read.
    ensures plain { SaysNeither (map (λ word. word.now) words.now)
        → RunsPlain S.left S.faults K.written K.faults F.contents F.reads F.faults
        (map (λ word. word.now) words.now) input.old output.old files.old input.new output.new files.new result
        ⊎ (Waits (map (λ word. word.now) words.now) × (result ≡ 4) × (input.new ≡ input.old) × (output.new ≡ output.old) × (files.new ≡ files.old)) }
    ensures others_unused { SaysNeither (map (λ word. word.now) words.now)
        → (doors.new ≡ doors.old) × (clock.new ≡ clock.old) × (sources.new ≡ sources.old) }

    // Words of `collect`.
    ensures collect { (options : CollectWords) → SaysCollect (map (λ word. word.now) words.now) options
        → EndsWith result (RunsCollect D.L.taken D.L.given D.L.faults (door_state D.left D.returned D.last D.faults) B.reports B.faults options
        (collect_state sources.old (C.moments clock.old) doors.old (output_state K.written K.faults output.old))
        (collect_state sources.new (C.moments clock.new) doors.new (output_state K.written K.faults output.new))) }

    // Words of `follow`.
    ensures follow { (options : FollowWords) → SaysFollow (map (λ word. word.now) words.now) options
        → EndsWith result (RunsFollow D.L.taken D.L.given D.L.faults (door_state D.left D.returned D.last D.faults) options
        doors.old doors.new (output_state K.written K.faults output.old) (output_state K.written K.faults output.new)) }
    ensures follow_sweeps_nothing { (options : FollowWords) → SaysFollow (map (λ word. word.now) words.now) options
        → (clock.new ≡ clock.old) × (sources.new ≡ sources.old) }

    // Both read nothing.
    ensures unread { Waits (map (λ word. word.now) words.now)
        → (input.new ≡ input.old) × (files.new ≡ files.old) }

    // Status 3 reports a fault, at statuses 0 and 1 no call failed, and no count falls.
    ensures fault { result ≡ 3
        → OneRose (S.faults input.old ∷ F.faults files.old ∷ K.faults output.old ∷ sources.old.faults ∷ door_counts D.faults doors.old)
        (S.faults input.new ∷ F.faults files.new ∷ K.faults output.new ∷ sources.new.faults ∷ door_counts D.faults doors.new) }
    ensures no_fault { result ≢ 2 → result ≢ 3 → result ≢ 4
        → (S.faults input.new ∷ F.faults files.new ∷ K.faults output.new ∷ sources.new.faults ∷ door_counts D.faults doors.new)
        ≡ (S.faults input.old ∷ F.faults files.old ∷ K.faults output.old ∷ sources.old.faults ∷ door_counts D.faults doors.old) }
    ensures counts_never_fall { NoneFell (S.faults input.old ∷ F.faults files.old ∷ K.faults output.old ∷ sources.old.faults ∷ door_counts D.faults doors.old)
        (S.faults input.new ∷ F.faults files.new ∷ K.faults output.new ∷ sources.new.faults ∷ door_counts D.faults doors.new) }
    ensures status { result ≤ 4 }
    ensures ready { AreReady D.out doors.new }
{
    match order_of(alloc, words) {
        Ok(Order::Other) => run_plain(alloc, words, input, output, files),
        Ok(Order::Collect(options)) => {
            status(collect(alloc, rt, &options, output, doors, clock, sources, watch))
        }
        Ok(Order::Follow(options)) => status(follow(alloc, rt, &options, output, doors, watch)),
        Err(Memory) => 4,
    }
}
