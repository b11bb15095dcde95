//! `follow`: mirrors follow collectors in sessions.

ghost use Rattle.std.specs.Prelude.{◌≡◌, ◌<◌, ◌^◌, ◌∷◌, IfOk, length};
ghost use Rattle.command_options.specs.Follow.{FollowWithin};
ghost use Rattle.session_door.specs.Visits.{door_state};
ghost use Rattle.session_pool.specs.Stands.{AreReady};
ghost use Rattle.swid_run.specs.Counts.{HasCauses, door_counts};
ghost use Rattle.swid_run.specs.Ends.{output_state};
ghost use Rattle.swid_run.specs.Following.{PrintsFollowed, RunsFollow, follow_config, new_mirrors};

use crate::ending::print_text;
use crate::limits::{IDLE_TURNS, MOST_OCTETS};
use command_options::FollowOptions;
use command_text::Ending;
use pool_text::{follow_ending, follow_text};
use session_core::FollowConfig;
use session_pool::{Followed, Gate, Stand, follow_all};
use std::alloc::Global;
use std::thread::Threads;
use validator_core::Mirror;
use wire_base::{Door, Memory, Sink, Stopped};

/// Follows the collector at each door with a mirror of its own, and prints what came of it.
/// Meanwhile `gate` is told of sessions.
pub(crate) fn follow<K: Sink, D: Door + Send, G: Gate + Sync, R: Threads + Sync>(
    alloc: Global,
    rt: &R,
    options: &FollowOptions,
    output: &mut K,
    doors: &mut [Stand<D>],
    gate: &G,
) -> Result<Ending, Stopped>
where
    D::L: Send,
    requires within { FollowWithin options.now }
    requires many { length doors.old ≡ length options.now.addresses }
    requires ready { AreReady D.out doors.old }
    ensures follows { RunsFollow D.L.taken D.L.given D.L.faults (door_state D.left D.returned D.last D.faults) options.now
        doors.old doors.new (output_state K.written K.faults output.old) (output_state K.written K.faults output.new) result }
    ensures causes { HasCauses (K.faults output.old ∷ door_counts D.faults doors.old)
        (K.faults output.new ∷ door_counts D.faults doors.new) result }
    ensures ready { AreReady D.out doors.new }
{
    let mut mirrors = new_mirrors(alloc, options)?;
    let config = follow_config(options);
    let all = mirrors.as_mut_slice();
    let followed = follow_all(alloc, rt, all, doors, options.sessions, &config, gate)?;
    print_followed(alloc, &followed, mirrors.as_slice(), output)
}

/// An empty mirror for each address.
fn new_mirrors(alloc: Global, options: &FollowOptions) -> Result<Vec<Mirror>, Memory>
    ensures mirrors { IfOk result (λ made. made.items ≡ new_mirrors options.now) }
{
    let mut mirrors = Vec::with_capacity(alloc, options.addresses.len())?;
    for _address in options.addresses.as_slice() {
        mirrors.push(Mirror::new(alloc, options.kind))?;
    }
    Ok(mirrors)
}

/// How sessions are followed.
fn follow_config(options: &FollowOptions) -> FollowConfig
    ensures config { result ≡ follow_config options.now }
{
    FollowConfig {
        subscribe: options.subscribe,
        rounds: options.rounds,
        idle: IDLE_TURNS,
        octets: MOST_OCTETS,
    }
}

/// Prints what came of the pool, and what the mirrors hold.
fn print_followed<K: Sink>(
    alloc: Global,
    followed: &Followed,
    mirrors: &[Mirror],
    output: &mut K,
) -> Result<Ending, Stopped>
    ensures prints { PrintsFollowed followed.now mirrors.now
        (output_state K.written K.faults output.old) (output_state K.written K.faults output.new) result }
{
    let ends = followed.ends.as_slice();
    let failed = followed.door_failed.as_slice();
    let text = follow_text(alloc, ends, failed, mirrors)?;
    print_text(text.as_slice(), follow_ending(ends, failed), output)
}
