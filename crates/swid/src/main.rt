//! The program `swid`: it makes the real objects and calls `run`, and says on standard error what a
//! person wants to know of a status of 2 or more, and of what the system refuses meanwhile.
//!
//! It stands on `swid_run`, and for the objects on `session_pool`, `source_lines`, `source_set`,
//! `pb_batch` and `wire_base`.
//!
//! | file | what it holds |
//! |---|---|
//! | `outside.rt` | the doors and sources that a command line names |
//! | `reporting_net.rt` | the network, which says where it listens and what it refuses |
//! | `reporting_listener.rt`, `reporting_stream.rt` | listeners and links, which say what failed |
//! | `reporting_lines.rt` | the lines of files, which say what is no item |
//! | `reporting_gate.rt` | sessions and sweeps, which say why they ended |
#![tactic(auto)]

mod outside;
mod reporting_gate;
mod reporting_lines;
mod reporting_listener;
mod reporting_net;
mod reporting_stream;

ghost use Rattle.std.specs.Prelude.{◌≤◌, length, map};
ghost use Rattle.session_pool.specs.Stands.{AreReady};
ghost use Rattle.swid_run.specs.Words.{AreLent, IsFresh};

use crate::outside::{dialling, line_sources, listening, say_no_address};
use crate::reporting_gate::ReportingGate;
use crate::reporting_net::ReportingNet;
use session_pool::Stand;
use source_set::{Sources, TagSource};
use std::io::ErrorKind;
use std::process::ExitCode;
use std::sync::Wait;
use std::thread::Threads;
use std::{env, io};
use swid_run::{Plan, plan, run};
use wire_base::{Door, FolderFiles, Memory, StdinSource, StdoutSink, SystemClock, Text};

/// The command lines that there are.
const COMMANDS: &str = "\
swid: the words are none of these:
  swid mirror ids|full   judges the reports on standard input, and prints what the endpoint holds
  swid tag               reads a tag on standard input: its kind, identifier and findings
  swid tag verify        does the same, and looks at the files of the tag
  swid links             reads tags one after another, and prints what is wrong between them
  swid replay            plays a script of both ends of sessions, and prints what happens
  swid make N            plays a day of an endpoint with N packages, 40 to 5000, and prints a summary
  swid collect --listen ADDR --epoch N [--cap N] [--workers N] [--sessions N] [--sweeps N] [FILE..]
                         serves the inventory that the lines of the files report
  swid follow [--kind ids|full] [--subscribe yes|no] [--rounds N] [--sessions N] ADDR..
                         follows the inventories that are served at the addresses, and prints them";

fn main(rt: HostRuntime) -> ExitCode {
    let status = match run_command_line(&rt, &rt) {
        Ok(status) => status,
        Err(Memory) => 4,
    };
    // Nobody is left to inform where standard error fails too.
    let _ = match status {
        2 => eprintln!(&rt; "{COMMANDS}"),
        4 => eprintln!(&rt; "swid: out of memory"),
        _ => Ok(()),
    };
    ExitCode::from(status)
}

/// Runs the command line. `host` is the system, and `rt` the right to wait and to start threads:
/// the same value, since code that starts threads for doors is not generic over the network.
fn run_command_line<R: Threads + Wait + Sync>(host: &HostRuntime, rt: &R) -> Result<u8, Memory> {
    let owned = words(host)?;
    let mut words = Vec::with_capacity(host.alloc(), owned.len())?;
    for word in &owned {
        words.push(word.as_str())?;
    }
    run_planned(host, rt, words.as_slice())
}

/// Runs the command line over the doors and sources that its words name.
fn run_planned<R: Threads + Wait + Sync>(
    host: &HostRuntime,
    rt: &R,
    words: &[&str],
) -> Result<u8, Memory> {
    match plan(host.alloc(), words) {
        Plan::Plain | Plan::Usage => run_dialling(host, rt, words, &[]),
        Plan::Collect {
            listen,
            workers,
            names,
        } => run_listening(host, rt, words, listen.as_str(), workers, names.as_slice()),
        Plan::Follow { addresses } => run_dialling(host, rt, words, addresses.as_slice()),
        Plan::Memory => Err(Memory),
    }
}

/// Runs the command line with a door to one listener for each worker, and the lines of each file.
fn run_listening<R: Threads + Wait + Sync>(
    host: &HostRuntime,
    rt: &R,
    words: &[&str],
    address: &str,
    workers: u32,
    names: &[Text],
) -> Result<u8, Memory>
    requires lent { AreLent (map (λ word. word.now) words.now) workers (length names.now) }
    requires few { length names.now ≤ 255 }
{
    say_no_address(host, address);
    let net = ReportingNet::new(host);
    let mut stands = listening(host.alloc(), &net, address, workers)?;
    let mut sources = line_sources(host.alloc(), host, names)?;
    let doors = stands.as_mut_slice();
    Ok(run_over(host, rt, words, doors, &mut sources))
}

/// Runs the command line with a door to each address, and no source.
fn run_dialling<R: Threads + Wait + Sync>(
    host: &HostRuntime,
    rt: &R,
    words: &[&str],
    addresses: &[Text],
) -> Result<u8, Memory>
    requires lent { AreLent (map (λ word. word.now) words.now) (length addresses.now) 0 }
{
    for address in addresses {
        say_no_address(host, address.as_str());
    }
    let net = ReportingNet::new(host);
    let mut stands = dialling(host.alloc(), &net, addresses)?;
    let mut sources = line_sources(host.alloc(), host, &[])?;
    let doors = stands.as_mut_slice();
    Ok(run_over(host, rt, words, doors, &mut sources))
}

/// Runs the command line over the standard streams, the files and the clock of the system, with
/// these doors and sources.
fn run_over<D: Door + Send, B: TagSource + Send, R: Threads + Wait + Sync>(
    host: &HostRuntime,
    rt: &R,
    words: &[&str],
    doors: &mut [Stand<D>],
    sources: &mut Sources<B>,
) -> u8
where
    D::L: Send,
    requires lent { AreLent (map (λ word. word.now) words.now) (length doors.old) (length sources.old.seats) }
    requires fresh { IsFresh sources.old }
    requires ready { AreReady D.out doors.old }
{
    let alloc = host.alloc();
    let mut input = StdinSource::new(host.stdin());
    let mut output = StdoutSink::new(host.stdout());
    let mut files = FolderFiles::new(alloc, host);
    let mut clock = SystemClock::new(host);
    let watch = ReportingGate::new(host);
    let status = run(
        alloc,
        rt,
        words,
        &mut input,
        &mut output,
        &mut files,
        doors,
        &mut clock,
        sources,
        &watch,
    );
    if status == 3 {
        let _ = say_fault(host, "read", "standard input", input.last_error());
        let _ = say_fault(host, "write", "standard output", output.last_error());
        let name = files.failed_name().map_or("a file", Text::as_str);
        let _ = say_fault(host, "read", name, files.last_error());
    }
    status
}

/// Says that the stream or file `name` could not be read or written, where its last call failed,
/// and what the system said of it.
fn say_fault(rt: &HostRuntime, verb: &str, name: &str, error: Option<ErrorKind>) -> io::Result<()> {
    match error {
        Some(kind) => eprintln!(rt; "swid: cannot {verb} {name}: {kind}"),
        None => Ok(()),
    }
}

/// The words of the command line without the program's name; none where one of them is no text.
fn words(rt: &HostRuntime) -> Result<Vec<String>, Memory> {
    let mut words = Vec::new(rt.alloc());
    match env::args(rt) {
        Ok(args) => {
            for word in args.skip(1) {
                words.push(word)?;
            }
        }
        Err(error) if error.kind() == ErrorKind::OutOfMemory => return Err(Memory),
        Err(_) => {}
    }
    Ok(words)
}
