//! Tries rows: each names a call, what it is given, and the answer that is wanted. It reads them
//! from standard input, prints each row that does not hold with what the call gives, and at last
//! how many rows there are and how many do not hold.
//!
//! `stdin` has the rows, grouped by the rule that they show, with the rule as a heading. No answer
//! in it was made by this program: they are from the RFCs, worked out by hand, given by two other
//! readers, or computed by `examples/make`.
//!
//! The libraries `conformance_NAME` have the calls of one family each. It stands on these, on
//! `swid_cli` for command lines, and on the crates of mirrors, logs, books and machines.
//!
//! | file | what it holds |
//! |---|---|
//! | `main.rt` | reads standard input, and prints what comes of its rows |
//! | `row.rt` | whether the calls of rows give the answers that are wanted |
//! | `calls.rt` | all calls by name, with the functions that answer them |
//! | `held.rt` | a mirror, a log, a book and machines, which rows one after another speak of |
//! | `command.rt` | the call `command`: a command line over an input and files in memory |
//! | `text.rt` | the calls `stamp`, `is_stamp`, `escaped`, `unescaped` and `decimal` |
#![tactic(auto)]

mod calls;
mod command;
mod held;
mod row;
mod text;

use crate::row::rows_text;
use std::process::ExitCode;
use std::str::from_utf8;
use wire_base::{List, Octets, StdinSource, fill};

/// The most octets that are read of the input.
const MOST: usize = 1 << 26;

fn main(rt: HostRuntime) -> ExitCode {
    match run(&rt) {
        Some(text) => match print!(rt; "{text}") {
            Ok(()) => ExitCode::SUCCESS,
            Err(_) => ExitCode::from(3),
        },
        None => ExitCode::FAILURE,
    }
}

/// What is printed; `None` where the input could not be read or is no text, or memory ran out.
fn run(rt: &HostRuntime) -> Option<String> {
    let octets = all_input(rt)?;
    rows_text(rt.alloc(), from_utf8(octets.as_slice()).ok()?)
}

/// The octets of standard input.
fn all_input(rt: &HostRuntime) -> Option<Octets> {
    let mut input = StdinSource::new(rt.stdin());
    let mut held = List::new(rt.alloc());
    fill(&mut input, &mut held, MOST).ok()?;
    Some(held)
}
