//! The state machines of both ends (RFC 5793, section 3.2).

use crate::batches::{KINDS, kind_of, kind_word};
use pb_batch::BatchKind;
use pb_machine::{Heard, Machine, State};
use std::alloc::Global;

/// `machine new` begins a session. `machine END may`: the batches that the end may send.
/// `machine END sends BATCH`, `machine END hears BATCH`: what the end does, and its state then.
pub fn step(
    alloc: Global,
    client: &mut Machine,
    server: &mut Machine,
    words: &str,
) -> Option<String> {
    match words.split_once(' ') {
        None if words == "new" => {
            *client = Machine::client();
            *server = Machine::server();
            String::from_str(alloc, "Init Init").ok()
        }
        Some(("client", rest)) => step_of(alloc, client, rest),
        Some(("server", rest)) => step_of(alloc, server, rest),
        _ => None,
    }
}

/// A step of one end.
fn step_of(alloc: Global, machine: &mut Machine, words: &str) -> Option<String> {
    match words.split_once(' ') {
        None if words == "may" => may_text(alloc, machine),
        Some(("sends", word)) => sends(alloc, machine, kind_of(word)?),
        Some(("hears", word)) => {
            let heard = heard_word(machine.receive(kind_of(word)?));
            let state = state_word(machine.state());
            format!(in alloc; "{heard} {state}").ok()
        }
        _ => None,
    }
}

fn sends(alloc: Global, machine: &mut Machine, kind: BatchKind) -> Option<String> {
    if !machine.may_send(kind) {
        return String::from_str(alloc, "may not").ok();
    }
    machine.send(kind);
    String::from_str(alloc, state_word(machine.state())).ok()
}

/// The batches that the end may send; a `-` where there is none.
fn may_text(alloc: Global, machine: &Machine) -> Option<String> {
    let mut out = String::new(alloc);
    for kind in &KINDS {
        if machine.may_send(*kind) {
            out.push_str(if out.is_empty() { "" } else { " " }).ok()?;
            out.push_str(kind_word(*kind)).ok()?;
        }
    }
    if out.is_empty() {
        out.push_str("-").ok()?;
    }
    Some(out)
}

fn heard_word(heard: Heard) -> &'static str {
    match heard {
        Heard::Go => "goes on in",
        Heard::Ignored => "ignores it in",
        Heard::Unexpected => "does not expect it in",
    }
}

/// The name of a state (RFC 5793, section 3.2).
fn state_word(state: State) -> &'static str {
    match state {
        State::Init => "Init",
        State::ServerWorking => "Server Working",
        State::ClientWorking => "Client Working",
        State::Decided => "Decided",
        State::End => "End",
    }
}
