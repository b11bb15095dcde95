//! The machine of one end.

ghost use Rattle.std.specs.Prelude.{◌≡◌, Some, None, IsTrue};
ghost use Rattle.pb_machine.specs.Table.{sending, receiving, may_send, sent, received};
ghost use Rattle.pb_machine.specs.declared.machine.Role.TheVariants as role;
ghost use Rattle.pb_machine.specs.declared.machine.State.TheVariants as state;

use self::Role::{Client, Server};
use self::State::{ClientWorking, Decided, End, Init, ServerWorking};
use pb_batch::BatchKind;
use pb_batch::BatchKind::{Cdata, Close, Cretry, Outcome, Sdata, Sretry};
use std::marker::Model;

/// An end of a session. The client is the Posture Broker Client, the server the Posture Broker
/// Server.
#[derive(Clone, Copy, Debug, PartialEq, Eq)]
pub enum Role {
    /// The end that speaks first.
    Client,
    /// The end that decides.
    Server,
}

/// The state of an end (RFC 5793, section 3.2).
#[derive(Clone, Copy, Debug, PartialEq, Eq)]
pub enum State {
    /// Nothing was sent yet.
    Init,
    /// The server's next batch is awaited.
    ServerWorking,
    /// The client's next batch is awaited.
    ClientWorking,
    /// The server has decided.
    Decided,
    /// The session is over.
    End,
}

/// What an end does with a batch that it hears.
#[derive(Clone, Copy, Debug, PartialEq, Eq)]
pub enum Heard {
    /// It goes on with the batch, in the state that the machine is in now.
    Go,
    /// It passes the batch over; nothing has changed.
    Ignored,
    /// The batch may not come in this state; nothing has changed.
    Unexpected,
}

/// The state machine of one end. None of its calls takes memory.
#[derive(Debug, Drop)]
pub struct Machine {
    role: Role,
    state: State,
}

impl Model for Machine {
    ghost use Rattle.pb_machine.specs.Table.{Position};

    ghost Value = { Position };

    ghost view = { λ machine. record { role = machine.role; state = machine.state } };
}

impl Machine {
    /// The machine of the client before the session.
    pub fn client() -> Self
        ensures made { result ≡ record { role = role.Client; state = state.Init } }
    {
        Machine {
            role: Role::Client,
            state: State::Init,
        }
    }

    /// The machine of the server before the session.
    pub fn server() -> Self
        ensures made { result ≡ record { role = role.Server; state = state.Init } }
    {
        Machine {
            role: Role::Server,
            state: State::Init,
        }
    }

    /// The state in which this end is.
    pub fn state(&self) -> State
        ensures state { result ≡ self.now.state }
    {
        self.state
    }

    /// Whether this end may send a batch of the kind now.
    pub fn may_send(&self, kind: BatchKind) -> bool
        ensures answer { result ≡ may_send self.now kind }
    {
        after_sending(self.role, self.state, kind).is_some()
    }

    /// This end sends a batch of the kind, which it may send now.
    pub fn send(&mut self, kind: BatchKind)
        requires may { IsTrue (may_send self.old kind) }
        ensures sent { self.new ≡ sent self.old kind }
    {
        if let Some(next) = after_sending(self.role, self.state, kind) {
            self.state = next;
        }
    }

    /// This end hears a batch of the kind.
    pub fn receive(&mut self, kind: BatchKind) -> Heard
        ensures heard { (result, self.new) ≡ received self.old kind }
    {
        let (heard, next) = after_hearing(self.role, self.state, kind);
        self.state = next;
        heard
    }
}

/// The state in which `role` is once it has sent a batch of the kind in `state`; `None` where it
/// may not send one.
fn after_sending(role: Role, state: State, kind: BatchKind) -> Option<State>
    ensures next { result ≡ sending role state kind }
{
    match (role, state, kind) {
        (_, End, _) => None,
        (_, _, Close) => Some(End),
        (Client, Init, Cdata) => Some(ServerWorking),
        (Client, ClientWorking, Cdata) => Some(ServerWorking),
        (Client, Decided, Cretry) => Some(ServerWorking),
        (Server, ServerWorking, Sdata) => Some(ClientWorking),
        (Server, ServerWorking, Outcome) => Some(Decided),
        (Server, Decided, Sretry) => Some(ClientWorking),
        _ => None,
    }
}

/// What `role` does with a batch of the kind that it hears in `state`, and the state in which it is
/// then.
fn after_hearing(role: Role, state: State, kind: BatchKind) -> (Heard, State)
    ensures next { result ≡ receiving role state kind }
{
    match (role, state, kind) {
        (_, End, _) => (Heard::Ignored, End),
        (_, _, Close) => (Heard::Go, End),
        (Client, Init, Sdata) => (Heard::Go, ClientWorking),
        (Client, ServerWorking, Sdata) => (Heard::Go, ClientWorking),
        (Client, ServerWorking, Outcome) => (Heard::Go, Decided),
        (Client, ServerWorking, Sretry) => (Heard::Ignored, ServerWorking),
        (Client, Decided, Sretry) => (Heard::Go, ClientWorking),
        (Server, Init, Cdata) => (Heard::Go, ServerWorking),
        (Server, ClientWorking, Cdata) => (Heard::Go, ServerWorking),
        (Server, ClientWorking, Cretry) => (Heard::Go, ServerWorking),
        (Server, Decided, Cretry) => (Heard::Go, ServerWorking),
        (Server, ServerWorking, Cretry) => (Heard::Go, ServerWorking),
        _ => (Heard::Unexpected, state),
    }
}
