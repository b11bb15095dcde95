//! Who is called before and after each session.

use session_core::SessionEnd;

/// Who is called before and after each session of a pool, by the worker that holds it. It may wait.
pub trait Gate {
    /// A worker has a link, and its session begins now. Workers, and the sessions of each, are
    /// numbered from 1.
    fn enter(&self, worker: u32, session: u32);

    /// That session is over, and how it ended. Its link goes back to its door after this.
    fn leave(&self, worker: u32, session: u32, end: SessionEnd);
}

/// A gate at which nothing happens.
#[derive(Clone, Copy, Debug, PartialEq, Eq)]
pub struct OpenGate;

impl Gate for OpenGate {
    fn enter(&self, _worker: u32, _session: u32) {}

    fn leave(&self, _worker: u32, _session: u32, _end: SessionEnd) {}
}
