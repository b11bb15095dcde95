//! Who is told of sessions and sweeps while a pool works.

use session_door::{Gate, OpenGate};
use source_sweeps::SweepStop;

/// A gate for the sessions of a pool, which is also told why sweeping stopped.
pub trait Watch: Gate {
    /// Sweeping stopped. It is called beside the workers, and at most once.
    fn stopped(&self, why: SweepStop);
}

impl Watch for OpenGate {
    fn stopped(&self, _why: SweepStop) {}
}

/// Lets the watch know why sweeping stopped, if it did.
pub(crate) fn tell_stop<W: Watch>(watch: &W, stopped: Option<SweepStop>) {
    if let Some(why) = stopped {
        watch.stopped(why);
    }
}
