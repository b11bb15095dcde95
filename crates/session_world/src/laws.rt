//! What the lines of a script mean, proved of all worlds: the calls do nothing.

ghost use Rattle.session_world.specs.Meaning.{NothingWaitsAfterRuns};

/// After a run nothing waits at either end.
pub fn nothing_waits_after_runs()
    ensures law { NothingWaitsAfterRuns }
{}
