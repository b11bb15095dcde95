//! What a log keeps in all, proved of every log: the calls do nothing.

ghost use Rattle.event_log.specs.Meaning.{NewKeepsAll, PushKeeps, TrimKeeps};

/// A new log keeps all of no events.
pub fn new_keeps_all()
    ensures law { NewKeepsAll }
{}

/// A log with one event more keeps of all events those from the first that is kept on: not below
/// the greatest trim, nor before the latest `cap`.
pub fn push_keeps()
    ensures law { PushKeeps }
{}

/// A trimmed log keeps of all events those from the first that is kept on, where its greatest trim
/// is the greater of both.
pub fn trim_keeps()
    ensures law { TrimKeeps }
{}
