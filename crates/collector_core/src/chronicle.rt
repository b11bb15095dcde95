//! What is entered in the chronicle of a collector. Contracts speak of these values; no code makes
//! one.

use swima_model::Event;

/// An entry of a collector's chronicle.
#[derive(Debug, Drop)]
pub enum Entry {
    /// A record was created, altered or deleted.
    Event(Event),
    /// An epoch of this number began.
    Epoch(u32),
    /// The events below this event identifier are no longer kept.
    Trim(u32),
}

/// An entry that came while someone looked on.
#[derive(Debug, Drop)]
pub struct Mark {
    /// The entry.
    pub entry: Entry,
    /// Whether it is the one's own, and not another's.
    pub own: bool,
}
