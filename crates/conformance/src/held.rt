//! What rows one after another speak of.

use collector_core::Book;
use event_log::EventLog;
use pb_machine::Machine;
use std::alloc::Global;
use swima_model::Kind;
use validator_core::Mirror;

/// A mirror, a log, a book, and the machines of both ends. A row whose step is `new` begins one of
/// them anew.
#[derive(Drop)]
pub(crate) struct Held {
    pub(crate) mirror: Mirror,
    pub(crate) log: EventLog,
    pub(crate) book: Book,
    pub(crate) client: Machine,
    pub(crate) server: Machine,
}

impl Held {
    /// Each of them empty; `None` where memory ran out.
    pub(crate) fn new(alloc: Global) -> Option<Self> {
        let log = EventLog::new(alloc, 1).ok()?;
        let book = Book::new(alloc, 1, 1, &[]).ok()?;
        Some(Held {
            mirror: Mirror::new(alloc, Kind::Full),
            log,
            book,
            client: Machine::client(),
            server: Machine::server(),
        })
    }
}
