//! Any change of a book, as one value.

ghost use Rattle.std.specs.Prelude.{◌≡◌, false, Err, IfOk};
ghost use Rattle.collector_core.specs.declared.error.BookError.TheVariants as refused;
ghost use Rattle.collector_core.specs.BookAnswer.{book_point};
ghost use Rattle.collector_core.specs.BookDesk.{book_state};
ghost use Rattle.collector_core.specs.Chronicle.{Chronicle};
ghost use Rattle.collector_core.specs.Desks.{state_of};
ghost use Rattle.collector_core.specs.Edits.{IsStamped, Makes, edit_refusal, edited_id, retold, takes_memory};
ghost use Rattle.collector_core.specs.Standing.{Changes, Enters, Stands};

use super::Book;
use crate::error::BookError;
use swima_model::{Content, Point};

/// A change of a book, which borrows what is long.
#[derive(Clone, Copy, Debug)]
pub enum Edit<'a> {
    /// Create a record.
    Create {
        /// The moment.
        stamp: &'a [u8; 20],
        /// The content.
        content: &'a Content,
    },
    /// Replace the content of a record.
    Alter {
        /// The moment.
        stamp: &'a [u8; 20],
        /// The record identifier.
        id: u32,
        /// The content.
        content: &'a Content,
    },
    /// Delete a record.
    Delete {
        /// The moment.
        stamp: &'a [u8; 20],
        /// The record identifier.
        id: u32,
    },
    /// Begin an epoch.
    BeginEpoch {
        /// The number of the epoch.
        epoch: u32,
    },
    /// Keep no event below an event identifier.
    Trim {
        /// The event identifier.
        first: u32,
    },
}

/// What a change made.
#[derive(Clone, Copy, Debug, PartialEq, Eq)]
pub struct Changed {
    /// The point after the change.
    pub point: Point,
    /// The identifier of the record that was changed; 0 where none was.
    pub id: u32,
}

impl Book {
    /// Does any change. Its refusals are those of the call of the same name.
    pub fn apply(&mut self, edit: Edit<'_>) -> Result<Changed, BookError>
        requires stamped { IsStamped edit }
        ensures done { Changes (Makes edit.entry (book_state self.old))
            (edit_refusal edit.entry (book_state self.old)) self.old result self.new }
        ensures exact { takes_memory edit.entry ≡ false → result ≡ Err refused.Memory → ⊥ }
        ensures told { IfOk result (λ changed. (changed.point ≡ book_point self.new)
            × (changed.id ≡ edited_id edit.entry (book_state self.old))) }
        ensures stands { (chronicle : Chronicle) → Stands self.old chronicle
            → Enters (Makes edit.entry (state_of chronicle)) (edit_refusal edit.entry (state_of chronicle)) chronicle result self.new }
    {
        let entered = self.enter(edit);
        match entered {
            Ok(id) => Ok(Changed {
                point: self.point(),
                id,
            }),
            Err(error) => Err(error),
        }
    }

    /// Does it, and gives the identifier of the record.
    fn enter(&mut self, edit: Edit<'_>) -> Result<u32, BookError>
        requires stamped { IsStamped edit }
        ensures done { Changes (Makes edit.entry (book_state self.old))
            (edit_refusal edit.entry (book_state self.old)) self.old result self.new }
        ensures exact { takes_memory edit.entry ≡ false → result ≡ Err refused.Memory → ⊥ }
        ensures id { IfOk result (λ id. id ≡ edited_id edit.entry (book_state self.old)) }
        ensures stands { (chronicle : Chronicle) → Stands self.old chronicle
            → Enters (Makes edit.entry (state_of chronicle)) (edit_refusal edit.entry (state_of chronicle)) chronicle result self.new }
    {
        match edit {
            Edit::Create { stamp, content } => self.create(stamp, content),
            Edit::Alter { stamp, id, content } => tell(self.alter(stamp, id, content), id),
            Edit::Delete { stamp, id } => tell(self.delete(stamp, id), id),
            Edit::BeginEpoch { epoch } => tell(self.begin_epoch(epoch), 0),
            Edit::Trim { first } => tell(self.trim(first), 0),
        }
    }
}

/// The same answer with an identifier.
fn tell(done: Result<(), BookError>, id: u32) -> Result<u32, BookError>
    ensures told { result ≡ retold id done }
{
    match done {
        Ok(()) => Ok(id),
        Err(error) => Err(error),
    }
}
