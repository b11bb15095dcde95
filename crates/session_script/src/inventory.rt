//! The inventory that a world begins with, and the stamps of its changes.

ghost use Rattle.std.specs.Prelude.{◌≡◌, ◌≤◌, [], None, Ok, IfOk};
ghost use Rattle.collector_core.specs.Refusals.{new_refusal};
ghost use Rattle.collector_core.specs.Standing.{Stands};
ghost use Rattle.wire_base.specs.Stamp.{IsStamp, IsStampAt};

use collector_core::{Book, BookError};
use std::alloc::Global;
use swima_model::Content;
use wire_base::{Memory, stamp_text};

/// A book of an epoch that is not 0, which keeps at most `cap` events, from 1 to 4,096, and begins
/// with these contents, which no limit refuses; `Memory` where there is no room.
pub fn begin_book(alloc: Global, epoch: u32, cap: usize, base: &[Content]) -> Result<Book, Memory>
    requires some { 1 ≤ cap }
    requires few { cap ≤ 4096 }
    requires numbered { 1 ≤ epoch }
    requires allowed { new_refusal base.now ≡ None }
    ensures stands { IfOk result (λ book. Stands book
        (record { start = record { epoch = epoch; cap = cap; contents = base.now }; entries = [] })) }
{
    match Book::new(alloc, epoch, cap, base) {
        Ok(book) => Ok(book),
        Err(BookError::Memory) => Err(Memory),
        Err(_) => unreachable!(),
    }
}

/// The stamp of a second, which each change has: the seconds are counted from
/// 1970-01-01T00:00:00Z.
pub fn stamp_at(second: u32) -> [u8; 20]
    ensures text { IsStampAt second (Ok result) }
    ensures stamp { IsStamp result }
{
    stamp_text(u64::from(second)).unwrap()
}
