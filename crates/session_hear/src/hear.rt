//! The loop over a piece of octets, for any end.

ghost use Rattle.std.specs.Prelude.{◌≡◌, ◌<◌, ◌+◌, ℕ, None, false, is_ok, length, OnOk};
ghost use Rattle.pb_batch.specs.Front.{front_of};
ghost use Rattle.session_hear.specs.Hearing.{Hears, heard_octets};
ghost use Rattle.wire_base.specs.Feeding.{More};

use crate::end::End;
use pb_batch::{BatchFed, BatchFeed};
use std::alloc::Global;
use wire_base::Memory;

/// Takes the octets of a piece, as an end of a session that is not over hears them. Octets after
/// the batch that ends the session are not looked at.
pub fn hear_octets<O, E: End<O>>(
    alloc: Global,
    end: &mut E,
    beside: &mut O,
    feed: &mut BatchFeed,
    piece: &[u8],
) -> Result<(), Memory>
    requires some { 0 < length piece.now }
    requires live { E.over end.old ≡ false }
    requires ready { E.ready end.old }
    requires feeding { feed.old.feeding.stopped ≡ None }
    requires torn { front_of feed.old.from_server feed.old.feeding.octets ≡ More }
    ensures did { (quiet count : ℕ) → E.did end.old beside.old (heard_octets feed.old.from_server (Hears feed.old.feeding.octets quiet count) piece.now).0 end.new beside.new (is_ok result) }
    ensures hears { OnOk result (E.over end.new ≡ false → (quiet count : ℕ)
        → (heard_octets feed.old.from_server (Hears feed.old.feeding.octets quiet count) piece.now).1 ≡ Hears feed.new.feeding.octets 0 (count + length piece.now)) }
    ensures ready { OnOk result (E.over end.new ≡ false → E.ready end.new) }
    ensures feeding { OnOk result (E.over end.new ≡ false → feed.new.feeding.stopped ≡ None) }
    ensures torn { front_of feed.new.from_server feed.new.feeding.octets ≡ More }
    ensures direction { feed.new.from_server ≡ feed.old.from_server }
{
    let mut rest = piece;
    while !rest.is_empty() {
        match feed.feed(rest) {
            BatchFed::More => return Ok(()),
            BatchFed::Done(batch, used) => {
                end.come(alloc, beside, &batch)?;
                if end.is_over() {
                    return Ok(());
                }
                let (_, after) = rest.split_at(used);
                rest = after;
            }
            BatchFed::Fault(fault) => return end.refuse(alloc, beside, fault),
            BatchFed::Memory => return Err(Memory),
        }
    }
    Ok(())
}
