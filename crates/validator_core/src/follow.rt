//! The records that are live after some events.

ghost use Rattle.std.specs.Prelude.{◌≡◌, OnOk, OnErr};
ghost use Rattle.std.specs.List.Sorted.{IsStrictlyIncreasing};
ghost use Rattle.swima_model.specs.InOrder.{ids};
ghost use Rattle.swima_model.specs.Live.{live};
ghost use Rattle.validator_core.specs.Following.{events_above};
ghost use Rattle.validator_core.specs.Merged.{merged};

use crate::gone::drop_gone;
use crate::in_place::{further, put_each};
use crate::mentions::Mentions;
use crate::merge::merge;
use std::mem;
use swima_model::{Event, Events, Record};
use wire_base::Memory;

/// Makes of `records` those that are live after the events above the event identifier `eid`. No
/// record is copied. All memory is taken before any is moved; at `Memory` they are as they were.
pub(crate) fn follow(records: &mut Vec<Record>, eid: u32, events: Events) -> Result<(), Memory>
    requires rising { IsStrictlyIncreasing (ids records.old.items) }
    ensures rising { IsStrictlyIncreasing (ids records.new.items) }
    ensures live { OnOk result (records.new.items ≡ live records.old.items (events_above eid events)) }
    ensures unchanged { OnErr result (records.new.items ≡ records.old.items) }
{
    let mentions = Mentions::from_events(*records.allocator(), above(eid, events))?;
    let (given, gone) = mentions.into_given();
    put_given(records, given)?;
    drop_gone(records, &gone);
    Ok(())
}

/// The events above the event identifier `eid`.
fn above(eid: u32, events: Events) -> Vec<Event>
    ensures above { result.items ≡ events_above eid events }
{
    let mut left = events.into_vec();
    left.retain(|event| event.eid > eid);
    left
}

/// Puts the given records among those that are held; of two with one identifier the given one
/// stays. Where some fall among others, all move into a new list once. At `Memory` the records are
/// as they were.
fn put_given(records: &mut Vec<Record>, given: Vec<Record>) -> Result<(), Memory>
    requires rising { IsStrictlyIncreasing (ids records.old.items) }
    requires given { IsStrictlyIncreasing (ids given.items) }
    ensures merged { OnOk result (records.new.items ≡ merged records.old.items given.items) }
    ensures unchanged { OnErr result (records.new.items ≡ records.old.items) }
{
    match further(records.as_slice(), given.as_slice()) {
        Some(count) => {
            records.reserve(count)?;
            put_each(records, given);
        }
        None => {
            let empty = Vec::with_capacity(*records.allocator(), records.len() + given.len())?;
            let held = mem::replace(records, empty);
            merge(records, held, given);
        }
    }
    Ok(())
}
