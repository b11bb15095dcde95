//! Records put in place: each is of a record that is held, or comes after all others. A collector
//! numbers its records so.

ghost use Rattle.std.specs.Prelude.{◌≡◌, ◌≤◌, ◌<◌, ◌+◌, ◌⊎◌, ◌∷◌, [], ℕ, IfNone, IfSome, IsSome, vec_capacity, vec_len};
ghost use Rattle.std.specs.List.Sorted.{IsStrictlyIncreasing};
ghost use Rattle.swima_model.specs.InOrder.{ids};
ghost use Rattle.swima_model.specs.Live.{record_of};
ghost use Rattle.validator_core.specs.Further.{AreBelow, FallAmong, IsFurther};
ghost use Rattle.validator_core.specs.Merged.{merged};

use swima_model::{Record, place_of};

/// How many of the given records come after all that are held, where one is held of each other;
/// `None` where some fall among others. It takes no memory.
pub(crate) fn further(records: &[Record], given: &[Record]) -> Option<usize>
    requires rising { IsStrictlyIncreasing (ids records.now) }
    ensures further { IfSome result (λ count. IsFurther records.now given.now count) }
    ensures among { IfNone result (FallAmong records.now given.now) }
{
    let next = next(records);
    let mut count = 0;
    for record in given {
        if record.id as u64 >= next {
            count += 1;
        } else if place_of(records, record.id).is_none() {
            return None;
        }
    }
    Some(count)
}

/// The least number above the identifier of each record.
fn next(records: &[Record]) -> u64
    requires rising { IsStrictlyIncreasing (ids records.now) }
    ensures below { AreBelow result records.now }
    ensures least { (bound : ℕ) → AreBelow bound records.now → result ≤ bound }
{
    match records.last() {
        None => 0,
        Some(record) => record.id as u64 + 1,
    }
}

/// Puts each of the given records in place of the one of its identifier, or after all others, where
/// there is room for that many. It takes no memory.
pub(crate) fn put_each(records: &mut Vec<Record>, given: Vec<Record>)
    requires rising { IsStrictlyIncreasing (ids records.old.items) }
    requires given { IsStrictlyIncreasing (ids given.items) }
    requires room { (count : ℕ) × IsFurther records.old.items given.items count
        × (vec_len records.old + count ≤ vec_capacity records.old) }
    ensures merged { records.new.items ≡ merged records.old.items given.items }
{
    for record in given {
        put(records, record);
    }
}

/// Puts a record in place of the one of its identifier, or after all others, where there is room
/// for it. It takes no memory.
fn put(records: &mut Vec<Record>, given: Record)
    requires rising { IsStrictlyIncreasing (ids records.old.items) }
    requires fits { IsSome (record_of given.id records.old.items)
        ⊎ (AreBelow given.id records.old.items × (vec_len records.old < vec_capacity records.old)) }
    ensures put { records.new.items ≡ merged records.old.items (given ∷ []) }
    ensures held { IsSome (record_of given.id records.old.items) → vec_len records.new ≡ vec_len records.old }
    ensures len { vec_len records.new ≤ vec_len records.old + 1 }
    ensures capacity { vec_capacity records.old ≤ vec_capacity records.new }
{
    match place_of(records.as_slice(), given.id) {
        Some(place) => records[place] = given,
        None => records.push(given).unwrap(),
    }
}
