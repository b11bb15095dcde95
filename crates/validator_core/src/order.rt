//! Records in order of their identifiers.

ghost use Rattle.std.specs.Prelude.{◌≡◌, ◌<◌, ◌^◌, None, IfOk, length};
ghost use Rattle.std.specs.List.Sorted.{IsPermutation};
ghost use Rattle.swima_model.specs.Doubled.{doubled};
ghost use Rattle.swima_model.specs.InOrder.{ids, in_order};
ghost use Rattle.swima_model.specs.Size.{records_octets};
ghost use Rattle.validator_core.specs.Placed.{AreInOrder};

use std::alloc::Global;
use swima_model::{Record, Records};
use wire_base::Memory;

/// The identifier of a record, and the place where the record stands.
#[derive(Clone, Copy, Debug)]
pub(crate) struct Placed {
    /// The identifier.
    pub(crate) id: u32,
    /// The place, counted from 0.
    place: u32,
}

/// What is taken from records in one pass over them.
#[derive(Drop)]
pub(crate) struct Listed {
    /// Their identifiers in order, each with the place of its record.
    pub(crate) places: Vec<Placed>,
    /// How many octets they have together.
    pub(crate) octets: u64,
}

/// The identifiers of the records in order, and their octets.
pub(crate) fn list(alloc: Global, records: &[Record]) -> Result<Listed, Memory>
    requires { length records.now < 2 ^ 32 }
    ensures order { IfOk result (λ made. AreInOrder records.now made.places.items) }
    ensures octets { IfOk result (λ made. made.octets ≡ records_octets records.now) }
{
    let mut places = Vec::with_capacity(alloc, records.len())?;
    let mut octets = 0;
    for (place, record) in records.iter().enumerate() {
        let id = record.id;
        let place = place as u32;
        places.push(Placed { id, place })?;
        octets += record.content.octets();
    }
    places.sort_unstable_by_key(|placed| placed.id);
    Ok(Listed { places, octets })
}

/// The records in order of identifier. It takes no memory.
///
/// Records are large, so sorting moves each of them many times. Here each is moved once first, to
/// its place in `places`. The sort finds them in order then, and it alone says what the result is.
pub(crate) fn in_order(records: Records, places: Vec<Placed>) -> Vec<Record>
    ensures same { IsPermutation records result.items }
    ensures order { doubled (ids records) ≡ None → result.items ≡ in_order records }
{
    let mut items = records.into_vec();
    let mut places = places;
    move_each(items.as_mut_slice(), places.as_mut_slice());
    items.sort_unstable_by_key(|record| record.id);
    items
}

/// Swaps each record into its place, the first place first. From then on `places` has where the
/// record is that was swapped away.
fn move_each(items: &mut [Record], places: &mut [Placed])
    ensures same { IsPermutation items.old items.new }
{
    for to in 0..items.len().min(places.len()) {
        let from = place_now(places, to);
        if (from as usize) < items.len() {
            items.swap(to, from as usize);
            places[to].place = from;
        }
    }
}

/// Where the record is that belongs to the place `to`: where it was at first, or where it was
/// swapped to since, step by step. Each swap makes one step, so all records take as many steps as
/// there are swaps.
fn place_now(places: &[Placed], to: usize) -> u32
    requires within { to < length places.now }
{
    let mut from = places[to].place;
    while (from as usize) < to {
        let next = places[from as usize].place;
        if next <= from {
            break;
        }
        from = next;
    }
    from
}
