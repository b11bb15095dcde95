//! Where a record stands among records in order of identifier. These calls take no memory.

ghost use Rattle.std.specs.Prelude.{◌≡◌};
ghost use Rattle.std.specs.List.Sorted.{IsStrictlyIncreasing};
ghost use Rattle.std.specs.Option.{option_copied};
ghost use Rattle.swima_model.specs.InOrder.{ids};
ghost use Rattle.swima_model.specs.Live.{record_of};
ghost use Rattle.swima_model.specs.Places.{IsPlaceOf};

use crate::record::Record;

/// Where the record of an identifier stands, among records of rising identifiers.
pub fn place_of(records: &[Record], id: u32) -> Option<usize>
    requires rising { IsStrictlyIncreasing (ids records.now) }
    ensures place { IsPlaceOf records.now id result }
{
    records.binary_search_by_key(&id, |record| record.id).ok()
}

/// The record of an identifier, among records of rising identifiers.
pub fn record_of(records: &[Record], id: u32) -> Option<&Record>
    requires rising { IsStrictlyIncreasing (ids records.now) }
    ensures found { option_copied result ≡ record_of id records.now }
{
    let place = place_of(records, id)?;
    Some(&records[place])
}
