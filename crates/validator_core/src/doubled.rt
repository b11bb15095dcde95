//! Identifiers that stand twice.

ghost use Rattle.std.specs.List.Sorted.{IsNonDecreasing};
ghost use Rattle.swima_model.specs.Repeated.{IsLeastRepeated};
ghost use Rattle.validator_core.specs.Placed.{ids_of};

use crate::order::Placed;

/// Of identifiers in order, the first that equals the one before it: the smallest that stands
/// twice.
pub(crate) fn doubled(places: &[Placed]) -> Option<u32>
    requires rising { IsNonDecreasing (ids_of places.now) }
    ensures least { IsLeastRepeated (ids_of places.now) result }
{
    let mut before = None;
    for placed in places {
        if before == Some(placed.id) {
            return before;
        }
        before = Some(placed.id);
    }
    None
}
