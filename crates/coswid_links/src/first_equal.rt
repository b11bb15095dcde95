//! Values distinguished by numbers.

ghost use Rattle.std.specs.Prelude.{◌≡◌, ◌↔◌, true, IfOk};
ghost use Rattle.std.specs.Ordering.{eq_by_cmp};
ghost use Rattle.coswid_links.specs.FirstEqual.{AreOwnPlaces, first_places};

use std::alloc::Global;
use std::collections::BTreeMap;
use wire_base::Memory;

/// For each value the place of the first that equals it; `Memory` where there is no room.
pub(crate) fn first_places<K: Ord + Drop>(
    alloc: Global,
    values: Vec<K>,
) -> Result<Vec<usize>, Memory>
    ensures places { IfOk result (λ places. places.items ≡ first_places (eq_by_cmp K.cmp) values.items) }
{
    let mut known = BTreeMap::new(alloc);
    let mut places = Vec::with_capacity(alloc, values.len())?;
    for value in values {
        let first = known.get(&value).copied().unwrap_or(places.len());
        known.insert(value, first)?;
        places.push(first)?;
    }
    Ok(places)
}

/// Whether each of these numbers is its own place, so that no value equals one before it.
pub(crate) fn has_no_repeat(places: &[usize]) -> bool
    ensures own { (result ≡ true) ↔ AreOwnPlaces places.now }
{
    for (place, first) in places.iter().enumerate() {
        if *first != place {
            return false;
        }
    }
    true
}
