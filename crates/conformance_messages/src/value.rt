//! The value of an attribute as a row has it: its octets, and the place of the first.

ghost use Rattle.std.specs.Prelude.{◌≤◌, IfSome, length};

use conformance_words::octets_of;
use std::alloc::Global;

/// The most octets of a value in a row, and the highest place of its first.
const MOST: usize = 4096;

/// The octets of a value.
pub(crate) fn value_of(alloc: Global, digits: &str) -> Option<Vec<u8>>
    ensures within { IfSome result (λ value. length value.items ≤ 4096) }
{
    let value = octets_of(alloc, digits)?;
    if value.len() > MOST {
        return None;
    }
    Some(value)
}

/// The place and the octets of a value, of the words `PLACE HEX`.
pub(crate) fn placed_value(alloc: Global, words: &str) -> Option<(u32, Vec<u8>)>
    ensures place { IfSome result (λ placed. placed.0 ≤ 4096) }
    ensures within { IfSome result (λ placed. length placed.1.items ≤ 4096) }
{
    let (place, digits) = words.split_once(' ')?;
    let place: u32 = place.parse().ok()?;
    if place as usize > MOST {
        return None;
    }
    Some((place, value_of(alloc, digits)?))
}
