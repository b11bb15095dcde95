//! The order of keys that are integers, in bytewise order of their canonical spellings (RFC 8949,
//! section 4.2.1).

ghost use Rattle.std.specs.Bool.{OnTrue};
ghost use Rattle.std.specs.Prelude.{◌≡◌, true};
ghost use Rattle.cbor_det.specs.Adding.{is_above};
ghost use Rattle.cbor_det.specs.Term.{integer};
ghost use Rattle.cbor_det.specs.View.{view};

use crate::item::Item;

/// Whether both items are integers, and the first one's canonical spelling is above the second's.
/// Nothing is spelled to find this out.
pub(crate) fn is_integer_above(first: &Item, second: &Item) -> bool
    ensures above { OnTrue result (is_above (view first.now) (view second.now) ≡ true) }
{
    match first {
        Item::Int(number) => match second {
            Item::Int(other) => is_number_above(*number, *other),
            _ => false,
        },
        _ => false,
    }
}

/// The numbers from 0 on rise, and after them those below 0 fall.
pub(crate) fn is_number_above(first: i64, second: i64) -> bool
    ensures above { result ≡ is_above (integer first) (integer second) }
{
    if first < 0 {
        second >= 0 || first < second
    } else {
        second >= 0 && first > second
    }
}
