//! How deep items are.

ghost use Rattle.std.specs.Prelude.{◌≡◌, ◌≤◌, map, nat_le, Some, None};
ghost use Rattle.cbor_det.specs.Term.{depth, terms_depth, pairs_depth};
ghost use Rattle.cbor_det.specs.View.{view, terms_of, pairs_view};
ghost use Rattle.coswid_codec.specs.Marked.{some_depth};
ghost use Rattle.std.specs.Option.{option_map};

use cbor_det::{Item, Pairs};

/// Whether the item's depth is at least `levels`. It calls itself no deeper than `levels`.
#[cycle(deep)]
pub(crate) fn reaches(item: &Item, levels: u32) -> bool
    ensures reaches { result ≡ nat_le levels (depth (view item.now)) }
{
    if levels <= 1 {
        return true;
    }
    match item {
        Item::Array(items) => any_reaches(items.as_slice(), levels - 1),
        Item::Map(pairs) => pairs_reach(pairs, levels - 1),
        Item::Tag(_, content) => reaches(content.get(), levels - 1),
        _ => false,
    }
}

#[cycle(deep)]
fn any_reaches(items: &[Item], levels: u32) -> bool
    requires some { 1 ≤ levels }
    ensures reaches { result ≡ nat_le levels (terms_depth (terms_of (map view items.now))) }
{
    for item in items {
        if reaches(item, levels) {
            return true;
        }
    }
    false
}

#[cycle(deep)]
fn pairs_reach(pairs: &Pairs, levels: u32) -> bool
    requires some { 1 ≤ levels }
    ensures reaches { result ≡ nat_le levels (pairs_depth (pairs_view pairs.now)) }
{
    for place in 0..pairs.len() {
        if part_reaches(pairs.key(place), levels) || part_reaches(pairs.value(place), levels) {
            return true;
        }
    }
    false
}

#[cycle(deep)]
fn part_reaches(part: Option<&Item>, levels: u32) -> bool
    requires some { 1 ≤ levels }
    ensures reaches { result ≡ nat_le levels (some_depth (option_map (λ item. view item.now) part.entry)) }
{
    match part {
        None => false,
        Some(item) => reaches(item, levels),
    }
}
