//! Pairs of a map, put in one by one.

use cbor_det::{Item, PairRefused, Pairs};
use std::alloc::Global;
use std::test::Fail;
use wire_base::TryCopy;

/// Whether it is this integer.
fn is_int(item: Option<&Item>, number: i64) -> bool {
    match item {
        Some(Item::Int(found)) => *found == number,
        _ => false,
    }
}

/// Whether these are the pairs 0 to 7 and 24 to -1.
fn are_both(pairs: Pairs) -> bool {
    pairs.len() == 2
        && is_int(pairs.key(0), 0)
        && is_int(pairs.value(0), 7)
        && is_int(pairs.key(1), 24)
        && is_int(pairs.get_unsigned(24), -1)
        && pairs.get_unsigned(1).is_none()
}

/// Whether two pairs are added in the order of their keys, and none under a key that is held.
fn adds_pairs(alloc: Global) -> Result<bool, Fail> {
    let mut pairs = Pairs::new(alloc);
    pairs.add(Item::Int(24), Item::Int(-1))?;
    pairs.add(Item::Int(0), Item::Int(7))?;
    let again = pairs.add(Item::Int(0), Item::Int(8));
    Ok(again == Err(PairRefused::Doubled) && are_both(pairs.copy()?))
}

#[test]
fn a_key_is_added_once(rt: HostRuntime) -> Result<(), Fail> {
    assert!(rt; adds_pairs(rt.alloc())?);
    Ok(())
}

/// The pairs 0 to 7, 24 to -1 and -1 to 8, put in another order.
fn three_pairs(alloc: Global) -> Result<Pairs, Fail> {
    let mut pairs = Pairs::new(alloc);
    pairs.put(Item::Int(24), Item::Int(-1))?;
    pairs.put(Item::Int(0), Item::Int(7))?;
    pairs.put(Item::Int(-1), Item::Int(8))?;
    Ok(pairs)
}

/// Whether these are the values 7 and 8 alone.
fn are_others(pairs: Pairs) -> bool {
    pairs.len() == 2 && is_int(pairs.value(0), 7) && is_int(pairs.value(1), 8)
}

/// Whether the pairs are in the order of their keys.
fn puts_pairs(alloc: Global) -> Result<bool, Fail> {
    let pairs = three_pairs(alloc)?;
    Ok(is_int(pairs.key(0), 0) && is_int(pairs.key(1), 24) && is_int(pairs.key(2), -1))
}

#[test]
fn pairs_are_put_in_the_order_of_their_keys(rt: HostRuntime) -> Result<(), Fail> {
    assert!(rt; puts_pairs(rt.alloc())?);
    Ok(())
}

/// Whether the value under a key is taken out once, and the other pairs are left.
fn takes_pairs(alloc: Global) -> Result<bool, Fail> {
    let mut pairs = three_pairs(alloc)?;
    let taken = pairs.take(24);
    let again = pairs.take(24);
    Ok(is_int(taken.as_ref(), -1) && again.is_none() && are_others(pairs))
}

#[test]
fn a_value_is_taken_out_once(rt: HostRuntime) -> Result<(), Fail> {
    assert!(rt; takes_pairs(rt.alloc())?);
    Ok(())
}
