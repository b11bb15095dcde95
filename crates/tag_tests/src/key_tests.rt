//! Keys with the form of what stands under them: put, read and refused.

use cbor_det::{Item, LARGEST, Pairs, read_item};
use coswid_res::{
    BoolForm, FormFaultKind, FormRefused, HashEntry, HashForm, IntForm, Key, TextForm, UriForm,
};
use std::alloc::Global;
use std::test::Fail;
use wire_base::{List, Text};

/// Keys of no table of a tag.
type Name = Key<131, TextForm>;

type Website = Key<138, UriForm>;

type Numbers = Key<133, IntForm>;

type Flag = Key<109, BoolForm>;

type Print = Key<134, HashForm>;

/// Whether a URI that must be there is read as it was put, and taken out.
fn puts_a_uri(alloc: Global) -> Result<bool, Fail> {
    let mut pairs = Pairs::new(alloc);
    Website::put(&mut pairs, &Text::new(alloc, "a")?)?;
    let is_there = Website::is_there(&pairs);
    let read = Website::required(alloc, &mut pairs)?;
    Ok(is_there && read.as_str() == "a" && !Website::is_there(&pairs))
}

/// Whether values that may be there are read as they were put.
fn puts_what_is_there(alloc: Global) -> Result<bool, Fail> {
    let mut pairs = Pairs::new(alloc);
    Flag::put_optional(&mut pairs, &Some(true))?;
    Name::put_optional(&mut pairs, &None)?;
    let flag = Flag::optional(alloc, &mut pairs)?;
    let name = Name::optional(alloc, &mut pairs)?;
    Ok(flag == Some(true) && name.is_none() && !Name::is_there(&pairs))
}

#[test]
fn a_value_is_read_as_it_was_put(rt: HostRuntime) -> Result<(), Fail> {
    let required = puts_a_uri(rt.alloc())?;
    let optional = puts_what_is_there(rt.alloc())?;
    assert!(rt; required && optional);
    Ok(())
}

/// Whether it is the integer 1.
fn is_one(item: Option<&Item>) -> bool {
    match item {
        Some(Item::Int(found)) => *found == 1,
        _ => false,
    }
}

/// Whether one value stands alone.
fn puts_one(alloc: Global) -> Result<bool, Fail> {
    let mut pairs = Pairs::new(alloc);
    Numbers::put_row(&mut pairs, &List::from_slice(alloc, &[1])?)?;
    let is_alone = is_one(pairs.value(0));
    let read = Numbers::required_row(alloc, &mut pairs)?;
    Ok(is_alone && read.as_slice() == [1].as_slice())
}

/// Whether these are 1 and 2.
fn are_two(read: Option<List<i64>>) -> bool {
    match read {
        Some(numbers) => numbers.as_slice() == [1, 2].as_slice(),
        None => false,
    }
}

/// Whether two values are read as they were put.
fn puts_two(alloc: Global) -> Result<bool, Fail> {
    let mut pairs = Pairs::new(alloc);
    Numbers::put_optional_row(&mut pairs, &Some(List::from_slice(alloc, &[1, 2])?))?;
    Ok(are_two(Numbers::optional_row(alloc, &mut pairs)?))
}

#[test]
fn values_are_read_as_they_were_put(rt: HostRuntime) -> Result<(), Fail> {
    let one = puts_one(rt.alloc())?;
    let two = puts_two(rt.alloc())?;
    assert!(rt; one && two);
    Ok(())
}

/// The pairs with this hash alone.
fn with_hash(alloc: Global, hash: &HashEntry) -> Result<Pairs, Fail> {
    let mut pairs = Pairs::new(alloc);
    Print::put(&mut pairs, hash)?;
    Ok(pairs)
}

/// Whether a hash is read as it was put.
fn puts_a_hash(alloc: Global) -> Result<bool, Fail> {
    let value = List::from_slice(alloc, &[7])?;
    let hash = HashEntry {
        algorithm: 1,
        value,
    };
    let mut pairs = with_hash(alloc, &hash)?;
    let read = Print::required(alloc, &mut pairs)?;
    Ok(read.algorithm == 1 && read.value.as_slice() == [7].as_slice())
}

#[test]
fn a_hash_is_read_as_it_was_put(rt: HostRuntime) -> Result<(), Fail> {
    assert!(rt; puts_a_hash(rt.alloc())?);
    Ok(())
}

/// Whether this was refused with a fault of this kind and path.
fn is_refused<T: Drop>(read: Result<T, FormRefused>, kind: FormFaultKind, path: &[i64]) -> bool {
    match read {
        Err(FormRefused::Form(fault)) => {
            fault.kind == kind.number() && fault.path.as_slice() == path
        }
        _ => false,
    }
}

/// The pairs of the map that is spelled so.
fn pairs_of(alloc: Global, octets: &[u8]) -> Result<Pairs, Fail> {
    match read_item(alloc, octets, LARGEST)?.0 {
        Item::Map(pairs) => Ok(pairs),
        _ => Ok(Pairs::new(alloc)),
    }
}

/// The pairs 133: [1, "a"], 134: [1, 2], 138: tag 33 of "a".
const PAIRS: &[u8; 20] =
    b"\xa3\x18\x85\x82\x01\x61a\x18\x86\x82\x01\x02\x18\x8a\xd8\x21\x61a\x00\x00";

/// Whether each value in a wrong form is refused with the path to it.
fn refuses_forms(alloc: Global) -> Result<bool, Fail> {
    let mut pairs = pairs_of(alloc, PAIRS)?;
    Ok(
        is_refused(
            Numbers::required_row(alloc, &mut pairs),
            FormFaultKind::WrongForm,
            &[133, 1],
        ) && is_refused(
            Print::required(alloc, &mut pairs),
            FormFaultKind::WrongForm,
            &[134, 1],
        ) && is_refused(
            Website::optional(alloc, &mut pairs),
            FormFaultKind::WrongForm,
            &[138],
        ),
    )
}

/// Whether a key that is not there is refused.
fn refuses_no_key(alloc: Global) -> Result<bool, Fail> {
    let mut pairs = pairs_of(alloc, PAIRS)?;
    Ok(
        is_refused(
            Name::required(alloc, &mut pairs),
            FormFaultKind::MissingKey,
            &[131],
        ) && is_refused(
            Name::expect(alloc, &pairs),
            FormFaultKind::MissingKey,
            &[131],
        ) && Numbers::expect(alloc, &pairs).is_ok(),
    )
}

#[test]
fn a_fault_has_the_path_to_its_value(rt: HostRuntime) -> Result<(), Fail> {
    let forms = refuses_forms(rt.alloc())?;
    let keys = refuses_no_key(rt.alloc())?;
    assert!(rt; forms && keys);
    Ok(())
}
