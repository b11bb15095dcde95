//! Numbers and fields, put in and read.

ghost use Rattle.std.specs.Prelude.{◌≡◌};
ghost use Rattle.wire_base.specs.Reading.{number};

use std::alloc::Global;
use std::test::Fail;
use wire_base::{
    Cursor, FieldReader, FieldRefused, List, Memory, number_of, put_counted_u16, put_counted_u32,
    put_u8, put_u16, put_u24, put_u32, read_several, u24_at, u32_at,
};

/// Numbers of no octet, two and four, and numbers of three and four within others.
fn numbers() -> (u32, u32, u32, u32, u32) {
    (
        number_of(&[]),
        number_of(&[1, 2]),
        number_of(&[255, 255, 255, 255]),
        u24_at(&[9, 1, 2, 3, 9], 1),
        u32_at(&[9, 1, 2, 3, 4], 1),
    )
}

#[test]
fn numbers_begin_with_the_most_significant_octet(rt: HostRuntime) {
    assert!(rt; numbers() == (0, 258, 4_294_967_295, 66_051, 16_909_060));
}

/// Whether numbers of one octet to four stand one after the other.
fn are_put_at_the_end(alloc: Global) -> Result<bool, Memory> {
    let mut octets = List::new(alloc);
    put_u8(&mut octets, 7)?;
    put_u16(&mut octets, 258)?;
    put_u24(&mut octets, 66_051)?;
    put_u32(&mut octets, 16_909_060)?;
    Ok(octets.as_slice() == [7, 1, 2, 1, 2, 3, 1, 2, 3, 4].as_slice())
}

/// Whether octets stand after their number, of two octets and of four.
fn are_put_after_their_number(alloc: Global) -> Result<bool, Memory> {
    let mut octets = List::new(alloc);
    put_counted_u16(&mut octets, b"ab")?;
    put_counted_u32(&mut octets, b"c")?;
    Ok(octets.as_slice() == [0, 2, b'a', b'b', 0, 0, 0, 1, b'c'].as_slice())
}

#[test]
fn numbers_and_octets_are_put_at_the_end(rt: HostRuntime) -> Result<(), Fail> {
    let numbers = are_put_at_the_end(rt.alloc())?;
    let octets = are_put_after_their_number(rt.alloc())?;
    assert!(rt; numbers & octets);
    Ok(())
}

fn is_fault<T: Drop>(read: Result<T, FieldRefused>, place: u32) -> bool {
    match read {
        Err(FieldRefused::Fault { offset }) => offset == place,
        _ => false,
    }
}

fn are<'a>(read: Result<&'a [u8], FieldRefused>, wanted: &[u8]) -> bool {
    match read {
        Ok(octets) => octets == wanted,
        Err(_) => false,
    }
}

/// Whether a cursor takes fields of each kind in turn, and is at its end after the last alone.
fn takes_fields_in_turn() -> bool {
    let octets = [7, 1, 2, 1, 2, 3, 1, 2, 3, 4, 8, 9, 0, 2, 10, 11, 12];
    let mut cursor = Cursor::new(100, &octets);
    let small = (cursor.u8() == Ok(7)) & (cursor.u16() == Ok(258));
    let large = (cursor.u24() == Ok(66_051)) & (cursor.u32() == Ok(16_909_060));
    let counted = are(cursor.octets(2), &[8, 9]) & are(cursor.counted(2), &[10, 11]);
    let place = (cursor.left() == 1) & (cursor.place() == 116) & is_fault(cursor.end(), 116);
    let last = (cursor.number(1) == Ok(12)) & cursor.end().is_ok();
    small & large & counted & place & last
}

/// Whether fields that are longer than what is left have their fault there, and take nothing.
fn faults_at_the_field() -> bool {
    let octets = [0, 0, 3, 1, 2];
    let mut cursor = Cursor::new(100, &octets);
    let first = cursor.u8() == Ok(0);
    let long = is_fault(cursor.octets(5), 101) & is_fault(cursor.counted(2), 101);
    first & long & (cursor.left() == 4) & (cursor.u32() == Ok(196_866))
}

/// Whether each field but no octets has its fault at the end.
fn faults_at_the_end() -> bool {
    let mut cursor = Cursor::new(105, &[]);
    let small = is_fault(cursor.u8(), 105) & is_fault(cursor.u16(), 105);
    let large = is_fault(cursor.u24(), 105) & is_fault(cursor.u32(), 105);
    small & large & is_fault(cursor.counted(1), 105) & cursor.octets(0).is_ok()
}

#[test]
fn a_cursor_takes_fields_or_faults(rt: HostRuntime) {
    let in_turn = takes_fields_in_turn();
    let at_the_field = faults_at_the_field();
    let at_the_end = faults_at_the_end();
    assert!(rt; in_turn & at_the_field & at_the_end);
}

/// Reads a number of two octets.
#[derive(Drop)]
struct PairReader;

impl FieldReader for PairReader {
    type Value = u16;

    ghost reading = { λ reader. number 2 };

    fn read(&self, _alloc: Global, cursor: &mut Cursor) -> Result<u16, FieldRefused> {
        cursor.u16()
    }
}

/// Whether these are the numbers.
fn are_numbers(read: Result<List<u16>, FieldRefused>, wanted: &[u16]) -> bool {
    match read {
        Ok(numbers) => numbers.as_slice() == wanted,
        Err(_) => false,
    }
}

/// Whether none, two, and then too many fields are read.
fn reads_several(alloc: Global) -> bool {
    let mut cursor = Cursor::new(100, &[1, 2, 0, 3, 0, 4, 9]);
    let none = are_numbers(read_several(alloc, &mut cursor, &PairReader, 0, 2), &[]);
    let two = are_numbers(
        read_several(alloc, &mut cursor, &PairReader, 2, 2),
        &[258, 3],
    );
    let many = read_several(alloc, &mut cursor, &PairReader, 4_294_967_295, 2);
    none & two & is_fault(many, 106)
}

#[test]
fn several_fields_are_read_in_turn(rt: HostRuntime) {
    assert!(rt; reads_several(rt.alloc()));
}
