//! The command `mirror`: calls that fail, and large inputs.

use crate::long_input::Part;
use crate::run::{is_printed, prints_failing, prints_part, run};
use std::alloc::Global;
use std::test::Fail;
use wire_base::{List, MemFiles, MemSource, Octets};

/// An inventory of no records at event 0 of epoch 7.
const EMPTY: &[u8] = b"\0\0\0\0\0\0\0\x0e\0\0\0\x1c\0\0\0\0\0\0\0\x01\0\0\0\x07\0\0\0\0";

/// An input, calls that fail, of the input and of the output, and what is printed before.
type Row = (
    &'static [u8],
    (&'static [u64], &'static [u64]),
    &'static str,
);

/// The inventory is read in two calls, one for the header and one for the value; the third finds
/// the end.
const FAILING: [Row; 6] = [
    (EMPTY, (&[1], &[]), ""),
    (EMPTY, (&[2], &[]), ""),
    (EMPTY, (&[3], &[]), "took adopted 7 0 0\n"),
    (EMPTY, (&[], &[1]), ""),
    (EMPTY, (&[], &[2]), "took adopted 7 0 0\n"),
    (b"", (&[], &[1]), ""),
];

#[test]
fn stops_at_failing_calls(rt: HostRuntime) -> Result<(), Fail> {
    for (input, failing, output) in FAILING.iter() {
        let wanted = (3, *output);
        assert!(rt; prints_failing(rt.alloc(), &["mirror", "ids"], input, *failing, wanted)?);
    }
    Ok(())
}

/// An attribute of 16777216 octets, which carries no report.
#[test]
fn skips_an_attribute_of_16777216_octets(rt: HostRuntime) -> Result<(), Fail> {
    let part: Part = (b"\0\0\0\0\0\0\0\x14\x01\0\0\0", 16_777_204);
    let wanted = (0, "skipped 0 20\nmirror none\n");
    assert!(rt; prints_part(rt.alloc(), &["mirror", "ids"], part, wanted)?);
    Ok(())
}

/// An inventory of the records 1 to `count`, each without identifier and locator, at event 1 of
/// epoch 7.
fn inventory(alloc: Global, count: u32) -> Result<Vec<u8>, Fail> {
    let length = count.wrapping_mul(14).wrapping_add(28);
    let mut octets = Vec::from_slice(alloc, b"\0\0\0\0\0\0\0\x0e")?;
    octets.extend_from_slice(&length.to_be_bytes())?;
    octets.extend_from_slice(&count.to_be_bytes())?;
    octets.extend_from_slice(b"\0\0\0\x01\0\0\0\x07\0\0\0\x01")?;
    for id in 0..count {
        octets.extend_from_slice(&id.wrapping_add(1).to_be_bytes())?;
        octets.extend_from_slice(b"\0\0\0\x02\0\0\0\0\0\0")?;
    }
    Ok(octets)
}

/// The status, and what was written, of that inventory.
fn mirror(alloc: Global, count: u32) -> Result<(u8, Octets), Fail> {
    let octets = List::from_vec(inventory(alloc, count)?);
    let mut input = MemSource::new(alloc, octets, &[])?;
    let mut files = MemFiles::empty(alloc);
    run(alloc, &["mirror", "ids"], &mut input, &mut files, &[])
}

/// Whether the first records and the last of 65536 are printed.
fn prints_records(alloc: Global) -> Result<bool, Fail> {
    let (status, written) = mirror(alloc, 65_536)?;
    let head = b"took adopted 7 1 65536\nmirror 7 1 65536\nrecord 1 0/2 0 \\e \\e -\nrecord 2 ";
    let last = b"\nrecord 65536 0/2 0 \\e \\e -\n";
    Ok(
        status == 0
            && written.as_slice().starts_with(head.as_slice())
            && written.as_slice().ends_with(last.as_slice()),
    )
}

/// Whether an inventory of 65537 records is too large.
fn refuses_records(alloc: Global) -> Result<bool, Fail> {
    let wanted = (0, "took large 65537 0\nmirror none\n");
    Ok(is_printed(mirror(alloc, 65_537)?, wanted))
}

#[test]
fn takes_65536_records(rt: HostRuntime) -> Result<(), Fail> {
    assert!(rt; prints_records(rt.alloc())?);
    Ok(())
}

#[test]
fn takes_no_more_records(rt: HostRuntime) -> Result<(), Fail> {
    assert!(rt; refuses_records(rt.alloc())?);
    Ok(())
}
