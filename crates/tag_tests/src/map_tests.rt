//! Maps of that many pairs that their count needs a longer head.

use cbor_det::{LARGEST, read_item, write_item};
use std::alloc::Global;
use std::test::Fail;

/// The octets of a map from the unsigned integers below `count`, each in a head of five octets, to
/// 0, after the map's own head.
fn map_of(alloc: Global, head: &[u8], count: u32) -> Result<Vec<u8>, Fail> {
    let mut octets = Vec::from_slice(alloc, head)?;
    for key in 0..count {
        octets.push(0x1a)?;
        octets.extend_from_slice(&key.to_be_bytes())?;
        octets.push(0)?;
    }
    Ok(octets)
}

/// How many octets the canonical spelling of the item has, and whether it begins with these.
fn written(alloc: Global, octets: &[u8], prefix: &[u8]) -> Result<(usize, bool), Fail> {
    let (item, _) = read_item(alloc, octets, LARGEST)?;
    let written = write_item(alloc, &item)?;
    Ok((written.len(), written.as_slice().starts_with(prefix)))
}

/// The same of a map of that many pairs with this head.
fn written_map(
    alloc: Global,
    head: &[u8],
    count: u32,
    prefix: &[u8],
) -> Result<(usize, bool), Fail> {
    let octets = map_of(alloc, head, count)?;
    written(alloc, octets.as_slice(), prefix)
}

/// Heads of a map of 65,535 pairs.
const HEADS_OF_65535: [&[u8]; 3] = [
    b"\xb9\xff\xff",
    b"\xba\x00\x00\xff\xff",
    b"\xbb\x00\x00\x00\x00\x00\x00\xff\xff",
];

/// The head of 3 octets, 24 keys of 1 octet, 232 of 2 and 65,279 of 3, and a value of 1 octet each.
#[test]
fn reads_maps_of_65535_pairs(rt: HostRuntime) -> Result<(), Fail> {
    let prefix = b"\xb9\xff\xff\x00\x00\x01\x00";
    for head in HEADS_OF_65535.iter() {
        let (len, begins) = written_map(rt.alloc(), head, 65_535, prefix)?;
        assert!(rt; len == 261_863 && begins);
    }
    Ok(())
}

/// Heads of a map of 65,536 pairs.
const HEADS_OF_65536: [&[u8]; 2] = [
    b"\xba\x00\x01\x00\x00",
    b"\xbb\x00\x00\x00\x00\x00\x01\x00\x00",
];

/// The head of 5 octets, and one key of 3 octets more.
#[test]
fn reads_maps_of_65536_pairs(rt: HostRuntime) -> Result<(), Fail> {
    let prefix = b"\xba\x00\x01\x00\x00\x00\x00\x01\x00";
    for head in HEADS_OF_65536.iter() {
        let (len, begins) = written_map(rt.alloc(), head, 65_536, prefix)?;
        assert!(rt; len == 261_869 && begins);
    }
    Ok(())
}
