//! Tags with directories as deep as they may be: read, and written as they were.

use coswid_codec::{read_tag, write_tag};
use std::alloc::Global;
use std::test::Fail;

/// The canonical spelling of a tag with that many directories `d` in one another, and in the last
/// of them the file `f` with a hash of one octet.
fn deep(alloc: Global, count: u8) -> Result<Vec<u8>, Fail> {
    let mut octets = Vec::from_slice(
        alloc,
        b"\xda\x53\x57\x49\x44\xa5\x00\x61a\x01\x61b\x02\xa2\x18\x1f\x61c\x18\x21\x01\x06",
    )?;
    for _ in 0..count {
        octets.extend_from_slice(b"\xa1\x10\xa2\x18\x18\x61d\x18\x1a")?;
    }
    octets.extend_from_slice(b"\xa1\x11\xa2\x07\x82\x01\x41\x00\x18\x18\x61f\x0c\x00")?;
    Ok(octets)
}

/// Whether that tag is written as it was read.
fn deep_is_written(alloc: Global, count: u8) -> Result<bool, Fail> {
    let octets = deep(alloc, count)?;
    let (tag, _) = read_tag(alloc, octets.as_slice())?;
    Ok(write_tag(alloc, &tag)?.as_slice() == octets.as_slice())
}

/// Each directory stands 2 levels below the one around it, and the hash 4 levels below the last
/// directory: 64 levels deep with 29 directories, under the tag of tags.
#[test]
fn directories_in_directories_are_written(rt: HostRuntime) -> Result<(), Fail> {
    assert!(rt; deep_is_written(rt.alloc(), 29)?);
    Ok(())
}
