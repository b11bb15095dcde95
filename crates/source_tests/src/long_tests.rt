//! Lines as long as they may be, and one octet longer.

use crate::values::lines;
use source_lines::{LineFault, LineSource};
use source_set::{TagSource, Told};
use std::alloc::Global;
use wire_base::{Failed, Memory, Source};

/// A source of letters, that many.
#[derive(Drop)]
struct Letters {
    left: usize,
}

impl Source for Letters {
    ghost use Rattle.std.specs.Prelude.{None};

    ghost left = { λ _. None };

    ghost faults = { λ _. 0 };

    fn read(&mut self, buf: &mut [u8]) -> Result<usize, Failed> {
        let count = self.left.min(buf.len());
        buf[..count].fill(b'a');
        self.left -= count;
        Ok(count)
    }
}

/// Whether that many letters without a line feed are a bad line for being too long.
fn is_long(alloc: Global, letters: usize) -> Result<bool, Memory> {
    let mut source = LineSource::new(alloc, Letters { left: letters })?;
    let is_bad = matches!(source.next(), Told::Bad { line: 1 });
    Ok(is_bad && source.last_fault() == Some(LineFault::Long))
}

/// Whether that many letters without a line feed wait for more.
fn waits(alloc: Global, letters: usize) -> Result<bool, Memory> {
    let mut source = LineSource::new(alloc, Letters { left: letters })?;
    let is_quiet = matches!(source.next(), Told::Quiet);
    Ok(is_quiet && source.last_fault() == None)
}

#[test]
fn a_line_has_at_most_4194304_octets(rt: HostRuntime) -> Result<(), Memory> {
    let longest = waits(rt.alloc(), 4_194_304)?;
    let longer = is_long(rt.alloc(), 4_194_305)?;
    assert!(rt; longest & longer);
    Ok(())
}

/// What follows the identifier of a tag, in digits.
const AFTER_ID: &[u8] = b"01616202a2181f61631821010c00\n";

/// What follows the name of the software in a tag, in digits.
const AFTER_NAME: &[u8] = b"02a2181f61631821010c00\n";

/// Lines of tags in two parts, with that many letters `a` between them, and whether they are items.
/// The identifier of the first is `invalid.unavailable__` and these letters. The canonical octets
/// of the last two are those of the line and five before them.
const LONG_TAGS: &[(bool, &[u8], usize, &[u8])] = &[
    (true, b"add 1 \\e a40079ffea", 65_514, AFTER_ID),
    (false, b"add 1 \\e a40079ffeb", 65_515, AFTER_ID),
    (
        true,
        b"add 1 \\e a4006161017a000fffe6",
        1_048_550,
        AFTER_NAME,
    ),
    (
        false,
        b"add 1 \\e a4006161017a000fffe7",
        1_048_551,
        AFTER_NAME,
    ),
];

/// Pushes that many letters in digits.
fn push_letters(octets: &mut Vec<u8>, letters: usize) -> Result<(), Memory> {
    for _ in 0..letters {
        octets.extend_from_slice(b"61")?;
    }
    Ok(())
}

/// The line of these two parts, with that many letters between them.
fn long_line(
    alloc: Global,
    before: &[u8],
    letters: usize,
    after: &[u8],
) -> Result<Vec<u8>, Memory> {
    let mut octets = Vec::from_slice(alloc, before)?;
    push_letters(&mut octets, letters)?;
    octets.extend_from_slice(after)?;
    Ok(octets)
}

/// Whether a line is an item as it is said, and where it is none, since its octets are too many.
fn is_so(alloc: Global, row: &(bool, &[u8], usize, &[u8])) -> Result<bool, Memory> {
    let (wanted, before, letters, after) = *row;
    let line = long_line(alloc, before, letters, after)?;
    let mut source = lines(alloc, line.as_slice(), &[])?;
    let is_item = matches!(source.next(), Told::Add { key: 1, .. });
    let is_long = source.last_fault() == Some(LineFault::Octets);
    Ok((is_item == wanted) & (is_long != wanted))
}

#[test]
fn a_tag_is_at_most_as_long_as_a_record(rt: HostRuntime) -> Result<(), Memory> {
    let alloc = rt.alloc();
    for row in LONG_TAGS.iter() {
        assert!(rt; is_so(alloc, row)?);
    }
    Ok(())
}
