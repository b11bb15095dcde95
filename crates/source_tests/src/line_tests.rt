//! Lines of an input that comes in pieces, and calls that fail. Rows of `conformance` have what
//! each line says.

use crate::values::lines;
use source_lines::{LineFault, LineSource};
use source_set::{TagSource, Told};
use std::alloc::Global;
use wire_base::{Failed, Memory, Source};

/// The canonical octets of a small tag, whose identifier is `invalid.unavailable__a`.
const TAG: &[u8] = b"da53574944a400616101616202a2181f61631821010c00";

/// A source that gives octets a few at a time, with an end of the input after each.
#[derive(Drop)]
struct Trickle {
    octets: Vec<u8>,
    place: usize,
    piece: usize,
    paused: bool,
}

impl Source for Trickle {
    ghost use Rattle.std.specs.Prelude.{None};

    ghost left = { λ _. None };

    ghost faults = { λ _. 0 };

    fn read(&mut self, buf: &mut [u8]) -> Result<usize, Failed> {
        self.paused = !self.paused;
        if self.paused || self.place > self.octets.len() {
            return Ok(0);
        }
        let (_, rest) = self.octets.as_slice().split_at(self.place);
        let count = self.piece.min(rest.len()).min(buf.len());
        buf[..count].copy_from_slice(&rest[..count]);
        self.place = self.place.saturating_add(count);
        Ok(count)
    }
}

/// A letter of an item.
fn letter(item: &Told) -> u8 {
    match item {
        Told::Quiet => b'q',
        Told::Add { .. } => b'a',
        Told::Change { .. } => b'c',
        Told::Gone { .. } => b'g',
        Told::Bad { .. } => b'b',
        Told::Ended => b'e',
        Told::Failed => b'f',
        Told::Memory => b'm',
    }
}

/// Whether these letters come of the items before the source was quiet that many times in a row.
fn gives<S: TagSource>(
    alloc: Global,
    source: &mut S,
    most: u32,
    wanted: &[u8],
) -> Result<bool, Memory> {
    let mut found = Vec::new(alloc);
    push_letters(source, most, &mut found)?;
    Ok(found.as_slice() == wanted)
}

/// Pushes a letter for each item that comes before the source was quiet that many times in a row.
fn push_letters<S: TagSource>(
    source: &mut S,
    most: u32,
    found: &mut Vec<u8>,
) -> Result<(), Memory> {
    let mut quiet: u32 = 0;
    for _ in 0..100_000 {
        if quiet == most {
            return Ok(());
        }
        let letter = letter(&source.next());
        if letter == b'q' {
            quiet = quiet.saturating_add(1);
        } else {
            quiet = 0;
            found.push(letter)?;
        }
    }
    Ok(())
}

/// Lines of every kind, the last without an end.
fn every_kind(alloc: Global) -> Result<Vec<u8>, Memory> {
    let mut octets = Vec::new(alloc);
    push_every_kind(&mut octets)?;
    Ok(octets)
}

/// Pushes these lines.
fn push_every_kind(octets: &mut Vec<u8>) -> Result<(), Memory> {
    octets.extend_from_slice(b"add 1 /opt/a ")?;
    octets.extend_from_slice(TAG)?;
    octets.extend_from_slice(b"\nchange 1 \\e ")?;
    octets.extend_from_slice(TAG)?;
    octets.extend_from_slice(b"\nxml 2 i \\x20 -\n\ngone 1\n quiet\ngone 2\nend\nend")?;
    Ok(())
}

/// Whether all is found in pieces of that many octets.
fn gives_every_kind(alloc: Global, piece: usize) -> Result<bool, Memory> {
    let trickle = Trickle {
        octets: every_kind(alloc)?,
        place: 0,
        piece,
        paused: false,
    };
    let mut source = LineSource::new(alloc, trickle)?;
    gives(alloc, &mut source, 200, b"acabgbge")
}

#[test]
fn pieces_do_not_matter(rt: HostRuntime) -> Result<(), Memory> {
    let alloc = rt.alloc();
    for piece in 1..150 {
        assert!(rt; gives_every_kind(alloc, piece)?);
    }
    Ok(())
}

/// Whether all is found where three calls fail.
fn goes_on_after_faults(alloc: Global) -> Result<bool, Memory> {
    let octets = every_kind(alloc)?;
    let mut source = lines(alloc, octets.as_slice(), &[1, 2, 4])?;
    gives(alloc, &mut source, 2, b"ffacabgbgef")
}

#[test]
fn a_failed_call_loses_nothing(rt: HostRuntime) -> Result<(), Memory> {
    assert!(rt; goes_on_after_faults(rt.alloc())?);
    Ok(())
}

/// Lines that are no items, each with why.
const NO_ITEMS: &[(LineFault, &[u8])] = &[
    (LineFault::Words, b""),
    (LineFault::Words, b"sub 1 a -"),
    (LineFault::Words, b"add 1 \\e"),
    (LineFault::Words, b"gone 1 2"),
    (LineFault::Words, b"quiet now"),
    (LineFault::Key, b"gone 4294967296"),
    (LineFault::Key, b"xml 01 a \\e -"),
    (LineFault::Text, b"xml 1 \\q \\e -"),
    (LineFault::Text, b"xml 1 a \\q -"),
    (LineFault::Digits, b"xml 1 a \\e 0"),
    (LineFault::Octets, b"add 1 \\e 00"),
];

/// Whether the line is none for this reason.
fn is_none_for(alloc: Global, fault: LineFault, line: &[u8]) -> Result<bool, Memory> {
    let mut octets = Vec::from_slice(alloc, line)?;
    octets.push(b'\n')?;
    let mut source = lines(alloc, octets.as_slice(), &[])?;
    let is_bad = matches!(source.next(), Told::Bad { line: 1 });
    Ok(is_bad && source.last_fault() == Some(fault))
}

#[test]
fn a_bad_line_says_why(rt: HostRuntime) -> Result<(), Memory> {
    let alloc = rt.alloc();
    for (fault, line) in NO_ITEMS.iter() {
        assert!(rt; is_none_for(alloc, *fault, line)?);
    }
    Ok(())
}
