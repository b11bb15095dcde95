//! An input of many octets, of which only few matter and are held.

ghost use Rattle.std.specs.Prelude.{None};

use std::alloc::Global;
use std::test::Fail;
use wire_base::{Failed, Source};

/// Octets, and how many of any value follow them, at least one.
pub(crate) type Part = (&'static [u8], usize);

/// An input of parts one after another. Octets of any value are what stands where they are read to,
/// so they take no time.
#[derive(Drop)]
pub(crate) struct LongInput {
    parts: Vec<Part>,
    /// The place of the part that is read next.
    next: usize,
}

impl LongInput {
    /// An input of these parts.
    pub(crate) fn new(alloc: Global, parts: &[Part]) -> Result<Self, Fail> {
        let parts = Vec::from_slice(alloc, parts)?;
        Ok(LongInput { parts, next: 0 })
    }

    /// An input of a part `count` times, and of these after it.
    pub(crate) fn repeated(
        alloc: Global,
        part: Part,
        count: u32,
        last: &[Part],
    ) -> Result<Self, Fail> {
        let mut parts = Vec::new(alloc);
        for _ in 0..count {
            parts.push(part)?;
        }
        parts.extend_from_slice(last)?;
        Ok(LongInput { parts, next: 0 })
    }
}

impl Source for LongInput {
    ghost left = { λ _. None };

    ghost faults = { λ _. 0 };

    fn read(&mut self, buf: &mut [u8]) -> Result<usize, Failed> {
        let Some(part) = self.parts.get_mut(self.next) else {
            return Ok(0);
        };
        if !part.0.is_empty() {
            let count = part.0.len().min(buf.len());
            let (read, rest) = part.0.split_at(count);
            buf[..count].copy_from_slice(read);
            part.0 = rest;
            return Ok(count);
        }
        let count = part.1.min(buf.len());
        part.1 -= count;
        if part.1 == 0 {
            self.next = self.next.saturating_add(1);
        }
        Ok(count)
    }
}
