//! Sweeps over one source in a box.

use crate::book::STAMP;
use crate::trouble::Trouble;
use collector_core::Book;
use source_set::{SourceSet, TagSource, Told};
use std::alloc::Global;
use swima_model::{Body, Content, Ident, Locator, Model};
use wire_base::is_stamp;

/// How many events the book keeps.
const KEPT: usize = 4096;

/// The body of each item: with its identifier of 16 octets an item has 400.
const BODY: [u8; 384] = [0; 384];

/// A source that adds keys from 0 on, then changes every tenth of them, and is quiet after that.
#[derive(Drop)]
struct Counted {
    alloc: Global,
    adds: u32,
    changes: u32,
    next: u32,
}

impl TagSource for Counted {
    ghost reports = { λ source items. ⊥ };

    ghost faults = { λ source. 0 };

    fn next(&mut self) -> Told {
        let Some(content) = content(self.alloc) else {
            return Told::Memory;
        };
        let key = self.next;
        if key < self.adds {
            self.next = key.saturating_add(1);
            return Told::Add { key, content };
        }
        let change = key - self.adds;
        if change < self.changes {
            self.next = key.saturating_add(1);
            return Told::Change {
                key: change.saturating_mul(10),
                content,
            };
        }
        Told::Quiet
    }
}

/// What each item says; `None` where memory ran out.
fn content(alloc: Global) -> Option<Content> {
    let ident = Ident::new(alloc, b"example.org__abc").ok()?;
    Some(Content {
        model: Model { pen: 0, kind: 2 },
        source: 0,
        ident,
        locator: Locator::empty(alloc),
        body: Body::new(alloc, &BODY).ok()?,
    })
}

/// Sweeps that add that many items and change that many, and then that many quiet ones. It gives
/// the number of items that were done.
pub(crate) fn swept(alloc: Global, adds: u32, changes: u32, quiet: u32) -> Result<u64, Trouble> {
    let sweeps = (adds / 1024)
        .saturating_add(changes / 1024)
        .saturating_add(2);
    let source = Counted {
        alloc,
        adds,
        changes,
        next: 0,
    };
    let mut boxes: Vec<Box<dyn TagSource + Send>> = Vec::new(alloc);
    boxes.push(Box::new(alloc, source)?)?;
    let mut set = SourceSet::new(alloc, boxes)?;
    swept_from(alloc, &mut set, sweeps.saturating_add(quiet))
}

/// That many sweeps of the sources over an empty book. It gives the number of items that were done.
fn swept_from(alloc: Global, set: &mut SourceSet, times: u32) -> Result<u64, Trouble> {
    let mut book = Book::new(alloc, 1, KEPT, &[])?;
    sweep(set, &mut book, times)
}

/// That many sweeps. It gives the number of items that were done.
fn sweep(set: &mut SourceSet, book: &mut Book, times: u32) -> Result<u64, Trouble> {
    let mut done: u64 = 0;
    for _ in 0..times {
        done = done.saturating_add(once(set, book)?);
    }
    Ok(done)
}

/// One sweep. It gives the number of items that were done.
fn once(set: &mut SourceSet, book: &mut Book) -> Result<u64, Trouble> {
    if !is_stamp(&STAMP) {
        return Err(Trouble::Book);
    }
    let (swept, result) = set.sweep(book, &STAMP);
    match result {
        Ok(()) => Ok(u64::from(swept.added) + u64::from(swept.changed)),
        Err(_) => Err(Trouble::Book),
    }
}
