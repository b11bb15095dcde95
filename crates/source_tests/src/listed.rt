//! A source that reports what a test lists.

use source_set::{TagSource, Told};
use std::alloc::Global;
use swima_model::{Body, Content, Ident, Locator, Model};
use wire_base::Memory;

/// What a source reports next. A letter is the identifier of the software.
#[derive(Clone, Copy)]
pub(crate) enum Step {
    Add(u32, u8),
    Change(u32, u8),
    Gone(u32),
    Bad(u64),
    Quiet,
    Ended,
    Failed,
    Memory,
}

/// A source that reports these steps, the last one first, and is quiet after them.
#[derive(Drop)]
pub(crate) struct Listed {
    steps: Vec<Step>,
    faults: u64,
}

impl Listed {
    /// The steps come in this order.
    pub(crate) fn new(alloc: Global, steps: &[Step]) -> Result<Listed, Memory> {
        let mut left = Vec::from_slice(alloc, steps)?;
        left.reverse();
        Ok(Listed {
            steps: left,
            faults: 0,
        })
    }
}

impl TagSource for Listed {
    ghost reports = { λ source items. ⊥ };

    ghost faults = { λ source. source.faults };

    fn next(&mut self) -> Told {
        let alloc = *self.steps.allocator();
        match self.steps.pop() {
            None => Told::Quiet,
            Some(Step::Add(key, letter)) => match content(alloc, letter) {
                Ok(content) => Told::Add { key, content },
                Err(_) => Told::Memory,
            },
            Some(Step::Change(key, letter)) => match content(alloc, letter) {
                Ok(content) => Told::Change { key, content },
                Err(_) => Told::Memory,
            },
            Some(Step::Gone(key)) => Told::Gone { key },
            Some(Step::Bad(line)) => Told::Bad { line },
            Some(Step::Quiet) => Told::Quiet,
            Some(Step::Ended) => Told::Ended,
            Some(Step::Memory) => Told::Memory,
            Some(Step::Failed) => {
                self.faults = self.faults.saturating_add(1);
                Told::Failed
            }
        }
    }
}

/// A content whose identifier is this letter. Its source number is not looked at.
fn content(alloc: Global, letter: u8) -> Result<Content, Memory> {
    Ok(Content {
        model: Model { pen: 0, kind: 2 },
        source: 9,
        ident: Ident::new(alloc, &[letter]).map_err(|_| Memory)?,
        locator: Locator::empty(alloc),
        body: Body::empty(alloc),
    })
}
