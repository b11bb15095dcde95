//! Files in memory, some of whose reads fail.

ghost use Rattle.std.specs.Option.{option_copied};
ghost use Rattle.std.specs.Prelude.{◌≡◌, ◌≤◌, if◌then◌else◌, List, ℕ, [], None, Some, IfOk, length};
ghost use Rattle.wire_base.specs.Counter.{next};
ghost use Rattle.wire_base.specs.InMemory.{FilesInMemory, next_fails};
ghost use Rattle.wire_base.specs.NamedFile.{IsAnswer, content_of, has_failed};
ghost use Rattle.wire_base.specs.Outside.{HasCause};
ghost use Rattle.wire_base.specs.declared.outside.files.FileAnswer.TheVariants as answer;

use crate::outside::failing_calls::FailingCalls;
use crate::outside::files::{FileAnswer, Files, NamedFile};
use crate::values::list::{List, Octets, TryCopy};
use crate::values::memory::Memory;
use std::alloc::Global;
use std::marker::Model;

/// Files in memory that expose what they hold; the calls whose numbers they were given fail.
#[derive(Debug, Drop)]
pub struct MemFiles {
    files: List<NamedFile>,
    calls: FailingCalls,
}

impl Model for MemFiles {
    ghost use Rattle.wire_base.specs.InMemory.{FilesInMemory};

    ghost Value = { FilesInMemory };

    ghost view = { λ held. record { files = held.files; made = held.calls.made; failing = held.calls.failing; faults = held.calls.faults } };
}

impl MemFiles {
    /// No files, and no call that fails. It takes no memory.
    pub fn empty(alloc: Global) -> Self
        ensures made { result ≡ record { files = []; made = 0; failing = []; faults = 0 } }
    {
        MemFiles {
            files: List::new(alloc),
            calls: FailingCalls::none(alloc),
        }
    }

    /// All of `files`, of which the first counts where two have one name. It fails at the calls
    /// numbered in `failing`, the first being 1.
    pub fn new(alloc: Global, files: List<NamedFile>, failing: &[u64]) -> Result<Self, Memory>
        ensures made { IfOk result (λ made. made
            ≡ record { files = files; made = 0; failing = failing.now; faults = 0 }) }
    {
        Ok(MemFiles {
            files,
            calls: FailingCalls::new(alloc, failing)?,
        })
    }
}

impl Files for MemFiles {
    ghost contents = { λ held. Some held.files };

    ghost faults = { λ held. held.faults };

    ghost reads = { λ _. None };

    /// A copy of the content, unless the call is one that fails. Memory is asked for that copy
    /// alone.
    fn read(&mut self, name: &str, limit: usize) -> FileAnswer
        ensures answer { IsAnswer (Some self.old.files) name.now limit result }
        ensures contents { Some self.new.files ≡ Some self.old.files }
        ensures cause { HasCause self.old.faults self.new.faults (has_failed result) }
        ensures fails { has_failed result ≡ next_fails self.old.made self.old.failing }
        ensures memory { result ≡ answer.Memory → (content : List ℕ)
            × (content_of self.old.files name.now ≡ Some content) × (length content ≤ limit) }
        ensures faults { self.new.faults ≡ (if has_failed result then next self.old.faults else self.old.faults) }
        ensures calls { (self.new.made ≡ next self.old.made) × (self.new.failing ≡ self.old.failing) }
    {
        if self.calls.begin_call(false) {
            return FileAnswer::Failed;
        }
        match first_content(self.files.as_slice(), name) {
            None => FileAnswer::Missing,
            Some(content) if limit < content.len() => FileAnswer::TooLong(content.len() as u64),
            Some(content) => match content.copy() {
                Ok(octets) => FileAnswer::Content(octets),
                Err(Memory) => FileAnswer::Memory,
            },
        }
    }
}

/// The content of the first file of that name.
fn first_content<'a>(files: &'a [NamedFile], name: &str) -> Option<&'a Octets>
    ensures first { option_copied result ≡ content_of files.now name.now }
{
    for file in files {
        if file.name.as_str() == name {
            return Some(&file.content);
        }
    }
    None
}
