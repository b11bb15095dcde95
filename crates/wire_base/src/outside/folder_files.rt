//! The files of the system, by their paths: the trusted edge. They expose nothing of what they
//! hold.

ghost use Rattle.std.specs.Fs.{IsFile, file_type, metadata_len};
ghost use Rattle.std.specs.Prelude.{◌≡◌, ◌≤◌, if◌then◌else◌, List, ℕ, Option, None};
ghost use Rattle.std.specs.IoError.{error_kind};
ghost use Rattle.wire_base.specs.Counter.{next};
ghost use Rattle.wire_base.specs.NamedFile.{IsAnswer, has_failed};
ghost use Rattle.wire_base.specs.Outside.{HasCause};
ghost use Rattle.wire_base.specs.Unread.{IsLength, IsWithin, unread_by};
ghost use Rattle.wire_base.specs.declared.outside.folder_files.Unread.TheVariants as unread;

use crate::outside::files::{FileAnswer, Files};
use crate::outside::fill::fill;
use crate::outside::standard_streams::StdinSource;
use crate::outside::stopped::Stopped;
use crate::values::list::{List, Octets};
use crate::values::memory::Memory;
use crate::values::text::Text;
use std::alloc::Global;
use std::fs::Metadata;
use std::io::ErrorKind;
use std::marker::Model;
use std::{fs, io};

/// The files of a system. A name is a path as the system takes it: absolute, or relative to the
/// working folder. No such name, and a name that leads through something that is no folder, is
/// `Missing`; whatever else the system refuses, and what is no plain file, is a fault.
#[derive(Debug, Drop)]
pub struct FolderFiles<R> {
    system: R,
    alloc: Global,
    faults: u64,
    last: Option<ErrorKind>,
    failed: Option<Text>,
}

impl<R> Model for FolderFiles<R> {
    ghost use Rattle.wire_base.specs.Adapter.{Adapter};

    ghost Value = { Adapter R };

    ghost view = { λ files. record { inner = files.system; faults = files.faults } };
}

impl<R: fs::Files> FolderFiles<R> {
    /// The files of `system`, with no fault yet. What they give takes its memory from `alloc`.
    pub fn new(alloc: Global, system: R) -> Self
        ensures made { result ≡ record { inner = system; faults = 0 } }
    {
        FolderFiles {
            system,
            alloc,
            faults: 0,
            last: None,
            failed: None,
        }
    }

    /// What the system said at the last read that failed, if one did: for people.
    pub fn last_error(&self) -> Option<ErrorKind> {
        self.last
    }

    /// The name of the file of that read, where there was room for it.
    pub fn failed_name(&self) -> Option<&Text> {
        self.failed.as_ref()
    }
}

impl<R: fs::Files> Files for FolderFiles<R> {
    ghost contents = { λ _. None };

    ghost faults = { λ files. files.faults };

    ghost reads = { λ _. None };

    /// Reads the file, unless its length is above the limit. Of a file that grows meanwhile it
    /// reads one octet more than the limit at most, and exposes as its length what it read.
    fn read(&mut self, name: &str, limit: usize) -> FileAnswer
        ensures answer { IsAnswer None name.now limit result }
        ensures cause { HasCause self.old.faults self.new.faults (has_failed result) }
        ensures system { self.new.inner ≡ self.old.inner }
        ensures faults { self.new.faults ≡ (if has_failed result then next self.old.faults else self.old.faults) }
    {
        match content_within(self.alloc, &self.system, name, limit) {
            Ok(octets) => FileAnswer::Content(octets),
            Err(Unread::Missing) => FileAnswer::Missing,
            Err(Unread::TooLong(len)) => FileAnswer::TooLong(len),
            Err(Unread::Memory) => FileAnswer::Memory,
            Err(Unread::Failed(kind)) => {
                self.faults = self.faults.saturating_add(1);
                self.last = Some(kind);
                self.failed = Text::new(self.alloc, name).ok();
                FileAnswer::Failed
            }
        }
    }
}

/// Why the content of a file is not given.
#[derive(Clone, Copy)]
enum Unread {
    Missing,
    TooLong(u64),
    Failed(ErrorKind),
    Memory,
}

impl From<io::Error> for Unread {
    ghost from_gives = { λ error e. e ≡ unread_by (error_kind error) };

    fn from(error: io::Error) -> Self {
        match error.kind() {
            ErrorKind::NotFound | ErrorKind::NotADirectory => Unread::Missing,
            kind => Unread::Failed(kind),
        }
    }
}

impl From<Memory> for Unread {
    ghost from_gives = { λ _ e. e ≡ unread.Memory };

    fn from(_memory: Memory) -> Self {
        Unread::Memory
    }
}

/// All of a file that has at most `limit` octets.
fn content_within<R: fs::Files>(
    alloc: Global,
    system: &R,
    name: &str,
    limit: usize,
) -> Result<Octets, Unread>
    ensures within { IsWithin limit result }
{
    // What the name stands for is looked at before it is opened: a pipe would be waited for.
    let len = length_within(&fs::metadata(system, name)?, limit)?;
    let mut held = List::with_capacity(alloc, len)?;
    let mut file = StdinSource::new(fs::open(system, name)?);
    match fill(&mut file, &mut held, limit.saturating_add(1)) {
        Ok(()) if limit < held.len() => Err(Unread::TooLong(held.len() as u64)),
        Ok(()) => Ok(held),
        Err(Stopped::Fault) => {
            let kind = file.last_error().unwrap_or(ErrorKind::Other);
            Err(Unread::Failed(kind))
        }
        Err(Stopped::Memory) => Err(Unread::Memory),
    }
}

/// The length of what is a plain file and has at most `limit` octets.
fn length_within(metadata: &Metadata, limit: usize) -> Result<usize, Unread>
    ensures length { IsLength metadata.now limit result }
{
    if !metadata.is_file() {
        let kind = if metadata.is_dir() {
            ErrorKind::IsADirectory
        } else {
            ErrorKind::Unsupported
        };
        return Err(Unread::Failed(kind));
    }
    match usize::try_from(metadata.len()) {
        Ok(len) if len <= limit => Ok(len),
        _ => Err(Unread::TooLong(metadata.len())),
    }
}
