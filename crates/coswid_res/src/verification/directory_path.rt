//! The path of the directory whose files are looked at: RFC 9393, section 2.9.2.

ghost use Rattle.std.specs.Prelude.{◌≡◌, ◌∷◌, [], IfOk, IsCharBoundary, OnOk, string_bytes, take};
ghost use Rattle.std.specs.Option.{unwrap_or};
ghost use Rattle.coswid_res.specs.Listing.{directory_path, file_path, with_part};

use crate::resources::file::FileEntry;
use std::alloc::Global;
use std::marker::Model;
use wire_base::{Memory, Text};

/// The path of a directory of a payload, in one text that grows where a directory is entered and is
/// cut back where it is left. Contracts see it as its octets.
#[derive(Debug, Drop)]
pub(crate) struct DirectoryPath {
    path: String,
}

impl Model for DirectoryPath {
    ghost use Rattle.std.specs.Prelude.{List, ℕ};
    ghost use Rattle.std.specs.String.{string_bytes};

    ghost Value = { List ℕ };

    ghost view = { λ directory. string_bytes directory.path };
}

impl DirectoryPath {
    /// The path that stands round the directories of a payload: it has no part. It takes no memory.
    pub(crate) fn new(alloc: Global) -> Self
        ensures path { result ≡ [] }
    {
        DirectoryPath {
            path: String::new(alloc),
        }
    }

    /// Enters a directory of this location and name, and answers how many octets the path had
    /// before, for `leave`. At `Memory` a part of them may stand at the end of the path.
    pub(crate) fn enter(&mut self, location: &Option<Text>, name: &Text) -> Result<usize, Memory>
        ensures path { OnOk result (self.new ≡ directory_path self.old location.now name.now) }
        ensures before { IfOk result (λ len. take len self.new ≡ self.old) }
        ensures boundary { IfOk result (λ len. IsCharBoundary self.new len) }
    {
        let len = self.path.as_str().len();
        push_part(&mut self.path, part(location))?;
        push_part(&mut self.path, name.as_str())?;
        Ok(len)
    }

    /// Leaves the directories that were entered since the path had `len` octets. It takes no
    /// memory.
    pub(crate) fn leave(&mut self, len: usize)
        requires boundary { IsCharBoundary self.old len }
        ensures path { self.new ≡ take len self.old }
    {
        self.path.truncate(len);
    }

    /// The path of a file in the directory: its root, then that of the directory, its location and
    /// its name, joined by `/`.
    pub(crate) fn file_path(&self, file: &FileEntry) -> Result<Text, Memory>
        ensures path { IfOk result (λ path. path ≡ file_path self.now file.now) }
    {
        let mut path = String::from_str(*self.path.allocator(), part(&file.root))?;
        push_part(&mut path, self.path.as_str())?;
        push_part(&mut path, part(&file.location))?;
        push_part(&mut path, file.fs_name.as_str())?;
        Ok(Text::from_string(path))
    }
}

/// Puts a part at the end of a path, with `/` between; one that is empty is left out.
fn push_part(path: &mut String, part: &str) -> Result<(), Memory>
    ensures part { OnOk result (string_bytes path.new ≡ with_part (string_bytes path.old) part.now) }
{
    if path.is_empty() {
        path.push_str(part)?;
        return Ok(());
    }
    if part.is_empty() {
        return Ok(());
    }
    path.push('/')?;
    path.push_str(part)?;
    Ok(())
}

/// A part of a path; empty where it is not there.
fn part(text: &Option<Text>) -> &str
    ensures part { result.now ≡ unwrap_or text.now [] }
{
    match text {
        None => "",
        Some(text) => text.as_str(),
    }
}
