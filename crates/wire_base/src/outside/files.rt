//! Files by their names.

ghost use Rattle.std.specs.Prelude.{◌≡◌, List, ℕ, Option};
ghost use Rattle.wire_base.specs.NamedFile.{IsAnswer, has_failed, read_of, with_reads};
ghost use Rattle.wire_base.specs.Outside.{HasCause};

use crate::values::list::Octets;
use crate::values::text::Text;

/// A file.
#[derive(Debug, Drop)]
pub struct NamedFile {
    /// The name that it is asked for by.
    pub name: Text,
    /// All octets of the file.
    pub content: Octets,
}

/// What a read of a file answers.
#[derive(Debug, Drop)]
pub enum FileAnswer {
    /// All of the file.
    Content(Octets),
    /// There is no file of that name.
    Missing,
    /// The file has that many octets, which is more than was asked for.
    TooLong(u64),
    /// The call failed.
    Failed,
    /// Out of memory.
    Memory,
}

/// What gives files by their names.
pub trait Files {
    ghost use Rattle.wire_base.specs.NamedFile.{Read};
    ghost use Rattle.wire_base.specs.declared.outside.files.NamedFile.{NamedFile};

    /// The names and contents of all files, where they are exposed. Of two files of one name the
    /// first counts.
    ghost contents: { Self → Option (List NamedFile) };

    /// How many calls failed. It never falls.
    ghost faults: { Self → ℕ };

    /// The reads that were made, in order, where they are exposed: of each the name that it was
    /// given and whether it failed. One that ends because memory ran out is not among them.
    ghost reads: { Self → Option (List Read) };

    /// The content of the file `name`, if that has at most `limit` octets.
    fn read(&mut self, name: &str, limit: usize) -> FileAnswer
        ensures answer { IsAnswer (contents self.old) name.now limit result }
        ensures contents { contents self.new ≡ contents self.old }
        ensures cause { HasCause (faults self.old) (faults self.new) (has_failed result) }
        ensures reads { reads self.new ≡ with_reads (read_of name.now result) (reads self.old) };
}
