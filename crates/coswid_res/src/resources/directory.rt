//! Directories of a payload or of evidence, and what they hold: RFC 9393, section 2.9.2.

ghost use Rattle.coswid_res.specs.DirectoryItems.{directory_pairs};
ghost use Rattle.coswid_res.specs.Directories.{DirectoryPairs};
ghost use Rattle.coswid_res.specs.Sizes.{DirectorySizesFit};
ghost use Rattle.coswid_res.specs.Schema as schema;

use crate::fault::FormRefused;
use crate::resources::directory_read::read_directory;
use crate::resources::directory_spell::spell_directory;
use crate::resources::directory_write::write_directory;
use crate::resources::file::FileEntry;
use crate::tables::map_form::{ItemMapped, Mapped};
use cbor_det::Pairs;
use std::alloc::Global;
use wire_base::{List, Memory, Octets, Text};

/// Directories in order.
pub type DirEntries = List<DirEntry>;

/// A directory.
#[cycle(directory)]
#[derive(Debug, Drop)]
pub struct DirEntry {
    /// Whether the software needs it to run.
    pub key: Option<bool>,
    /// Where it is expected, a path.
    pub location: Option<Text>,
    /// Its name, without a path.
    pub fs_name: Text,
    /// What its path begins with on this host.
    pub root: Option<Text>,
    /// What it holds.
    pub path_elements: Option<PathElements>,
    /// The pairs under all other keys.
    pub extras: Pairs,
}

/// What a directory holds.
#[cycle(directory)]
#[derive(Debug, Drop)]
pub struct PathElements {
    /// Directories, at least one.
    pub directory: Option<List<DirEntry>>,
    /// Files, at least one.
    pub file: Option<List<FileEntry>>,
    /// The pairs under all other keys.
    pub extras: Pairs,
}

/// The table of directories.
pub(crate) struct DirectoryTable;

impl Mapped for DirectoryTable {
    type Value = DirEntry;

    ghost name = { schema.directory };

    ghost keys = { DirectoryPairs };

    ghost written = { directory_pairs };

    fn read(alloc: Global, pairs: Pairs) -> Result<DirEntry, FormRefused> {
        read_directory(alloc, pairs)
    }

    fn spell(out: &mut Octets, directory: &DirEntry) -> Result<(), Memory> {
        spell_directory(out, directory)
    }
}

impl ItemMapped for DirectoryTable {
    ghost fits = { DirectorySizesFit };

    fn write(directory: &DirEntry) -> Result<Pairs, Memory> {
        write_directory(directory)
    }
}
