//! Files of a payload or of evidence: RFC 9393, section 2.9.2.

ghost use Rattle.coswid_res.specs.Columns.{KeysOf, pairs_of};
ghost use Rattle.coswid_res.specs.Files.{file_table};
ghost use Rattle.coswid_res.specs.Sizes.{SizeFits};
ghost use Rattle.coswid_res.specs.Schema as schema;

use crate::fault::FormRefused;
use crate::resources::hash::HashEntry;
use crate::resources::table;
use crate::tables::columns::{Optional, Required, read_map};
use crate::tables::key::count;
use crate::tables::map_form::{ItemMapped, Mapped};
use cbor_det::Pairs;
use std::alloc::Global;
use wire_base::{List, Memory, Octets, Text, TryCopy};

/// Files in order.
pub type FileEntries = List<FileEntry>;

/// A file.
#[derive(Debug, Drop)]
pub struct FileEntry {
    /// The hash of its octets.
    pub hash: Option<HashEntry>,
    /// How many octets it has.
    pub size: Option<u64>,
    /// Its version, as the system reports it.
    pub file_version: Option<Text>,
    /// Whether the software needs it to run.
    pub key: Option<bool>,
    /// Where it is expected, a path.
    pub location: Option<Text>,
    /// Its name, without a path.
    pub fs_name: Text,
    /// What its path begins with on this host.
    pub root: Option<Text>,
    /// The pairs under all other keys.
    pub extras: Pairs,
}

/// The keys of files.
type Keys = (
    Optional<table::Hash>,
    Optional<table::Size>,
    Optional<table::FileVersion>,
    Optional<table::IsKey>,
    Optional<table::Location>,
    (Required<table::FsName>, (Optional<table::Root>, ())),
);

/// The table of files.
pub(crate) struct FileTable;

impl Mapped for FileTable {
    type Value = FileEntry;

    ghost name = { schema.file };

    ghost keys = { KeysOf file_table };

    ghost written = { pairs_of file_table };

    fn read(alloc: Global, pairs: Pairs) -> Result<FileEntry, FormRefused> {
        let mut pairs = pairs;
        let values = read_map::<Keys>(alloc, &mut pairs)?;
        let (hash, size, file_version, key, location, (fs_name, (root, ()))) = values;
        Ok(FileEntry {
            hash,
            size,
            file_version,
            key,
            location,
            fs_name,
            root,
            extras: pairs,
        })
    }

    fn spell(out: &mut Octets, file: &FileEntry) -> Result<(), Memory> {
        let others = &file.extras;
        let more = 1
            + count(&file.hash)
            + count(&file.size)
            + count(&file.file_version)
            + count(&file.key)
            + count(&file.location)
            + count(&file.root);
        others.put_head_with(out, more)?;
        let place = table::Hash::spell_optional(out, others, 0, &file.hash)?;
        let place = table::Size::spell_optional(out, others, place, &file.size)?;
        let place = table::FileVersion::spell_optional(out, others, place, &file.file_version)?;
        let place = table::IsKey::spell_optional(out, others, place, &file.key)?;
        let place = table::Location::spell_optional(out, others, place, &file.location)?;
        let place = table::FsName::spell(out, others, place, &file.fs_name)?;
        let place = table::Root::spell_optional(out, others, place, &file.root)?;
        Ok(others.put_from(out, place)?)
    }
}

impl ItemMapped for FileTable {
    ghost fits = { SizeFits };

    fn write(file: &FileEntry) -> Result<Pairs, Memory> {
        let mut pairs = file.extras.copy()?;
        table::Hash::put_optional(&mut pairs, &file.hash)?;
        table::Size::put_optional(&mut pairs, &file.size)?;
        table::FileVersion::put_optional(&mut pairs, &file.file_version)?;
        table::IsKey::put_optional(&mut pairs, &file.key)?;
        table::Location::put_optional(&mut pairs, &file.location)?;
        table::FsName::put(&mut pairs, &file.fs_name)?;
        table::Root::put_optional(&mut pairs, &file.root)?;
        Ok(pairs)
    }
}
