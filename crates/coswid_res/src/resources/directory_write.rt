//! Writing directories. The functions call one another as deep as directories stand in directories.

ghost use Rattle.std.specs.Prelude.{◌≡◌, IfOk, map};
ghost use Rattle.std.specs.List.{All};
ghost use Rattle.cbor_det.specs.Term.{array};
ghost use Rattle.cbor_det.specs.View.{view, terms_of, pairs_view};
ghost use Rattle.coswid_res.specs.DirectoryItems.{directory_pairs, directory_item, path_pairs, directories_item};
ghost use Rattle.coswid_res.specs.Sizes.{DirectorySizesFit, PathSizesFit};

use crate::resources::directory::{DirEntry, PathElements};
use crate::resources::table;
use crate::tables::key::put;
use cbor_det::{Item, Pairs};
use wire_base::{List, Memory, TryCopy};

/// The pairs that the directory is written as.
#[cycle(write)]
#[tactic(auto, using(crate::proofs::DirectoryWrites::directory_written))]
pub(crate) fn write_directory(directory: &DirEntry) -> Result<Pairs, Memory>
    requires fits { DirectorySizesFit directory.now }
    ensures written { IfOk result (λ made. pairs_view made ≡ directory_pairs directory.now) }
{
    let mut pairs = directory.extras.copy()?;
    table::IsKey::put_optional(&mut pairs, &directory.key)?;
    table::Location::put_optional(&mut pairs, &directory.location)?;
    table::FsName::put(&mut pairs, &directory.fs_name)?;
    table::Root::put_optional(&mut pairs, &directory.root)?;
    if let Some(path) = &directory.path_elements {
        let held = write_path(path)?;
        put(&mut pairs, table::PATH_ELEMENTS, Item::Map(held))?;
    }
    Ok(pairs)
}

#[cycle(write)]
#[tactic(auto, using(crate::proofs::DirectoryWrites::path_written, crate::proofs::Sizes::files_fit))]
fn write_path(path: &PathElements) -> Result<Pairs, Memory>
    requires fits { PathSizesFit path.now }
    ensures written { IfOk result (λ made. pairs_view made ≡ path_pairs path.now) }
{
    let mut pairs = path.extras.copy()?;
    if let Some(directories) = &path.directory {
        let row = write_directories(directories)?;
        put(&mut pairs, table::DIRECTORY, row)?;
    }
    table::File::put_optional_row(&mut pairs, &path.file)?;
    Ok(pairs)
}

/// The directory alone where there is one, and else an array of all.
#[cycle(write)]
fn write_directories(directories: &List<DirEntry>) -> Result<Item, Memory>
    requires fits { All DirectorySizesFit directories.now }
    ensures written { IfOk result (λ made. view made ≡ directories_item directories.now) }
{
    let slice = directories.as_slice();
    if slice.len() == 1 {
        return Ok(Item::Map(write_directory(&slice[0])?));
    }
    write_all(directories)
}

#[cycle(write)]
fn write_all(directories: &List<DirEntry>) -> Result<Item, Memory>
    requires fits { All DirectorySizesFit directories.now }
    ensures written { IfOk result (λ made. view made ≡ array (terms_of (map directory_item directories.now))) }
{
    let mut items = List::new(directories.allocator());
    for directory in directories.as_slice() {
        items.push(Item::Map(write_directory(directory)?))?;
    }
    Ok(Item::Array(items))
}
