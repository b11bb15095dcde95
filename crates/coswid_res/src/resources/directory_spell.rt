//! Spelling directories. The functions call one another as deep as directories stand in
//! directories. They do by hand what `Key` does for all other keys, as `directory_read` says.

ghost use Rattle.std.specs.Prelude.{◌≡◌, ◌++◌, IfOk, OnOk, map};
ghost use Rattle.std.specs.Option.{option_map};
ghost use Rattle.cbor_det.specs.Canonical.{canon, canon_terms};
ghost use Rattle.cbor_det.specs.Laid.{from};
ghost use Rattle.cbor_det.specs.Term.{array};
ghost use Rattle.cbor_det.specs.View.{terms_of, pairs_view};
ghost use Rattle.coswid_res.specs.DirectoryItems.{directory_item, directories_item, path_item};
ghost use Rattle.coswid_res.specs.Spelled.{Spells};
ghost use Rattle.coswid_res.specs.declared.resources.directory.PathElements.{out-PathElements};

use crate::resources::directory::{DirEntry, PathElements};
use crate::resources::table;
use crate::tables::key::{count, put_key};
use cbor_det::{Pairs, put_array_head};
use wire_base::{List, Memory, Octets};

/// Puts the canonical spelling of the map that the directory is written as.
#[cycle(spell)]
pub(crate) fn spell_directory(out: &mut Octets, directory: &DirEntry) -> Result<(), Memory>
    ensures appended { OnOk result (out.new ≡ out.old ++ canon (directory_item directory.now)) }
{
    let others = &directory.extras;
    let more = 1
        + count(&directory.key)
        + count(&directory.location)
        + count(&directory.root)
        + count(&directory.path_elements);
    others.put_head_with(out, more)?;
    let place = table::IsKey::spell_optional(out, others, 0, &directory.key)?;
    let place = table::Location::spell_optional(out, others, place, &directory.location)?;
    let place = table::FsName::spell(out, others, place, &directory.fs_name)?;
    let place = table::Root::spell_optional(out, others, place, &directory.root)?;
    let place = spell_path_at(out, &directory.path_elements, others, place)?;
    Ok(others.put_from(out, place)?)
}

/// As a `Key` does: what the directory holds, where it holds anything.
#[cycle(spell)]
fn spell_path_at(
    out: &mut Octets,
    path: &Option<PathElements>,
    others: &Pairs,
    place: usize,
) -> Result<usize, Memory>
    ensures spelled { IfOk result (λ next. Spells out.old out.new (26, option_map path_item path.now) (from place (pairs_view others.now)) (from next (pairs_view others.now))) }
{
    match path {
        None => Ok(place),
        Some(path) => {
            let next = put_key(out, others, place, table::PATH_ELEMENTS)?;
            spell_path(out, path)?;
            Ok(next)
        }
    }
}

#[cycle(spell)]
fn spell_path(out: &mut Octets, path: &PathElements) -> Result<(), Memory>
    ensures appended { OnOk result (out.new ≡ out.old ++ canon (path_item path.now)) }
{
    let others = &path.extras;
    others.put_head_with(out, count(&path.directory) + count(&path.file))?;
    let place = spell_directories_at(out, path, others, 0)?;
    let place = table::File::spell_optional_row(out, others, place, &path.file)?;
    Ok(others.put_from(out, place)?)
}

/// The same of the directories in it, where there are any.
#[cycle(spell)]
fn spell_directories_at(
    out: &mut Octets,
    path: &PathElements,
    others: &Pairs,
    place: usize,
) -> Result<usize, Memory>
    ensures spelled { IfOk result (λ next. Spells out.old out.new (16, option_map directories_item (out-PathElements path.now).directory) (from place (pairs_view others.now)) (from next (pairs_view others.now))) }
{
    match &path.directory {
        None => Ok(place),
        Some(directories) => {
            let next = put_key(out, others, place, table::DIRECTORY)?;
            spell_directories(out, directories)?;
            Ok(next)
        }
    }
}

/// Puts the directory alone where there is one, and else an array of all.
#[cycle(spell)]
fn spell_directories(out: &mut Octets, directories: &List<DirEntry>) -> Result<(), Memory>
    ensures appended { OnOk result (out.new ≡ out.old ++ canon (directories_item directories.now)) }
{
    let slice = directories.as_slice();
    if slice.len() == 1 {
        return spell_directory(out, &slice[0]);
    }
    spell_all(out, directories)
}

#[cycle(spell)]
fn spell_all(out: &mut Octets, directories: &List<DirEntry>) -> Result<(), Memory>
    ensures appended { OnOk result (out.new ≡ out.old ++ canon (array (terms_of (map directory_item directories.now)))) }
{
    let slice = directories.as_slice();
    put_array_head(out, slice.len() as u64)?;
    for directory in slice {
        spell_directory(out, directory)?;
    }
    Ok(())
}
