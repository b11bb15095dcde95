//! Reading directories. The functions call one another as deep as the item is.
//!
//! They do by hand what `Key` and `MapForm` do for all other maps. The method of a trait has no
//! proof in a cycle of calls, so the cycle is one of plain functions, and `DirectoryTable` calls
//! into it. A `Key` of a form in the cycle would be in it too, so the two keys under which the next
//! level stands, `path-elements` and `directory`, are numbers of `table` here.

ghost use Rattle.std.specs.Prelude.{◌≡◌, ◌<◌, ◌^◌, ◌∷◌, [], OnOk, map};
ghost use Rattle.cbor_det.specs.Lookup.{other_than};
ghost use Rattle.cbor_det.specs.View.{view, terms_of, pairs_view};
ghost use Rattle.coswid_res.specs.Directories.{DirectoryPairs, PathPairs, DirectoryMap, PathMap};
ghost use Rattle.coswid_res.specs.Fault.{elements_fault, field_fault, under};
ghost use Rattle.coswid_res.specs.Keys as keys;
ghost use Rattle.coswid_res.specs.Keys.{number};
ghost use Rattle.coswid_res.specs.Reading.{Gives, keys_fault, line_fault};
ghost use Rattle.coswid_res.specs.Schema.{one, a_map, optional_key};
ghost use Rattle.coswid_res.specs.Schema as schema;
ghost use Rattle.coswid_res.specs.Words.{Each, OneOrMore, Optional};

use crate::fault::FormRefused;
use crate::fault_kind::FormFaultKind;
use crate::resources::directory::{DirEntry, PathElements};
use crate::resources::table;
use cbor_det::{Item, Pairs};
use std::alloc::Global;
use wire_base::List;

/// The directory that the pairs hold.
#[cycle(read)]
#[tactic(auto, using(crate::proofs::DirectoryReads::directory_made, crate::proofs::Takes::still, crate::proofs::Takes::others_of))]
pub(crate) fn read_directory(alloc: Global, pairs: Pairs) -> Result<DirEntry, FormRefused>
    ensures told { Gives (λ d. DirectoryPairs d (pairs_view pairs)) (keys_fault schema.directory (pairs_view pairs)) result }
{
    table::FsName::expect(alloc, &pairs)?;
    let mut pairs = pairs;
    let key = table::IsKey::optional(alloc, &mut pairs)?;
    let location = table::Location::optional(alloc, &mut pairs)?;
    let fs_name = table::FsName::required(alloc, &mut pairs)?;
    let root = table::Root::optional(alloc, &mut pairs)?;
    let path_elements = path_under(alloc, &mut pairs)?;
    Ok(DirEntry {
        key,
        location,
        fs_name,
        root,
        path_elements,
        extras: pairs,
    })
}

/// What the directory holds, where the pairs say so, taken out of them.
#[cycle(read)]
#[tactic(auto, using(crate::proofs::DirectoryDepths::under_within))]
fn path_under(alloc: Global, pairs: &mut Pairs) -> Result<Option<PathElements>, FormRefused>
    ensures told { Gives (λ p. Optional keys.path_elements PathMap p (pairs_view pairs.old)) (line_fault (optional_key keys.path_elements) (pairs_view pairs.old)) result }
    ensures left { OnOk result (pairs_view pairs.new ≡ other_than (number keys.path_elements ∷ []) (pairs_view pairs.old)) }
{
    match pairs.take(table::PATH_ELEMENTS) {
        None => Ok(None),
        Some(item) => Ok(Some(path_at(alloc, item)?)),
    }
}

/// The same, with its faults reported from the directory's level.
#[cycle(read)]
fn path_at(alloc: Global, item: Item) -> Result<PathElements, FormRefused>
    ensures told { Gives (λ p. PathMap p (view item)) (under (number keys.path_elements) (field_fault (keys.field keys.path_elements) (view item))) result }
{
    match path_of(alloc, item) {
        Ok(path) => Ok(path),
        Err(refused) => Err(refused.under(table::PATH_ELEMENTS as u64)),
    }
}

#[cycle(read)]
#[tactic(auto, using(crate::proofs::DirectoryDepths::map_deeper))]
fn path_of(alloc: Global, item: Item) -> Result<PathElements, FormRefused>
    ensures told { Gives (λ p. PathMap p (view item)) (field_fault (keys.field keys.path_elements) (view item)) result }
{
    match item {
        Item::Map(pairs) => read_path(alloc, pairs),
        _ => Err(FormRefused::new(alloc, FormFaultKind::WrongForm)),
    }
}

#[cycle(read)]
#[tactic(auto, using(crate::proofs::DirectoryReads::path_made, crate::proofs::Takes::still, crate::proofs::Takes::others_of))]
fn read_path(alloc: Global, pairs: Pairs) -> Result<PathElements, FormRefused>
    ensures told { Gives (λ p. PathPairs p (pairs_view pairs)) (keys_fault schema.path_elements (pairs_view pairs)) result }
{
    let mut pairs = pairs;
    let directory = directories_under(alloc, &mut pairs)?;
    let file = table::File::optional_row(alloc, &mut pairs)?;
    Ok(PathElements {
        directory,
        file,
        extras: pairs,
    })
}

/// The directories in it, where there are any, taken out of the pairs.
#[cycle(read)]
#[tactic(auto, using(crate::proofs::DirectoryDepths::under_within))]
fn directories_under(
    alloc: Global,
    pairs: &mut Pairs,
) -> Result<Option<List<DirEntry>>, FormRefused>
    ensures told { Gives (λ ds. Optional keys.directory (OneOrMore DirectoryMap) ds (pairs_view pairs.old)) (line_fault (optional_key keys.directory) (pairs_view pairs.old)) result }
    ensures left { OnOk result (pairs_view pairs.new ≡ other_than (number keys.directory ∷ []) (pairs_view pairs.old)) }
{
    match pairs.take(table::DIRECTORY) {
        None => Ok(None),
        Some(item) => Ok(Some(directories_at(alloc, item)?)),
    }
}

/// The same, with their faults reported from the level of what holds them.
#[cycle(read)]
fn directories_at(alloc: Global, item: Item) -> Result<List<DirEntry>, FormRefused>
    ensures told { Gives (λ ds. OneOrMore DirectoryMap ds (view item)) (under (number keys.directory) (field_fault (keys.field keys.directory) (view item))) result }
{
    match directories_of(alloc, item) {
        Ok(directories) => Ok(directories),
        Err(refused) => Err(refused.under(table::DIRECTORY as u64)),
    }
}

/// One directory, or those of an array that is not empty.
#[cycle(read)]
#[tactic(auto, using(crate::proofs::DirectoryDepths::array_deeper))]
fn directories_of(alloc: Global, item: Item) -> Result<List<DirEntry>, FormRefused>
    ensures told { Gives (λ ds. OneOrMore DirectoryMap ds (view item)) (field_fault (keys.field keys.directory) (view item)) result }
{
    match item {
        Item::Array(items) => {
            if items.is_empty() {
                return Err(FormRefused::new(alloc, FormFaultKind::WrongForm));
            }
            read_elements(alloc, items)
        }
        one => {
            let mut directories = List::new(alloc);
            directories.push(directory_of(alloc, one)?)?;
            Ok(directories)
        }
    }
}

/// The directories of an array; its first fault is that of its first element that has one.
#[cycle(read)]
#[tactic(auto, using(crate::proofs::DirectoryDepths::first_within, crate::proofs::DirectoryDepths::rest_within))]
fn read_elements(alloc: Global, items: List<Item>) -> Result<List<DirEntry>, FormRefused>
    ensures told { Gives (λ ds. Each DirectoryMap ds (terms_of (map view items))) (elements_fault (a_map schema.directory) 0 (terms_of (map view items))) result }
{
    let mut directories = List::new(alloc);
    let mut place = 0;
    for item in items.into_vec() {
        directories.push(directory_at(alloc, place, item)?)?;
        place += 1;
    }
    Ok(directories)
}

/// The directory at an index, with its faults reported from the level of the array.
#[cycle(read)]
fn directory_at(alloc: Global, place: u64, item: Item) -> Result<DirEntry, FormRefused>
    requires { place < 2 ^ 63 }
    ensures told { Gives (λ d. DirectoryMap d (view item)) (under place (field_fault (one (a_map schema.directory)) (view item))) result }
{
    match directory_of(alloc, item) {
        Ok(directory) => Ok(directory),
        Err(refused) => Err(refused.under(place)),
    }
}

#[cycle(read)]
#[tactic(auto, using(crate::proofs::DirectoryDepths::map_deeper))]
fn directory_of(alloc: Global, item: Item) -> Result<DirEntry, FormRefused>
    ensures told { Gives (λ d. DirectoryMap d (view item)) (field_fault (one (a_map schema.directory)) (view item)) result }
{
    match item {
        Item::Map(pairs) => read_directory(alloc, pairs),
        _ => Err(FormRefused::new(alloc, FormFaultKind::WrongForm)),
    }
}
