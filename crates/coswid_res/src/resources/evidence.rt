//! Evidence: RFC 9393, section 2.9.4.

ghost use Rattle.std.specs.Prelude.{◌≡◌, IfOk};
ghost use Rattle.cbor_det.specs.View.{view};
ghost use Rattle.coswid_res.specs.Columns.{KeysOf, pairs_of};
ghost use Rattle.coswid_res.specs.Fault.{field_fault};
ghost use Rattle.coswid_res.specs.Reading.{Gives};
ghost use Rattle.coswid_res.specs.Resources.{evidence_table, EvidenceMap, evidence_item};
ghost use Rattle.coswid_res.specs.Sizes.{EvidenceSizesFit};
ghost use Rattle.coswid_res.specs.Schema as schema;

use crate::fault::FormRefused;
use crate::resources::directory::DirEntries;
use crate::resources::file::FileEntries;
use crate::resources::process::ProcessEntries;
use crate::resources::resource::ResourceEntries;
use crate::resources::table;
use crate::tables::columns::{Optional, OptionalRow, read_map};
use crate::tables::form::{Form, ItemForm};
use crate::tables::key::count;
use crate::tables::map_form::{ItemMapped, MapForm, Mapped};
use cbor_det::{Item, Pairs};
use std::alloc::Global;
use wire_base::{Memory, Octets, Text, TryCopy};

/// What was found of the software on an endpoint.
#[derive(Debug, Drop)]
pub struct Evidence {
    /// Directories, at least one.
    pub directory: Option<DirEntries>,
    /// Files, at least one.
    pub file: Option<FileEntries>,
    /// Processes, at least one.
    pub process: Option<ProcessEntries>,
    /// Other resources, at least one.
    pub resource: Option<ResourceEntries>,
    /// Where the tag lies that was made of the evidence, a path.
    pub location: Option<Text>,
    /// When it was found, in seconds since 1970 began.
    pub date: Option<i64>,
    /// The endpoint on which it was found.
    pub device_id: Option<Text>,
    /// The pairs under all other keys.
    pub extras: Pairs,
}

/// The keys of evidence.
type Keys = (
    OptionalRow<table::Directory>,
    OptionalRow<table::File>,
    OptionalRow<table::Process>,
    OptionalRow<table::Resource>,
    Optional<table::Location>,
    (Optional<table::Date>, (Optional<table::DeviceId>, ())),
);

/// The table of evidence.
pub struct EvidenceTable;

impl Mapped for EvidenceTable {
    type Value = Evidence;

    ghost name = { schema.evidence };

    ghost keys = { KeysOf evidence_table };

    ghost written = { pairs_of evidence_table };

    fn read(alloc: Global, pairs: Pairs) -> Result<Evidence, FormRefused> {
        let mut pairs = pairs;
        let values = read_map::<Keys>(alloc, &mut pairs)?;
        let (directory, file, process, resource, location, (date, (device_id, ()))) = values;
        Ok(Evidence {
            directory,
            file,
            process,
            resource,
            location,
            date,
            device_id,
            extras: pairs,
        })
    }

    fn spell(out: &mut Octets, evidence: &Evidence) -> Result<(), Memory> {
        let others = &evidence.extras;
        let more = count(&evidence.directory)
            + count(&evidence.file)
            + count(&evidence.process)
            + count(&evidence.resource)
            + count(&evidence.location)
            + count(&evidence.date)
            + count(&evidence.device_id);
        others.put_head_with(out, more)?;
        let place = table::Directory::spell_optional_row(out, others, 0, &evidence.directory)?;
        let place = table::File::spell_optional_row(out, others, place, &evidence.file)?;
        let place = table::Process::spell_optional_row(out, others, place, &evidence.process)?;
        let place = table::Resource::spell_optional_row(out, others, place, &evidence.resource)?;
        let place = table::Location::spell_optional(out, others, place, &evidence.location)?;
        let place = table::Date::spell_optional(out, others, place, &evidence.date)?;
        let place = table::DeviceId::spell_optional(out, others, place, &evidence.device_id)?;
        Ok(others.put_from(out, place)?)
    }
}

impl ItemMapped for EvidenceTable {
    ghost fits = { EvidenceSizesFit };

    fn write(evidence: &Evidence) -> Result<Pairs, Memory> {
        let mut pairs = evidence.extras.copy()?;
        table::Directory::put_optional_row(&mut pairs, &evidence.directory)?;
        table::File::put_optional_row(&mut pairs, &evidence.file)?;
        table::Process::put_optional_row(&mut pairs, &evidence.process)?;
        table::Resource::put_optional_row(&mut pairs, &evidence.resource)?;
        table::Location::put_optional(&mut pairs, &evidence.location)?;
        table::Date::put_optional(&mut pairs, &evidence.date)?;
        table::DeviceId::put_optional(&mut pairs, &evidence.device_id)?;
        Ok(pairs)
    }
}

/// The evidence that the item is. `Form` with the first form fault exactly where it is none;
/// `Memory` where there is no room.
pub fn evidence_of(alloc: Global, item: &Item) -> Result<Evidence, FormRefused>
    ensures told { Gives (λ e. EvidenceMap e (view item.now)) (field_fault (schema.one (schema.a_map schema.evidence)) (view item.now)) result }
{
    MapForm::<EvidenceTable>::read(alloc, item.copy()?)
}

/// The item that the evidence is written as; `Memory` where there is no room. A value made by hand
/// may be one that is read from no item, as one with an empty list or with a listed key among its
/// extras. It is written all the same, and no clause then says that the item is in its form.
pub fn evidence_item(alloc: Global, evidence: &Evidence) -> Result<Item, Memory>
    requires fits { EvidenceSizesFit evidence.now }
    ensures written { IfOk result (λ made. view made ≡ evidence_item evidence.now) }
{
    MapForm::<EvidenceTable>::write(alloc, evidence)
}
