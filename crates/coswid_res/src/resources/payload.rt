//! Payloads: RFC 9393, section 2.9.3.

ghost use Rattle.std.specs.Prelude.{◌≡◌, IfOk};
ghost use Rattle.cbor_det.specs.View.{view};
ghost use Rattle.coswid_res.specs.Columns.{KeysOf, pairs_of};
ghost use Rattle.coswid_res.specs.Fault.{field_fault};
ghost use Rattle.coswid_res.specs.Reading.{Gives};
ghost use Rattle.coswid_res.specs.Resources.{payload_table, PayloadMap, payload_item};
ghost use Rattle.coswid_res.specs.Sizes.{PayloadSizesFit};
ghost use Rattle.coswid_res.specs.Schema as schema;

use crate::fault::FormRefused;
use crate::resources::directory::DirEntries;
use crate::resources::file::FileEntries;
use crate::resources::process::ProcessEntries;
use crate::resources::resource::ResourceEntries;
use crate::resources::table;
use crate::tables::columns::{OptionalRow, read_map};
use crate::tables::form::{Form, ItemForm};
use crate::tables::key::count;
use crate::tables::map_form::{ItemMapped, MapForm, Mapped};
use cbor_det::{Item, Pairs};
use std::alloc::Global;
use wire_base::{Memory, Octets, TryCopy};

/// What the software installs, as the tag's author states it.
#[derive(Debug, Drop)]
pub struct Payload {
    /// Directories, at least one.
    pub directory: Option<DirEntries>,
    /// Files, at least one.
    pub file: Option<FileEntries>,
    /// Processes, at least one.
    pub process: Option<ProcessEntries>,
    /// Other resources, at least one.
    pub resource: Option<ResourceEntries>,
    /// The pairs under all other keys.
    pub extras: Pairs,
}

/// The keys of payload.
type Keys = (
    OptionalRow<table::Directory>,
    (
        OptionalRow<table::File>,
        (
            OptionalRow<table::Process>,
            (OptionalRow<table::Resource>, ()),
        ),
    ),
);

/// The table of payloads.
pub struct PayloadTable;

impl Mapped for PayloadTable {
    type Value = Payload;

    ghost name = { schema.payload };

    ghost keys = { KeysOf payload_table };

    ghost written = { pairs_of payload_table };

    fn read(alloc: Global, pairs: Pairs) -> Result<Payload, FormRefused> {
        let mut pairs = pairs;
        let values = read_map::<Keys>(alloc, &mut pairs)?;
        let (directory, (file, (process, (resource, ())))) = values;
        Ok(Payload {
            directory,
            file,
            process,
            resource,
            extras: pairs,
        })
    }

    fn spell(out: &mut Octets, payload: &Payload) -> Result<(), Memory> {
        let others = &payload.extras;
        let more = count(&payload.directory)
            + count(&payload.file)
            + count(&payload.process)
            + count(&payload.resource);
        others.put_head_with(out, more)?;
        let place = table::Directory::spell_optional_row(out, others, 0, &payload.directory)?;
        let place = table::File::spell_optional_row(out, others, place, &payload.file)?;
        let place = table::Process::spell_optional_row(out, others, place, &payload.process)?;
        let place = table::Resource::spell_optional_row(out, others, place, &payload.resource)?;
        Ok(others.put_from(out, place)?)
    }
}

impl ItemMapped for PayloadTable {
    ghost fits = { PayloadSizesFit };

    fn write(payload: &Payload) -> Result<Pairs, Memory> {
        let mut pairs = payload.extras.copy()?;
        table::Directory::put_optional_row(&mut pairs, &payload.directory)?;
        table::File::put_optional_row(&mut pairs, &payload.file)?;
        table::Process::put_optional_row(&mut pairs, &payload.process)?;
        table::Resource::put_optional_row(&mut pairs, &payload.resource)?;
        Ok(pairs)
    }
}

/// The payload that the item is. `Form` with the first form fault exactly where it is none;
/// `Memory` where there is no room.
pub fn payload_of(alloc: Global, item: &Item) -> Result<Payload, FormRefused>
    ensures told { Gives (λ p. PayloadMap p (view item.now)) (field_fault (schema.one (schema.a_map schema.payload)) (view item.now)) result }
{
    MapForm::<PayloadTable>::read(alloc, item.copy()?)
}

/// The item that the payload is written as; `Memory` where there is no room. A value made by hand
/// may be one that is read from no item, as one with an empty list or with a listed key among its
/// extras. It is written all the same, and no clause then says that the item is in its form.
pub fn payload_item(alloc: Global, payload: &Payload) -> Result<Item, Memory>
    requires fits { PayloadSizesFit payload.now }
    ensures written { IfOk result (λ made. view made ≡ payload_item payload.now) }
{
    MapForm::<PayloadTable>::write(alloc, payload)
}
