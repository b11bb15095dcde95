//! What the maps of CoSWID tags share (RFC 9393, section 2), payload and evidence (section 2.9),
//! and the check of a payload against files.
//!
//! It stands on `cbor_det` for items. `wire_base` gives lists and files, `sha2` digests, and
//! `thiserror` the texts of errors. The crates above rest on:
//!
//! - `told` of `Form::read`, of `read_map`, of `payload_of` and of `evidence_of`: the value that is
//!   read, or the first form fault with its path.
//! - `appended` of `Form::spell`, and `spelled` of the methods of `Key`: how a value is written.
//! - `left` of `read_map`, what it leaves of a map, and `there` of `Key::is_there`.
//! - `written` of `payload_item` and `evidence_item`: the item of a value.
//! - `verdicts`, `cause` and `reads` of `verify`: a verdict on each file of a payload.
//! - `laws`: what the definitions mean.
//!
//! | file | what it holds | its words in `specs/` |
//! |---|---|---|
//! | `tables.rt`, `resources.rt`, `verification.rt` | the modules of each folder, listed | |
//! | `tables/form.rt`, `value_forms.rt` | the forms of values | `Fields`, `Words`, `Items` |
//! | `tables/key.rt` | a number with its form; a field of a map | `Words`, `Reading`, `Spelled` |
//! | `tables/map_form.rt` | values that are written as maps | `Columns`, `Schema`, `Reading` |
//! | `tables/columns.rt` | the keys of a map in order; their reader | `Columns`, `ColumnLaws` |
//! | `tables/rows.rt` | one or more values: an array, or one alone | `Words`, `Items` |
//! | `fault.rt` | form faults, with their paths | `Fault` |
//! | `fault_kind.rt` | the kinds of form faults, by name | `FaultKinds` |
//! | `tables/missing_key.rt` | the fault that a key is missing | `Fault` |
//! | `resources/table.rt` | the keys of payload and evidence | `Keys`, `Schema` |
//! | `resources/file.rt` | files | `Files`, `Sizes` |
//! | `resources/directory.rt` | directories, and what they hold | `Directories`, `DirectoryItems` |
//! | `resources/directory_read.rt` | how directories are read | `Directories` |
//! | `resources/directory_spell.rt` | how directories are spelled | `DirectoryItems`, `Spelled` |
//! | `resources/directory_write.rt` | how directories are written as items | `DirectoryItems` |
//! | `resources/process.rt`, `resource.rt` | processes; other resources | `Resources` |
//! | `resources/payload.rt`, `evidence.rt` | payload and evidence, with their items | `Resources` |
//! | `resources/hash.rt` | hashes as values | |
//! | `verification/directory_path.rt` | the paths of files | `Listing` |
//! | `verification/verdict.rt`, `verify.rt` | the verdict on each file | `Verify` |
//! | `laws.rt` | what the definitions mean, proved | |
#![tactic(auto)]

mod fault;
mod fault_kind;
pub mod laws;
mod resources;
mod tables;
mod verification;

pub use fault::{FormFault, FormRefused, Path};
pub use fault_kind::FormFaultKind;
pub use resources::directory::{DirEntries, DirEntry, PathElements};
pub use resources::evidence::{Evidence, EvidenceTable, evidence_item, evidence_of};
pub use resources::file::{FileEntries, FileEntry};
pub use resources::hash::HashEntry;
pub use resources::payload::{Payload, PayloadTable, payload_item, payload_of};
pub use resources::process::{ProcessEntries, ProcessEntry};
pub use resources::resource::{ResourceEntries, ResourceEntry};
pub use tables::columns::{
    Column, Columns, Optional, OptionalRow, Required, RequiredRow, read_map,
};
pub use tables::form::{Form, ItemForm};
pub use tables::key::{Key, count};
pub use tables::map_form::{ItemMapped, MapForm, Mapped};
pub use tables::value_forms::{BoolForm, HashForm, IntForm, TextForm, TimeForm, UintForm, UriForm};
pub use verification::verdict::Verdict;
pub use verification::verify::{Verdicts, VerifyRefused, verify};
