//! The keys of payload and evidence and of the maps in them, each with its number and the form of
//! what stands under it (RFC 9393, sections 2.9.2 to 2.9.4).

use crate::resources::directory::DirectoryTable;
use crate::resources::file::FileTable;
use crate::resources::process::ProcessTable;
use crate::resources::resource::ResourceTable;
use crate::tables::key::Key;
use crate::tables::map_form::MapForm;
use crate::tables::value_forms::{BoolForm, HashForm, IntForm, TextForm, TimeForm, UintForm};

// Files and directories.

/// `hash`.
pub(crate) type Hash = Key<7, HashForm>;

/// `size`.
pub(crate) type Size = Key<20, UintForm>;

/// `file-version`.
pub(crate) type FileVersion = Key<21, TextForm>;

/// `key`.
pub(crate) type IsKey = Key<22, BoolForm>;

/// `location`, also of evidence.
pub(crate) type Location = Key<23, TextForm>;

/// `fs-name`, required.
pub(crate) type FsName = Key<24, TextForm>;

/// `root`.
pub(crate) type Root = Key<25, TextForm>;

/// `path-elements`, by its number alone, as `directory_read` says.
pub(crate) const PATH_ELEMENTS: u32 = 26;

// Processes.

/// `process-name`, required.
pub(crate) type ProcessName = Key<27, TextForm>;

/// `pid`.
pub(crate) type Pid = Key<28, IntForm>;

// Other resources.

/// `type`, required.
pub(crate) type ResourceType = Key<29, TextForm>;

// Payload, evidence, and what a directory holds.

/// `directory`, by its number alone: what reads and writes directories in directories has no `Key`
/// of them.
pub(crate) const DIRECTORY: u32 = 16;

/// `directory`, one or more.
pub(crate) type Directory = Key<DIRECTORY, MapForm<DirectoryTable>>;

/// `file`, one or more.
pub(crate) type File = Key<17, MapForm<FileTable>>;

/// `process`, one or more.
pub(crate) type Process = Key<18, MapForm<ProcessTable>>;

/// `resource`, one or more.
pub(crate) type Resource = Key<19, MapForm<ResourceTable>>;

// Evidence alone, and `Location`.

/// `date`.
pub(crate) type Date = Key<35, TimeForm>;

/// `device-id`.
pub(crate) type DeviceId = Key<36, TextForm>;
