//! Keys that are missing.

ghost use Rattle.std.specs.Prelude.{None};
ghost use Rattle.coswid_res.specs.Fault.{absent};
ghost use Rattle.coswid_res.specs.Reading.{Tells};

use crate::fault::FormRefused;
use crate::fault_kind::FormFaultKind;
use std::alloc::Global;

/// The fault that the key is missing.
pub(crate) fn missing_key(alloc: Global, key: u32) -> FormRefused
    ensures told { Tells (absent key None) result }
{
    FormRefused::with_place(alloc, FormFaultKind::MissingKey, key)
}
