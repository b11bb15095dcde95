//! Processes of a payload or of evidence: RFC 9393, section 2.9.2.

ghost use Rattle.coswid_res.specs.Columns.{KeysOf, pairs_of};
ghost use Rattle.coswid_res.specs.Resources.{process_table};
ghost use Rattle.coswid_res.specs.Schema as schema;

use crate::fault::FormRefused;
use crate::resources::table;
use crate::tables::columns::{Optional, Required, read_map};
use crate::tables::key::count;
use crate::tables::map_form::{ItemMapped, Mapped};
use cbor_det::Pairs;
use std::alloc::Global;
use wire_base::{List, Memory, Octets, Text, TryCopy};

/// Processes in order.
pub type ProcessEntries = List<ProcessEntry>;

/// A process.
#[derive(Debug, Drop)]
pub struct ProcessEntry {
    /// Its name, as a list of processes shows it.
    pub process_name: Text,
    /// Its number.
    pub pid: Option<i64>,
    /// The pairs under all other keys.
    pub extras: Pairs,
}

/// The keys of processes.
type Keys = (Required<table::ProcessName>, (Optional<table::Pid>, ()));

/// The table of processes.
pub(crate) struct ProcessTable;

impl Mapped for ProcessTable {
    type Value = ProcessEntry;

    ghost name = { schema.process };

    ghost keys = { KeysOf process_table };

    ghost written = { pairs_of process_table };

    fn read(alloc: Global, pairs: Pairs) -> Result<ProcessEntry, FormRefused> {
        let mut pairs = pairs;
        let (process_name, (pid, ())) = read_map::<Keys>(alloc, &mut pairs)?;
        Ok(ProcessEntry {
            process_name,
            pid,
            extras: pairs,
        })
    }

    fn spell(out: &mut Octets, process: &ProcessEntry) -> Result<(), Memory> {
        let others = &process.extras;
        others.put_head_with(out, 1 + count(&process.pid))?;
        let place = table::ProcessName::spell(out, others, 0, &process.process_name)?;
        let place = table::Pid::spell_optional(out, others, place, &process.pid)?;
        Ok(others.put_from(out, place)?)
    }
}

impl ItemMapped for ProcessTable {
    ghost fits = { λ v. Unit {0} };

    fn write(process: &ProcessEntry) -> Result<Pairs, Memory> {
        let mut pairs = process.extras.copy()?;
        table::ProcessName::put(&mut pairs, &process.process_name)?;
        table::Pid::put_optional(&mut pairs, &process.pid)?;
        Ok(pairs)
    }
}
