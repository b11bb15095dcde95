//! What is wrong with the form of an item.

ghost use Rattle.std.specs.Prelude.{◌≡◌, ◌≢◌, ◌<◌, ◌^◌, ◌∷◌, pos, MatchOption, Option, Some, []};
ghost use Rattle.coswid_res.specs.Fault.{fault, under};
ghost use Rattle.coswid_res.specs.FaultKinds.{fault_number};
ghost use Rattle.coswid_res.specs.Reading.{Tells};
ghost use Rattle.coswid_res.specs.declared.fault.FormFault.{FormFault as FaultValue};
ghost use Rattle.coswid_res.specs.declared.fault.FormRefused.TheVariants as refused;
ghost use Rattle.coswid_res.specs.declared.fault_kind.FormFaultKind.{FormFaultKind as KindValue};

use crate::fault_kind::FormFaultKind;
use std::alloc::Global;
use std::{error, fmt};
use thiserror::Error;
use wire_base::{List, Memory};

/// The keys and indices that lead from the top of an item to a part of it. An index stands only
/// where an array is written.
pub type Path = List<i64>;

/// A form fault: the first in the order in which they are looked for.
#[derive(Debug, Drop)]
pub struct FormFault {
    /// The number of its kind: 1 to 4 where a reader reports it. `what` names the kind.
    pub kind: u8,
    /// Where it is: the path to the missing key, or to the value in a wrong form; empty for kinds 3
    /// and 4.
    pub path: Path,
}

impl FormFault {
    /// The kind of the fault; `None` exactly where no kind has the number, so never where a reader
    /// reports it.
    pub fn what(&self) -> Option<FormFaultKind>
        ensures what { MatchOption result ((kind : KindValue) → fault_number kind ≢ self.now.kind) (λ kind. fault_number kind ≡ self.now.kind) }
    {
        FormFaultKind::from_number(self.kind)
    }
}

/// The name of the kind, and the steps of the path with `/` between them; `.` where there are none.
impl fmt::Display for FormFault {
    fn fmt<W: fmt::Write>(&self, f: &mut fmt::Formatter<W>) -> fmt::Result {
        match self.what() {
            Some(kind) => write!(f, "{kind} at ")?,
            None => write!(f, "a form fault at ")?,
        }
        match self.path.as_slice().split_first() {
            None => f.write_str("."),
            Some((first, others)) => {
                write!(f, "{first}")?;
                write_others(others, f)
            }
        }
    }
}

/// Writes the steps after the first.
fn write_others<W: fmt::Write>(steps: &[i64], f: &mut fmt::Formatter<W>) -> fmt::Result {
    for step in steps {
        write!(f, "/{step}")?;
    }
    Ok(())
}

impl error::Error for FormFault {}

/// Why no value was read from an item.
#[derive(Debug, Drop, Error)]
pub enum FormRefused {
    /// The item is not in the form.
    #[error("{0}")]
    Form(FormFault),
    /// Out of memory.
    #[error("out of memory")]
    Memory,
}

impl From<Memory> for FormRefused {
    ghost from_gives = { λ _ e. e ≡ refused.Memory };

    fn from(_memory: Memory) -> Self {
        FormRefused::Memory
    }
}

impl FormRefused {
    /// A fault of the item itself. It takes no memory.
    pub fn new(alloc: Global, kind: FormFaultKind) -> Self
        ensures fault { result ≡ refused.Form (record { kind = fault_number kind; path = [] }) }
    {
        let kind = kind.number();
        let path = List::new(alloc);
        FormRefused::Form(FormFault { kind, path })
    }

    /// A fault of what stands at the key or index `place` of the item; `Memory` where the path has
    /// no room.
    pub fn with_place(alloc: Global, kind: FormFaultKind, place: u32) -> Self
        ensures told { Tells (fault (fault_number kind) (pos place ∷ [])) result }
    {
        let kind = kind.number();
        let mut path = List::new(alloc);
        match path.push(place as i64) {
            Ok(()) => FormRefused::Form(FormFault { kind, path }),
            Err(memory) => memory.into(),
        }
    }

    /// The same of an item in which this one stands at the key or index `place`; `Memory` where the
    /// path has no room.
    pub fn under(self, place: u64) -> Self
        requires { place < 2 ^ 63 }
        ensures told { (first : Option FaultValue) → Tells first self → Tells (under place first) result }
    {
        match self {
            FormRefused::Memory => FormRefused::Memory,
            FormRefused::Form(fault) => lengthened(fault, place),
        }
    }
}

/// The fault with its path from one level further up.
fn lengthened(fault: FormFault, place: u64) -> FormRefused
    requires { place < 2 ^ 63 }
    ensures told { Tells (under place (Some fault)) result }
{
    let FormFault { kind, mut path } = fault;
    match path.insert(0, place as i64) {
        Ok(()) => FormRefused::Form(FormFault { kind, path }),
        Err(memory) => memory.into(),
    }
}
