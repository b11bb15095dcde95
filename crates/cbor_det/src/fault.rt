//! What a reader refuses.

ghost use Rattle.std.specs.Prelude.{◌≡◌, ◌≢◌, MatchOption};
ghost use Rattle.cbor_det.specs.FaultKinds.{fault_number};
ghost use Rattle.cbor_det.specs.declared.fault.CborFaultKind.{CborFaultKind as KindValue};
ghost use Rattle.cbor_det.specs.declared.fault.CborRefused.TheVariants as refused;

use std::fmt;
use thiserror::Error;
use wire_base::Memory;

/// The kinds of faults, with their numbers: the table of `docs/rules/cbor.md`.
#[derive(Clone, Copy, Debug, PartialEq, Eq, Error)]
pub enum CborFaultKind {
    /// The input ends before an item or a fault does.
    #[error("truncated")]
    Truncated = 1,
    /// A reserved octet; an indefinite length on a type that has none; a break where an item must
    /// stand; no chunk where one must.
    #[error("malformed")]
    Malformed = 2,
    /// A floating-point number.
    #[error("float")]
    Float = 3,
    /// A simple value that is neither false nor true.
    #[error("simple")]
    Simple = 4,
    /// An integer outside -2^63 to 2^63 - 1.
    #[error("range")]
    Range = 5,
    /// An item deeper than the limit.
    #[error("depth")]
    Depth = 6,
    /// A text, or a chunk of one, that is not UTF-8.
    #[error("not UTF-8")]
    NotUtf8 = 7,
    /// A key that its map holds already.
    #[error("duplicate key")]
    DuplicateKey = 8,
    /// More octets than the limit are wanted, or a string ends past it.
    #[error("too long")]
    TooLong = 9,
}

impl CborFaultKind {
    /// The number of the kind, 1 to 9.
    pub fn number(self) -> u8
        ensures number { result ≡ fault_number self }
    {
        self as u8
    }

    /// The kind of this number; `None` exactly where no kind has it.
    pub fn from_number(number: u8) -> Option<Self>
        ensures kind { MatchOption result ((kind : KindValue) → fault_number kind ≢ number) (λ kind. fault_number kind ≡ number) }
    {
        match number {
            1 => Some(CborFaultKind::Truncated),
            2 => Some(CborFaultKind::Malformed),
            3 => Some(CborFaultKind::Float),
            4 => Some(CborFaultKind::Simple),
            5 => Some(CborFaultKind::Range),
            6 => Some(CborFaultKind::Depth),
            7 => Some(CborFaultKind::NotUtf8),
            8 => Some(CborFaultKind::DuplicateKey),
            9 => Some(CborFaultKind::TooLong),
            _ => None,
        }
    }
}

/// A fault that octets show.
#[derive(Clone, Copy, Debug, PartialEq, Eq, Error)]
pub struct CborFault {
    /// The number of its kind: 1 to 9 where a reader reports it. `what` names the kind.
    pub kind: u8,
    /// Its offset from the first octet of the item.
    pub at: u64,
}

impl CborFault {
    /// The kind of the fault; `None` exactly where no kind has the number, so never where a reader
    /// reports it.
    pub fn what(&self) -> Option<CborFaultKind>
        ensures what { MatchOption result ((kind : KindValue) → fault_number kind ≢ self.now.kind) (λ kind. fault_number kind ≡ self.now.kind) }
    {
        CborFaultKind::from_number(self.kind)
    }
}

/// The name of the kind, or its number where it has no name, and the offset.
impl fmt::Display for CborFault {
    fn fmt<W: fmt::Write>(&self, f: &mut fmt::Formatter<W>) -> fmt::Result {
        match self.what() {
            Some(kind) => write!(f, "{kind}")?,
            None => write!(f, "fault {}", self.kind)?,
        }
        write!(f, " at octet {}", self.at)
    }
}

/// Why no item was read.
#[derive(Clone, Copy, Debug, PartialEq, Eq, Error)]
pub enum CborRefused {
    /// The octets begin with no item.
    #[error("{0}")]
    Fault(CborFault),
    /// Out of memory.
    #[error("out of memory")]
    Memory,
}

impl From<Memory> for CborRefused {
    ghost from_gives = { λ _ e. e ≡ refused.Memory };

    fn from(_memory: Memory) -> Self {
        CborRefused::Memory
    }
}
