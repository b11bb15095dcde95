//! The kinds of form faults, by name.

ghost use Rattle.std.specs.Prelude.{◌≡◌, ◌≢◌, MatchOption};
ghost use Rattle.coswid_res.specs.FaultKinds.{fault_number};
ghost use Rattle.coswid_res.specs.declared.fault_kind.FormFaultKind.{FormFaultKind as KindValue};

use thiserror::Error;

/// The kinds of form faults, with their numbers: 'Form faults' in `docs/rules/tags.md`.
#[derive(Clone, Copy, Debug, PartialEq, Eq, Error)]
pub enum FormFaultKind {
    /// A required key is not there.
    #[error("missing key")]
    MissingKey = 1,
    /// A value is in no form that its key has.
    #[error("wrong form")]
    WrongForm = 2,
    /// A tag has both a payload and evidence.
    #[error("both payload and evidence")]
    Both = 3,
    /// An untagged item is so deep that it would be too deep under its tag.
    #[error("too deep")]
    Deep = 4,
}

impl FormFaultKind {
    /// The number of the kind, 1 to 4.
    pub fn number(self) -> u8
        ensures number { result ≡ fault_number self }
    {
        self as u8
    }

    /// The kind of this number; `None` exactly where no kind has it.
    pub fn from_number(number: u8) -> Option<Self>
        ensures kind { MatchOption result ((kind : KindValue) → fault_number kind ≢ number) (λ kind. fault_number kind ≡ number) }
    {
        match number {
            1 => Some(FormFaultKind::MissingKey),
            2 => Some(FormFaultKind::WrongForm),
            3 => Some(FormFaultKind::Both),
            4 => Some(FormFaultKind::Deep),
            _ => None,
        }
    }
}
