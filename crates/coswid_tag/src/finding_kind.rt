//! The kinds of findings on a tag, by name.

ghost use Rattle.std.specs.Prelude.{◌≡◌, ◌≢◌, MatchOption};
ghost use Rattle.coswid_tag.specs.FindingKinds.{finding_number};
ghost use Rattle.coswid_tag.specs.declared.finding_kind.FindingKind.{FindingKind as KindValue};

use thiserror::Error;

/// What is wrong with a tag by itself, with the numbers of the table of `docs/rules/tags.md`
/// (RFC 9393, sections 2.4 and 2.7).
#[derive(Clone, Copy, Debug, PartialEq, Eq, Error)]
pub enum FindingKind {
    /// It is a patch and supplemental at once.
    #[error("patch and supplemental")]
    PatchAndSupplemental = 1,
    /// It is primary, and has no software version.
    #[error("primary without a version")]
    PrimaryWithoutVersion = 2,
    /// It is corpus, and has no software version.
    #[error("corpus without a version")]
    CorpusWithoutVersion = 3,
    /// It is a patch, and no link of it says what is patched.
    #[error("patch without a link to what it patches")]
    PatchWithoutLink = 4,
    /// It is supplemental, and no link of it says to what.
    #[error("supplemental without a link to what it adds to")]
    SupplementalWithoutLink = 5,
    /// No entity created it.
    #[error("no entity is the tag creator")]
    WithoutCreator = 6,
}

impl FindingKind {
    /// The number of the kind, 1 to 6.
    pub fn number(self) -> u8
        ensures number { result ≡ finding_number self }
    {
        self as u8
    }

    /// The kind of this number; `None` exactly where no kind has it.
    pub fn from_number(number: u8) -> Option<Self>
        ensures kind { MatchOption result ((kind : KindValue) → finding_number kind ≢ number) (λ kind. finding_number kind ≡ number) }
    {
        match number {
            1 => Some(FindingKind::PatchAndSupplemental),
            2 => Some(FindingKind::PrimaryWithoutVersion),
            3 => Some(FindingKind::CorpusWithoutVersion),
            4 => Some(FindingKind::PatchWithoutLink),
            5 => Some(FindingKind::SupplementalWithoutLink),
            6 => Some(FindingKind::WithoutCreator),
            _ => None,
        }
    }
}
