//! The kinds of findings between tags, by name.

ghost use Rattle.std.specs.Prelude.{◌≡◌, ◌≢◌, MatchOption};
ghost use Rattle.coswid_links.specs.FindingKinds.{finding_number};
ghost use Rattle.coswid_links.specs.declared.link_finding_kind.LinkFindingKind.{LinkFindingKind as KindValue};

use thiserror::Error;

/// What is wrong between tags of a list, with the numbers of the table of `docs/rules/tags.md`.
#[derive(Clone, Copy, Debug, PartialEq, Eq, Error)]
pub enum LinkFindingKind {
    /// A link leads to a tag that is not in the list.
    #[error("leads to no tag")]
    NoTag = 1,
    /// A link of a patch or a supplement leads to no primary tag.
    #[error("leads to no primary tag")]
    NotPrimary = 2,
    /// A requirement leads to a tag that is not in the list.
    #[error("requires a tag that is not there")]
    NotMet = 3,
    /// Two tags of one identity have different content.
    #[error("one identity with different content")]
    Rivals = 4,
}

impl LinkFindingKind {
    /// The number of the kind, 1 to 4.
    pub fn number(self) -> u8
        ensures number { result ≡ finding_number self }
    {
        self as u8
    }

    /// The kind of this number; `None` exactly where no kind has it.
    pub fn from_number(number: u8) -> Option<Self>
        ensures kind { MatchOption result ((kind : KindValue) → finding_number kind ≢ number) (λ kind. finding_number kind ≡ number) }
    {
        match number {
            1 => Some(LinkFindingKind::NoTag),
            2 => Some(LinkFindingKind::NotPrimary),
            3 => Some(LinkFindingKind::NotMet),
            4 => Some(LinkFindingKind::Rivals),
            _ => None,
        }
    }
}
