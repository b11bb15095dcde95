//! What kind a tag is.

ghost use Rattle.std.specs.Prelude.{◌≡◌};
ghost use Rattle.coswid_tag.specs.Kind.{kind, is_true};

use crate::tag::Tag;

/// What a tag describes (RFC 9393, section 3).
#[derive(Clone, Copy, Debug, PartialEq, Eq)]
pub enum TagKind {
    /// Software before it is installed.
    Corpus,
    /// A patch.
    Patch,
    /// An addition to another tag.
    Supplemental,
    /// Software that is installed.
    Primary,
}

/// The kind: corpus where the tag says so, else patch where it says so, else supplemental where it
/// says so, else primary.
pub fn kind(tag: &Tag) -> TagKind
    ensures kind { result ≡ kind tag.now }
{
    if is_true(tag.corpus) {
        return TagKind::Corpus;
    }
    if is_true(tag.patch) {
        return TagKind::Patch;
    }
    if is_true(tag.supplemental) {
        return TagKind::Supplemental;
    }
    TagKind::Primary
}

/// Whether a flag is there and true.
pub(crate) fn is_true(flag: Option<bool>) -> bool
    ensures flag { result ≡ is_true flag }
{
    match flag {
        None => false,
        Some(value) => value,
    }
}
