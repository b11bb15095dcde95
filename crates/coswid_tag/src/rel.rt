//! The relations of links that the rules speak of: RFC 9393, section 4.4.

ghost use Rattle.std.specs.Prelude.{◌≡◌};
ghost use Rattle.coswid_tag.specs.Codes.{is_named, is_number, is_rel};

use crate::value::CodeValue;

/// A relation of a link to what it leads to.
#[derive(Clone, Copy, Debug, PartialEq, Eq)]
pub enum Rel {
    /// The tag is a patch of it: 7.
    Patches,
    /// What the tag describes requires it: 8.
    Requires,
    /// The tag adds to it: 11.
    Supplemental,
}

impl Rel {
    /// Whether a link's rel is this relation: its number, or the text that names it.
    pub fn is(self, rel: &CodeValue) -> bool
        ensures named { result ≡ is_rel self rel.now }
    {
        match self {
            Rel::Patches => is_named(rel, 7, "patches"),
            Rel::Requires => is_named(rel, 8, "requires"),
            Rel::Supplemental => is_named(rel, 11, "supplemental"),
        }
    }
}

/// Whether the code is this number of its registry, or the text that names it there (RFC 9393,
/// section 4).
fn is_named(code: &CodeValue, number: u64, name: &str) -> bool
    ensures named { result ≡ is_named number name.now code.now }
{
    match code {
        CodeValue::Int(_) => is_number(code, number),
        CodeValue::Text(text) => text.as_str() == name,
    }
}

/// Whether the code is this number.
pub(crate) fn is_number(code: &CodeValue, number: u64) -> bool
    ensures number { result ≡ is_number number code.now }
{
    match code {
        CodeValue::Int(found) => *found >= 0 && *found as u64 == number,
        CodeValue::Text(_) => false,
    }
}
