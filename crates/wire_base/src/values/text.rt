//! Texts that own their octets.

ghost use Rattle.std.specs.Cmp.{partial_equiv_from_equiv};
ghost use Rattle.std.specs.Cmp.Lexicographic.{nat_list_eq_equiv};
ghost use Rattle.std.specs.Prelude.{◌≡◌, IfOk, bytes_eq};
ghost use Rattle.std.specs.Str.{IsUtf8};
ghost use Rattle.std.specs.String.{string_bytes};

use crate::values::list::TryCopy;
use crate::values::memory::Memory;
use std::alloc::Global;
use std::marker::Model;

/// A text. Contracts see it as its UTF-8 octets.
#[derive(Debug, Drop)]
pub struct Text {
    text: String,
}

impl Model for Text {
    ghost use Rattle.std.specs.Prelude.{List, ℕ};
    ghost use Rattle.std.specs.String.{string_bytes};

    ghost Value = { List ℕ };

    ghost view = { λ text. string_bytes text.text };
}

impl Text {
    /// A text of its own that reads as `text`.
    pub fn new(alloc: Global, text: &str) -> Result<Self, Memory>
        ensures octets { IfOk result (λ made. made ≡ text.now) }
    {
        Ok(Text {
            text: String::from_str(alloc, text)?,
        })
    }

    /// The text of a `String`. It takes no memory.
    pub fn from_string(text: String) -> Self
        ensures octets { result ≡ string_bytes text }
    {
        Text { text }
    }

    /// The text as a slice. It takes no memory.
    pub fn as_str(&self) -> &str
        ensures octets { result.now ≡ self.now }
        ensures utf8 { IsUtf8 self.now }
    {
        self.text.as_str()
    }
}

impl TryCopy for Text {
    fn copy(&self) -> Result<Self, Memory> {
        Ok(Text {
            text: self.text.clone()?,
        })
    }
}

impl PartialEq for Text {
    ghost eq = { bytes_eq };

    ghost laws = { partial_equiv_from_equiv nat_list_eq_equiv };

    fn eq(&self, other: &Self) -> bool {
        self.text == other.text
    }
}

impl Eq for Text {
    ghost laws = { nat_list_eq_equiv };
}
