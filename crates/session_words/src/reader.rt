//! Reading the words of an end.

ghost use Rattle.std.specs.Prelude.{◌≡◌, ◌+◌, ◌<◌, ◌^◌, length};
ghost use Rattle.std.specs.List.{Contains};
ghost use Rattle.wire_base.specs.Reading.{Gives};

use pa_attrs::PlacedAttr;
use std::alloc::Global;
use wire_base::FieldRefused;

/// What reads the words of one end of a session.
pub trait WordReader {
    ghost use Rattle.std.specs.Prelude.{List, ℕ, Result};
    ghost use Rattle.pa_attrs.specs.declared.attr.PlacedAttr.{PlacedAttr};

    /// What an attribute says to the end.
    type Word: Drop;

    /// The attribute types that the end supports.
    ghost types: { Self → List ℕ };

    /// The word of an attribute, or the place of the first fault of its value.
    ghost reading: { Self → PlacedAttr → Result Self.Word ℕ };

    /// The attribute types that the end supports.
    fn supported(&self) -> &[u32]
        ensures types { result.now ≡ types self.now };

    /// The word of an attribute of one of these types; a fault at the first place in its value.
    fn read(&self, alloc: Global, placed: &PlacedAttr) -> Result<Self::Word, FieldRefused>
        requires supported { Contains (types self.now) placed.now.attr.kind }
        requires places { placed.now.at + length placed.now.attr.value < 2 ^ 32 }
        ensures word { Gives (λ word. word) result (reading self.now placed.now) };
}
