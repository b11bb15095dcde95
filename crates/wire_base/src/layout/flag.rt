//! Flags: octets of which each bit says something of its own.

ghost use Rattle.std.specs.Prelude.{◌≡◌, ◌≤◌, ◌∷◌, []};
ghost use Rattle.wire_base.specs.Written.{flags_octet};

/// The bit of a flag that is set, or else 0.
pub fn flag(is_set: bool, bit: u8) -> u8
    ensures octet { result ≡ flags_octet ((bit, is_set) ∷ []) }
    ensures within { result ≤ bit }
{
    if is_set { bit } else { 0 }
}
