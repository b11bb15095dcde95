//! The lines of what commands refuse.

ghost use Rattle.std.specs.Prelude.{◌≡◌, IfOk, string_bytes};
ghost use Rattle.command_text.specs.Text.{fault_line, refusal};

use std::alloc::Global;
use wire_base::{List, Memory, Octets};

/// The line of a fault: the number of its error code, and its place in the input.
pub fn fault_line(alloc: Global, code: u32, place: u64) -> Result<Octets, Memory>
    ensures line { IfOk result (λ made. made ≡ fault_line code place) }
{
    Ok(from_string(format!(in alloc; "fault {code} {place}\n")?))
}

/// The line of another refusal: a word and a number.
pub fn refusal(alloc: Global, word: &str, number: u64) -> Result<Octets, Memory>
    ensures line { IfOk result (λ made. made ≡ refusal word.now number) }
{
    Ok(from_string(format!(in alloc; "{word} {number}\n")?))
}

/// The octets of a string.
pub fn from_string(text: String) -> Octets
    ensures octets { result ≡ string_bytes text }
{
    List::from_vec(text.into_bytes())
}
