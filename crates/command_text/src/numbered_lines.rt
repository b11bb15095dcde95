//! Lines of two words and some numbers after them.

ghost use Rattle.std.specs.Prelude.{◌≡◌, ◌∷◌, [], IfOk};
ghost use Rattle.std.specs.Fmt.{decimal};
ghost use Rattle.command_text.specs.Text.{line};

use crate::refusal_lines::from_string;
use std::alloc::Global;
use wire_base::{Memory, Octets};

/// The line of two words.
pub(crate) fn words(alloc: Global, who: &str, what: &str) -> Result<Octets, Memory>
    ensures line { IfOk result (λ made. made ≡ line (who.now ∷ what.now ∷ [])) }
{
    Ok(from_string(format!(in alloc; "{who} {what}\n")?))
}

/// The line of two words and a number.
pub(crate) fn one_number(
    alloc: Global,
    who: &str,
    what: &str,
    number: u64,
) -> Result<Octets, Memory>
    ensures line { IfOk result (λ made. made ≡ line (who.now ∷ what.now ∷ decimal number ∷ [])) }
{
    Ok(from_string(format!(in alloc; "{who} {what} {number}\n")?))
}

/// The line of two words and two numbers.
pub(crate) fn two_numbers(
    alloc: Global,
    who: &str,
    what: &str,
    first: u64,
    second: u64,
) -> Result<Octets, Memory>
    ensures line { IfOk result
        (λ made. made ≡ line (who.now ∷ what.now ∷ decimal first ∷ decimal second ∷ [])) }
{
    Ok(from_string(format!(in alloc; "{who} {what} {first} {second}\n")?))
}

/// The line of two words and three numbers.
pub(crate) fn three_numbers(
    alloc: Global,
    who: &str,
    what: &str,
    first: u64,
    second: u64,
    third: u64,
) -> Result<Octets, Memory>
    ensures line { IfOk result (λ made.
        made ≡ line (who.now ∷ what.now ∷ decimal first ∷ decimal second ∷ decimal third ∷ [])) }
{
    Ok(from_string(format!(in alloc; "{who} {what} {first} {second} {third}\n")?))
}
