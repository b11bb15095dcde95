//! The words of a step.

/// The first two words of a step, and the rest after a space.
pub(crate) fn three<'a>(words: &'a str) -> Option<(&'a str, &'a str, &'a str)> {
    let (first, rest) = words.split_once(' ')?;
    let (second, third) = rest.split_once(' ')?;
    Some((first, second, third))
}

/// The first three words of a step, and the rest after a space.
pub(crate) fn four<'a>(words: &'a str) -> Option<(&'a str, &'a str, &'a str, &'a str)> {
    let (first, rest) = words.split_once(' ')?;
    let (second, third, fourth) = three(rest)?;
    Some((first, second, third, fourth))
}

/// The first four words of a step, and the rest after a space.
pub(crate) fn five<'a>(words: &'a str) -> Option<(&'a str, &'a str, &'a str, &'a str, &'a str)> {
    let (first, rest) = words.split_once(' ')?;
    let (second, third, fourth, fifth) = four(rest)?;
    Some((first, second, third, fourth, fifth))
}
