//! The item that a line is.

ghost use Rattle.std.specs.Prelude.{◌≡◌};
ghost use Rattle.line_words.specs.Reading.{FindsExactly, IsText};
ghost use Rattle.source_lines.specs.LineFaults.{BodyFault, BodyFaultIn, DigitsFault, GivesOr, HasFault, KeyFaultIn, TagFault, TagFaultIn, TextFault};
ghost use Rattle.source_lines.specs.LineItems.{AreTagged, AreDescribed, IsAlone, IsBody, IsDescribed, IsGone, IsTagged, Says, added, changed};

use crate::line_fault::{LineFault, LineRefused};
use crate::package::read_package;
use line_words::{Words, bounded, read_number, read_octets, read_text};
use source_set::Told;
use std::alloc::Global;
use swima_model::{Body, Bounded, Content, Limit, Model};

/// A key, and what the record of its software says.
#[derive(Debug, Drop)]
pub(crate) struct Keyed {
    /// The key.
    pub(crate) key: u32,
    /// The content, with source number 0.
    pub(crate) content: Content,
}

/// The item that the line is, or why it is none.
pub(crate) fn item_of(alloc: Global, line: &[u8]) -> Result<Told, LineRefused>
    ensures item { GivesOr (Says line.now) (HasFault line.now) result }
{
    let mut words = Words::new(line);
    let Some(verb) = words.next() else {
        return Err(LineRefused::Fault(LineFault::Words));
    };
    if verb == b"add".as_slice() {
        return Ok(as_added(of_tag(alloc, &mut words)?));
    }
    if verb == b"change".as_slice() {
        return Ok(as_changed(of_tag(alloc, &mut words)?));
    }
    if verb == b"xml".as_slice() {
        return Ok(as_added(of_xml(alloc, &mut words)?));
    }
    if verb == b"gone".as_slice() {
        return of_key(&mut words);
    }
    match alone(verb, &mut words) {
        Some(item) => Ok(item),
        None => Err(LineRefused::Fault(LineFault::Words)),
    }
}

/// An addition.
fn as_added(keyed: Keyed) -> Told
    ensures item { result ≡ added keyed }
{
    let Keyed { key, content } = keyed;
    Told::Add { key, content }
}

/// A change.
fn as_changed(keyed: Keyed) -> Told
    ensures item { result ≡ changed keyed }
{
    let Keyed { key, content } = keyed;
    Told::Change { key, content }
}

/// What a key, a locator and a tag say.
fn of_tag(alloc: Global, words: &mut Words<'_>) -> Result<Keyed, LineRefused>
    ensures tag { GivesOr (IsTagged words.old) (TagFaultIn words.old) result }
{
    let (Some(key), Some(locator), Some(digits), None) = (
        words.next(),
        words.next(),
        words.next(),
        words.next(),
    ) else {
        return Err(LineRefused::Fault(LineFault::Words));
    };
    tagged(alloc, key, locator, digits)
}

/// What the words of a key, of a locator and of a tag's octets say.
fn tagged(alloc: Global, key: &[u8], locator: &[u8], digits: &[u8]) -> Result<Keyed, LineRefused>
    ensures tag { GivesOr (AreTagged key.now locator.now digits.now) (TagFault key.now locator.now digits.now) result }
{
    let Some(key) = read_number(key) else {
        return Err(LineRefused::Fault(LineFault::Key));
    };
    let Some(locator) = read_text(alloc, locator)? else {
        return Err(LineRefused::Fault(LineFault::Text));
    };
    let Some(octets) = read_octets(alloc, digits)? else {
        return Err(LineRefused::Fault(LineFault::Digits));
    };
    let Some(package) = read_package(alloc, octets.as_slice())? else {
        return Err(LineRefused::Fault(LineFault::Octets));
    };
    Ok(Keyed {
        key,
        content: Content {
            model: Model { pen: 0, kind: 2 },
            source: 0,
            ident: package.ident,
            locator,
            body: package.body,
        },
    })
}

/// What a key, an identifier, a locator and a body say.
fn of_xml(alloc: Global, words: &mut Words<'_>) -> Result<Keyed, LineRefused>
    ensures xml { GivesOr (IsDescribed words.old) (BodyFaultIn words.old) result }
{
    let (Some(key), Some(ident), Some(locator), Some(digits), None) = (
        words.next(),
        words.next(),
        words.next(),
        words.next(),
        words.next(),
    ) else {
        return Err(LineRefused::Fault(LineFault::Words));
    };
    described(alloc, key, ident, locator, digits)
}

/// What the words of a key, of an identifier, of a locator and of a body say.
fn described(
    alloc: Global,
    key: &[u8],
    ident: &[u8],
    locator: &[u8],
    digits: &[u8],
) -> Result<Keyed, LineRefused>
    ensures xml { GivesOr (AreDescribed key.now ident.now locator.now digits.now) (BodyFault key.now ident.now locator.now digits.now) result }
{
    let Some(key) = read_number(key) else {
        return Err(LineRefused::Fault(LineFault::Key));
    };
    let ident = text_of(alloc, ident)?;
    let locator = text_of(alloc, locator)?;
    let body = body_of(alloc, digits)?;
    Ok(Keyed {
        key,
        content: Content {
            model: Model { pen: 0, kind: 0 },
            source: 0,
            ident,
            locator,
            body,
        },
    })
}

/// The octets of a printable text.
fn text_of<L: Limit>(alloc: Global, word: &[u8]) -> Result<Bounded<L>, LineRefused>
    ensures text { GivesOr (IsText L.OCTETS word.now) (TextFault L.OCTETS word.now) result }
{
    match read_text(alloc, word)? {
        Some(octets) => Ok(octets),
        None => Err(LineRefused::Fault(LineFault::Text)),
    }
}

/// The body of a record, from its digits.
fn body_of(alloc: Global, digits: &[u8]) -> Result<Body, LineRefused>
    ensures body { GivesOr (IsBody digits.now) (DigitsFault digits.now) result }
{
    let Some(octets) = read_octets(alloc, digits)? else {
        return Err(LineRefused::Fault(LineFault::Digits));
    };
    match bounded(alloc, octets.as_slice())? {
        Some(body) => Ok(body),
        None => Err(LineRefused::Fault(LineFault::Octets)),
    }
}

/// That the software of a key is gone. It takes no memory.
fn of_key(words: &mut Words<'_>) -> Result<Told, LineRefused>
    ensures gone { GivesOr (IsGone words.old) (KeyFaultIn words.old) result }
{
    let (Some(key), None) = (words.next(), words.next()) else {
        return Err(LineRefused::Fault(LineFault::Words));
    };
    match read_number(key) {
        Some(key) => Ok(Told::Gone { key }),
        None => Err(LineRefused::Fault(LineFault::Key)),
    }
}

/// The item of a word that stands alone. It takes no memory.
fn alone(verb: &[u8], words: &mut Words<'_>) -> Option<Told>
    ensures alone { FindsExactly (IsAlone verb.now words.old) result }
{
    if words.next().is_some() {
        return None;
    }
    if verb == b"quiet".as_slice() {
        return Some(Told::Quiet);
    }
    if verb == b"end".as_slice() {
        return Some(Told::Ended);
    }
    None
}
