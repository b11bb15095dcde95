//! PA-TNC messages and attributes (RFC 5792, sections 3.6 and 4.1): read and written.

ghost use Rattle.std.specs.Prelude.{◌≤◌, IfSome, length};
ghost use Rattle.pa_attrs.specs.AttrForm.{IsNamed};

use conformance_words::{digits_of, number_list, octets_of, push_text};
use pa_attrs::{
    Attr, PaFault, PaMessage, PaRead, PlacedAttr, read_message, value_fault, write_message,
};
use std::alloc::Global;
use wire_base::{List, Memory, Octets};

/// The most octets of a message in a row.
const MOST: usize = 4096;

/// `message TYPES HEX`, with the types that are supported: `message ID`, and for each attribute
/// that is handed out the place of its value and the attribute; or the fault.
pub fn message(alloc: Global, words: &str) -> Option<String> {
    let (types, digits) = words.split_once(' ')?;
    let supported = number_list(alloc, types)?;
    let octets = octets_of(alloc, digits)?;
    match read(alloc, octets.as_slice(), supported.as_slice())? {
        PaRead::Ok { id, attrs } => message_text(alloc, id, attrs.as_slice()),
        PaRead::Refused(fault) => fault_text(alloc, fault),
        PaRead::Memory => None,
    }
}

/// `value_fault TYPES PLACE HEX`: the fault of a value at the place, in the message that is read.
pub fn fault_of_value(alloc: Global, words: &str) -> Option<String> {
    let (types, rest) = words.split_once(' ')?;
    let (place, digits) = rest.split_once(' ')?;
    let place: u32 = place.parse().ok()?;
    let supported = number_list(alloc, types)?;
    let octets = octets_of(alloc, digits)?;
    match read(alloc, octets.as_slice(), supported.as_slice())? {
        PaRead::Ok { attrs, .. } => {
            fault_text(
                alloc,
                value_fault(octets.as_slice(), attrs.as_slice(), place),
            )
        }
        PaRead::Refused(_) => None,
        PaRead::Memory => None,
    }
}

/// What octets that are few enough are read as.
fn read(alloc: Global, octets: &[u8], supported: &[u32]) -> Option<PaRead> {
    if octets.len() > MOST {
        return None;
    }
    Some(read_message(alloc, octets, supported))
}

fn message_text(alloc: Global, id: u32, attrs: &[PlacedAttr]) -> Option<String> {
    let mut out = format!(in alloc; "message {id}").ok()?;
    for placed in attrs {
        push_placed(alloc, &mut out, placed)?;
    }
    Some(out)
}

fn push_placed(alloc: Global, out: &mut String, placed: &PlacedAttr) -> Option<()> {
    let at = placed.at;
    push_text(out, format!(in alloc; "; {at} ").ok())?;
    push_attr(alloc, out, &placed.attr)
}

/// Puts `VENDOR TYPE VALUE`, and ` noskip` where the flag is set, at the end of the text.
pub fn push_attr(alloc: Global, out: &mut String, attr: &Attr) -> Option<()> {
    let (vendor, kind) = (attr.vendor, attr.kind);
    push_text(out, format!(in alloc; "{vendor} {kind} ").ok())?;
    push_text(out, digits_of(alloc, attr.value.as_slice()))?;
    out.push_str(if attr.noskip { " noskip" } else { "" }).ok()
}

/// `fault CODE PLACE`, the copy of the message header, the first octets of the attribute where its
/// type is not supported, and ` unanswered` where no Error is sent.
fn fault_text(alloc: Global, fault: PaFault) -> Option<String> {
    let (code, place) = (fault.code, fault.offset);
    let header = hex::encode(alloc, fault.header.as_slice()).ok()?;
    let first = hex::encode(alloc, fault.first.as_slice()).ok()?;
    let answered = if fault.answer { "" } else { " unanswered" };
    format!(in alloc; "fault {code} {place} {header} {first}{answered}").ok()
}

/// `message_written ID ATTRIBUTE ATTRIBUTE`, each `VENDOR,TYPE,VALUE` or
/// `noskip,VENDOR,TYPE,VALUE`, and the second `-` where there is one alone: the octets of the
/// message.
pub fn message_written(alloc: Global, words: &str) -> Option<String> {
    let (id, rest) = words.split_once(' ')?;
    let (first, second) = rest.split_once(' ')?;
    let id: u32 = id.parse().ok()?;
    let first = attr_of(alloc, first)?;
    if second == "-" {
        let written = one_written(alloc, id, first).ok()?;
        return digits_of(alloc, written.as_slice());
    }
    let second = attr_of(alloc, second)?;
    let written = two_written(alloc, id, first, second).ok()?;
    digits_of(alloc, written.as_slice())
}

/// The octets of a message of one attribute.
fn one_written(alloc: Global, id: u32, attr: Attr) -> Result<Octets, Memory>
    requires named { IsNamed attr }
    requires short { length attr.value ≤ 4096 }
{
    let mut attrs = List::new(alloc);
    attrs.push(attr)?;
    write_message(alloc, &PaMessage { id, attrs })
}

/// The octets of a message of two attributes.
fn two_written(alloc: Global, id: u32, first: Attr, second: Attr) -> Result<Octets, Memory>
    requires first_named { IsNamed first }
    requires first_short { length first.value ≤ 4096 }
    requires second_named { IsNamed second }
    requires second_short { length second.value ≤ 4096 }
{
    let mut attrs = List::new(alloc);
    attrs.push(first)?;
    attrs.push(second)?;
    write_message(alloc, &PaMessage { id, attrs })
}

/// The attribute that a word spells.
fn attr_of(alloc: Global, word: &str) -> Option<Attr>
    ensures named { IfSome result (λ attr. IsNamed attr) }
    ensures short { IfSome result (λ attr. length attr.value ≤ 4096) }
{
    let bare = word.strip_prefix("noskip,");
    let (vendor, rest) = bare.unwrap_or(word).split_once(',')?;
    let (kind, digits) = rest.split_once(',')?;
    let vendor: u32 = vendor.parse().ok()?;
    let kind: u32 = kind.parse().ok()?;
    let octets = octets_of(alloc, digits)?;
    if vendor >= 0xff_ffff || kind == 0xffff_ffff || octets.len() > MOST {
        return None;
    }
    Some(Attr {
        noskip: bare.is_some(),
        vendor,
        kind,
        value: List::from_vec(octets),
    })
}
