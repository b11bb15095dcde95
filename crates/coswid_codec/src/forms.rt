//! The forms of identifiers and codes.

ghost use Rattle.coswid_codec.specs.Parts.{Identifier, identifier_item, Code, code_item};
ghost use Rattle.coswid_res.specs.Schema.{an_identifier, a_code};
ghost use Rattle.std.specs.Prelude.{◌==◌, length};
ghost use Rattle.cbor_det.specs.Term.{octets as octets_item};
ghost use Rattle.coswid_res.specs.Fault.{unless_wrong};
ghost use Rattle.coswid_res.specs.Reading.{Gives};

use cbor_det::{Item, put_bytes, put_integer, put_text};
use coswid_res::{Form, FormFaultKind, FormRefused};
use coswid_tag::{CodeValue, TagId};
use std::alloc::Global;
use wire_base::{Memory, Octets, TryCopy};

/// An identifier: a text, or the 16 octets of a UUID.
pub(crate) struct IdentifierForm;

impl Form for IdentifierForm {
    type Value = TagId;

    ghost form = { an_identifier };

    ghost is = { Identifier };

    ghost written = { identifier_item };

    fn read(alloc: Global, item: Item) -> Result<TagId, FormRefused> {
        match item {
            Item::Text(text) => Ok(TagId::Text(text)),
            Item::Bytes(octets) => read_uuid(alloc, &octets),
            _ => Err(FormRefused::new(alloc, FormFaultKind::WrongForm)),
        }
    }

    fn spell(out: &mut Octets, value: &TagId) -> Result<(), Memory> {
        match value {
            TagId::Text(text) => put_text(out, text.as_str()),
            TagId::Uuid(octets) => put_bytes(out, octets.as_slice()),
        }
    }
}

fn read_uuid(alloc: Global, octets: &Octets) -> Result<TagId, FormRefused>
    ensures told { Gives (λ i. Identifier i (octets_item octets.now)) (unless_wrong (length octets.now == 16)) result }
{
    match <[u8; 16]>::try_from(octets.as_slice()) {
        Ok(uuid) => Ok(TagId::Uuid(uuid)),
        Err(_) => Err(FormRefused::new(alloc, FormFaultKind::WrongForm)),
    }
}

/// A code: a number of a registry or any other, or a text.
pub(crate) struct CodeForm;

impl Form for CodeForm {
    type Value = CodeValue;

    ghost form = { a_code };

    ghost is = { Code };

    ghost written = { code_item };

    fn read(alloc: Global, item: Item) -> Result<CodeValue, FormRefused> {
        match item {
            Item::Int(number) => Ok(CodeValue::Int(number)),
            Item::Text(text) => Ok(CodeValue::Text(text)),
            _ => Err(FormRefused::new(alloc, FormFaultKind::WrongForm)),
        }
    }

    fn spell(out: &mut Octets, value: &CodeValue) -> Result<(), Memory> {
        match value {
            CodeValue::Int(number) => put_integer(out, *number),
            CodeValue::Text(text) => put_text(out, text.as_str()),
        }
    }
}
