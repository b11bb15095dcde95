//! What is kept of a tag: the software identifier that it gives, and its canonical octets.

ghost use Rattle.std.specs.Prelude.{◌≤◌};
ghost use Rattle.cbor_det.specs.Term.{depth};
ghost use Rattle.coswid_codec.specs.Answers.{BeginsTag};
ghost use Rattle.coswid_codec.specs.Items.{tag_item};
ghost use Rattle.coswid_codec.specs.SizesFit.{SizesFit};
ghost use Rattle.coswid_tag.specs.Identifier.{identifier_of};
ghost use Rattle.line_words.specs.Reading.{Finds};
ghost use Rattle.source_lines.specs.Package.{FindsNoTag, IsIdentOf, IsPackage, IsPackageOf};

use coswid_codec::{TagRefused, read_tag, write_tag};
use coswid_tag::{IdentRefused, Tag, software_identifier};
use line_words::bounded;
use std::alloc::Global;
use swima_model::{Body, Ident};
use wire_base::Memory;

/// What a tag says of its software, and the octets that it is kept as.
#[derive(Debug, Drop)]
pub(crate) struct Package {
    /// The software identifier.
    pub(crate) ident: Ident,
    /// The canonical octets.
    pub(crate) body: Body,
}

/// The package whose tag the octets are, all of them.
pub(crate) fn read_package(alloc: Global, octets: &[u8]) -> Result<Option<Package>, Memory>
    ensures whole { Finds (IsPackage octets.now) result }
{
    match read_tag(alloc, octets) {
        Ok((tag, used)) => package_of_all(alloc, octets, &tag, used),
        Err(refused) => no_tag(&refused),
    }
}

/// The package of a tag that octets begin with, where they end with it too.
fn package_of_all(
    alloc: Global,
    octets: &[u8],
    tag: &Tag,
    used: usize,
) -> Result<Option<Package>, Memory>
    requires begins { BeginsTag octets.now tag.now used }
    requires depth { depth (tag_item tag.now) ≤ 64 }
    requires sizes { SizesFit tag.now }
    ensures whole { Finds (IsPackage octets.now) result }
{
    if used < octets.len() {
        return Ok(None);
    }
    package_of(alloc, tag)
}

/// That octets are no tag, unless memory ran out.
fn no_tag(refused: &TagRefused) -> Result<Option<Package>, Memory>
    ensures none { FindsNoTag refused.now result }
{
    match refused {
        TagRefused::Cbor(_) => Ok(None),
        TagRefused::Form(_) => Ok(None),
        TagRefused::Memory => Err(Memory),
    }
}

/// The package of a tag: it has a creator, and its parts are within their limits.
fn package_of(alloc: Global, tag: &Tag) -> Result<Option<Package>, Memory>
    requires depth { depth (tag_item tag.now) ≤ 64 }
    requires sizes { SizesFit tag.now }
    ensures parts { Finds (IsPackageOf tag.now) result }
{
    let Some(ident) = identifier_of(alloc, tag)? else {
        return Ok(None);
    };
    let octets = write_tag(alloc, tag)?;
    let Some(body) = bounded(alloc, octets.as_slice())? else {
        return Ok(None);
    };
    Ok(Some(Package { ident, body }))
}

/// The software identifier of a tag that a creator made, where it is within the limit.
fn identifier_of(alloc: Global, tag: &Tag) -> Result<Option<Ident>, Memory>
    ensures ident { Finds (IsIdentOf tag.now) result }
{
    match software_identifier(alloc, tag) {
        Ok(text) => Ok(Some(Ident::from_octets(alloc, text.as_slice())?)),
        Err(IdentRefused::Memory) => Err(Memory),
        Err(_) => Ok(None),
    }
}
