//! The packages of a day, and their tags.

ghost use Rattle.std.specs.Prelude.{◌≡◌, ◌<◌, ◌^◌, ℕ, IfOk, Some, replicate};
ghost use Rattle.coswid_tag.specs.Identifier.{identifier_of};
ghost use Rattle.session_day.specs.Package.{content_by, letters_of, next_number, number_of, package_name};
ghost use Rattle.session_day.specs.Packages.{AreDescribed, AreMakers, HasIdentifier, IsDescription, IsMaker, IsPackage, IsTagOf};

use cbor_det::Pairs;
use coswid_codec::write_tag;
use coswid_tag::{
    CodeValue, Entities, Entity, IdentRefused, SoftwareMeta, SoftwareMetas, Tag, TagId,
    software_identifier,
};
use std::alloc::Global;
use swima_model::{Body, Content, Ident, Locator, Model};
use wire_base::{List, Memory, Text};

/// The number after a number of the sequence that says how long summaries are.
pub(crate) fn next_number(number: u32) -> u32
    ensures next { result ≡ next_number number }
{
    ((1_103_515_245 * u64::from(number) + 12_345) % 2_147_483_648) as u32
}

/// The number of a package, in the sequence that begins with the count of packages.
pub(crate) fn number_of(count: u32, place: u32) -> u32
    ensures number { result ≡ number_of count place }
{
    let mut number = count;
    for _ in 0..place {
        number = next_number(number);
    }
    number
}

/// The content of the record of a package, whose tag has this tag-version. `number` is that of the
/// package in the sequence.
pub(crate) fn package(
    alloc: Global,
    place: u32,
    version: u32,
    number: u32,
) -> Result<Content, Memory>
    ensures content { IfOk result (λ made. made ≡ content_by place version number) }
{
    let tag = package_tag(alloc, place, version, number)?;
    content_of(alloc, &tag)
}

/// The content of the record of a package with this tag.
fn content_of(alloc: Global, tag: &Tag) -> Result<Content, Memory>
    requires of_package { (place : ℕ) × (version : ℕ) × (number : ℕ) × (place < 2 ^ 32)
        × IsPackage place version (letters_of number) tag.now }
    ensures content { (place version number : ℕ) → place < 2 ^ 32 → IsPackage place version (letters_of number) tag.now
        → IfOk result (λ made. made ≡ content_by place version number) }
{
    let ident = identifier(alloc, tag)?;
    let octets = write_tag(alloc, tag)?;
    let body = Body::from_octets(alloc, octets.as_slice())?;
    Ok(Content {
        model: Model { pen: 0, kind: 2 },
        source: 0,
        ident,
        locator: Locator::empty(alloc),
        body,
    })
}

/// The software identifier of a tag that has one, which is not too long.
fn identifier(alloc: Global, tag: &Tag) -> Result<Ident, Memory>
    requires some { HasIdentifier tag.now }
    ensures identifier { IfOk result (λ made. identifier_of tag.now ≡ Some made) }
{
    match software_identifier(alloc, tag) {
        Ok(text) => Ident::from_octets(alloc, text.as_slice()),
        Err(IdentRefused::Memory) => Err(Memory),
        Err(_) => unreachable!(),
    }
}

/// The tag of a package.
fn package_tag(alloc: Global, place: u32, version: u32, number: u32) -> Result<Tag, Memory>
    ensures tag { IfOk result (λ made. IsPackage place version (letters_of number) made) }
{
    let name = package_name(alloc, place)?;
    let software_name = package_name(alloc, place)?;
    let makers = makers(alloc)?;
    let metas = described(alloc, 400 + number % 401)?;
    let release = Text::new(alloc, "1")?;
    Ok(tag_of(alloc, name, software_name, makers, metas, release, version))
}

fn package_name(alloc: Global, place: u32) -> Result<Text, Memory>
    ensures name { IfOk result (λ made. made ≡ package_name place) }
{
    Ok(Text::from_string(format!(in alloc; "pkg-{place}")?))
}

/// A tag with these fields and no others.
fn tag_of(
    alloc: Global,
    name: Text,
    software_name: Text,
    entity: Entities,
    metas: SoftwareMetas,
    release: Text,
    version: u32,
) -> Tag
    ensures fields { IsTagOf name software_name entity metas release version result }
{
    Tag {
        tag_id: TagId::Text(name),
        software_name,
        entity,
        evidence: None,
        link: None,
        software_meta: Some(metas),
        payload: None,
        corpus: None,
        patch: None,
        media: None,
        supplemental: None,
        tag_version: i64::from(version),
        software_version: Some(release),
        version_scheme: None,
        lang: None,
        extras: Pairs::new(alloc),
    }
}

/// The one entity that made tag and software.
fn makers(alloc: Global) -> Result<Entities, Memory>
    ensures makers { IfOk result AreMakers }
{
    let mut makers = List::new(alloc);
    makers.push(maker(alloc)?)?;
    Ok(makers)
}

/// The entity that made tag and software.
fn maker(alloc: Global) -> Result<Entity, Memory>
    ensures maker { IfOk result IsMaker }
{
    let mut role = List::new(alloc);
    role.push(CodeValue::Int(1))?;
    role.push(CodeValue::Int(2))?;
    Ok(Entity {
        entity_name: Text::new(alloc, "make")?,
        reg_id: Some(Text::new(alloc, "example.com")?),
        role,
        thumbprint: None,
        extras: Pairs::new(alloc),
    })
}

/// A description whose summary is that many letters.
fn described(alloc: Global, letters: u32) -> Result<SoftwareMetas, Memory>
    ensures described { IfOk result (λ made. AreDescribed letters made) }
{
    let mut metas = List::new(alloc);
    let summary = letters_text(alloc, letters)?;
    metas.push(description_of(alloc, summary))?;
    Ok(metas)
}

/// A description with this summary and no other field.
fn description_of(alloc: Global, summary: Text) -> SoftwareMeta
    ensures fields { IsDescription summary result }
{
    SoftwareMeta {
        activation_status: None,
        channel_type: None,
        colloquial_version: None,
        description: None,
        edition: None,
        entitlement_data_required: None,
        entitlement_key: None,
        generator: None,
        persistent_id: None,
        product: None,
        product_family: None,
        revision: None,
        summary: Some(summary),
        unspsc_code: None,
        unspsc_version: None,
        extras: Pairs::new(alloc),
    }
}

/// That many letters `a`.
fn letters_text(alloc: Global, letters: u32) -> Result<Text, Memory>
    ensures text { IfOk result (λ made. made ≡ replicate letters 97) }
{
    let mut text = String::new(alloc);
    for _ in 0..letters {
        text.push('a')?;
    }
    Ok(Text::from_string(text))
}
