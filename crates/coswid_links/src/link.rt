//! What is wrong with links.

ghost use Rattle.std.specs.Prelude.{◌≡◌, ◌++◌, ◌||◌, ℕ, List, OnOk};
ghost use Rattle.std.specs.Option.{option_copied};
ghost use Rattle.coswid_tag.specs.Codes.{patches, requires_it, supplements};
ghost use Rattle.coswid_tag.specs.declared.tag.Tag as declared;
ghost use Rattle.coswid_links.specs.Links.{link_findings, tag_findings};
ghost use Rattle.coswid_links.specs.Listed.{each_from};
ghost use Rattle.coswid_links.specs.Names.{AreNamesOf, judged, listed, named_in};

use crate::finding::{LinkFinding, LinkFindings};
use crate::link_finding_kind::LinkFindingKind;
use crate::names::Names;
use coswid_tag::{CodeValue, LinkEntry, Rel, Tag};
use wire_base::Memory;

/// Puts what is wrong with the links of the tags, by tag and link.
pub(crate) fn put_link_findings(
    found: &mut LinkFindings,
    names: &Names,
    tags: &[Tag],
) -> Result<(), Memory>
    requires names { AreNamesOf tags.now names.now }
    ensures appended { OnOk result (found.new ≡ found.old ++ each_from (tag_findings tags.now) 1 tags.now) }
{
    for (place, tag) in tags.iter().enumerate() {
        put_findings_of_tag(found, names, place as u64 + 1, tag)?;
    }
    Ok(())
}

/// Puts what is wrong with the links of the tag of this number.
fn put_findings_of_tag(
    found: &mut LinkFindings,
    names: &Names,
    first: u64,
    tag: &Tag,
) -> Result<(), Memory>
    ensures findings { (gs : List declared.Tag) → AreNamesOf gs names.now → OnOk result (found.new ≡ found.old ++ tag_findings gs first tag.now) }
{
    match &tag.link {
        None => Ok(()),
        Some(links) => put_findings_of(found, names, first, links.as_slice()),
    }
}

/// Puts what is wrong with these links of the tag of this number.
fn put_findings_of(
    found: &mut LinkFindings,
    names: &Names,
    first: u64,
    links: &[LinkEntry],
) -> Result<(), Memory>
    ensures findings { (gs : List declared.Tag) → AreNamesOf gs names.now → OnOk result (found.new ≡ found.old ++ each_from (link_findings gs first) 1 links.now) }
{
    for (place, link) in links.iter().enumerate() {
        put_finding_of(found, names, first, place as u64 + 1, link)?;
    }
    Ok(())
}

/// Puts what is wrong with the link of these two numbers.
fn put_finding_of(
    found: &mut LinkFindings,
    names: &Names,
    first: u64,
    second: u64,
    link: &LinkEntry,
) -> Result<(), Memory>
    ensures findings { (gs : List declared.Tag) → AreNamesOf gs names.now → OnOk result (found.new ≡ found.old ++ link_findings gs first second link.now) }
{
    if let Some(kind) = finding_of(names, link) {
        found.push(LinkFinding {
            kind,
            first,
            second,
        })?;
    }
    Ok(())
}

/// The number of what is wrong with a link.
fn finding_of(names: &Names, link: &LinkEntry) -> Option<u8>
    ensures finding { (gs : List declared.Tag) (i j : ℕ) → AreNamesOf gs names.now → listed result i j ≡ link_findings gs i j link.now }
{
    match name_in(link) {
        None => None,
        Some(name) => judge(names.get(name), &link.rel),
    }
}

/// The number of what is wrong with a link of this rel to a name: whether a tag of the name is
/// primary, or `None` where no tag has it.
fn judge(is_primary: Option<bool>, rel: &CodeValue) -> Option<u8>
    ensures judged { result ≡ judged is_primary (requires_it rel.now) (patches rel.now || supplements rel.now) }
{
    match is_primary {
        None if Rel::Requires.is(rel) => Some(LinkFindingKind::NotMet as u8),
        None => Some(LinkFindingKind::NoTag as u8),
        Some(is_primary) if !is_primary && asks_for_primary(rel) => {
            Some(LinkFindingKind::NotPrimary as u8)
        }
        Some(_) => None,
    }
}

/// The name that the link refers to: what follows the scheme `swid:` (RFC 9393, section 5.1).
fn name_in(link: &LinkEntry) -> Option<&str>
    ensures name { option_copied result ≡ named_in link.now.href }
{
    link.href.as_str().strip_prefix("swid:")
}

/// Whether what a link of this rel aims at has to be primary: it patches, or is supplemental.
fn asks_for_primary(rel: &CodeValue) -> bool
    ensures asks { result ≡ (patches rel.now || supplements rel.now) }
{
    Rel::Patches.is(rel) || Rel::Supplemental.is(rel)
}
