//! What is wrong with a tag by itself.

ghost use Rattle.std.specs.Prelude.{◌≡◌, ◌++◌, IfOk, OnOk};
ghost use Rattle.std.specs.List.{list_any};
ghost use Rattle.coswid_tag.specs.Codes.{is_rel};
ghost use Rattle.coswid_tag.specs.FindingKinds.{finding_number};
ghost use Rattle.coswid_tag.specs.Findings.{findings, finding, created, all_of};

use crate::entity::Entity;
use crate::finding_kind::FindingKind;
use crate::finding_kind::FindingKind::{
    CorpusWithoutVersion, PatchAndSupplemental, PatchWithoutLink, PrimaryWithoutVersion,
    SupplementalWithoutLink, WithoutCreator,
};
use crate::link::{LinkEntries, LinkEntry};
use crate::rel::{Rel, is_number};
use crate::tag::Tag;
use crate::tag_kind::is_true;
use std::alloc::Global;
use wire_base::{List, Memory};

/// Numbers of findings, 1 to 6, in order; `FindingKind` names them.
pub type Findings = List<u8>;

/// All that is wrong with the tag by itself, in order; `Memory` where there is no room.
pub fn constraints(alloc: Global, tag: &Tag) -> Result<Findings, Memory>
    ensures findings { IfOk result (λ found. found ≡ findings tag.now) }
{
    let mut found = List::new(alloc);
    note_all(&mut found, tag)?;
    Ok(found)
}

/// Notes all that is wrong with the tag by itself.
fn note_all(found: &mut Findings, tag: &Tag) -> Result<(), Memory>
    ensures appended { OnOk result (found.new ≡ found.old ++ findings tag.now) }
{
    let corpus = is_true(tag.corpus);
    let patch = is_true(tag.patch);
    let supplemental = is_true(tag.supplemental);
    let primary = !(corpus || patch || supplemental);
    let versioned = tag.software_version.is_some();
    note(found, PatchAndSupplemental, patch && supplemental)?;
    note(found, PrimaryWithoutVersion, primary && !versioned)?;
    note(found, CorpusWithoutVersion, corpus && !versioned)?;
    let unlinked = patch && !any_link(&tag.link, Rel::Patches);
    note(found, PatchWithoutLink, unlinked)?;
    let unlinked = supplemental && !any_link(&tag.link, Rel::Supplemental);
    note(found, SupplementalWithoutLink, unlinked)?;
    note(found, WithoutCreator, !has_creator(tag.entity.as_slice()))
}

/// Notes the finding where it shows.
fn note(found: &mut Findings, kind: FindingKind, shows: bool) -> Result<(), Memory>
    ensures appended { OnOk result (found.new ≡ found.old ++ finding (finding_number kind) shows) }
{
    if shows {
        found.push(kind.number())?;
    }
    Ok(())
}

/// Whether a link is of this relation.
fn any_link(links: &Option<LinkEntries>, rel: Rel) -> bool
    ensures any { result ≡ list_any (λ l. is_rel rel l.rel) (all_of links.now) }
{
    match links {
        None => false,
        Some(links) => has_rel(links.as_slice(), rel),
    }
}

fn has_rel(links: &[LinkEntry], rel: Rel) -> bool
    ensures any { result ≡ list_any (λ l. is_rel rel l.rel) links.now }
{
    for link in links {
        if rel.is(&link.rel) {
            return true;
        }
    }
    false
}

/// Whether an entity created the tag.
fn has_creator(entities: &[Entity]) -> bool
    ensures any { result ≡ list_any created entities.now }
{
    for entity in entities {
        if is_creator(entity) {
            return true;
        }
    }
    false
}

/// The number of the role of a tag's creator (RFC 9393, section 4.2).
const TAG_CREATOR: u64 = 1;

/// Whether the entity created the tag.
pub(crate) fn is_creator(entity: &Entity) -> bool
    ensures created { result ≡ created entity.now }
{
    for role in entity.role.as_slice() {
        if is_number(role, TAG_CREATOR) {
            return true;
        }
    }
    false
}
