//! Tags by the names that links have for them.

ghost use Rattle.std.specs.Prelude.{◌≡◌, ◌||◌, ℕ, false, List, Some, IfOk, OnOk, unwrap_or, if◌then◌else◌};
ghost use Rattle.std.specs.BTreeMap.{get_by_text};
ghost use Rattle.std.specs.String.{string_bytes};
ghost use Rattle.coswid_links.specs.Aims.{is_called, is_primary, name_of};
ghost use Rattle.coswid_links.specs.Names.{AreNamesOf};

use coswid_tag::{Tag, TagId, TagKind, kind};
use std::alloc::Global;
use std::collections::BTreeMap;
use uuid::Uuid;
use wire_base::Memory;

/// The names of tags, each with whether a tag of this name is primary.
#[derive(Drop)]
pub(crate) struct Names {
    is_primary: BTreeMap<String, bool>,
}

impl Names {
    /// The names of the tags; `Memory` where there is no room.
    pub(crate) fn from_tags(alloc: Global, tags: &[Tag]) -> Result<Self, Memory>
        ensures names { IfOk result (AreNamesOf tags.now) }
    {
        let mut names = Names {
            is_primary: BTreeMap::new(alloc),
        };
        for tag in tags {
            names.put(alloc, tag)?;
        }
        Ok(names)
    }

    /// Takes in the name of a tag.
    fn put(&mut self, alloc: Global, tag: &Tag) -> Result<(), Memory>
        ensures puts { (name : List ℕ) → OnOk result (get_by_text self.new.is_primary name
            ≡ (if is_called name tag.now then Some (unwrap_or (get_by_text self.old.is_primary name) false || is_primary tag.now)
            else get_by_text self.old.is_primary name)) }
    {
        let name = name(alloc, &tag.tag_id)?;
        let any = any_primary(self.get(name.as_str()), is_primary(tag));
        self.is_primary.insert(name, any)?;
        Ok(())
    }

    /// Whether a tag of this name is primary; `None` where no tag has the name.
    pub(crate) fn get(&self, name: &str) -> Option<bool>
        ensures known { result ≡ get_by_text self.now.is_primary name.now }
    {
        self.is_primary.get(name).copied()
    }
}

/// The name that links have for a tag: a UUID stands as its text in lower case.
fn name(alloc: Global, tag_id: &TagId) -> Result<String, Memory>
    ensures name { IfOk result (λ made. string_bytes made ≡ name_of tag_id.now) }
{
    match tag_id {
        TagId::Text(text) => Ok(String::from_str(alloc, text.as_str())?),
        TagId::Uuid(octets) => {
            let mut buffer = Uuid::encode_buffer();
            let text = Uuid::from_bytes(*octets)
                .hyphenated()
                .encode_lower(&mut buffer);
            Ok(String::from_str(alloc, text)?)
        }
    }
}

/// Whether a tag of a name is primary, by what is known of the name and whether one tag more is.
fn any_primary(known: Option<bool>, is_primary: bool) -> bool
    ensures any { result ≡ (unwrap_or known false || is_primary) }
{
    known.unwrap_or(false) || is_primary
}

/// Whether the tag is primary.
fn is_primary(tag: &Tag) -> bool
    ensures primary { result ≡ is_primary tag.now }
{
    match kind(tag) {
        TagKind::Primary => true,
        TagKind::Corpus | TagKind::Patch | TagKind::Supplemental => false,
    }
}
