//! What is wrong between tags of a list.

ghost use Rattle.std.specs.Prelude.{◌≡◌, ◌≢◌, ◌≤◌, IfOk, MatchOption};
ghost use Rattle.std.specs.List.{All};
ghost use Rattle.cbor_det.specs.Term.{depth};
ghost use Rattle.coswid_codec.specs.Items.{tag_item};
ghost use Rattle.coswid_codec.specs.SizesFit.{SizesFit};
ghost use Rattle.coswid_links.specs.LinkFindings.{findings};
ghost use Rattle.coswid_links.specs.FindingKinds.{finding_number};
ghost use Rattle.coswid_links.specs.declared.link_finding_kind.LinkFindingKind.{LinkFindingKind as KindValue};

use crate::link::put_link_findings;
use crate::link_finding_kind::LinkFindingKind;
use crate::names::Names;
use crate::rival::put_rivals;
use coswid_tag::Tag;
use std::alloc::Global;
use wire_base::{List, Memory, TryCopy};

/// Something that is wrong between tags of a list.
#[derive(Clone, Copy, Debug, PartialEq, Eq)]
pub struct LinkFinding {
    /// The number of its kind: 1 to 4 where `check_links` gives it. `what` names the kind.
    pub kind: u8,
    /// The number of the tag that has the link, or of the first of two tags, from 1.
    pub first: u64,
    /// The number of the link in its tag, or of the second of two tags, from 1.
    pub second: u64,
}

impl LinkFinding {
    /// The kind of the finding; `None` exactly where no kind has the number, so never where
    /// `check_links` gives it.
    pub fn what(&self) -> Option<LinkFindingKind>
        ensures what { MatchOption result ((kind : KindValue) → finding_number kind ≢ self.now.kind) (λ kind. finding_number kind ≡ self.now.kind) }
    {
        LinkFindingKind::from_number(self.kind)
    }
}

impl TryCopy for LinkFinding {
    fn copy(&self) -> Result<Self, Memory> {
        Ok(*self)
    }
}

/// Findings in order.
pub type LinkFindings = List<LinkFinding>;

/// All that is wrong between the tags: first 1 to 3 by tag and link, then 4 by pairs of tags;
/// `Memory` where there is no room.
#[tactic(auto, unfolding(crate::specs::LinkFindings::findings))]
pub fn check_links(alloc: Global, tags: &[Tag]) -> Result<LinkFindings, Memory>
    requires depth { All (λ g. depth (tag_item g) ≤ 64) tags.now }
    requires sizes { All SizesFit tags.now }
    ensures findings { IfOk result (λ found. found ≡ findings tags.now) }
{
    let names = Names::from_tags(alloc, tags)?;
    let mut found = List::new(alloc);
    put_link_findings(&mut found, &names, tags)?;
    put_rivals(alloc, &mut found, tags)?;
    Ok(found)
}
