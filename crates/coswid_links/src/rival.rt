//! Tags that claim one release with different content.

ghost use Rattle.std.specs.Prelude.{◌≡◌, ◌≤◌, ◌++◌, IfOk, OnOk, map};
ghost use Rattle.std.specs.List.{All};
ghost use Rattle.cbor_det.specs.Term.{depth};
ghost use Rattle.coswid_codec.specs.Items.{tag_item};
ghost use Rattle.coswid_codec.specs.SizesFit.{SizesFit};
ghost use Rattle.coswid_links.specs.Rivals.{pair_findings};
ghost use Rattle.coswid_links.specs.Listed.{each_pair_from};
ghost use Rattle.coswid_links.specs.Releases.{claim, claim_of, content, content_of};

use crate::finding::LinkFindings;
use crate::first_equal::{first_places, has_no_repeat};
use crate::release::{Content, Release};
use crate::rival_chain::RivalChains;
use coswid_tag::Tag;
use std::alloc::Global;
use wire_base::Memory;

/// Puts each pair of tags that claim one release and are written differently.
pub(crate) fn put_rivals(
    alloc: Global,
    found: &mut LinkFindings,
    tags: &[Tag],
) -> Result<(), Memory>
    requires depth { All (λ g. depth (tag_item g) ≤ 64) tags.now }
    requires sizes { All SizesFit tags.now }
    ensures appended { OnOk result (found.new ≡ found.old ++ each_pair_from pair_findings 1 tags.now) }
{
    let releases = first_places(alloc, releases(alloc, tags)?)?;
    if has_no_repeat(releases.as_slice()) {
        return Ok(());
    }
    let contents = first_places(alloc, contents(alloc, tags)?)?;
    let places = RivalChains::new(alloc, releases, contents)?;
    places.put_all(found)
}

/// The releases that the tags are.
fn releases(alloc: Global, tags: &[Tag]) -> Result<Vec<Release>, Memory>
    ensures releases { IfOk result (λ made. map claim_of made.items ≡ map claim tags.now) }
{
    let mut made = Vec::with_capacity(alloc, tags.len())?;
    for tag in tags {
        made.push(Release::from_tag(alloc, tag)?)?;
    }
    Ok(made)
}

/// The releases that the tags are, each with the canonical octets of its tag.
fn contents(alloc: Global, tags: &[Tag]) -> Result<Vec<Content>, Memory>
    requires depth { All (λ g. depth (tag_item g) ≤ 64) tags.now }
    requires sizes { All SizesFit tags.now }
    ensures contents { IfOk result (λ made. map content_of made.items ≡ map content tags.now) }
{
    let mut made = Vec::with_capacity(alloc, tags.len())?;
    for tag in tags {
        made.push(Content::from_tag(alloc, tag)?)?;
    }
    Ok(made)
}
