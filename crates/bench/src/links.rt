//! A list of tags, and the findings on it.

ghost use Rattle.std.specs.Prelude.{◌≤◌, IfOk};
ghost use Rattle.std.specs.List.{All};
ghost use Rattle.cbor_det.specs.Term.{depth};
ghost use Rattle.coswid_codec.specs.Items.{tag_item};
ghost use Rattle.coswid_codec.specs.SizesFit.{SizesFit};

use crate::reading::all_input;
use crate::tags::first;
use crate::trouble::Trouble;
use coswid_links::check_links;
use coswid_tag::Tag;
use std::alloc::Global;
use wire_base::List;

/// How many tags the list on standard input has.
pub(crate) fn read(rt: &HostRuntime) -> Result<u64, Trouble> {
    let octets = all_input(rt)?;
    let tags = tags_of(rt.alloc(), octets.as_slice())?;
    Ok(tags.len() as u64)
}

/// How many findings there are on the list.
pub(crate) fn check(rt: &HostRuntime) -> Result<u64, Trouble> {
    let octets = all_input(rt)?;
    let tags = tags_of(rt.alloc(), octets.as_slice())?;
    let found = check_links(rt.alloc(), tags.as_slice())?;
    Ok(found.len() as u64)
}

/// The tags that the octets are.
fn tags_of(alloc: Global, octets: &[u8]) -> Result<List<Tag>, Trouble>
    ensures shallow { IfOk result (λ tags. All (λ g. depth (tag_item g) ≤ 64) tags) }
    ensures sizes { IfOk result (λ tags. All SizesFit tags) }
{
    let mut tags = List::new(alloc);
    let mut rest = octets;
    while !rest.is_empty() {
        let (tag, used) = first(alloc, rest)?;
        tags.push(tag)?;
        rest = &rest[used..];
    }
    Ok(tags)
}
