//! What is wrong between the tags of a list (RFC 9393, sections 2.3 and 5.1): links, and tags of
//! one release.

ghost use Rattle.std.specs.Prelude.{◌<◌, ◌≤◌, IfSome, length};
ghost use Rattle.std.specs.List.{All};
ghost use Rattle.cbor_det.specs.Term.{depth};
ghost use Rattle.coswid_codec.specs.Items.{tag_item};
ghost use Rattle.coswid_codec.specs.SizesFit.{SizesFit};

use conformance_words::{octets_of, push_text};
use coswid_codec::read_tag;
use coswid_links::{LinkFinding, check_links};
use coswid_tag::Tag;
use std::alloc::Global;

/// `links HEX`: the findings on the tags whose octets these are, for each its kind and its two
/// numbers; a `-` where there is none.
pub fn links(alloc: Global, words: &str) -> Option<String> {
    let octets = octets_of(alloc, words)?;
    let tags = tags_of(alloc, octets.as_slice())?;
    let found = check_links(alloc, tags.as_slice()).ok()?;
    findings_text(alloc, found.as_slice())
}

fn findings_text(alloc: Global, findings: &[LinkFinding]) -> Option<String> {
    if findings.is_empty() {
        return String::from_str(alloc, "-").ok();
    }
    let mut out = String::new(alloc);
    for finding in findings {
        let LinkFinding {
            kind,
            first,
            second,
        } = *finding;
        let separator = if out.is_empty() { "" } else { ", " };
        push_text(
            &mut out,
            format!(in alloc; "{separator}{kind} {first} {second}").ok(),
        )?;
    }
    Some(out)
}

/// The tags that the octets are; `None` where one is refused.
fn tags_of(alloc: Global, octets: &[u8]) -> Option<Vec<Tag>>
    ensures shallow { IfSome result (λ tags. All (λ g. depth (tag_item g) ≤ 64) tags.items) }
    ensures sizes { IfSome result (λ tags. All SizesFit tags.items) }
{
    let mut tags = Vec::new(alloc);
    let mut rest = octets;
    while !rest.is_empty() {
        let (tag, used) = first(alloc, rest)?;
        tags.push(tag).ok()?;
        rest = &rest[used..];
    }
    Some(tags)
}

/// The tag that the octets begin with, and how many of them spell it; `None` where it is refused.
fn first(alloc: Global, octets: &[u8]) -> Option<(Tag, usize)>
    ensures some { IfSome result (λ read. 0 < read.1) }
    ensures within { IfSome result (λ read. read.1 ≤ length octets.now) }
    ensures shallow { IfSome result (λ read. depth (tag_item read.0) ≤ 64) }
    ensures sizes { IfSome result (λ read. SizesFit read.0) }
{
    match read_tag(alloc, octets) {
        Ok((tag, used)) if used > 0 && used <= octets.len() => Some((tag, used)),
        _ => None,
    }
}
