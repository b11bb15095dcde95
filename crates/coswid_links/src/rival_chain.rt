//! Chains of rivals: the later tags of a release whose content differs.

ghost use Rattle.std.specs.Prelude.{◌≡◌, ◌<◌, ◌+◌, ◌++◌, ℕ, List, IfOk, IfSome, OnOk, length, slice_index, slice_index_or};
ghost use Rattle.coswid_links.specs.RivalChains.{AreFollowing, AreBelow, ArePlaces, IsFollowing, IsFirst, all_rivals, of_release, rivals, rivals_of};
ghost use Rattle.coswid_links.specs.declared.rival_chain.Following as declared;

use crate::finding::{LinkFinding, LinkFindings};
use crate::link_finding_kind::LinkFindingKind;
use std::alloc::Global;
use wire_base::Memory;

/// What follows a place: the next place of its release, and the next of these whose content is
/// written differently.
#[derive(Clone, Copy)]
pub(crate) struct Following {
    next: Option<usize>,
    other: Option<usize>,
}

/// The places of tags, with numbers that distinguish their releases and contents.
#[derive(Drop)]
pub(crate) struct RivalChains {
    releases: Vec<usize>,
    contents: Vec<usize>,
    following: Vec<Following>,
}

impl RivalChains {
    /// The places of these releases and contents; `Memory` where there is no room.
    pub(crate) fn new(
        alloc: Global,
        releases: Vec<usize>,
        contents: Vec<usize>,
    ) -> Result<Self, Memory>
        requires alike { length contents.items ≡ length releases.items }
        requires below { AreBelow releases.items }
        ensures releases { IfOk result (λ made. made.releases.items ≡ releases.items) }
        ensures contents { IfOk result (λ made. made.contents.items ≡ contents.items) }
        ensures following { IfOk result ArePlaces }
    {
        let following = following_places(alloc, releases.as_slice(), contents.as_slice())?;
        Ok(RivalChains {
            releases,
            contents,
            following,
        })
    }

    /// Puts all pairs, by the place of the first tag and then by that of the second.
    pub(crate) fn put_all(&self, found: &mut LinkFindings) -> Result<(), Memory>
        requires following { ArePlaces self.now }
        ensures appended { OnOk result (found.new ≡ found.old ++ all_rivals self.now.releases.items self.now.contents.items) }
    {
        for first in 0..self.releases.len() {
            self.put_rivals_of(found, first)?;
        }
        Ok(())
    }

    /// Puts the pairs whose first tag is at this place, in at most two steps for each pair and one
    /// more.
    fn put_rivals_of(&self, found: &mut LinkFindings, first: usize) -> Result<(), Memory>
        requires following { ArePlaces self.now }
        requires first { first < length self.now.releases.items }
        ensures appended { OnOk result (found.new ≡ found.old ++ rivals_of self.now.releases.items self.now.contents.items first) }
    {
        let mut at = self.following[first].other;
        while let Some(second) = at {
            if self.contents[second] == self.contents[first] {
                at = self.following[second].other;
            } else {
                found.push(LinkFinding {
                    kind: LinkFindingKind::Rivals as u8,
                    first: first as u64 + 1,
                    second: second as u64 + 1,
                })?;
                at = self.following[second].next;
            }
        }
        Ok(())
    }
}

/// What follows each place.
fn following_places(
    alloc: Global,
    releases: &[usize],
    contents: &[usize],
) -> Result<Vec<Following>, Memory>
    requires alike { length contents.now ≡ length releases.now }
    requires below { AreBelow releases.now }
    ensures following { IfOk result (λ made. AreFollowing releases.now contents.now made.items) }
{
    let none = Following {
        next: None,
        other: None,
    };
    let mut latest = vec![in alloc; None; releases.len()]?;
    let mut following = vec![in alloc; none; releases.len()]?;
    for place in (0..releases.len()).rev() {
        let next = latest[releases[place]];
        let other = other_than(contents, place, next, following.as_slice());
        following[place] = Following { next, other };
        latest[releases[place]] = Some(place);
    }
    Ok(following)
}

/// The first of the places from `next` on that is written differently from `place`.
fn other_than(
    contents: &[usize],
    place: usize,
    next: Option<usize>,
    following: &[Following],
) -> Option<usize>
    requires place { place < length contents.now }
    requires spelled { IfSome next (λ m. m < length contents.now) }
    requires within { IfSome next (λ m. m < length following.now) }
    ensures other { (releases : List ℕ) → IsFirst (of_release releases place) (place + 1) (length releases) next
        → IfSome next (λ m. (d : declared.Following) → IsFollowing releases contents.now m (slice_index_or following.now m d))
        → IsFirst (rivals releases contents.now place) (place + 1) (length releases) result }
{
    let next = next?;
    if contents[next] == contents[place] {
        return following[next].other;
    }
    Some(next)
}
