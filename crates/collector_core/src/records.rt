//! Contents, and the records that they begin with.

ghost use Rattle.std.specs.Prelude.{◌≡◌, ◌≤◌, ◌+◌, All, IfOk, length};
ghost use Rattle.std.specs.List.{sum_by};
ghost use Rattle.wire_base.specs.Layout.{AreOctets};
ghost use Rattle.swima_model.specs.Size.{content_octets};
ghost use Rattle.collector_core.specs.Chronicle.{identified_from};
ghost use Rattle.collector_core.specs.Legal.{IsContent};

use crate::live::Live;
use std::alloc::Global;
use swima_model::Content;
use wire_base::{Memory, TryCopy};

/// How many octets the contents have together.
pub(crate) fn octets_of(contents: &[Content]) -> u64
    requires few { length contents.now ≤ 65536 }
    ensures octets { result ≡ sum_by content_octets contents.now }
    ensures contents { All IsContent contents.now }
{
    let mut octets = 0;
    for content in contents {
        within_limits(content);
        octets += content.octets();
    }
    octets
}

/// Records of these contents, with the identifiers 1, 2 and so on.
pub(crate) fn identified(alloc: Global, contents: &[Content]) -> Result<Live, Memory>
    requires few { length contents.now ≤ 65536 }
    ensures records { IfOk result (λ made. made ≡ record { next = length contents.now + 1; records = identified_from 1 contents.now }) }
{
    let mut live = Live::with_capacity(alloc, contents.len())?;
    for content in contents {
        live.push(content.copy()?)?;
    }
    Ok(live)
}

/// Says that the parts of a content are octets and within their limits. It does nothing.
pub(crate) fn within_limits(content: &Content)
    ensures content { IsContent content.now }
{
    let _pen = content.model.pen;
    let _kind = content.model.kind;
    let _source = content.source;
    are_octets(content.ident.bytes());
    are_octets(content.locator.bytes());
    are_octets(content.body.bytes());
}

/// Says that each octet is one. It does nothing.
fn are_octets(octets: &[u8])
    ensures octets { AreOctets octets.now }
{
    let _count = octets.len();
}
