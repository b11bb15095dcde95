//! Writing tags.

ghost use Rattle.std.specs.Prelude.{◌≡◌, ◌≤◌, IfOk};
ghost use Rattle.cbor_det.specs.Canonical.{canon};
ghost use Rattle.cbor_det.specs.Term.{depth};
ghost use Rattle.coswid_codec.specs.Items.{tag_item};
ghost use Rattle.coswid_codec.specs.SizesFit.{SizesFit};

use crate::tag::TagTable;
use cbor_det::put_tag_head;
use coswid_res::Mapped;
use coswid_tag::Tag;
use std::alloc::Global;
use wire_base::{List, Memory, Octets};

/// The tag of CoSWID tags (RFC 9393, section 8).
pub(crate) const COSWID: u64 = 1398229316;

/// The canonical spelling of the tag's item, under the tag of CoSWID tags; `Memory` where there is
/// no room. What has an item is read from that spelling (`written_is_read` of `laws`).
///
/// A value that was made by hand may have no item (`specs/HasItem.antt` lists these values). It is
/// written all the same, and it is never what is read from that.
pub fn write_tag(alloc: Global, tag: &Tag) -> Result<Octets, Memory>
    requires depth { depth (tag_item tag.now) ≤ 64 }
    requires sizes { SizesFit tag.now }
    ensures canonical { IfOk result (λ written. written ≡ canon (tag_item tag.now)) }
{
    let mut out = List::new(alloc);
    put_tag_head(&mut out, COSWID)?;
    TagTable::spell(&mut out, tag)?;
    Ok(out)
}
