//! Writing messages.

ghost use Rattle.std.specs.Prelude.{◌≡◌, ◌+◌, ◌<◌, ◌≤◌, ◌^◌, ◌++◌, length, IfOk, OnOk};
ghost use Rattle.std.specs.List.{AllByRecursion};
ghost use Rattle.pa_attrs.specs.AttrForm.{IsNamed, attr_fields};
ghost use Rattle.pa_attrs.specs.MessageForm.{message_octets, written_message};
ghost use Rattle.pa_attrs.specs.Numbers.{HEADER, MOST_ATTRIBUTES, MOST_OCTETS};
ghost use Rattle.wire_base.specs.Written.{written};

use crate::attr::{Attr, PaMessage};
use crate::numbers::{HEADER_OCTETS, NOSKIP, VERSION};
use std::alloc::Global;
use wire_base::{List, Memory, Octets, flag, put_u8, put_u24, put_u32};

/// The octets of a message (RFC 5792, section 3.6): its one written form, with 0 in what is
/// reserved and in the flags other than NOSKIP.
#[tactic(auto, unfolding(wire_base::specs::Written::written))]
pub fn write_message(alloc: Global, message: &PaMessage) -> Result<Octets, Memory>
    requires named { AllByRecursion IsNamed message.now.attrs }
    requires count { length message.now.attrs ≤ MOST_ATTRIBUTES }
    requires within { message_octets message.now ≤ MOST_OCTETS }
    ensures octets { IfOk result (λ made. made ≡ written_message message.now) }
{
    let mut out = List::new(alloc);
    put_u8(&mut out, VERSION)?;
    put_u24(&mut out, 0)?;
    put_u32(&mut out, message.id)?;
    for attr in message.attrs.as_slice() {
        put_attr(&mut out, attr)?;
    }
    Ok(out)
}

/// Puts the octets of an attribute at the end (RFC 5792, section 4.1).
#[tactic(auto, unfolding(wire_base::specs::Written::written))]
fn put_attr(out: &mut Octets, attr: &Attr) -> Result<(), Memory>
    requires vendor { attr.now.vendor < 2 ^ 24 }
    requires len { HEADER + length attr.now.value < 2 ^ 32 }
    ensures appended { OnOk result (out.new ≡ out.old ++ written (attr_fields attr.now)) }
{
    out.push(flag(attr.noskip, NOSKIP))?;
    put_u24(out, attr.vendor)?;
    put_u32(out, attr.kind)?;
    put_u32(out, (HEADER_OCTETS + attr.value.len()) as u32)?;
    out.extend(attr.value.as_slice())
}
