//! What `follow` prints.

ghost use Rattle.std.specs.Prelude.{◌≡◌, ◌++◌, ◌∷◌, [], IfOk, OnOk, codes};
ghost use Rattle.std.specs.Fmt.{decimal};
ghost use Rattle.command_text.specs.Text.{line};
ghost use Rattle.pool_text.specs.Text.{endpoint_text, follow_text};

use crate::door_lines::{Ends, put_door};
use command_text::{from_string, mirror_text};
use std::alloc::Global;
use validator_core::Mirror;
use wire_base::{List, Memory, Octets};

/// What `follow` prints: for each endpoint the lines of its door, by what is noted of its sessions
/// and whether it failed, and what its mirror holds.
pub fn follow_text(
    alloc: Global,
    ends: &[Ends],
    door_failed: &[bool],
    mirrors: &[Mirror],
) -> Result<Octets, Memory>
    ensures text { IfOk result (λ made. made ≡ follow_text ends.now door_failed.now mirrors.now) }
{
    let mut out = List::new(alloc);
    let doors = ends.len().min(door_failed.len());
    for place in 0..doors.min(mirrors.len()) {
        let number = place as u64 + 1;
        put_endpoint(
            &mut out,
            number,
            &ends[place],
            door_failed[place],
            &mirrors[place],
        )?;
    }
    Ok(out)
}

/// Puts the lines of the endpoint of this number at the end of `out`.
fn put_endpoint(
    out: &mut Octets,
    number: u64,
    ends: &Ends,
    failed: bool,
    mirror: &Mirror,
) -> Result<(), Memory>
    ensures appended { OnOk result (out.new ≡ out.old ++ endpoint_text number ((ends.now, failed), mirror.now)) }
{
    put_door(out, number, ends, failed)?;
    let line = endpoint_line(out.allocator(), number)?;
    out.extend(line.as_slice())?;
    let held = mirror_text(out.allocator(), mirror)?;
    out.extend(held.as_slice())
}

fn endpoint_line(alloc: Global, number: u64) -> Result<Octets, Memory>
    ensures line { IfOk result (λ made. made ≡ line (codes "endpoint" ∷ decimal number ∷ [])) }
{
    Ok(from_string(format!(in alloc; "endpoint {number}\n")?))
}
