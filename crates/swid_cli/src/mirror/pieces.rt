//! What a mirror holds, written in pieces.

ghost use Rattle.std.specs.Prelude.{◌≤◌, OnOk};
ghost use Rattle.command_text.specs.Text.{lines_between, mirror_text};
ghost use Rattle.wire_base.specs.Outside.{Adds, HasCause};
ghost use Rattle.wire_base.specs.Passing.{AddsFront, is_fault};

use command_text::{listed_count, mirror_head, put_records};
use std::alloc::Global;
use validator_core::Mirror;
use wire_base::{Octets, Sink, Stopped, write_all};

/// How many records' lines are held at once. Making them takes longer than a call of the output,
/// and they are few beside those that a mirror may hold.
const PIECE_RECORDS: u32 = 512;

/// Writes what a mirror holds: its first line, and then the lines of its records. No more of the
/// text is held than one piece, however many records there are.
pub(crate) fn write_mirror<K: Sink>(
    alloc: Global,
    mirror: &Mirror,
    output: &mut K,
) -> Result<(), Stopped>
    ensures whole { OnOk result
        (Adds (K.written output.old) (K.written output.new) (mirror_text mirror.now)) }
    ensures front { AddsFront (K.written output.old) (K.written output.new)
        (mirror_text mirror.now) }
    ensures cause { HasCause (K.faults output.old) (K.faults output.new) (is_fault result) }
{
    let mut piece = mirror_head(alloc, mirror)?;
    write_all(output, piece.as_slice())?;
    let count = listed_count(mirror);
    let mut start = 0;
    while start < count {
        let end = start + PIECE_RECORDS.min(count - start);
        write_records(mirror, start, end, &mut piece, output)?;
        start = end;
    }
    Ok(())
}

/// Writes the lines of the records from the place `start` up to the place `end`, which is left out.
/// They are made in `piece`, in the memory of the piece before.
fn write_records<K: Sink>(
    mirror: &Mirror,
    start: u32,
    end: u32,
    piece: &mut Octets,
    output: &mut K,
) -> Result<(), Stopped>
    requires order { start ≤ end }
    ensures whole { OnOk result
        (Adds (K.written output.old) (K.written output.new) (lines_between start end mirror.now)) }
    ensures front { AddsFront (K.written output.old) (K.written output.new)
        (lines_between start end mirror.now) }
    ensures cause { HasCause (K.faults output.old) (K.faults output.new) (is_fault result) }
{
    piece.truncate(0);
    put_records(piece, mirror, start, end)?;
    write_all(output, piece.as_slice())?;
    Ok(())
}
