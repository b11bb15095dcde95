//! Reading several fields of one kind one after another.

ghost use Rattle.std.specs.Prelude.{◌<◌};
ghost use Rattle.wire_base.specs.Reading.{Gives, Reader, several};

use crate::layout::cursor::Cursor;
use crate::layout::field_refused::FieldRefused;
use crate::values::list::List;
use crate::values::memory::Memory;
use std::alloc::Global;

/// What reads one field.
pub trait FieldReader {
    /// What the field says.
    type Value: Drop;

    /// How the field is read.
    ghost reading: { Self → Reader Self.Value };

    /// The next field; a fault at the place of the first one in it.
    fn read(&self, alloc: Global, cursor: &mut Cursor) -> Result<Self::Value, FieldRefused>
        ensures field { Gives (λ read. (read, cursor.new)) result (reading self.now cursor.old) };
}

/// The next `count` fields, of which each has at least `fewest` octets; a fault at the place of the
/// first one in them.
pub fn read_several<R: FieldReader>(
    alloc: Global,
    cursor: &mut Cursor,
    reader: &R,
    count: u32,
    fewest: usize,
) -> Result<List<R::Value>, FieldRefused>
    requires { 0 < fewest }
    ensures several { Gives (λ read. (read, cursor.new)) result (several count (R.reading reader.now) cursor.old) }
{
    let fit = cursor.left() / fewest;
    let mut values = List::with_capacity(alloc, fit.min(count as usize))?;
    for _ in 0..count {
        values.push(reader.read(alloc, cursor)?)?;
    }
    Ok(values)
}
