//! The pairs of a map in turns with others: a map is written from two places, and no item is built
//! of it.

ghost use Rattle.std.specs.Prelude.{◌≡◌, ◌+◌, ◌++◌, IfOk, OnOk, pos};
ghost use Rattle.cbor_det.specs.Adding.{is_above};
ghost use Rattle.cbor_det.specs.Canonical.{canon, canon_pairs, short_head};
ghost use Rattle.cbor_det.specs.Laid.{from, below, after_below};
ghost use Rattle.cbor_det.specs.Term.{integer, pair_count};
ghost use Rattle.cbor_det.specs.View.{view, pairs_view};

use crate::initial::Major;
use crate::item::{Item, Pair, Pairs};
use crate::key_order::is_number_above;
use crate::write::{put_head, put_item};
use wire_base::{Memory, Octets};

impl Pairs {
    /// Puts the head of a map that has these pairs and `more` others; `Memory` where there is no
    /// room.
    pub fn put_head_with(&self, out: &mut Octets, more: u8) -> Result<(), Memory>
        ensures appended { OnOk result (out.new ≡ out.old ++ short_head 5 (pair_count (pairs_view self.now) + more)) }
    {
        put_head(
            out,
            Major::Map,
            self.pairs.as_slice().len() as u64 + more as u64,
        )
    }

    /// Puts the pairs from `place` on before the first whose key is not below the number, in
    /// bytewise order of their canonical spellings. Gives the place of that one; `Memory` where
    /// there is no room.
    pub fn put_below(&self, out: &mut Octets, place: usize, number: u32) -> Result<usize, Memory>
        ensures appended { IfOk result (λ next. out.new ≡ out.old ++ canon_pairs (below number (from place (pairs_view self.now)))) }
        ensures next { IfOk result (λ next. from next (pairs_view self.now) ≡ after_below number (from place (pairs_view self.now))) }
    {
        let pairs = self.pairs.as_slice();
        for next in place..pairs.len() {
            if !is_below(&pairs[next], number) {
                return Ok(next);
            }
            put_pair(out, &pairs[next])?;
        }
        Ok(pairs.len())
    }

    /// Puts the pairs from `place` on; `Memory` where there is no room.
    pub fn put_from(&self, out: &mut Octets, place: usize) -> Result<(), Memory>
        ensures appended { OnOk result (out.new ≡ out.old ++ canon_pairs (from place (pairs_view self.now))) }
    {
        let pairs = self.pairs.as_slice();
        for next in place..pairs.len() {
            put_pair(out, &pairs[next])?;
        }
        Ok(())
    }
}

/// Puts a key and its value.
fn put_pair(out: &mut Octets, pair: &Pair) -> Result<(), Memory>
    ensures appended { OnOk result (out.new ≡ out.old ++ (canon (view pair.now.key) ++ canon (view pair.now.value))) }
{
    put_item(out, &pair.key)?;
    put_item(out, &pair.value)
}

/// Whether the canonical spelling of the pair's key is below that of the number.
fn is_below(pair: &Pair, number: u32) -> bool
    ensures below { result ≡ is_above (integer (pos number)) (view pair.now.key) }
{
    match &pair.key {
        Item::Int(found) => is_number_above(number as i64, *found),
        _ => false,
    }
}
