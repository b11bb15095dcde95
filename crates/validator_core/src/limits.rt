//! Whether records are more, or have more octets, than a mirror holds.

ghost use Rattle.std.specs.Prelude.{◌≡◌};
ghost use Rattle.swima_model.specs.Size.{is_large};

use swima_model::{MOST_RECORDS, MOST_RECORDS_OCTETS};

/// Whether that many records with that many octets are more than a mirror holds.
pub(crate) fn is_large(count: usize, octets: u64) -> bool
    ensures large { result ≡ is_large count octets }
{
    count > MOST_RECORDS || octets > MOST_RECORDS_OCTETS
}
