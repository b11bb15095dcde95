//! Records that are gone.

ghost use Rattle.std.specs.Prelude.{◌≡◌};
ghost use Rattle.std.specs.BTreeSet.{contains};
ghost use Rattle.std.specs.Ordering.{nat_cmp};
ghost use Rattle.validator_core.specs.Gone.{kept};

use std::collections::BTreeSet;
use swima_model::Record;

/// Drops the records of some identifiers, in one pass where there are any. It takes no memory.
pub(crate) fn drop_gone(records: &mut Vec<Record>, gone: &BTreeSet<u32>)
    ensures kept { records.new.items ≡ kept (contains nat_cmp gone.now) records.old.items }
{
    if !gone.is_empty() {
        records.retain(|record| !gone.contains(&record.id));
    }
}
