//! Worked outputs, proved of the definitions: the calls do nothing.

ghost use Rattle.pool_text.specs.Worked.{InventoryIsFollowed, NothingIsCollected, SourceEnds, SourceFails};

/// An inventory without records is served once, without a source.
pub fn nothing_is_collected()
    ensures law { NothingIsCollected }
{}

/// A session, beside a source that adds one record and ends.
pub fn source_ends()
    ensures law { SourceEnds }
{}

/// A session, beside two sources of which one fails.
pub fn source_fails()
    ensures law { SourceFails }
{}

/// An inventory without records is followed once.
pub fn inventory_is_followed()
    ensures law { InventoryIsFollowed }
{}
