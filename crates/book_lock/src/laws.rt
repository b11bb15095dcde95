//! What the definitions mean, proved of every value: the calls do nothing.

ghost use Rattle.book_lock.specs.Meaning.{EachIsOwned, MetAreTheChronicle, OwnPlacesRise, SoleHasSeenAll};

/// The places of a pass's own entries, among those that it has seen, rise.
pub fn own_places_rise()
    ensures law { OwnPlacesRise }
{}

/// Between any two steps, a sole pass has seen every entry since the shelf was opened, and each of
/// them is its own.
pub fn sole_has_seen_all()
    ensures law { SoleHasSeenAll }
{}

/// Between any two steps, each entry since the shelf was opened is exactly one pass's own.
pub fn each_is_owned()
    ensures law { EachIsOwned }
{}

/// Where passes met in one, and the shelf was closed with that one, the book stands for entries
/// that were own in one of them each, or in none. Where one was sole, each was own in exactly one.
pub fn met_are_the_chronicle()
    ensures law { MetAreTheChronicle }
{}
