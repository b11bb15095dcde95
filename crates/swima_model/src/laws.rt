//! What the definitions mean, proved of every value: the calls do nothing.

ghost use Rattle.swima_model.specs.Carried.{CarriesIsTested};
ghost use Rattle.swima_model.specs.Fulfilling.{FulfillingIsAlike};
ghost use Rattle.swima_model.specs.Live.{LiveIsLastMention};
ghost use Rattle.swima_model.specs.Repeated.{DoubledIsLeastRepeated};
ghost use Rattle.swima_model.specs.Rising.{InOrderIsRisingPermutation};

/// The smallest doubled identifier is the least number that stands at least twice; there is none
/// exactly where each number stands once at most.
pub fn doubled_is_least_repeated()
    ensures law { DoubledIsLeastRepeated }
{}

/// Records in order are the same records, by identifiers that do not fall and those of one
/// identifier as they stood, and no other list is. Where no identifier is doubled, each is below
/// the next.
pub fn in_order_is_rising_permutation()
    ensures law { InOrderIsRisingPermutation }
{}

/// Over records of rising identifiers, the records that are live after some events are given by the
/// last mention of each identifier. Each record is what that mention says, or what it was before
/// where there is none. Their identifiers rise too, and no other list is so.
pub fn live_is_last_mention()
    ensures law { LiveIsLastMention }
{}

/// The report that fulfils a subscription has the size and the count of the report without the
/// flag. It has stamps, consults no event after its point and fits an attribute where that report
/// does.
pub fn fulfilling_is_alike()
    ensures law { FulfillingIsAlike }
{}

/// The test that a deletion's content is the one that is held is true exactly where they are one,
/// or differ in that the body is left out.
pub fn carries_is_tested()
    ensures law { CarriesIsTested }
{}
