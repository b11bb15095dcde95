//! Laws of spellings, faults and canonical spellings. The functions do nothing: their contracts are
//! the laws.

ghost use Rattle.cbor_det.specs.Laws.{OneItem, OrderIsFree, SpelledIsProper, SpelledIsWritten, ProperIsWritten, OneCanonical, WrittenIsRead, ItemIsOne, FaultIsOne, NotBoth, EachHasOutcome};

/// A spelling is of one item, and begins no other spelling.
pub fn spelling_is_of_one_item()
    ensures one { OneItem }
{}

/// The order in which the members of a map come does not matter.
pub fn members_come_in_any_order()
    ensures order { OrderIsFree }
{}

/// What has a spelling is proper, and has its canonical spelling.
pub fn spelled_is_proper_and_written()
    ensures proper { SpelledIsProper }
    ensures written { SpelledIsWritten }
{}

/// A proper item is spelled by its canonical spelling.
pub fn proper_is_written()
    ensures written { ProperIsWritten }
{}

/// Two proper items with one canonical spelling are one.
pub fn canonical_is_of_one_item()
    ensures one { OneCanonical }
{}

/// What is written is read, whatever follows.
pub fn written_is_read()
    ensures read { WrittenIsRead }
{}

/// Octets are exactly one of: an item with what follows, a fault, and neither.
pub fn octets_have_one_outcome()
    ensures item { ItemIsOne }
    ensures fault { FaultIsOne }
    ensures both { NotBoth }
    ensures some { EachHasOutcome }
{}
