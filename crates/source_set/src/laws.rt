//! Laws of what items leave of the records of an inventory. Each function does nothing; its clause
//! is the law.

ghost use Rattle.source_set.specs.Records.{DeedsAreRecorded, KeysAreRecorded};

/// Where nobody else changes a record, it is what the deeds leave of it.
pub fn deeds_are_recorded()
    ensures law { DeedsAreRecorded }
{}

/// Where nobody else changes the records of a source, exactly the keys that it holds have one each,
/// with the content that it reported last. Its other records are gone.
pub fn keys_are_recorded()
    ensures law { KeysAreRecorded }
{}
