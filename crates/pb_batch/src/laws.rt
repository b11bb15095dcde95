//! What the tables of faults and the layout mean, proved of all octets and batches: the calls do
//! nothing.

ghost use Rattle.pb_batch.specs.Shown.{AreOneOfThree, BadIsFault, BodiesFit, FrontsStay, LengthsCount, LowestCounts};
ghost use Rattle.pb_batch.specs.Shown.{NoneBeginsAnother, WholeIsForm, WrittenIsRead};

/// Octets are found to begin with a batch exactly where octets in the form of that batch stand in
/// prefix.
pub fn whole_is_form()
    ensures law { WholeIsForm }
{}

/// A fault is found exactly where it shows: in the header, or after messages in their form in the
/// next one.
pub fn bad_is_fault()
    ensures law { BadIsFault }
{}

/// Of a batch before, a fault that shows, and neither of them, there is exactly one, and of the
/// first two one alone.
pub fn one_of_three()
    ensures law { AreOneOfThree }
{}

/// A batch, and each of its messages, has as many octets as its length says.
pub fn lengths_count()
    ensures law { LengthsCount }
{}

/// No batch begins another.
pub fn no_batch_begins_another()
    ensures law { NoneBeginsAnother }
{}

/// More octets change neither a batch that was found nor a fault, and a batch that they make whole
/// reaches past those that were none yet.
pub fn fronts_stay()
    ensures law { FrontsStay }
{}

/// The fault that counts has the lowest place of all that show.
pub fn lowest_place_counts()
    ensures law { LowestCounts }
{}

/// What is written of a batch has its form, and is read as that batch, whatever follows.
pub fn written_is_read()
    ensures law { WrittenIsRead }
{}

/// In a batch that can be written, as each one is that a feed hands out, the body of each message
/// has at most 16777216 octets.
pub fn bodies_fit()
    ensures law { BodiesFit }
{}
