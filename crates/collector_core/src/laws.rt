//! What the definitions mean, proved of every value: the calls do nothing.

ghost use Rattle.collector_core.specs.Meaning.{AnswersAreOfTheHistory, AnswersAreReportsOrSizes, AnswersCanBeTold, AnswersStay, BookEntryIsEntered, BookEntryIsMade, ChroniclesJoin, EntryOfIsMade, FrontsAreLegal, LastRises, LongestFrontIsTold, MovedIsLater, OwnedIsOwn, OwnedJoins, PrefixesExtend, PrefixesStay};
ghost use Rattle.collector_core.specs.WrittenAnswers.{AnswersAreReadBack};

/// The histories of several legal chronicles one after another are an honest history, where no
/// number of an epoch is used twice. This is how a collector counts that was started anew.
pub fn chronicles_join()
    ensures law { ChroniclesJoin }
{}

/// At a legal chronicle, an answer to a request without targets, if it is a report, is one that
/// answers from the history.
pub fn answers_are_of_the_history()
    ensures law { AnswersAreOfTheHistory }
{}

/// A prefix of a legal chronicle is a legal chronicle.
pub fn fronts_are_legal()
    ensures law { FrontsAreLegal }
{}

/// A prefix of a chronicle stays the same when further entries are appended.
pub fn prefixes_stay()
    ensures law { PrefixesStay }
{}

/// A prefix of a chronicle, with the entries after it appended, is the whole chronicle.
pub fn prefixes_extend()
    ensures law { PrefixesExtend }
{}

/// An answer by definition is a report of at most the octets that were asked for, or the size of
/// one that has more. Only a call can run out of memory.
pub fn answers_are_reports_or_sizes()
    ensures law { AnswersAreReportsOrSizes }
{}

/// At a legal chronicle, a report that is an answer has at most the octets that were asked for and
/// 65,536 records or events. Its moments are stamps, and it consulted no event after its point
/// (RFC 8412, section 5.8).
pub fn answers_can_be_told()
    ensures law { AnswersCanBeTold }
{}

/// At a legal chronicle, a report that is an answer of at most 16,777,000 octets can be written.
/// From what is written it is read back as it was (RFC 8412, sections 5.7 to 5.10).
pub fn answers_are_read_back()
    ensures law { AnswersAreReadBack }
{}

/// Where something has moved since a point of the current epoch, the point is below the last event
/// identifier.
pub fn moved_is_later()
    ensures law { MovedIsLater }
{}

/// While an epoch lasts, its last event identifier does not fall.
pub fn last_rises()
    ensures law { LastRises }
{}

/// A report that answered from a chronicle's history still does so after further entries.
pub fn answers_stay()
    ensures law { AnswersStay }
{}

/// Of matching events the longest prefix that fits is reported, or the first alone, or none where
/// there is none (RFC 8412, section 3.7.5).
pub fn longest_front_is_told()
    ensures law { LongestFrontIsTold }
{}

/// Which entry a change makes is a function of the change and of what it looks at.
pub fn entry_of_is_made()
    ensures law { EntryOfIsMade }
{}

/// The entry that a change makes of what a book holds is a function of the change and of the book
/// before it.
pub fn book_entry_is_made()
    ensures law { BookEntryIsMade }
{}

/// After a change that was done, the book represents each chronicle that it represented before,
/// with the entry appended that the book before the change gives.
pub fn book_entry_is_entered()
    ensures law { BookEntryIsEntered }
{}

/// One's own entries of two stretches are those of the first, followed by those of the second.
pub fn owned_joins()
    ensures law { OwnedJoins }
{}

/// Of others' entries none is one's own, and of one's own entries each is.
pub fn owned_is_own()
    ensures law { OwnedIsOwn }
{}
