//! What the definitions mean, proved of every value: the calls do nothing.

ghost use Rattle.swid_cli.specs.Answering.{PrintedMirrorIsRight};
ghost use Rattle.swid_cli.specs.FirstLaws.{EndIsNothing, FaultyShows, LimitIsBeyond, TornIsUnfinished, WholeIsAttribute};
ghost use Rattle.swid_cli.specs.LinksLaws.{OneLinksText, SomeLinksText};
ghost use Rattle.swid_cli.specs.Stream.{StreamGoesOn};
ghost use Rattle.swid_cli.specs.TagLaws.{OneTagText, OneVerifiedText, SomeTagText, ToldAlike};

/// What a stream prints is what its first attribute makes, and after it what the stream after
/// that attribute prints.
pub fn stream_goes_on()
    ensures law { StreamGoesOn }
{}

/// The input is at its end exactly where nothing is left.
pub fn end_is_nothing()
    ensures law { EndIsNothing }
{}

/// The input is torn exactly where all that is left may be looked at, and is some octets without a
/// fault in a header and without a whole attribute at its start.
pub fn torn_is_unfinished()
    ensures law { TornIsUnfinished }
{}

/// The limit shows exactly where more is left than may be looked at, and what may be has neither of
/// the two.
pub fn limit_is_beyond()
    ensures law { LimitIsBeyond }
{}

/// A fault is reported exactly where it is the first of the table that shows in a header that may
/// be looked at.
pub fn faulty_shows()
    ensures law { FaultyShows }
{}

/// A whole attribute is found exactly where one in its form stands first (RFC 5792, section 4.1),
/// lies in what may be looked at, and carries a report or may be passed over.
pub fn whole_is_attribute()
    ensures law { WholeIsAttribute }
{}

/// Of an input that is not refused, let each report of the kind answer from one honest history.
/// Then what is printed ends with the text of a mirror of the kind. It holds exactly what this
/// history has live at the mirror's point.
pub fn printed_mirror_is_right()
    ensures law { PrintedMirrorIsRight }
{}

/// Of an input `tag` prints one text at most, with one ending.
pub fn one_tag_text()
    ensures law { OneTagText }
{}

/// Of an input `tag verify` prints one text at most, with one ending, where it is known what files
/// hold.
pub fn one_verified_text()
    ensures law { OneVerifiedText }
{}

/// Of each input `tag` and `tag verify` print some text.
pub fn some_tag_text()
    ensures law { SomeTagText }
{}

/// Tags that are written as the same octets have one text with the same verdicts, in whatever
/// spellings they came.
pub fn tags_are_told_alike()
    ensures law { ToldAlike }
{}

/// Of an input `links` prints one text at most, with one ending.
pub fn one_links_text()
    ensures law { OneLinksText }
{}

/// Of each input `links` prints some text.
pub fn some_links_text()
    ensures law { SomeLinksText }
{}
