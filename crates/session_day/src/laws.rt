//! What the definitions mean, proved of every day: the calls do nothing.

ghost use Rattle.session_day.specs.OneText.{OneMakeText};

/// One text fits each number of packages.
pub fn one_make_text()
    ensures law { OneMakeText }
{}
