//! What the definitions mean, proved of all words: the call does nothing.

ghost use Rattle.swid_run.specs.Words.{OnePlan};

/// Words say one thing that is to be made at most.
pub fn one_plan()
    ensures law { OnePlan }
{}
