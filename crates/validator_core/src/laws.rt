//! What the definitions mean, proved of every value: the calls do nothing.

ghost use Rattle.validator_core.specs.Growth.{GrowthKeepsAnswers, GrowthKeepsRight, HonestGrowthIsLater};
ghost use Rattle.validator_core.specs.Kept.{JudgeKeepsRising, JudgedAgainChangesNothing};
ghost use Rattle.validator_core.specs.Recovery.{MarkStaysUntilAdopted};

/// A mirror in which each identifier is below the next, as in a new one, is such a mirror after
/// each report.
pub fn judge_keeps_rising()
    ensures law { JudgeKeepsRising }
{}

/// A report that was just judged changes nothing when it is judged once more, whatever the mirror
/// held.
pub fn judged_again_changes_nothing()
    ensures law { JudgedAgainChangesNothing }
{}

/// The answers `Gap`, `OtherEpoch`, `Contradiction`, `Doubled` and `Large` set the mark, and
/// `Adopted` clears it; every other leaves it as it was. So after one of the five the mirror wants
/// an inventory until it adopts one.
pub fn mark_stays_until_adopted()
    ensures law { MarkStaysUntilAdopted }
{}

/// Where a history grows, each mirror that was right over it still is, and each inventory that
/// answered from it still answers. So does each report of events, if the event identifiers of the
/// new events are above the number of those before them. They are where the history is honest then.
pub fn growth_keeps()
    ensures right { GrowthKeepsRight }
    ensures answers { GrowthKeepsAnswers }
    ensures honest { HonestGrowthIsLater }
{}
