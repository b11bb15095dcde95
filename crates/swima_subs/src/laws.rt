//! What the definitions mean, proved of every value: the calls do nothing.

ghost use Rattle.swima_subs.specs.Meaning.{DeniedIsFull, NextIsAfter, ReusedIsHeld, SubsStay};

/// A request for a subscription is refused for its ID exactly where a subscription has that.
pub fn reused_is_held()
    ensures law { ReusedIsHeld }
{}

/// It is denied exactly where none has its ID and 16 are held.
pub fn denied_is_full()
    ensures law { DeniedIsFull }
{}

/// Whatever is done to subscriptions, they stay at most 16, and their IDs different.
pub fn subs_stay()
    ensures law { SubsStay }
{}

/// Where the point of the same epoch is later than a place, events are asked for from the next
/// event identifier on.
pub fn next_is_after()
    ensures law { NextIsAfter }
{}
