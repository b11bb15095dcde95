//! What a mirror wants next.

ghost use Rattle.std.specs.Prelude.{◌≡◌, ◌↔◌, true};
ghost use Rattle.validator_core.specs.Want.{LacksInventory, want};
ghost use Rattle.validator_core.specs.declared.mirror.want.Want.TheVariants as wanted;

use super::Mirror;

/// What a mirror wants of its collector next.
#[derive(Clone, Copy, Debug, PartialEq, Eq)]
pub enum Want {
    /// An inventory.
    Full,
    /// The events from this event identifier on.
    EventsFrom(u32),
    /// Nothing: the mirror's event identifier is the last of its epoch, 4294967295, and no event
    /// can follow it.
    Spent,
}

impl Mirror {
    /// What it wants next: an inventory before the first one and while the mark is set, and else
    /// the events after its event identifier, where that is not the last of the epoch. It takes no
    /// memory.
    pub fn want(&self) -> Want
        ensures want { result ≡ want self.now }
        ensures full { (result ≡ wanted.Full) ↔ LacksInventory self.now }
        ensures marked { self.now.off ≡ true → result ≡ wanted.Full }
    {
        match self.point() {
            Some(point) if !self.off() => match point.eid.checked_add(1) {
                Some(eid) => Want::EventsFrom(eid),
                None => Want::Spent,
            },
            _ => Want::Full,
        }
    }
}
