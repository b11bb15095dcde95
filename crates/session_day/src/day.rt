//! The day of an endpoint: a first session, forty changes, a session that is cut half way, and a
//! last one.

ghost use Rattle.std.specs.Prelude.{◌≤◌, ◌+◌, IfOk, OnOk};
ghost use Rattle.session_day.specs.Day.{AreChanged, IsChanged, IsCount, last_sessions};
ghost use Rattle.session_day.specs.Package.{package_content};
ghost use Rattle.session_script.specs.Replay.{IsEntered};
ghost use Rattle.session_script.specs.declared.line.Line.TheVariants as said;
ghost use Rattle.session_day.specs.Days.{Acts, FollowsFirst, IsMorning, PlaysDay, Steps};

use crate::package::{next_number, number_of, package};
use collector_core::Edit;
use session_script::{begin_book, stamp_at};
use session_world::{Tellings, Terms, World};
use std::alloc::Global;
use swima_model::Kind;
use wire_base::{List, Memory, Octets};

/// The fewest packages of a day: each change except those that add one needs the package of its
/// own number.
pub const FEWEST_PACKAGES: u32 = 40;

/// The most packages of a day.
pub const MOST_PACKAGES: u32 = 5_000;

/// The terms of all sessions.
const TERMS: Terms = Terms {
    max: 16_000_000,
    subscribe: false,
};

/// The number of changes of a day.
const CHANGES: u32 = 40;

/// A day as far as it was played.
#[derive(Debug, Drop)]
pub(crate) struct Day {
    /// The inventory, the mirror of it, and the session between them.
    pub(crate) world: World,
    /// What was reported, in order.
    pub(crate) told: Tellings,
    /// The octets that were carried to the validator before the changes.
    pub(crate) carried: Octets,
}

/// The day before its first session; `Memory` where there is no room.
pub(crate) fn morning(alloc: Global, count: u32) -> Result<Day, Memory>
    requires few { count ≤ 5000 }
    ensures morning { IfOk result (λ day. IsMorning count day) }
{
    let mut base = Vec::new(alloc);
    let mut x = count;
    for number in 1..count + 1 {
        x = next_number(x);
        base.push(package(alloc, number, 0, x)?)?;
    }
    let book = begin_book(alloc, 1, 1024, base.as_slice())?;
    Ok(Day {
        world: World::new(alloc, TERMS, book, Kind::Full),
        told: List::new(alloc),
        carried: List::new(alloc),
    })
}

impl Day {
    /// The whole day of an endpoint with that many packages, from its morning on; `Memory` where
    /// there is no room.
    pub(crate) fn play(&mut self, alloc: Global, count: u32) -> Result<(), Memory>
        requires count { IsCount count }
        requires morning { IsMorning count self.old }
        ensures day { OnOk result (PlaysDay count self.new) }
    {
        self.follow_first(alloc)?;
        self.change_all(alloc, count)?;
        self.end(alloc)?;
        Ok(())
    }

    /// The first session, until nothing waits. Its octets to the validator are kept.
    fn follow_first(&mut self, alloc: Global) -> Result<(), Memory>
        ensures first { OnOk result (FollowsFirst self.old self.new) }
    {
        self.world.open(alloc)?;
        self.world
            .run_noting(alloc, &mut self.told, &mut self.carried)
    }

    /// All changes, one after another.
    fn change_all(&mut self, alloc: Global, count: u32) -> Result<(), Memory>
        requires few { count ≤ 5000 }
        ensures changes { OnOk result (Steps (AreChanged count 40 1) self.old self.new) }
    {
        for number in 1..CHANGES + 1 {
            self.change(alloc, count, number)?;
        }
        Ok(())
    }

    /// The change of this number.
    fn change(&mut self, alloc: Global, count: u32, number: u32) -> Result<(), Memory>
        requires few { count ≤ 5000 }
        requires number { number ≤ 40 }
        ensures changes { OnOk result (Steps (IsChanged count number) self.old self.new) }
    {
        match number % 4 {
            0 => self.delete(number),
            3 => self.create(alloc, count, number),
            _ => self.alter(alloc, count, number),
        }
    }

    /// A package is gone.
    fn delete(&mut self, number: u32) -> Result<(), Memory>
        requires number { number ≤ 40 }
        ensures changes { OnOk result (Steps (IsEntered (said.Delete number) number) self.old self.new) }
    {
        let stamp = &stamp_at(number);
        self.world
            .enter(Edit::Delete { stamp, id: number }, &mut self.told)
    }

    /// A package that was not there is added.
    fn create(&mut self, alloc: Global, count: u32, number: u32) -> Result<(), Memory>
        requires few { count ≤ 5000 }
        requires number { number ≤ 40 }
        ensures changes { OnOk result (Steps (IsEntered (said.Create (package_content count (count + number) 0)) number) self.old self.new) }
    {
        let stamp = &stamp_at(number);
        let added = count + number;
        let content = &package(alloc, added, 0, number_of(count, added))?;
        self.world
            .enter(Edit::Create { stamp, content }, &mut self.told)
    }

    /// A package gets another tag.
    fn alter(&mut self, alloc: Global, count: u32, number: u32) -> Result<(), Memory>
        requires number { number ≤ 40 }
        ensures changes { OnOk result (Steps (IsEntered (said.Alter number (package_content count number number)) number) self.old self.new) }
    {
        let stamp = &stamp_at(number);
        let content = &package(alloc, number, number, number_of(count, number))?;
        let edit = Edit::Alter {
            stamp,
            id: number,
            content,
        };
        self.world.enter(edit, &mut self.told)
    }

    /// A session that is cut in the middle of its report, and a whole one.
    fn end(&mut self, alloc: Global) -> Result<(), Memory>
        ensures ends { OnOk result (Acts last_sessions self.old self.new) }
    {
        self.world.open(alloc)?;
        self.world.round(alloc, &mut self.told)?;
        let half = self.world.waiting_up().len() / 2;
        self.world.up(alloc, half, &mut self.told)?;
        self.world.cut();
        self.world.open(alloc)?;
        self.world.run(alloc, &mut self.told)
    }
}
