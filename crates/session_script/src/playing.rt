//! A script that is being played.

ghost use Rattle.std.specs.Prelude.{◌≡◌, ◌<◌, ◌≤◌, ◌+◌, IfOk, Ok};
ghost use Rattle.session_script.specs.Played.{Acts, PlaysSo, StandsFor};
ghost use Rattle.session_script.specs.Replay.{Playing as PlayingValue, opened_by};
ghost use Rattle.session_script.specs.Script.{IsHeader};
ghost use Rattle.session_script.specs.declared.line.Line.TheVariants as line;
ghost use Rattle.wire_base.specs.Stamp.{IsStamp, IsStampAt};
ghost use Rattle.collector_core.specs.Edits.{IsStamped};
ghost use Rattle.session_world.specs.Lines.{enters};

use crate::header::Header;
use crate::inventory::{begin_book, stamp_at};
use crate::line::Line;
use crate::texts::{told_text, waits_text};
use collector_core::Edit;
use command_text::mirror_text;
use session_world::{Tellings, Terms, World};
use std::alloc::Global;
use swima_model::Content;
use wire_base::{List, Memory, Octets};

/// The world, and how many lines changed the inventory or were refused.
#[derive(Debug, Drop)]
pub(crate) struct Playing {
    world: World,
    changes: u32,
}

impl Playing {
    /// The world that the first line opens.
    pub(crate) fn new(alloc: Global, header: Header) -> Result<Self, Memory>
        requires header { IsHeader header }
        ensures opened { IfOk result (λ made. StandsFor made (opened_by header)) }
        ensures changes { IfOk result (λ made. made.changes ≡ 0) }
    {
        let terms = Terms {
            max: header.max,
            subscribe: header.subscribe,
        };
        let book = begin_book(alloc, header.epoch, header.cap as usize, &[])?;
        Ok(Playing {
            world: World::new(alloc, terms, book, header.kind),
            changes: 0,
        })
    }

    /// Plays a line, and gives what is printed of it.
    pub(crate) fn play(&mut self, alloc: Global, line: Line) -> Result<Octets, Memory>
        requires changes { self.old.changes < 100000 }
        ensures plays { IfOk result (λ text. (p : PlayingValue) → StandsFor self.old p → PlaysSo p line text self.new) }
        ensures changes { self.new.changes ≤ self.old.changes + 1 }
    {
        match line {
            Line::Create(content) => self.create(alloc, &content),
            Line::Alter(id, content) => self.alter(alloc, id, &content),
            Line::Delete(id) => self.delete(alloc, id),
            Line::Epoch(epoch) => self.begin_epoch(alloc, epoch),
            Line::Trim(first) => self.trim(alloc, first),
            Line::Open => self.open(alloc),
            Line::Up(most) => self.up(alloc, most),
            Line::Down(most) => self.down(alloc, most),
            Line::Run => self.run(alloc),
            Line::Idle => self.idle(alloc),
            Line::Cut => Ok(self.cut(alloc)),
            Line::Again => self.again(alloc),
            Line::Waits => self.waits(alloc),
            Line::Show => self.show(alloc),
        }
    }

    fn create(&mut self, alloc: Global, content: &Content) -> Result<Octets, Memory>
        requires changes { self.old.changes < 100000 }
        ensures plays { IfOk result (λ text. (p : PlayingValue) → StandsFor self.old p → PlaysSo p (line.Create content.now) text self.new) }
        ensures changes { self.new.changes ≤ self.old.changes + 1 }
    {
        let stamp = self.next_stamp();
        let stamp = &stamp;
        self.enter(alloc, Edit::Create { stamp, content })
    }

    fn alter(&mut self, alloc: Global, id: u32, content: &Content) -> Result<Octets, Memory>
        requires changes { self.old.changes < 100000 }
        ensures plays { IfOk result (λ text. (p : PlayingValue) → StandsFor self.old p → PlaysSo p (line.Alter id content.now) text self.new) }
        ensures changes { self.new.changes ≤ self.old.changes + 1 }
    {
        let stamp = self.next_stamp();
        let stamp = &stamp;
        self.enter(alloc, Edit::Alter { stamp, id, content })
    }

    fn delete(&mut self, alloc: Global, id: u32) -> Result<Octets, Memory>
        requires changes { self.old.changes < 100000 }
        ensures plays { IfOk result (λ text. (p : PlayingValue) → StandsFor self.old p → PlaysSo p (line.Delete id) text self.new) }
        ensures changes { self.new.changes ≤ self.old.changes + 1 }
    {
        let stamp = self.next_stamp();
        let stamp = &stamp;
        self.enter(alloc, Edit::Delete { stamp, id })
    }

    fn begin_epoch(&mut self, alloc: Global, epoch: u32) -> Result<Octets, Memory>
        requires changes { self.old.changes < 100000 }
        ensures plays { IfOk result (λ text. (p : PlayingValue) → StandsFor self.old p → PlaysSo p (line.Epoch epoch) text self.new) }
        ensures changes { self.new.changes ≤ self.old.changes + 1 }
    {
        self.changes += 1;
        self.enter(alloc, Edit::BeginEpoch { epoch })
    }

    fn trim(&mut self, alloc: Global, first: u32) -> Result<Octets, Memory>
        requires changes { self.old.changes < 100000 }
        ensures plays { IfOk result (λ text. (p : PlayingValue) → StandsFor self.old p → PlaysSo p (line.Trim first) text self.new) }
        ensures changes { self.new.changes ≤ self.old.changes + 1 }
    {
        self.changes += 1;
        self.enter(alloc, Edit::Trim { first })
    }

    /// The stamp of one change more.
    fn next_stamp(&mut self) -> [u8; 20]
        requires changes { self.old.changes < 100000 }
        ensures stamp { IsStampAt (self.old.changes + 1) (Ok result) }
        ensures form { IsStamp result }
        ensures changes { self.new.changes ≡ self.old.changes + 1 }
        ensures world { self.new.world ≡ self.old.world }
    {
        self.changes += 1;
        stamp_at(self.changes)
    }

    fn enter(&mut self, alloc: Global, edit: Edit<'_>) -> Result<Octets, Memory>
        requires stamped { IsStamped edit }
        ensures enters { IfOk result (λ text. Acts (enters edit.entry) self.old.world self.new.world text) }
        ensures changes { self.new.changes ≡ self.old.changes }
    {
        let mut told = List::new(alloc);
        self.world.enter(edit, &mut told)?;
        told_text(alloc, &told)
    }

    fn open(&mut self, alloc: Global) -> Result<Octets, Memory>
        ensures plays { IfOk result (λ text. (p : PlayingValue) → StandsFor self.old p → PlaysSo p (line.Open) text self.new) }
        ensures changes { self.new.changes ≡ self.old.changes }
    {
        self.world.open(alloc)?;
        Ok(List::new(alloc))
    }

    fn cut(&mut self, alloc: Global) -> Octets
        ensures plays { (p : PlayingValue) → StandsFor self.old p → PlaysSo p line.Cut result self.new }
        ensures changes { self.new.changes ≡ self.old.changes }
    {
        self.world.cut();
        List::new(alloc)
    }

    fn up(&mut self, alloc: Global, most: u32) -> Result<Octets, Memory>
        ensures plays { IfOk result (λ text. (p : PlayingValue) → StandsFor self.old p → PlaysSo p (line.Up most) text self.new) }
        ensures changes { self.new.changes ≡ self.old.changes }
    {
        let mut told: Tellings = List::new(alloc);
        self.world.up(alloc, most as usize, &mut told)?;
        told_text(alloc, &told)
    }

    fn down(&mut self, alloc: Global, most: u32) -> Result<Octets, Memory>
        ensures plays { IfOk result (λ text. (p : PlayingValue) → StandsFor self.old p → PlaysSo p (line.Down most) text self.new) }
        ensures changes { self.new.changes ≡ self.old.changes }
    {
        let mut told: Tellings = List::new(alloc);
        self.world.down(alloc, most as usize, &mut told)?;
        told_text(alloc, &told)
    }

    fn run(&mut self, alloc: Global) -> Result<Octets, Memory>
        ensures plays { IfOk result (λ text. (p : PlayingValue) → StandsFor self.old p → PlaysSo p (line.Run) text self.new) }
        ensures changes { self.new.changes ≡ self.old.changes }
    {
        let mut told: Tellings = List::new(alloc);
        self.world.run(alloc, &mut told)?;
        told_text(alloc, &told)
    }

    fn idle(&mut self, alloc: Global) -> Result<Octets, Memory>
        ensures plays { IfOk result (λ text. (p : PlayingValue) → StandsFor self.old p → PlaysSo p (line.Idle) text self.new) }
        ensures changes { self.new.changes ≡ self.old.changes }
    {
        let mut told: Tellings = List::new(alloc);
        self.world.idle(alloc, &mut told)?;
        told_text(alloc, &told)
    }

    fn again(&mut self, alloc: Global) -> Result<Octets, Memory>
        ensures plays { IfOk result (λ text. (p : PlayingValue) → StandsFor self.old p → PlaysSo p (line.Again) text self.new) }
        ensures changes { self.new.changes ≡ self.old.changes }
    {
        let mut told: Tellings = List::new(alloc);
        self.world.again(&mut told)?;
        told_text(alloc, &told)
    }

    fn waits(&self, alloc: Global) -> Result<Octets, Memory>
        ensures plays { IfOk result (λ text. (p : PlayingValue) → StandsFor self.now p → PlaysSo p line.Waits text self.now) }
    {
        if !self.world.is_open() {
            return Ok(List::new(alloc));
        }
        waits_text(alloc, self.world.waiting_up(), self.world.waiting_down())
    }

    fn show(&self, alloc: Global) -> Result<Octets, Memory>
        ensures plays { IfOk result (λ text. (p : PlayingValue) → StandsFor self.now p → PlaysSo p line.Show text self.now) }
    {
        mirror_text(alloc, self.world.mirror())
    }
}
