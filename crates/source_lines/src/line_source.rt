//! A source that reads its items from lines.

ghost use Rattle.std.specs.Prelude.{◌≡◌, ◌≢◌, [], IfOk, None, OnErr, false};
ghost use Rattle.wire_base.specs.Outside.{HasCause};
ghost use Rattle.wire_base.specs.Passing.{is_fault};
ghost use Rattle.source_set.specs.Items.{Gave, LeavesAll, Reported, is_failed};
ghost use Rattle.source_set.specs.declared.told.Told.TheVariants as told;
ghost use Rattle.source_lines.specs.LineFaults.{KeepsFault};
ghost use Rattle.source_lines.specs.Lines.{HasRead, IfUnread, WillReport};

use crate::line_buffer::{Front, LineBuffer};
use crate::line_fault::LineFault;
use source_set::{TagSource, Told};
use std::alloc::Global;
use std::marker::Model;
use wire_base::{Memory, Source, Stopped};

/// How many octets one call of the input is asked for.
const PIECE: usize = 4096;

/// A source whose items are the lines of an input: `add KEY LOCATOR HEX`, `change KEY LOCATOR HEX`,
/// `xml KEY IDENT LOCATOR HEX`, `gone KEY`, `quiet` and `end`. Every other line is `Bad`. Where the
/// input ends it is quiet, and octets without a line feed wait for more.
#[derive(Debug, Drop)]
pub struct LineSource<S: Drop> {
    input: S,
    lines: LineBuffer,
}

impl<S: Drop> Model for LineSource<S> {
    ghost use Rattle.source_lines.specs.Lines.{LineView};

    ghost Value = { LineView S };

    ghost view = { λ source. record {
      input = source.input;
      held = source.lines.held;
      number = source.lines.number;
      fault = source.lines.fault;
    } };
}

impl<S: Source + Drop> LineSource<S> {
    /// A source of the lines of `input`, the first of which has the number 1.
    pub fn new(alloc: Global, input: S) -> Result<Self, Memory>
        ensures made { IfOk result (λ made.
            made ≡ record { input = input; held = []; number = 1; fault = None }) }
    {
        Ok(LineSource {
            input,
            lines: LineBuffer::new(alloc),
        })
    }

    /// Why the last bad line is no item; `None` where none came.
    pub fn last_fault(&self) -> Option<LineFault>
        ensures fault { result ≡ self.now.fault }
    {
        self.lines.last_fault()
    }

    /// The next item, or why there is none. Then all items are left.
    fn read_item(&mut self) -> Result<Told, Stopped>
        ensures item { IfOk result (λ item. (is_failed item ≡ false) × (item ≢ told.Memory)
            × Gave (WillReport S.left) self.old item self.new) }
        ensures unread { IfUnread (WillReport S.left) self.old self.new result }
        ensures fault { IfOk result (λ item. KeepsFault S.left self.old item self.new) }
        ensures kept { OnErr result (self.new.fault ≡ self.old.fault) }
        ensures cause { HasCause (S.faults self.old.input) (S.faults self.new.input) (is_fault result) }
    {
        loop {
            match self.lines.front() {
                Front::Line(len) => return Ok(self.lines.take_line(len)?),
                Front::Long => return Ok(self.lines.take_long()),
                Front::More => {
                    if !self.read_more()? {
                        return Ok(Told::Quiet);
                    }
                }
            }
        }
    }

    /// Reads once from the input. Whether it gave anything.
    fn read_more(&mut self) -> Result<bool, Stopped>
        ensures read { HasRead S.left self.old self.new result }
        ensures cause { HasCause (S.faults self.old.input) (S.faults self.new.input) (is_fault result) }
    {
        self.lines.make_room(PIECE)?;
        let mut piece = [0u8; PIECE];
        let count = self.input.read(&mut piece)?;
        self.lines.put(&piece[..count]);
        Ok(count > 0)
    }
}

impl<S: Source + Drop> TagSource for LineSource<S> {
    ghost use Rattle.source_lines.specs.Lines.{WillReport};

    ghost reports = { WillReport S.left };

    ghost faults = { λ source. S.faults source.input };

    /// The item of the next line. Where the input exposes what is left, an item of a line that is
    /// whole comes once, whatever the pieces of the input. After `Failed` and `Memory` all items
    /// are left that were left before. After `Bad`, `last_fault` gives the reason of this line.
    fn next(&mut self) -> Told
        ensures reported { Reported (WillReport S.left) self.old result self.new }
        ensures cause { HasCause (S.faults self.old.input) (S.faults self.new.input) (is_failed result) }
        ensures unread { LeavesAll (WillReport S.left) self.old result self.new }
        ensures fault { KeepsFault S.left self.old result self.new }
    {
        match self.read_item() {
            Ok(told) => told,
            Err(Stopped::Fault) => Told::Failed,
            Err(Stopped::Memory) => Told::Memory,
        }
    }
}
