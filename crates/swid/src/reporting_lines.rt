//! The lines of a file as a source, which says on standard error why a sweep stops at it.

use source_lines::LineSource;
use source_set::{TagSource, Told};
use std::io::Eprint;
use std::{fs, io};
use wire_base::FileSource;

/// The lines of a file as a source. It says on standard error which line is no item, and that the
/// file can't be read.
#[derive(Drop)]
pub(crate) struct ReportingLines<'a, R: fs::Files> {
    system: &'a R,
    name: &'a str,
    lines: LineSource<FileSource<R::File>>,
}

impl<'a, R: fs::Files> ReportingLines<'a, R> {
    /// These lines, of the file `name`.
    pub(crate) fn new(
        system: &'a R,
        name: &'a str,
        lines: LineSource<FileSource<R::File>>,
    ) -> Self {
        ReportingLines {
            system,
            name,
            lines,
        }
    }
}

impl<'a, R: fs::Files + Eprint> ReportingLines<'a, R> {
    /// Says why the line of this number, the last one, is no item.
    fn report_bad_line(&self, line: u64) -> io::Result<()> {
        match self.lines.last_fault() {
            Some(fault) => eprintln!(self.system; "swid: {}:{line}: {fault}", self.name),
            None => eprintln!(self.system; "swid: {}:{line}: no item", self.name),
        }
    }
}

impl<'a, R: fs::Files + Eprint> TagSource for ReportingLines<'a, R> {
    ghost use Rattle.std.specs.Prelude.{None};
    ghost use Rattle.source_lines.specs.Lines.{WillReport};

    // As those of the lines, whose file exposes nothing.
    ghost reports = { λ source. WillReport (λ _. None) source.lines };

    ghost faults = { λ source. source.lines.input.faults };

    fn next(&mut self) -> Told {
        let told = self.lines.next();
        // Nobody is left to inform where standard error fails.
        let _ = match &told {
            Told::Bad { line } => self.report_bad_line(*line),
            Told::Failed => eprintln!(self.system; "swid: cannot read {}", self.name),
            _ => Ok(()),
        };
        told
    }
}
