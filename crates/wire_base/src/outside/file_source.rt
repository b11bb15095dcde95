//! One file of the system as a source: the trusted edge. It exposes no octets.

ghost use Rattle.std.specs.Io.KnownBytes.{ReadConsumes};
ghost use Rattle.std.specs.Option.{option_and_then};
ghost use Rattle.std.specs.Prelude.{◌≡◌, ◌<◌, ◌≤◌, if◌then◌else◌, true, None, IfOk, is_err, length};
ghost use Rattle.wire_base.specs.Counter.{next};
ghost use Rattle.wire_base.specs.Outside.{HasCause, Reads};

use crate::outside::source::{Failed, Source};
use std::fs;
use std::io::Read;
use std::marker::Model;

/// A file of the system as a source, and where it did not open, a source whose calls all fail. Each
/// error is a fault.
#[derive(Debug, Drop)]
pub struct FileSource<F> {
    file: Option<F>,
    faults: u64,
}

impl<F> Model for FileSource<F> {
    ghost use Rattle.std.specs.Prelude.{Option};
    ghost use Rattle.wire_base.specs.Adapter.{Adapter};

    ghost Value = { Adapter (Option F) };

    ghost view = { λ source. record { inner = source.file; faults = source.faults } };
}

impl<F: Read> FileSource<F> {
    /// A source over the file at `path`, with no fault yet. The path is absolute, or relative to
    /// the working folder.
    pub fn open<R: fs::Files<File = F>>(system: &R, path: &str) -> Self
        ensures faults { result.faults ≡ 0 }
    {
        FileSource {
            file: fs::open(system, path).ok(),
            faults: 0,
        }
    }
}

impl<F: Read> Source for FileSource<F> {
    ghost left = { λ _. None };

    ghost faults = { λ source. source.faults };

    /// Reads once from the file, and passes on what that gave.
    fn read(&mut self, buf: &mut [u8]) -> Result<usize, Failed>
        requires { 0 < length buf.old }
        ensures within { IfOk result (λ count. count ≤ length buf.new) }
        ensures reads { Reads None None result buf.new }
        ensures cause { HasCause self.old.faults self.new.faults (is_err result) }
        ensures passed { ReadConsumes (option_and_then F.remaining self.old.inner) (option_and_then F.remaining self.new.inner) result buf.new }
        ensures closed { self.old.inner ≡ None → is_err result ≡ true }
        ensures stays { self.old.inner ≡ None → self.new.inner ≡ None }
        ensures faults { self.new.faults ≡ (if is_err result then next self.old.faults else self.old.faults) }
    {
        let passed = match &mut self.file {
            Some(file) => file.read(buf).ok(),
            None => None,
        };
        match passed {
            Some(count) => Ok(count),
            None => {
                self.faults = self.faults.saturating_add(1);
                Err(Failed)
            }
        }
    }
}
