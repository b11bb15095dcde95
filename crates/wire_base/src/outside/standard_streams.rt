//! The standard streams as a source and a sink: the trusted edge. They expose nothing of the
//! octets.

ghost use Rattle.std.specs.Io.KnownBytes.{ReadConsumes, WriteAppends};
ghost use Rattle.std.specs.Prelude.{◌≡◌, ◌<◌, ◌≤◌, if◌then◌else◌, true, List, ℕ, Option, None, IfOk, is_err, length};
ghost use Rattle.wire_base.specs.Counter.{next};
ghost use Rattle.wire_base.specs.Outside.{HasCause, Reads, Writes};

use crate::outside::sink::Sink;
use crate::outside::source::{Failed, Source};
use std::io::{ErrorKind, Read, Write};
use std::marker::Model;

/// A reader of the system as a source, as standard input. Each error is a fault.
#[derive(Debug, Drop)]
pub struct StdinSource<R> {
    reader: R,
    faults: u64,
    last: Option<ErrorKind>,
}

impl<R> Model for StdinSource<R> {
    ghost use Rattle.wire_base.specs.Adapter.{Adapter};

    ghost Value = { Adapter R };

    ghost view = { λ source. record { inner = source.reader; faults = source.faults } };
}

impl<R: Read> StdinSource<R> {
    /// A source over `reader`, with no fault yet.
    pub fn new(reader: R) -> Self
        ensures made { result ≡ record { inner = reader; faults = 0 } }
    {
        StdinSource {
            reader,
            faults: 0,
            last: None,
        }
    }

    /// What the system said at the last call that failed, if one did: for people.
    pub fn last_error(&self) -> Option<ErrorKind> {
        self.last
    }
}

impl<R: Read> Source for StdinSource<R> {
    ghost left = { λ _. None };

    ghost faults = { λ source. source.faults };

    /// Reads once from the reader, and passes on what that gave.
    fn read(&mut self, buf: &mut [u8]) -> Result<usize, Failed>
        requires { 0 < length buf.old }
        ensures within { IfOk result (λ count. count ≤ length buf.new) }
        ensures reads { Reads None None result buf.new }
        ensures cause { HasCause self.old.faults self.new.faults (is_err result) }
        ensures passed { ReadConsumes (R.remaining self.old.inner) (R.remaining self.new.inner) result buf.new }
        ensures faults { self.new.faults ≡ (if is_err result then next self.old.faults else self.old.faults) }
    {
        match self.reader.read(buf) {
            Ok(count) => Ok(count),
            Err(error) => {
                self.faults = self.faults.saturating_add(1);
                self.last = Some(error.kind());
                Err(Failed)
            }
        }
    }
}

/// A writer of the system as a sink, as standard output. Each error, and a write of nothing, is a
/// fault.
#[derive(Debug, Drop)]
pub struct StdoutSink<W> {
    writer: W,
    faults: u64,
    last: Option<ErrorKind>,
}

impl<W> Model for StdoutSink<W> {
    ghost use Rattle.wire_base.specs.Adapter.{Adapter};

    ghost Value = { Adapter W };

    ghost view = { λ sink. record { inner = sink.writer; faults = sink.faults } };
}

impl<W: Write> StdoutSink<W> {
    /// A sink over `writer`, with no fault yet.
    pub fn new(writer: W) -> Self
        ensures made { result ≡ record { inner = writer; faults = 0 } }
    {
        StdoutSink {
            writer,
            faults: 0,
            last: None,
        }
    }

    /// What the system said at the last call that failed, if one did: for people.
    pub fn last_error(&self) -> Option<ErrorKind> {
        self.last
    }

    /// Counts a call that failed, of which the system said this.
    fn fault(&mut self, kind: ErrorKind) -> Result<usize, Failed>
        ensures failed { is_err result ≡ true }
        ensures inner { self.new.inner ≡ self.old.inner }
        ensures faults { self.new.faults ≡ next self.old.faults }
        ensures later { self.old.faults ≤ self.new.faults }
    {
        self.faults = self.faults.saturating_add(1);
        self.last = Some(kind);
        Err(Failed)
    }
}

impl<W: Write> Sink for StdoutSink<W> {
    ghost written = { λ _. None };

    ghost faults = { λ sink. sink.faults };

    /// Writes once to the writer, and says how many octets that took.
    fn write(&mut self, piece: &[u8]) -> Result<usize, Failed>
        requires { 0 < length piece.now }
        ensures some { IfOk result (λ count. 0 < count) }
        ensures within { IfOk result (λ count. count ≤ length piece.now) }
        ensures writes { Writes None None result piece.now }
        ensures cause { HasCause self.old.faults self.new.faults (is_err result) }
        ensures passed { WriteAppends (W.contents self.old.inner) (W.contents self.new.inner) result piece.now }
        ensures faults { self.new.faults ≡ (if is_err result then next self.old.faults else self.old.faults) }
    {
        match self.writer.write(piece) {
            Ok(count) if 0 < count => Ok(count),
            Ok(_) => self.fault(ErrorKind::WriteZero),
            Err(error) => self.fault(error.kind()),
        }
    }
}
