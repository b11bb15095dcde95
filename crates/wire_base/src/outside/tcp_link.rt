//! A stream of the system as a link, as a TCP connection: the trusted edge. It exposes no octets.

ghost use Rattle.std.specs.Io.KnownBytes.{ReadConsumes, WriteAppends};
ghost use Rattle.std.specs.Prelude.{◌≡◌, ◌<◌, ◌≤◌, if◌then◌else◌, List, ℕ, Option, None, IfOk, is_err, length};
ghost use Rattle.wire_base.specs.Counter.{next};
ghost use Rattle.wire_base.specs.Outside.{HasCause, Writes};
ghost use Rattle.wire_base.specs.SystemLinks.{is_idle, read_of};
ghost use Rattle.wire_base.specs.Turns.{Takes, has_failed, was_idle};

use crate::outside::link::{Link, Took};
use crate::outside::source::Failed;
use std::io::{ErrorKind, Read, Write};
use std::marker::Model;
use std::net::OpenStream;
use std::num::NonZeroU32;
use std::time::Duration;

/// For how long a read waits until the turn is idle, in seconds.
const IDLE_SECONDS: u64 = 1;

/// A stream of the system as a link. The stream is closed where the link is dropped.
#[derive(Debug, Drop)]
pub struct TcpLink<S> {
    stream: S,
    faults: u64,
    idles: u64,
}

impl<S> Model for TcpLink<S> {
    ghost use Rattle.wire_base.specs.SystemLinks.{LinkAdapter};

    ghost Value = { LinkAdapter S };

    ghost view = { λ link. record { inner = link.stream; faults = link.faults; idles = link.idles } };
}

impl<S: Read + Write> TcpLink<S> {
    /// A link over `stream`, whose settings stay as they are, with no fault and no idle turn yet.
    pub fn new(stream: S) -> Self
        ensures made { result ≡ record { inner = stream; faults = 0; idles = 0 } }
    {
        TcpLink {
            stream,
            faults: 0,
            idles: 0,
        }
    }
}

impl<S: Read + Write + OpenStream + Drop> TcpLink<S> {
    /// A link over `stream` that sends each piece at once. A read waits for one second, and a write
    /// for `write_seconds`. `Failed` comes where the system refuses one of these settings; then the
    /// stream is closed.
    pub fn from_stream(stream: S, write_seconds: NonZeroU32) -> Result<Self, Failed>
        ensures made { IfOk result (λ link. link ≡ record { inner = stream; faults = 0; idles = 0 }) }
    {
        let write_timeout = Duration::from_secs(u64::from(write_seconds.get()));
        let is_set = stream
            .set_read_timeout(Some(Duration::from_secs(IDLE_SECONDS)))
            .is_ok()
            && stream.set_write_timeout(Some(write_timeout)).is_ok()
            && stream.set_nodelay(true).is_ok();
        if is_set {
            Ok(TcpLink::new(stream))
        } else {
            Err(Failed)
        }
    }
}

impl<S> TcpLink<S> {
    /// How many calls failed.
    pub fn faults(&self) -> u64
        ensures faults { result ≡ self.now.faults }
    {
        self.faults
    }
}

impl<S: Read + Write> Link for TcpLink<S> {
    ghost taken = { λ _. None };

    ghost left = { λ _. None };

    ghost given = { λ _. None };

    ghost faults = { λ link. link.faults };

    ghost idles = { λ link. link.idles };

    /// Reads once from the stream. A read that the system ended without octets, because its time
    /// was over or a signal came, is an idle turn; each other error is a fault. After a reset the
    /// system may report the end of the stream.
    fn take(&mut self, buf: &mut [u8]) -> Took
        requires { 0 < length buf.old }
        ensures takes { Takes None None None None result buf.new }
        ensures cause { HasCause self.old.faults self.new.faults (has_failed result) }
        ensures idle { HasCause self.old.idles self.new.idles (was_idle result) }
        ensures passed { ReadConsumes (S.remaining self.old.inner) (S.remaining self.new.inner) (read_of result) buf.new }
        ensures faults { self.new.faults ≡ (if has_failed result then next self.old.faults else self.old.faults) }
        ensures idles { self.new.idles ≡ (if was_idle result then next self.old.idles else self.old.idles) }
    {
        match self.stream.read(buf) {
            Ok(0) => Took::Ended,
            Ok(count) => Took::Bytes(count),
            Err(error) if is_idle(error.kind()) => {
                self.idles = self.idles.saturating_add(1);
                Took::Idle
            }
            Err(_) => {
                self.faults = self.faults.saturating_add(1);
                Took::Failed
            }
        }
    }

    /// Writes once to the stream. A write of nothing is a fault, and so is each error: also a write
    /// whose time was over, and one that a signal interrupted, which is not tried again.
    fn give(&mut self, piece: &[u8]) -> Result<usize, Failed>
        requires { 0 < length piece.now }
        ensures some { IfOk result (λ count. 0 < count) }
        ensures within { IfOk result (λ count. count ≤ length piece.now) }
        ensures gives { Writes None None result piece.now }
        ensures idles { self.new.idles ≡ self.old.idles }
        ensures cause { HasCause self.old.faults self.new.faults (is_err result) }
        ensures passed { WriteAppends (S.contents self.old.inner) (S.contents self.new.inner) result piece.now }
        ensures faults { self.new.faults ≡ (if is_err result then next self.old.faults else self.old.faults) }
    {
        match self.stream.write(piece) {
            Ok(count) if 0 < count => Ok(count),
            _ => {
                self.faults = self.faults.saturating_add(1);
                Err(Failed)
            }
        }
    }
}

/// Whether a read that ended with an error of this kind is an idle turn.
fn is_idle(kind: ErrorKind) -> bool
    ensures kind { result ≡ is_idle kind }
{
    matches!(
        kind,
        ErrorKind::WouldBlock | ErrorKind::TimedOut | ErrorKind::Interrupted
    )
}
