//! A connection, which says on standard error why a call failed.

use std::io;
use std::io::{Eprint, ErrorKind, Read, Write};
use std::net::{OpenStream, SocketAddr};
use std::os::fd::{AsRawFd, RawFd};
use std::time::Duration;

/// A connection that says on standard error why a read or a write failed, and with whom.
#[derive(Drop)]
pub(crate) struct ReportingStream<'a, R, S> {
    system: &'a R,
    peer: SocketAddr,
    stream: S,
}

impl<'a, R, S> ReportingStream<'a, R, S> {
    /// This connection with `peer`, with the standard error of `system`.
    pub(crate) fn new(system: &'a R, peer: SocketAddr, stream: S) -> Self {
        ReportingStream {
            system,
            peer,
            stream,
        }
    }
}

impl<'a, R: Eprint, S> ReportingStream<'a, R, S> {
    /// Says what could not be done.
    fn report(&self, verb: &str, kind: ErrorKind) {
        // Nobody is left to inform where standard error fails.
        let _ = eprintln!(self.system; "swid: cannot {verb} {}: {kind}", self.peer);
    }

    /// What a setting came to, which is said where the system refused it.
    fn reported(&self, set: io::Result<()>) -> io::Result<()> {
        if let Err(error) = &set {
            self.report("set up the connection with", error.kind());
        }
        set
    }
}

impl<'a, R: Eprint, S: Read> Read for ReportingStream<'a, R, S> {
    ghost remaining = { λ it. S.remaining it.stream };

    fn read(&mut self, buf: &mut [u8]) -> io::Result<usize> {
        let read = self.stream.read(buf);
        if let Err(error) = &read {
            let kind = error.kind();
            if !is_over(kind) {
                self.report("read from", kind);
            }
        }
        read
    }
}

impl<'a, R: Eprint, S: Write> Write for ReportingStream<'a, R, S> {
    ghost contents = { λ it. S.contents it.stream };

    fn write(&mut self, buf: &[u8]) -> io::Result<usize> {
        let written = self.stream.write(buf);
        if let Err(error) = &written {
            self.report("write to", error.kind());
        }
        written
    }

    fn flush(&mut self) -> io::Result<()> {
        self.stream.flush()
    }
}

impl<'a, R: Eprint, S: OpenStream> OpenStream for ReportingStream<'a, R, S> {
    fn set_nodelay(&self, nodelay: bool) -> io::Result<()> {
        self.reported(self.stream.set_nodelay(nodelay))
    }

    fn set_read_timeout(&self, dur: Option<Duration>) -> io::Result<()> {
        self.reported(self.stream.set_read_timeout(dur))
    }

    fn set_write_timeout(&self, dur: Option<Duration>) -> io::Result<()> {
        self.reported(self.stream.set_write_timeout(dur))
    }
}

impl<'a, R, S: AsRawFd> AsRawFd for ReportingStream<'a, R, S> {
    ghost raw_fd = { λ it. S.raw_fd it.stream };

    fn as_raw_fd(&self) -> RawFd {
        self.stream.as_raw_fd()
    }
}

/// Whether a read ended because its time was over or a signal came, which is no fault.
fn is_over(kind: ErrorKind) -> bool {
    matches!(
        kind,
        ErrorKind::WouldBlock | ErrorKind::TimedOut | ErrorKind::Interrupted
    )
}
