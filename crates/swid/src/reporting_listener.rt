//! A listener, which says on standard error why a connection could not be accepted.

use crate::reporting_stream::ReportingStream;
use std::io;
use std::io::Eprint;
use std::net::{OpenListener, SocketAddr};
use std::os::fd::{AsRawFd, RawFd};

/// A listener that says on standard error why a connection could not be accepted. Its connections
/// report their faults.
#[derive(Drop)]
pub(crate) struct ReportingListener<'a, R, L> {
    system: &'a R,
    listener: L,
}

impl<'a, R, L> ReportingListener<'a, R, L> {
    /// This listener, with the standard error of `system`.
    pub(crate) fn new(system: &'a R, listener: L) -> Self {
        ReportingListener { system, listener }
    }
}

impl<'a, R: Eprint, L: OpenListener> OpenListener for ReportingListener<'a, R, L> {
    type Stream = ReportingStream<'a, R, L::Stream>;

    fn accept(&self) -> io::Result<(Self::Stream, SocketAddr)> {
        let accepted = self.listener.accept();
        if let Err(error) = &accepted {
            // Nobody is left to inform where standard error fails.
            let _ = eprintln!(self.system; "swid: cannot accept a connection: {}", error.kind());
        }
        let (stream, peer) = accepted?;
        Ok((ReportingStream::new(self.system, peer, stream), peer))
    }

    fn local_addr(&self) -> io::Result<SocketAddr> {
        self.listener.local_addr()
    }

    fn try_clone(&self) -> io::Result<Self> {
        let another = self.listener.try_clone();
        if let Err(error) = &another {
            let _ = eprintln!(self.system; "swid: cannot share a listener: {}", error.kind());
        }
        Ok(ReportingListener::new(self.system, another?))
    }
}

impl<'a, R, L: AsRawFd> AsRawFd for ReportingListener<'a, R, L> {
    ghost raw_fd = { λ it. L.raw_fd it.listener };

    fn as_raw_fd(&self) -> RawFd {
        self.listener.as_raw_fd()
    }
}
