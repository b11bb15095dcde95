//! The network, which says on standard error where it listens and what it refuses.

use crate::reporting_listener::ReportingListener;
use crate::reporting_stream::ReportingStream;
use std::fmt::Display;
use std::io;
use std::io::Eprint;
use std::net::{Net, OpenListener, SocketAddr};

/// A network that says on standard error where a listener is, and why there is none or no
/// connection. So do its listeners and connections of their calls.
#[derive(Drop)]
pub(crate) struct ReportingNet<'a, R> {
    system: &'a R,
}

impl<'a, R: Net + Eprint> ReportingNet<'a, R> {
    /// The network of `system`.
    pub(crate) fn new(system: &'a R) -> Self {
        ReportingNet { system }
    }
}

// What a message says is not checked further: nobody is left to inform where standard error fails.
impl<'a, R: Net + Eprint> Net for ReportingNet<'a, R> {
    type Stream = ReportingStream<'a, R, R::Stream>;

    type Listener = ReportingListener<'a, R, R::Listener>;

    fn bind(&self, address: SocketAddr) -> io::Result<Self::Listener> {
        let bound = self.system.bind(address);
        let _ = match &bound {
            Ok(listener) => match listener.local_addr() {
                Ok(here) => eprintln!(self.system; "swid: listening on {here}"),
                Err(_) => eprintln!(self.system; "swid: listening on {address}"),
            },
            Err(error) => {
                eprintln!(self.system; "swid: cannot listen on {address}: {}", error.kind())
            }
        };
        Ok(ReportingListener::new(self.system, bound?))
    }

    fn connect(&self, address: SocketAddr) -> io::Result<Self::Stream> {
        let connected = self.system.connect(address);
        if let Err(error) = &connected {
            let _ = eprintln!(self.system; "swid: cannot connect to {address}: {}", error.kind());
        }
        Ok(ReportingStream::new(self.system, address, connected?))
    }

    fn lookup_host(&self, host: &str, port: u16, found: &mut [SocketAddr]) -> io::Result<usize> {
        let looked_up = self.system.lookup_host(host, port, found);
        if let Err(error) = &looked_up {
            let _ = eprintln!(self.system; "swid: no address of {host} is known: {}", error.kind());
        }
        looked_up
    }
}

impl<'a, R: Eprint> Eprint for ReportingNet<'a, R> {
    fn eprint<V: Display + Drop>(&self, value: V) -> io::Result<()> {
        self.system.eprint(value)
    }

    fn eprintln<V: Display + Drop>(&self, value: V) -> io::Result<()> {
        self.system.eprintln(value)
    }
}
