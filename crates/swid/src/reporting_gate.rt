//! A gate, which says on standard error why a session ended and why sweeping stopped.

use pb_batch::{PbErrorCode, PbFault};
use session_pool::{Gate, SessionEnd, SweepStop, Watch};
use std::fmt;
use std::io::Eprint;

/// A gate that says on standard error why a session ended, where no end closed it, and why sweeping
/// stopped.
#[derive(Drop)]
pub(crate) struct ReportingGate<'a, R> {
    system: &'a R,
}

impl<'a, R> ReportingGate<'a, R> {
    /// A gate with the standard error of `system`.
    pub(crate) fn new(system: &'a R) -> Self {
        ReportingGate { system }
    }
}

// What a message says is not checked further: nobody is left to inform where standard error fails.
impl<'a, R: Eprint> Gate for ReportingGate<'a, R> {
    fn enter(&self, _worker: u32, _session: u32) {}

    fn leave(&self, worker: u32, session: u32, end: SessionEnd) {
        if !matches!(end, SessionEnd::Closed | SessionEnd::PeerClosed) {
            let why = Why(end);
            let _ = eprintln!(self.system; "swid: session {worker}.{session} ended: {why}");
        }
    }
}

impl<'a, R: Eprint> Watch for ReportingGate<'a, R> {
    fn stopped(&self, why: SweepStop) {
        let _ = eprintln!(self.system; "swid: sweeping stopped: {why}");
    }
}

/// Why a session ended, for people.
#[derive(Clone, Copy, Drop)]
struct Why(SessionEnd);

impl fmt::Display for Why {
    fn fmt<W: fmt::Write>(&self, f: &mut fmt::Formatter<W>) -> fmt::Result {
        match self.0 {
            SessionEnd::Closed => f.write_str("it was closed here"),
            SessionEnd::PeerClosed => f.write_str("the peer closed it"),
            SessionEnd::PeerError { vendor, code } => fmt_peer_error(f, vendor, code),
            SessionEnd::Refused { code, offset } => {
                let version = 0;
                let fault = PbFault {
                    code,
                    offset,
                    version,
                };
                write!(f, "a batch of the peer was refused: {fault}")
            }
            SessionEnd::Ended => f.write_str("the connection ended without a CLOSE"),
            SessionEnd::Torn { have } => {
                write!(f, "the connection ended after {have} octets of a batch")
            }
            SessionEnd::LinkFault => f.write_str("the connection failed"),
            SessionEnd::IdleOut { turns } => write!(f, "nothing came for {turns} seconds"),
            SessionEnd::Enough => f.write_str("more octets came than a session may have"),
            SessionEnd::Memory => f.write_str("out of memory"),
        }
    }
}

/// A PB-Error of the peer: by name where the IETF gave the code, else by its numbers.
fn fmt_peer_error<W: fmt::Write>(f: &mut fmt::Formatter<W>, vendor: u32, code: u16) -> fmt::Result {
    if vendor == 0 {
        if let Some(code) = PbErrorCode::from_number(code) {
            return write!(f, "the peer reported an error: {code}");
        }
    }
    write!(
        f,
        "the peer reported an error: code {code} of the vendor {vendor}"
    )
}
