//! The texts of ends and records, and of consecutive ends.

use conformance_words::push_text;
use session_rules::{SessionEnd, SessionRecord, Turn};
use std::alloc::Global;

/// Puts what a turn comes to at the end of the text.
pub(crate) fn push_turn(alloc: Global, out: &mut String, turn: Turn) -> Option<()> {
    match turn {
        Turn::Goes => out.push_str("goes on").ok(),
        Turn::Over(end) => push_text(out, end_text(alloc, end)),
    }
}

/// The name of an end, and its numbers.
pub(crate) fn end_text(alloc: Global, end: SessionEnd) -> Option<String> {
    match end {
        SessionEnd::PeerError { vendor, code } => {
            format!(in alloc; "peer-error {vendor} {code}").ok()
        }
        SessionEnd::Refused { code, offset } => format!(in alloc; "refused {code} {offset}").ok(),
        SessionEnd::Torn { have } => format!(in alloc; "torn {have}").ok(),
        SessionEnd::IdleOut { turns } => format!(in alloc; "idle-out {turns}").ok(),
        end => String::from_str(alloc, end_word(end)?).ok(),
    }
}

/// The name of an end without numbers; `None` where memory ran out.
fn end_word(end: SessionEnd) -> Option<&'static str> {
    match end {
        SessionEnd::Closed => Some("closed"),
        SessionEnd::PeerClosed => Some("peer-closed"),
        SessionEnd::Ended => Some("ended"),
        SessionEnd::Enough => Some("enough"),
        SessionEnd::LinkFault => Some("link-fault"),
        _ => None,
    }
}

/// Puts the codes that were heard, how many reports were written or taken, and how many octets were
/// given at the end of the text.
pub(crate) fn push_counts(alloc: Global, out: &mut String, record: &SessionRecord) -> Option<()> {
    out.push_str("; errors").ok()?;
    for code in record.errors.as_slice() {
        push_text(out, format!(in alloc; " {code}").ok())?;
    }
    let (reports, sent) = (record.reports, record.sent);
    push_text(
        out,
        format!(in alloc; "; reports {reports}; sent {sent}").ok(),
    )
}

/// How a session ends, and how many octets it has written then.
#[derive(Clone, Copy, PartialEq, Eq)]
pub(crate) struct Cut {
    pub(crate) end: SessionEnd,
    pub(crate) sent: u64,
}

/// Consecutive cuts that are one entry of a text: the first and the last.
#[derive(Clone, Copy)]
pub(crate) struct Run {
    first: Cut,
    last: Cut,
}

impl Run {
    /// One cut.
    pub(crate) fn new(cut: Cut) -> Self {
        Run {
            first: cut,
            last: cut,
        }
    }

    /// With the next cut, where that belongs to the entry: it is torn after one octet more, and
    /// nothing more was written. Otherwise `None`.
    pub(crate) fn with(self, next: Cut) -> Option<Run> {
        let more = match (self.last.end, next.end) {
            (SessionEnd::Torn { have }, SessionEnd::Torn { have: then }) => {
                then == have.saturating_add(1)
            }
            _ => false,
        };
        if !more || next.sent != self.last.sent {
            return None;
        }
        Some(Run {
            first: self.first,
            last: next,
        })
    }

    /// Puts `END, sent SENT`, with the last number of octets where there are several cuts, at the
    /// end of the text.
    pub(crate) fn push(self, alloc: Global, out: &mut String) -> Option<()> {
        if !out.is_empty() {
            out.push_str("; ").ok()?;
        }
        push_text(out, end_text(alloc, self.first.end))?;
        self.push_last(alloc, out)?;
        let sent = self.first.sent;
        push_text(out, format!(in alloc; ", sent {sent}").ok())
    }

    fn push_last(self, alloc: Global, out: &mut String) -> Option<()> {
        match self.last.end {
            SessionEnd::Torn { have } if self.last != self.first => {
                push_text(out, format!(in alloc; " to {have}").ok())
            }
            _ => Some(()),
        }
    }
}
