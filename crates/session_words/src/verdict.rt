//! What an end does with a batch before it looks into it (RFC 5793, sections 3.2 and 4.9).

ghost use Rattle.std.specs.Prelude.{◌≡◌, Some, None, if◌then◌else◌};
ghost use Rattle.session_rules.specs.declared.end.SessionEnd.TheVariants as end;
ghost use Rattle.session_rules.specs.Verdict.{ended_by, error_in, is_close, peer_error, verdict};

use pb_batch::{Batch, BatchKind, Message, PbErrorCode, PbFault};
use pb_machine::Heard;
use session_rules::{SessionEnd, Verdict};

/// What becomes of a batch, by what the machine says of its kind.
pub fn verdict_of(heard: Heard, batch: &Batch) -> Verdict
    ensures verdict { result ≡ verdict heard batch.now }
{
    match heard {
        Heard::Ignored => Verdict::PassesOver,
        Heard::Unexpected => Verdict::Refuses(PbFault {
            code: PbErrorCode::UnexpectedBatchType.number(),
            offset: 0,
            version: 0,
        }),
        Heard::Go => {
            let first = peer_error(is_close(batch.kind), batch.messages.as_slice());
            ended_by(batch.kind, first)
        }
    }
}

/// What becomes of a batch that the machine goes on with, by its first PB-Error that counts.
fn ended_by(kind: BatchKind, first: Option<SessionEnd>) -> Verdict
    ensures verdict { result ≡ ended_by kind first }
{
    match first {
        Some(by) => Verdict::EndsBy(by),
        None => without_error(kind),
    }
}

/// What becomes of a batch without such an error: a CLOSE ends the session.
fn without_error(kind: BatchKind) -> Verdict
    ensures verdict { result ≡ ended_by kind None }
{
    match kind {
        BatchKind::Close => Verdict::EndsBy(SessionEnd::PeerClosed),
        BatchKind::Cdata => Verdict::GoesOn,
        BatchKind::Sdata => Verdict::GoesOn,
        BatchKind::Outcome => Verdict::GoesOn,
        BatchKind::Cretry => Verdict::GoesOn,
        BatchKind::Sretry => Verdict::GoesOn,
    }
}

/// Whether a batch is a CLOSE.
fn is_close(kind: BatchKind) -> bool
    ensures close { result ≡ is_close kind }
{
    match kind {
        BatchKind::Close => true,
        BatchKind::Cdata => false,
        BatchKind::Sdata => false,
        BatchKind::Outcome => false,
        BatchKind::Cretry => false,
        BatchKind::Sretry => false,
    }
}

/// How the first PB-Error ends the session that is fatal or stands in a CLOSE.
fn peer_error(closing: bool, messages: &[Message]) -> Option<SessionEnd>
    ensures first { result ≡ peer_error closing messages.now }
{
    for message in messages {
        if let Some(end) = error_in(closing, message) {
            return Some(end);
        }
    }
    None
}

/// How a message ends the session, if it does.
fn error_in(closing: bool, message: &Message) -> Option<SessionEnd>
    ensures error { result ≡ error_in closing message.now }
{
    match message {
        Message::Error {
            fatal,
            vendor,
            code,
            ..
        } => counted_error(*fatal || closing, *vendor, *code),
        Message::Pa { .. } => None,
        Message::Assessment(_) => None,
        Message::Recommendation(_) => None,
        Message::Frame { .. } => None,
    }
}

/// How a PB-Error ends the session, where it counts.
fn counted_error(counts: bool, vendor: u32, code: u16) -> Option<SessionEnd>
    ensures error { result ≡ (if counts then Some (end.PeerError vendor code) else None) }
{
    if counts {
        Some(SessionEnd::PeerError { vendor, code })
    } else {
        None
    }
}
