//! Batches as values.

ghost use Rattle.std.specs.Prelude.{◌≡◌, IfOk};
ghost use Rattle.pb_batch.specs.declared.batch.Message.TheVariants as messages;

use crate::kind::BatchKind;
use wire_base::{List, Memory, Octets, TryCopy};

/// A batch (RFC 5793, section 4.1).
#[derive(Debug, Drop)]
pub struct Batch {
    /// Whether it is of the server; else it is of the client.
    pub from_server: bool,
    /// What it is for.
    pub kind: BatchKind,
    /// Its messages, at most 64, in their order.
    pub messages: Messages,
}

/// Messages in their order.
pub type Messages = List<Message>;

/// A message of a batch (RFC 5793, section 4.2).
#[derive(Debug, Drop)]
pub enum Message {
    /// PB-PA: a PA-TNC message on its way between a collector and a validator (section 4.5).
    Pa {
        /// Whether only the collector or validator that is named gets it.
        excl: bool,
        /// The vendor of the subtype, below 16777215.
        vendor: u32,
        /// What the message is about, below 4294967295.
        subtype: u32,
        /// The identifier of the collector.
        collector: u16,
        /// The identifier of the validator.
        validator: u16,
        /// The PA-TNC message.
        body: Octets,
    },
    /// PB-Assessment-Result: how the endpoint was judged, 0 to 4 (section 4.6).
    Assessment(u32),
    /// PB-Access-Recommendation: 1 allowed, 2 denied, 3 quarantined (section 4.7).
    Recommendation(u16),
    /// PB-Error (section 4.9).
    Error {
        /// Whether the session ends by it.
        fatal: bool,
        /// The vendor of the code, below 16777216.
        vendor: u32,
        /// What the error is.
        code: u16,
        /// The octets that the code is reported with.
        info: Octets,
    },
    /// Any other message, whose value is not looked at.
    Frame {
        /// Whether a receiver that does not know it may not pass it over. Then it is of the types
        /// 4, 6 and 7 of the IETF.
        noskip: bool,
        /// The vendor of the type, below 16777215.
        vendor: u32,
        /// The type, below 4294967295.
        kind: u32,
        /// The value.
        body: Octets,
    },
}

impl TryCopy for Message {
    fn copy(&self) -> Result<Self, Memory> {
        match self {
            Message::Pa {
                excl,
                vendor,
                subtype,
                collector,
                validator,
                body,
            } => Ok(Message::Pa {
                excl: *excl,
                vendor: *vendor,
                subtype: *subtype,
                collector: *collector,
                validator: *validator,
                body: body.copy()?,
            }),
            Message::Assessment(result) => Ok(Message::Assessment(*result)),
            Message::Recommendation(code) => Ok(Message::Recommendation(*code)),
            Message::Error {
                fatal,
                vendor,
                code,
                info,
            } => error(*fatal, *vendor, *code, info),
            Message::Frame {
                noskip,
                vendor,
                kind,
                body,
            } => Ok(Message::Frame {
                noskip: *noskip,
                vendor: *vendor,
                kind: *kind,
                body: body.copy()?,
            }),
        }
    }
}

/// A PB-Error with a copy of these octets.
fn error(fatal: bool, vendor: u32, code: u16, info: &Octets) -> Result<Message, Memory>
    ensures error { IfOk result (λ message. message ≡ messages.Error fatal vendor code info.now) }
{
    Ok(Message::Error {
        fatal,
        vendor,
        code,
        info: info.copy()?,
    })
}
