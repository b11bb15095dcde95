//! What is written of attributes and messages.

ghost use Rattle.std.specs.Prelude.{◌≡◌, ◌<◌, ◌^◌, IfOk};
ghost use Rattle.pa_attrs.specs.MessageForm.{CanBeWritten};
ghost use Rattle.session_rules.specs.Messages.{attribute, error_attribute, pa_message};

use pa_attrs::{Attr, Attrs, ERROR, IETF, PaError, PaMessage, write_error, write_message};
use pb_batch::Message;
use std::alloc::Global;
use swima_request::SWIMA_ATTRIBUTES;
use wire_base::{Memory, Octets};

/// The identifier of the collector in what is written (RFC 5793, section 4.5).
const COLLECTOR: u16 = 1;

/// The identifier of the validator in what is written.
const VALIDATOR: u16 = 1;

/// An attribute of the IETF.
pub fn attribute(kind: u32, value: Octets) -> Attr
    ensures attribute { result ≡ attribute kind value }
{
    Attr {
        noskip: false,
        vendor: IETF,
        kind,
        value,
    }
}

/// The attribute of a PA-TNC Error (RFC 5792, section 4.2.8).
pub fn error_attribute(alloc: Global, error: &PaError) -> Result<Attr, Memory>
    requires vendor { error.now.vendor < 2 ^ 24 }
    ensures attribute { IfOk result (λ made. made ≡ error_attribute error.now) }
{
    Ok(attribute(ERROR, write_error(alloc, error)?))
}

/// The message of a batch that carries attributes, under a number.
pub fn write_words(alloc: Global, number: u32, attrs: Attrs) -> Result<Message, Memory>
    requires written { CanBeWritten (record { id = number; attrs = attrs }) }
    ensures message { IfOk result (λ made. made ≡ pa_message number attrs) }
{
    let message = PaMessage { id: number, attrs };
    Ok(Message::Pa {
        excl: false,
        vendor: IETF,
        subtype: SWIMA_ATTRIBUTES,
        collector: COLLECTOR,
        validator: VALIDATOR,
        body: write_message(alloc, &message)?,
    })
}
