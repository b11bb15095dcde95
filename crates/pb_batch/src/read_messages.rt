//! The messages of a batch.

ghost use Rattle.std.specs.Prelude.{◌≤◌, IfOk, length, drop};
ghost use Rattle.pb_batch.specs.Form.{BATCH_MESSAGES, BATCH_OCTETS, HEADER_OCTETS, MessagesForm};
ghost use Rattle.pb_batch.specs.Front.{messages_of};
ghost use Rattle.pb_batch.specs.Gives.{Gives};

use crate::batch::Messages;
use crate::fault::BatchRefused;
use crate::message_head::read_head;
use crate::message_value::read_value;
use crate::numbers::{HEADER, MOST_MESSAGES};
use std::alloc::Global;
use wire_base::List;

/// Reads the messages of a batch of which all octets are there.
pub(crate) fn read_messages(alloc: Global, batch: &[u8]) -> Result<Messages, BatchRefused>
    requires header { HEADER_OCTETS ≤ length batch.now }
    requires short { length batch.now ≤ BATCH_OCTETS }
    ensures messages { Gives (λ read. read) result
        (messages_of BATCH_MESSAGES HEADER_OCTETS (drop HEADER_OCTETS batch.now)) }
    ensures forms { IfOk result (λ read. MessagesForm read (drop HEADER_OCTETS batch.now)) }
    ensures few { IfOk result (λ read. length read ≤ BATCH_MESSAGES) }
{
    let mut messages = List::new(alloc);
    let mut at = HEADER;
    while at < batch.len() {
        let rest = &batch[at..];
        let head = read_head(MOST_MESSAGES - messages.len(), at as u32, rest)?;
        messages.push(read_value(alloc, head, at as u32, rest)?)?;
        at += head.length as usize;
    }
    Ok(messages)
}
