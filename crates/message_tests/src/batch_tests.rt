//! Copies of the messages of batches.

use pb_batch::{Message, Messages};
use std::alloc::Global;
use std::test::Fail;
use wire_base::{List, Memory, TryCopy};

/// A message of each kind.
fn messages(alloc: Global) -> Result<Messages, Memory> {
    let mut messages = List::new(alloc);
    messages.push(Message::Pa {
        excl: true,
        vendor: 9,
        subtype: 1,
        collector: 2,
        validator: 3,
        body: List::from_slice(alloc, b"abc")?,
    })?;
    messages.push(Message::Assessment(4))?;
    messages.push(Message::Recommendation(3))?;
    messages.push(Message::Error {
        fatal: true,
        vendor: 0,
        code: 5,
        info: List::from_slice(alloc, b"de")?,
    })?;
    messages.push(Message::Frame {
        noskip: false,
        vendor: 9,
        kind: 7,
        body: List::from_slice(alloc, b"f")?,
    })?;
    Ok(messages)
}

/// Whether a message is the one of the place in `messages`.
fn is_message(place: usize, message: &Message) -> bool {
    match message {
        Message::Pa {
            excl: true,
            vendor: 9,
            subtype: 1,
            collector: 2,
            validator: 3,
            body,
        } => (place == 0) & (body.as_slice() == b"abc".as_slice()),
        Message::Assessment(result) => (place == 1) & (*result == 4),
        Message::Recommendation(code) => (place == 2) & (*code == 3),
        Message::Error {
            fatal: true,
            vendor: 0,
            code: 5,
            info,
        } => (place == 3) & (info.as_slice() == b"de".as_slice()),
        Message::Frame {
            noskip: false,
            vendor: 9,
            kind: 7,
            body,
        } => (place == 4) & (body.as_slice() == b"f".as_slice()),
        _ => false,
    }
}

/// Whether these are all messages of `messages`.
fn are_all(messages: &[Message]) -> bool {
    for (place, message) in messages.iter().enumerate() {
        if !is_message(place, message) {
            return false;
        }
    }
    messages.len() == 5
}

/// Whether a copy of the messages has all of them.
fn are_copied(alloc: Global) -> Result<bool, Memory> {
    let copy = messages(alloc)?.copy()?;
    Ok(are_all(copy.as_slice()))
}

#[test]
fn messages_are_copied(rt: HostRuntime) -> Result<(), Fail> {
    assert!(rt; are_copied(rt.alloc())?);
    Ok(())
}
