//! Idle turns of a collector that holds as many subscriptions as a session may have, each with many
//! targets, over a book whose log is full of events that none of them is for.

use crate::book::{KEPT, alterations, full_book};
use crate::trouble::Trouble;
use collector_core::Book;
use collector_session::ServeCore;
use session_rules::{ServeConfig, Turn};
use std::alloc::Global;
use wire_base::{List, Memory, Octets};

/// How the collector serves: for as many idle turns as may be.
const LOOKING: ServeConfig = ServeConfig {
    max: 16_000_000,
    reports: None,
    idle: 4_294_967_295,
    octets: 4_294_967_295,
};

/// How many subscriptions it takes.
const SUBSCRIPTIONS: u8 = 16;

/// How many targets each has.
const TARGETS: u8 = 100;

/// The header of an SDATA, of its one PB-PA message and of the PA-TNC message in it, which has the
/// attributes of all subscriptions.
const HEADERS: [u8; 40] = [
    2, 0x80, 0, 2, 0, 0, 0x27, 0x28, 0x80, 0, 0, 0, 0, 0, 0, 1, 0, 0, 0x27, 0x20, 0, 0, 0, 0, 0, 0,
    0, 9, 0, 1, 0, 1, 1, 0, 0, 0, 0, 0, 0, 1,
];

/// A RESULT with the assessment 4.
const RESULT: [u8; 24] = [
    2, 0x80, 0, 3, 0, 0, 0, 24, 0x80, 0, 0, 0, 0, 0, 0, 2, 0, 0, 0, 16, 0, 0, 0, 4,
];

/// That many idle turns over a book of that many records, since whose subscriptions the log was
/// filled anew. It gives how many there were.
pub(crate) fn looks(alloc: Global, records: u32, times: u32) -> Result<u64, Trouble> {
    let mut book = full_book(alloc, records)?;
    looks_over(alloc, &mut book, times)
}

/// That many idle turns over a book, whose log is filled anew after the subscriptions.
fn looks_over(alloc: Global, book: &mut Book, times: u32) -> Result<u64, Trouble> {
    let mut serve = subscribed(alloc, book)?;
    alterations(alloc, book, KEPT)?;
    look_times(alloc, &mut serve, book, times)
}

/// That many idle turns. It gives how many there were.
fn look_times(
    alloc: Global,
    serve: &mut ServeCore,
    book: &mut Book,
    times: u32,
) -> Result<u64, Trouble> {
    let mut done: u64 = 0;
    for _ in 0..times {
        look(alloc, serve, book)?;
        done = done.saturating_add(1);
    }
    Ok(done)
}

/// One idle turn, at which nothing is written.
fn look(alloc: Global, serve: &mut ServeCore, book: &mut Book) -> Result<(), Trouble> {
    match serve.idle(alloc, book) {
        Turn::Goes if serve.waiting().is_empty() => Ok(()),
        _ => Err(Trouble::Session),
    }
}

/// A collector that holds the subscriptions, once the validator has decided.
fn subscribed(alloc: Global, book: &mut Book) -> Result<ServeCore, Trouble> {
    let octets = subscriptions(alloc)?;
    let mut serve = ServeCore::new(alloc, &LOOKING)?;
    serve.hear(alloc, book, octets.as_slice());
    serve.hear(alloc, book, &RESULT);
    let count = serve.waiting().len();
    serve.carried(count);
    Ok(serve)
}

/// An SDATA that asks for all of them.
fn subscriptions(alloc: Global) -> Result<Octets, Memory> {
    let mut octets = List::new(alloc);
    put_subscriptions(&mut octets)?;
    Ok(octets)
}

/// The headers, and the attributes of all subscriptions.
fn put_subscriptions(octets: &mut Octets) -> Result<(), Memory> {
    octets.extend(&HEADERS)?;
    for id in 0..SUBSCRIPTIONS {
        put_subscription(octets, id)?;
    }
    Ok(())
}

/// The attribute of a request that subscribes, for identifiers only.
fn put_subscription(octets: &mut Octets, id: u8) -> Result<(), Memory> {
    octets.extend(&[0, 0, 0, 0, 0, 0, 0, 13, 0, 0, 2, 0x70])?;
    octets.extend(&[0x60, 0, 0, TARGETS, 0, 0, 0, id, 0, 0, 0, 0])?;
    for target in 0..TARGETS {
        octets.extend(&[0, 4, b't', b'o', id, target])?;
    }
    Ok(())
}
