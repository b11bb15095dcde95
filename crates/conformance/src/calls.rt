//! The calls that rows name, one function a library.

use crate::held::Held;
use crate::{command, text};
use conformance_inventory::{book, log, mirror};
use conformance_messages::{attributes, batches, errors, machine, report, request, status, stream};
use conformance_sessions::{collector, lines, session_links, validator};
use conformance_tags::{cbor, links, payload, tag};
use std::alloc::Global;

/// What the call gives for the words after it in a row; `None` where there is no such call, the
/// words are none of its, or memory ran out.
pub(crate) fn answer(alloc: Global, held: &mut Held, call: &str, words: &str) -> Option<String> {
    match call {
        "mirror" => mirror::step(alloc, &mut held.mirror, words),
        "log" => log::step(alloc, &mut held.log, words),
        "book" => book::step(alloc, &mut held.book, words),
        "machine" => machine::step(alloc, &mut held.client, &mut held.server, words),
        "command" => command::command(alloc, words),
        "stamp" => text::stamp(alloc, words),
        "is_stamp" => text::stamp_test(alloc, words),
        "escaped" => text::escaped(alloc, words),
        "unescaped" => text::unescaped(alloc, words),
        "decimal" => text::decimal(alloc, words),
        other => of_attributes(alloc, other, words),
    }
}

/// The same for the calls of attributes, and for those of the functions below.
fn of_attributes(alloc: Global, call: &str, words: &str) -> Option<String> {
    match call {
        "message" => attributes::message(alloc, words),
        "message_written" => attributes::message_written(alloc, words),
        "value_fault" => attributes::fault_of_value(alloc, words),
        "reported" => errors::reported(alloc, words),
        "error" => errors::error(alloc, words),
        "error_read" => errors::error_read(alloc, words),
        "error_written" => errors::error_written(alloc, words),
        "request" => request::request(alloc, words),
        "request_written" => request::request_written(alloc, words),
        "status" => status::status(alloc, words),
        "status_written" => status::status_written(alloc, words),
        "status_fits" => status::fits(alloc, words),
        "report" => report::report(alloc, words),
        "report_written" => report::report_written(alloc, words),
        other => of_batches(alloc, other, words),
    }
}

/// The same for the calls of batches and of streams of attributes, and for those below.
fn of_batches(alloc: Global, call: &str, words: &str) -> Option<String> {
    match call {
        "stream" => stream::stream(alloc, words),
        "stream_on" => stream::stream_on(alloc, words),
        "header" => stream::header(alloc, words),
        "feed" => batches::feed(alloc, words),
        "feed_on" => batches::feed_on(alloc, words),
        "batch" => batches::batch(alloc, words),
        "batch_written" => batches::batch_written(alloc, words),
        "fault_batch" => batches::fault_of(alloc, words),
        other => of_tags(alloc, other, words),
    }
}

/// The same for the calls of tags, and for those below.
fn of_tags(alloc: Global, call: &str, words: &str) -> Option<String> {
    match call {
        "cbor" => cbor::item(alloc, words),
        "tag" => tag::tag(alloc, words),
        "tag_text" => tag::text(alloc, words),
        "tag_summary" => tag::summary(alloc, words),
        "verify" => payload::verdicts(alloc, words),
        "links" => links::links(alloc, words),
        other => of_sessions(alloc, other, words),
    }
}

/// The same for the calls of sessions and of sources.
fn of_sessions(alloc: Global, call: &str, words: &str) -> Option<String> {
    match call {
        "collector" => collector::collector(alloc, words),
        "collector_cut" => collector::cut(alloc, words),
        "validator" => validator::validator(alloc, words),
        "validator_cut" => validator::cut(alloc, words),
        "collector_link" => session_links::collector(alloc, words),
        "validator_link" => session_links::validator(alloc, words),
        "lines" => lines::lines(alloc, words),
        _ => None,
    }
}
