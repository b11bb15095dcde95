//! The command line: words, an input and files in memory, and what is printed with which status.

use conformance_words::{files_of, octets_of, one_line, word_list};
use std::alloc::Global;
use std::str::from_utf8;
use swid_cli::run_plain;
use wire_base::{List, MemSink, MemSource};

/// The most octets of an output.
const MOST: usize = 1 << 16;

/// `command WORD,WORD FILES HEX`, with `-` for no words, no files and no octets: the status, and
/// what is printed with `\n` in place of each end of a line.
pub(crate) fn command(alloc: Global, words: &str) -> Option<String> {
    let (line, rest) = words.split_once(' ')?;
    let (named, digits) = rest.split_once(' ')?;
    let (status, output) = run(alloc, line, named, digits)?;
    let text = one_line(alloc, from_utf8(output.written()).ok()?)?;
    format!(in alloc; "{status} {text}").ok()
}

/// The status, and the sink that was written to.
fn run(alloc: Global, line: &str, named: &str, digits: &str) -> Option<(u8, MemSink)> {
    let octets = octets_of(alloc, digits)?;
    let mut input = MemSource::new(alloc, List::from_vec(octets), &[]).ok()?;
    let mut output = MemSink::new(alloc, MOST, &[]).ok()?;
    let mut files = files_of(alloc, named)?;
    let words = word_list(alloc, line)?;
    let status = run_plain(alloc, words.as_slice(), &mut input, &mut output, &mut files);
    Some((status, output))
}
