//! Runs of a command over an input, an output and files in memory.

use crate::long_input::{LongInput, Part};
use std::alloc::Global;
use std::test::Fail;
use swid_cli::run_plain;
use wire_base::{List, MemFiles, MemSink, MemSource, Octets, Source};

/// The most octets of an output.
const ROOM: usize = 4_194_304;

/// The status, and what was written, of the words over this input and these files. The calls of
/// these numbers fail, of the output.
pub(crate) fn run<S: Source>(
    alloc: Global,
    words: &[&str],
    input: &mut S,
    files: &mut MemFiles,
    failing: &[u64],
) -> Result<(u8, Octets), Fail> {
    let mut output = MemSink::new(alloc, ROOM, failing)?;
    let status = run_plain(alloc, words, input, &mut output, files);
    Ok((status, List::from_slice(alloc, output.written())?))
}

/// Whether the answer has that status and that text.
pub(crate) fn is_printed(answer: (u8, Octets), wanted: (u8, &str)) -> bool {
    answer.0 == wanted.0 && answer.1.as_slice() == wanted.1.as_bytes()
}

/// Whether that status comes of the words over this input, and that text is written. The calls of
/// these numbers fail, of the input and of the output.
pub(crate) fn prints_failing(
    alloc: Global,
    words: &[&str],
    input: &[u8],
    failing: (&[u64], &[u64]),
    wanted: (u8, &str),
) -> Result<bool, Fail> {
    let mut input = MemSource::new(alloc, List::from_slice(alloc, input)?, failing.0)?;
    let mut files = MemFiles::empty(alloc);
    Ok(is_printed(
        run(alloc, words, &mut input, &mut files, failing.1)?,
        wanted,
    ))
}

/// The same of a long input, where no call fails.
pub(crate) fn prints(
    alloc: Global,
    words: &[&str],
    mut input: LongInput,
    wanted: (u8, &str),
) -> Result<bool, Fail> {
    let mut files = MemFiles::empty(alloc);
    Ok(is_printed(run(alloc, words, &mut input, &mut files, &[])?, wanted))
}

/// The same of an input of one part.
pub(crate) fn prints_part(
    alloc: Global,
    words: &[&str],
    part: Part,
    wanted: (u8, &str),
) -> Result<bool, Fail> {
    prints(alloc, words, LongInput::new(alloc, &[part])?, wanted)
}
