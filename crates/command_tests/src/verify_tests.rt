//! The command `tag verify`: reads of files that fail or would fail, and a file that is too long.

use crate::run::{is_printed, run};
use std::alloc::Global;
use std::test::Fail;
use wire_base::{List, MemFiles, MemSource, NamedFile, Octets, Text};

/// The hexadecimal digits of a tag whose payload is the file `f` with the SHA-256 digest and the
/// size of `abc`.
const TAG: &str =
    "a600616101616202a2181f616318210106a111a30782015820ba7816bf8f01cfea414140de5dae2223b00361a396177a9cb410ff61f20015ad1403181861660c000d6131";

/// The status, and what was written, of `tag verify` over this input and the file `f` of this
/// content; the call of that number fails.
fn verify(alloc: Global, input: Vec<u8>, content: Octets, call: u64) -> Result<(u8, Octets), Fail> {
    let mut input = MemSource::new(alloc, List::from_vec(input), &[])?;
    let mut files = List::new(alloc);
    files.push(NamedFile {
        name: Text::new(alloc, "f")?,
        content,
    })?;
    let mut files = MemFiles::new(alloc, files, &[call])?;
    run(alloc, &["tag", "verify"], &mut input, &mut files, &[])
}

/// Whether that status comes of this input and the file `f`, which holds `abc`, and that text is
/// written; the call of that number fails.
fn prints(alloc: Global, input: Vec<u8>, call: u64, wanted: (u8, &str)) -> Result<bool, Fail> {
    let content = List::from_slice(alloc, b"abc")?;
    Ok(is_printed(verify(alloc, input, content, call)?, wanted))
}

/// Whether the fault of an octet that is no tag is printed, where a read of a file would fail.
fn prints_the_fault(alloc: Global) -> Result<bool, Fail> {
    let input = Vec::from_slice(alloc, b"\xff")?;
    prints(alloc, input, 1, (1, "fault 2 0\n"))
}

#[test]
fn looks_at_no_file_of_what_is_no_tag(rt: HostRuntime) -> Result<(), Fail> {
    assert!(rt; prints_the_fault(rt.alloc())?);
    Ok(())
}

/// Whether nothing is printed of the tag, where the read of its file fails.
fn prints_nothing(alloc: Global) -> Result<bool, Fail> {
    let input = hex::decode(alloc, TAG)?;
    prints(alloc, input, 1, (3, ""))
}

#[test]
fn prints_nothing_where_a_file_was_not_read(rt: HostRuntime) -> Result<(), Fail> {
    assert!(rt; prints_nothing(rt.alloc())?);
    Ok(())
}

/// What is printed of the tag with this line of its file.
fn text(alloc: Global, line: &str) -> Result<String, Fail> {
    let before = "tag primary\nident invalid.unavailable__a\n";
    Ok(format!(in alloc; "{before}{line}canonical 73 da53574944{TAG}\n")?)
}

/// Whether the file with this content has this line, where the second call would fail.
fn prints_line(alloc: Global, content: Octets, status: u8, line: &str) -> Result<bool, Fail> {
    let input = hex::decode(alloc, TAG)?;
    let answer = verify(alloc, input, content, 2)?;
    let text = text(alloc, line)?;
    Ok(is_printed(answer, (status, text.as_str())))
}

/// Whether a file that holds `abc` has the line of a file that is the same.
fn prints_that_it_is_the_same(alloc: Global) -> Result<bool, Fail> {
    let content = List::from_slice(alloc, b"abc")?;
    prints_line(alloc, content, 0, "file same f\n")
}

#[test]
fn reads_a_file_once(rt: HostRuntime) -> Result<(), Fail> {
    assert!(rt; prints_that_it_is_the_same(rt.alloc())?);
    Ok(())
}

/// 67108865 octets, one more than are looked at of a file: 1024 pieces of 65536 octets, and one.
fn zeros(alloc: Global) -> Result<Vec<u8>, Fail> {
    let piece = vec![in alloc; 0; 65_536]?;
    let mut zeros = Vec::with_capacity(alloc, 67_108_865)?;
    for _ in 0..1024 {
        zeros.extend_from_slice(piece.as_slice())?;
    }
    zeros.push(0)?;
    Ok(zeros)
}

/// Whether a file of one octet too many has the line of a file that is too long.
fn prints_that_it_is_long(alloc: Global) -> Result<bool, Fail> {
    let content = List::from_vec(zeros(alloc)?);
    prints_line(alloc, content, 1, "file long 67108865 f\n")
}

#[test]
fn prints_how_long_a_file_is(rt: HostRuntime) -> Result<(), Fail> {
    assert!(rt; prints_that_it_is_long(rt.alloc())?);
    Ok(())
}
