//! The check of a payload against files in memory: calls that fail, and what is long.

ghost use Rattle.std.specs.Prelude.{None};

use crate::payload::{SHA_256, are, files, is_fault, payload};
use coswid_res::{Payload, Verdict, VerifyRefused, verify};
use std::alloc::Global;
use std::test::Fail;
use wire_base::{FileAnswer, Files, List, MemFiles};

/// Two files, 17: [{7: [1, 00], 24: "a"}, {7: [1, 00], 24: "b"}].
const TWO_FILES: &[u8] =
    b"\xa1\x11\x82\xa2\x07\x82\x01\x41\x00\x18\x18\x61a\xa2\x07\x82\x01\x41\x00\x18\x18\x61b";

/// Both files.
const HELD: [(&str, &[u8]); 2] = [("a", b"abc"), ("b", b"abc")];

/// Whether the answer on the two files, of which these are there, is that the read of `path`
/// failed, where the call of that number fails.
fn fails_at(alloc: Global, held: &[(&str, &[u8])], call: u64, path: &str) -> Result<bool, Fail> {
    let payload = payload(alloc, &[TWO_FILES])?;
    let mut held = files(alloc, held, &[call])?;
    Ok(is_fault(verify(alloc, &payload, &mut held), path))
}

#[test]
fn a_failed_read_is_reported_by_its_path(rt: HostRuntime) -> Result<(), Fail> {
    let alloc = rt.alloc();
    let missing = fails_at(alloc, &[], 1, "a")? & fails_at(alloc, &[], 2, "b")?;
    let held = fails_at(alloc, &HELD, 1, "a")? & fails_at(alloc, &HELD, 2, "b")?;
    assert!(rt; missing & held);
    Ok(())
}

/// Whether the answer on what these octets state is these verdicts, where the call of that number
/// would fail.
fn answers(
    alloc: Global,
    stated: &[u8],
    call: u64,
    wanted: &[(&str, Verdict)],
) -> Result<bool, Fail> {
    let payload = payload(alloc, &[stated])?;
    let mut held = files(alloc, &HELD, &[call])?;
    Ok(are(verify(alloc, &payload, &mut held), wanted))
}

/// The third call would fail.
#[test]
fn each_file_is_read_once(rt: HostRuntime) -> Result<(), Fail> {
    let wanted = [("a", Verdict::Differs), ("b", Verdict::Differs)];
    assert!(rt; answers(rt.alloc(), TWO_FILES, 3, &wanted)?);
    Ok(())
}

/// 17: [{7: [6, 00], 24: "a"}, {24: "b"}], of which neither is read: the first call would fail.
#[test]
fn a_file_is_read_only_for_its_digest(rt: HostRuntime) -> Result<(), Fail> {
    let stated = b"\xa1\x11\x82\xa2\x07\x82\x06\x41\x00\x18\x18\x61a\xa1\x18\x18\x61b";
    let wanted = [
        ("a", Verdict::UnknownAlgorithm(6)),
        ("b", Verdict::Unhashed),
    ];
    assert!(rt; answers(rt.alloc(), stated, 1, &wanted)?);
    Ok(())
}

/// Files of one length, whose octets are not there: a read within its limit gives none.
#[derive(Drop)]
struct LongFiles {
    alloc: Global,
    len: u64,
}

impl Files for LongFiles {
    ghost contents = { λ _. None };

    ghost faults = { λ _. 0 };

    ghost reads = { λ _. None };

    fn read(&mut self, _name: &str, limit: usize) -> FileAnswer {
        if (limit as u64) < self.len {
            return FileAnswer::TooLong(self.len);
        }
        FileAnswer::Content(List::new(self.alloc))
    }
}

/// The payload 17: {7: [1, SHA-256 of abc], 20: 3, 24: "f"}.
fn stated_of_f(alloc: Global) -> Result<Payload, Fail> {
    let stated = [
        b"\xa1\x11\xa3\x07\x82\x01\x58\x20".as_slice(),
        SHA_256,
        b"\x14\x03\x18\x18\x61f",
    ];
    payload(alloc, &stated)
}

/// Whether this is the verdict on the file, where it has that many octets.
fn is_verdict(alloc: Global, len: u64, verdict: Verdict) -> Result<bool, Fail> {
    let payload = stated_of_f(alloc)?;
    let answer = verify(alloc, &payload, &mut LongFiles { alloc, len });
    Ok(are(answer, &[("f", verdict)]))
}

#[test]
fn a_file_may_be_too_long(rt: HostRuntime) -> Result<(), Fail> {
    let alloc = rt.alloc();
    let longest = is_verdict(alloc, 67_108_864, Verdict::Differs)?;
    let longer = is_verdict(alloc, 67_108_865, Verdict::LongFile(67_108_865))?;
    assert!(rt; longest && longer);
    Ok(())
}

/// 16: {24: "d", 26: {16: {24: "e", 26: {17: {24: "x"}}}, 17: {24: "y"}}} and
/// {24: "g", 26: {17: {24: "z"}}}; 17: {24: "w"}.
const NESTED: &[u8] =
    b"\xa2\x10\x82\xa2\x18\x18\x61d\x18\x1a\xa2\x10\xa2\x18\x18\x61e\x18\x1a\xa1\x11\xa1\x18\x18\x61x\x11\xa1\x18\x18\x61y\xa2\x18\x18\x61g\x18\x1a\xa1\x11\xa1\x18\x18\x61z\x11\xa1\x18\x18\x61w";

#[test]
fn files_have_verdicts_before_directories(rt: HostRuntime) -> Result<(), Fail> {
    let wanted = [
        ("w", Verdict::Unhashed),
        ("d/y", Verdict::Unhashed),
        ("d/e/x", Verdict::Unhashed),
        ("g/z", Verdict::Unhashed),
    ];
    assert!(rt; answers(rt.alloc(), NESTED, 1, &wanted)?);
    Ok(())
}

/// 16: {24: a name of `len` octets, 26: {17: `files`}}.
fn long_directory(alloc: Global, len: u32, files: &[u8]) -> Result<Payload, Fail> {
    let name = vec![in alloc; b'a'; len as usize]?;
    let head = b"\xa1\x10\xa2\x18\x18\x7a".as_slice();
    let after = b"\x18\x1a\xa1\x11".as_slice();
    payload(
        alloc,
        &[head, &len.to_be_bytes(), name.as_slice(), after, files],
    )
}

/// How many verdicts there are on 64 files {24: ""} in a directory of a long name.
fn long_verdicts(alloc: Global) -> Result<usize, Fail> {
    let mut named = Vec::from_slice(alloc, b"\x98\x40")?;
    for _ in 0..64 {
        named.extend_from_slice(b"\xa1\x18\x18\x60")?;
    }
    let payload = long_directory(alloc, 1_048_576, named.as_slice())?;
    let verdicts = verify(alloc, &payload, &mut MemFiles::empty(alloc))?;
    Ok(verdicts.len())
}

/// The path of the directory, and that of each file in it, have 1048576 octets: 68157440 together.
#[test]
fn paths_may_be_far_longer_than_the_payload(rt: HostRuntime) -> Result<(), Fail> {
    assert!(rt; long_verdicts(rt.alloc())? == 64);
    Ok(())
}

/// How many octets the path has that is answered where the first read fails, of 16384 files
/// {7: [1, 00], 24: "a"} in a directory of a long name; 0 at another answer.
fn len_of_the_first(alloc: Global) -> Result<usize, Fail> {
    let mut named = Vec::from_slice(alloc, b"\x99\x40\x00")?;
    for _ in 0..16_384 {
        named.extend_from_slice(b"\xa2\x07\x82\x01\x41\x00\x18\x18\x61a")?;
    }
    let payload = long_directory(alloc, 4_194_304, named.as_slice())?;
    match verify(alloc, &payload, &mut files(alloc, &[], &[1])?) {
        Err(VerifyRefused::FileFault { path }) => Ok(path.as_str().len()),
        _ => Ok(0),
    }
}

/// All paths together have more than 2^36 octets.
#[test]
fn no_path_is_made_after_a_fault(rt: HostRuntime) -> Result<(), Fail> {
    assert!(rt; len_of_the_first(rt.alloc())? == 4_194_306);
    Ok(())
}
