//! Payloads, files in memory, and what a check of the former against the latter answers. The digest
//! of `abc` is that of the examples of FIPS 180-2.

use cbor_det::{LARGEST, read_item};
use coswid_res::{Payload, Verdict, Verdicts, VerifyRefused, payload_of};
use std::alloc::Global;
use std::test::Fail;
use wire_base::{List, MemFiles, Memory, NamedFile, Text};

/// The SHA-256 digest of `abc`.
pub(crate) const SHA_256: &[u8] =
    b"\xba\x78\x16\xbf\x8f\x01\xcf\xea\x41\x41\x40\xde\x5d\xae\x22\x23\xb0\x03\x61\xa3\x96\x17\x7a\x9c\xb4\x10\xff\x61\xf2\x00\x15\xad";

/// The payload whose spelling has these parts.
pub(crate) fn payload(alloc: Global, parts: &[&[u8]]) -> Result<Payload, Fail> {
    let mut octets = Vec::new(alloc);
    for part in parts {
        octets.extend_from_slice(part)?;
    }
    let (item, _) = read_item(alloc, octets.as_slice(), LARGEST)?;
    Ok(payload_of(alloc, &item)?)
}

/// The payload 17: {7: [1, SHA-256 of abc], 24: NAME}, the name with its initial octets.
pub(crate) fn stated_of(alloc: Global, name: &[u8]) -> Result<Payload, Fail> {
    let stated = [
        b"\xa1\x11\xa2\x07\x82\x01\x58\x20".as_slice(),
        SHA_256,
        b"\x18\x18",
        name,
    ];
    payload(alloc, &stated)
}

/// Files of these names and contents; the calls of these numbers fail.
pub(crate) fn files(
    alloc: Global,
    held: &[(&str, &[u8])],
    failing: &[u64],
) -> Result<MemFiles, Memory> {
    let mut files = List::new(alloc);
    for (name, content) in held {
        let name = Text::new(alloc, name)?;
        let content = List::from_slice(alloc, content)?;
        files.push(NamedFile { name, content })?;
    }
    MemFiles::new(alloc, files, failing)
}

/// Whether the answer is these paths and verdicts, in order.
pub(crate) fn are(answer: Result<Verdicts, VerifyRefused>, wanted: &[(&str, Verdict)]) -> bool {
    match answer {
        Ok(verdicts) => are_verdicts(verdicts.as_slice(), wanted),
        Err(_) => false,
    }
}

fn are_verdicts(verdicts: &[(Text, Verdict)], wanted: &[(&str, Verdict)]) -> bool {
    let mut same = verdicts.len() == wanted.len();
    for ((path, verdict), (wanted_path, wanted_verdict)) in verdicts.iter().zip(wanted) {
        same = same && path.as_str() == *wanted_path && *verdict == *wanted_verdict;
    }
    same
}

/// Whether the answer is that the read of the file of this path failed.
pub(crate) fn is_fault(answer: Result<Verdicts, VerifyRefused>, wanted: &str) -> bool {
    match answer {
        Err(VerifyRefused::FileFault { path }) => path.as_str() == wanted,
        _ => false,
    }
}
