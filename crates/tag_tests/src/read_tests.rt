//! Which files a check of a payload reads, by files that expose it.

ghost use Rattle.std.specs.Prelude.{Some};

use crate::payload::{SHA_256, are, files, is_fault, payload};
use coswid_res::{Payload, Verdict, Verdicts, VerifyRefused, verify};
use std::alloc::Global;
use std::test::Fail;
use wire_base::{FileAnswer, Files, MemFiles, Text};

/// Files in memory that note their reads: of each the name that it was given and whether it failed.
#[derive(Drop)]
struct NotedFiles {
    files: MemFiles,
    reads: Vec<(Text, bool)>,
}

impl Files for NotedFiles {
    ghost contents = { λ noted. Some noted.files.files };

    ghost faults = { λ noted. noted.files.faults };

    ghost reads = { λ noted. Some noted.reads.items };

    /// A read of the files in memory, where there is room to note it.
    fn read(&mut self, name: &str, limit: usize) -> FileAnswer {
        let Ok(noted) = Text::new(*self.reads.allocator(), name) else {
            return FileAnswer::Memory;
        };
        if self.reads.reserve(1).is_err() {
            return FileAnswer::Memory;
        }
        match self.files.read(name, limit) {
            FileAnswer::Memory => FileAnswer::Memory,
            FileAnswer::Failed => {
                self.reads.push_reserved((noted, true));
                FileAnswer::Failed
            }
            answer => {
                self.reads.push_reserved((noted, false));
                answer
            }
        }
    }
}

/// Whether these reads were made, in order.
fn were_made(reads: &[(Text, bool)], wanted: &[(&str, bool)]) -> bool {
    let mut same = reads.len() == wanted.len();
    for ((name, failed), (wanted_name, wanted_failed)) in reads.iter().zip(wanted) {
        same = same && name.as_str() == *wanted_name && *failed == *wanted_failed;
    }
    same
}

/// The payload 17: [{24: "u"}, {7: [2, 00], 24: "x"}, {7: [1, 00], 24: "a"}, {7: [1, SHA-256 of
/// abc], 24: "b"}].
fn four_files(alloc: Global) -> Result<Payload, Fail> {
    let stated = [
        b"\xa1\x11\x84\xa1\x18\x18\x61u\xa2\x07\x82\x02\x41\x00\x18\x18\x61x".as_slice(),
        b"\xa2\x07\x82\x01\x41\x00\x18\x18\x61a\xa2\x07\x82\x01\x58\x20",
        SHA_256,
        b"\x18\x18\x61b",
    ];
    payload(alloc, &stated)
}

/// What the four files hold: all of them are there.
const HELD: [(&str, &[u8]); 4] = [("u", b"abc"), ("x", b"abc"), ("a", b"abc"), ("b", b"abc")];

/// The verdicts on the four files.
const VERDICTS: [(&str, Verdict); 4] = [
    ("u", Verdict::Unhashed),
    ("x", Verdict::UnknownAlgorithm(2)),
    ("a", Verdict::Differs),
    ("b", Verdict::Same),
];

/// Whether the answer is the fault of this path, or the verdicts on the four files where there is
/// none.
fn is_answer(answer: Result<Verdicts, VerifyRefused>, fault: Option<&str>) -> bool {
    match fault {
        None => are(answer, &VERDICTS),
        Some(path) => is_fault(answer, path),
    }
}

/// The numbers of the calls that fail, the path of the fault, where there is one, and the reads
/// that are made.
struct Row {
    failing: &'static [u64],
    fault: Option<&'static str>,
    reads: &'static [(&'static str, bool)],
}

/// A third call would fail, and none is made after one that fails.
const ROWS: [Row; 4] = [
    Row {
        failing: &[],
        fault: None,
        reads: &[("a", false), ("b", false)],
    },
    Row {
        failing: &[1, 2],
        fault: Some("a"),
        reads: &[("a", true)],
    },
    Row {
        failing: &[2],
        fault: Some("b"),
        reads: &[("a", false), ("b", true)],
    },
    Row {
        failing: &[3],
        fault: None,
        reads: &[("a", false), ("b", false)],
    },
];

/// Whether the check of the four files answers and reads what the row says.
fn holds(alloc: Global, row: &Row) -> Result<bool, Fail> {
    let payload = four_files(alloc)?;
    let mut noted = NotedFiles {
        files: files(alloc, &HELD, row.failing)?,
        reads: Vec::new(alloc),
    };
    let answer = verify(alloc, &payload, &mut noted);
    Ok(is_answer(answer, row.fault) && were_made(noted.reads.as_slice(), row.reads))
}

#[test]
fn only_files_with_a_known_algorithm_are_read(rt: HostRuntime) -> Result<(), Fail> {
    for row in ROWS.iter() {
        assert!(rt; holds(rt.alloc(), row)?);
    }
    Ok(())
}

/// The payload 17: [{7: [1, 00], 24: "a"}, {7: [1, 00], 24: "a"}], whose file is not there.
fn one_file_twice(alloc: Global) -> Result<Payload, Fail> {
    let stated =
        b"\xa1\x11\x82\xa2\x07\x82\x01\x41\x00\x18\x18\x61a\xa2\x07\x82\x01\x41\x00\x18\x18\x61a";
    payload(alloc, &[stated.as_slice()])
}

/// Whether the file is read twice.
fn reads_twice(alloc: Global) -> Result<bool, Fail> {
    let payload = one_file_twice(alloc)?;
    let mut noted = NotedFiles {
        files: MemFiles::empty(alloc),
        reads: Vec::new(alloc),
    };
    let answer = verify(alloc, &payload, &mut noted);
    let missing = [("a", Verdict::Missing), ("a", Verdict::Missing)];
    let reads = [("a", false), ("a", false)];
    Ok(are(answer, &missing) && were_made(noted.reads.as_slice(), &reads))
}

#[test]
fn a_file_is_read_for_each_entry(rt: HostRuntime) -> Result<(), Fail> {
    assert!(rt; reads_twice(rt.alloc())?);
    Ok(())
}
