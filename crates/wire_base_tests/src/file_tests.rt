//! Files in memory, and files of a real system. The tests make and remove folders in the working
//! folder.

use std::alloc::Global;
use std::fs::File;
use std::io::{ErrorKind, Seek, SeekFrom, Write};
use std::os::unix::fs::{PermissionsExt, symlink};
use std::test::Fail;
use std::{fs, io};
use wire_base::{FileAnswer, Files, FolderFiles, List, MemFiles, Memory, NamedFile, Text};

/// What a read is to answer.
#[derive(Clone, Copy)]
enum Wanted<'a> {
    Content(&'a [u8]),
    Missing,
    TooLong(u64),
    Failed,
}

/// Whether a read of the file `name` answers what is wanted.
fn answers<F: Files>(files: &mut F, name: &str, limit: usize, wanted: Wanted<'_>) -> bool {
    match (files.read(name, limit), wanted) {
        (FileAnswer::Content(content), Wanted::Content(octets)) => content.as_slice() == octets,
        (FileAnswer::Missing, Wanted::Missing) => true,
        (FileAnswer::TooLong(len), Wanted::TooLong(wanted)) => len == wanted,
        (FileAnswer::Failed, Wanted::Failed) => true,
        _ => false,
    }
}

/// Whether each read of these files answers what is wanted, in turn.
fn all_answer<F: Files + Drop>(mut files: F, reads: &[(&str, usize, Wanted<'_>)]) -> bool {
    for (name, limit, wanted) in reads.iter() {
        if !answers(&mut files, name, *limit, *wanted) {
            return false;
        }
    }
    true
}

fn file(alloc: Global, name: &str, content: &[u8]) -> Result<NamedFile, Memory> {
    Ok(NamedFile {
        name: Text::new(alloc, name)?,
        content: List::from_slice(alloc, content)?,
    })
}

/// Two files, and a third with the name of the first.
fn three_files(alloc: Global) -> Result<List<NamedFile>, Memory> {
    let mut files = List::new(alloc);
    files.push(file(alloc, "a", b"abc")?)?;
    files.push(file(alloc, "folder/b", b"")?)?;
    files.push(file(alloc, "a", b"other")?)?;
    Ok(files)
}

/// Whether each read of the three files answers what is wanted, in turn; the calls with these
/// numbers fail.
fn three_answer(
    alloc: Global,
    failing: &[u64],
    reads: &[(&str, usize, Wanted<'_>)],
) -> Result<bool, Memory> {
    let files = MemFiles::new(alloc, three_files(alloc)?, failing)?;
    Ok(all_answer(files, reads))
}

const READS: [(&str, usize, Wanted<'static>); 6] = [
    ("a", 3, Wanted::Content(b"abc")),
    ("a", usize::MAX, Wanted::Content(b"abc")),
    ("a", 2, Wanted::TooLong(3)),
    ("folder/b", 0, Wanted::Content(b"")),
    ("b", 9, Wanted::Missing),
    ("", 9, Wanted::Missing),
];

#[test]
fn files_in_memory_are_found_by_name(rt: HostRuntime) -> Result<(), Fail> {
    let three = three_answer(rt.alloc(), &[], &READS)?;
    let none = all_answer(MemFiles::empty(rt.alloc()), &[("a", 9, Wanted::Missing)]);
    assert!(rt; three & none);
    Ok(())
}

/// Reads of which the first, the third and the fourth fail.
const FAILING_READS: [(&str, usize, Wanted<'static>); 5] = [
    ("a", 3, Wanted::Failed),
    ("a", 3, Wanted::Content(b"abc")),
    ("a", 2, Wanted::Failed),
    ("b", 9, Wanted::Failed),
    ("b", 9, Wanted::Missing),
];

#[test]
fn reads_of_files_in_memory_fail_by_number(rt: HostRuntime) -> Result<(), Fail> {
    assert!(rt; three_answer(rt.alloc(), &[4, 1, 3], &FAILING_READS)?);
    Ok(())
}

/// A folder with a plain file, and links to that file, to nothing and to itself.
fn make_plain(rt: &HostRuntime) -> io::Result<()> {
    let _ = fs::remove_dir_all(rt, "wire_base_plain");
    fs::create_dir(rt, "wire_base_plain")?;
    fs::write(rt, "wire_base_plain/file", b"abc".as_slice())?;
    symlink(rt, "file", "wire_base_plain/link")?;
    symlink(rt, "none", "wire_base_plain/dangling")?;
    symlink(rt, "loop", "wire_base_plain/loop")
}

const SYSTEM_READS: [(&str, usize, Wanted<'static>); 15] = [
    ("wire_base_plain/file", 3, Wanted::Content(b"abc")),
    ("wire_base_plain/file", usize::MAX, Wanted::Content(b"abc")),
    ("wire_base_plain/file", 2, Wanted::TooLong(3)),
    ("wire_base_plain/link", 3, Wanted::Content(b"abc")),
    ("wire_base_plain/none", 9, Wanted::Missing),
    ("wire_base_plain/none/below", 9, Wanted::Missing),
    ("wire_base_plain/file/below", 9, Wanted::Missing),
    ("wire_base_plain/dangling", 9, Wanted::Missing),
    ("/wire_base_plain/file", 9, Wanted::Missing),
    ("", 9, Wanted::Missing),
    ("wire_base_plain", 9, Wanted::Failed),
    ("wire_base_plain/loop", 9, Wanted::Failed),
    ("wire_base_plain/file\0", 9, Wanted::Failed),
    ("/dev/zero", 9, Wanted::Failed),
    ("/proc/self/mem", 9, Wanted::Failed),
];

#[test]
fn files_of_the_system_are_found_by_path(rt: HostRuntime) -> Result<(), Fail> {
    make_plain(&rt)?;
    let found = all_answer(FolderFiles::new(rt.alloc(), &rt), &SYSTEM_READS);
    fs::remove_dir_all(&rt, "wire_base_plain")?;
    assert!(rt; found);
    Ok(())
}

/// Whether what the system said of a read that failed is kept, with the name of the file.
fn keeps_the_fault(rt: &HostRuntime) -> bool {
    let mut files = FolderFiles::new(rt.alloc(), rt);
    let none = files.last_error().is_none() & files.failed_name().is_none();
    let failed = answers(&mut files, "/", 9, Wanted::Failed);
    let named = match files.failed_name() {
        Some(name) => name.as_str() == "/",
        None => false,
    };
    none & failed & named & (files.last_error() == Some(ErrorKind::IsADirectory))
}

#[test]
fn a_fault_of_the_system_is_kept(rt: HostRuntime) {
    assert!(rt; keeps_the_fault(&rt));
}

/// A name of 5000 characters.
fn long_name(alloc: Global) -> Result<Text, Memory> {
    let mut name = String::new(alloc);
    for _ in 0..5000 {
        name.push_str("n")?;
    }
    Ok(Text::from_string(name))
}

/// Whether the read of a file with a name of 5000 characters fails.
fn is_too_long_a_name(rt: &HostRuntime) -> Result<bool, Memory> {
    let name = long_name(rt.alloc())?;
    let files = FolderFiles::new(rt.alloc(), rt);
    Ok(all_answer(files, &[(name.as_str(), 9, Wanted::Failed)]))
}

#[test]
fn a_long_name_is_a_fault(rt: HostRuntime) -> Result<(), Fail> {
    assert!(rt; is_too_long_a_name(&rt)?);
    Ok(())
}

/// A file whose mode lets nobody read it.
fn make_unreadable(rt: &HostRuntime) -> io::Result<()> {
    let _ = fs::remove_file(rt, "wire_base_unreadable");
    fs::write(rt, "wire_base_unreadable", b"abc".as_slice())?;
    fs::set_permissions(rt, "wire_base_unreadable", fs::Permissions::from_mode(0))
}

/// A user who may open the file all the same, as the superuser, is given it; all others meet a
/// fault.
#[test]
fn a_file_that_may_not_be_read_is_a_fault(rt: HostRuntime) -> Result<(), Fail> {
    make_unreadable(&rt)?;
    let wanted = match fs::open(&rt, "wire_base_unreadable") {
        Ok(_) => Wanted::Content(b"abc"),
        Err(_) => Wanted::Failed,
    };
    let reads = [("wire_base_unreadable", 9, wanted)];
    let answered = all_answer(FolderFiles::new(rt.alloc(), &rt), &reads);
    fs::remove_file(&rt, "wire_base_unreadable")?;
    assert!(rt; answered);
    Ok(())
}

/// Whether no more of a file is read than an octet past the limit. The system reports the length 0
/// of files that it makes when they are read, as of one that grows after the look at it.
fn is_read_to_the_limit(rt: &HostRuntime) -> io::Result<bool> {
    let has_no_length = fs::metadata(rt, "/proc/version")?.len() == 0;
    let whole = fs::read(rt, "/proc/version")?;
    let reads = [
        ("/proc/version", 3, Wanted::TooLong(4)),
        ("/proc/version", whole.len(), Wanted::Content(&whole)),
    ];
    Ok(has_no_length & all_answer(FolderFiles::new(rt.alloc(), rt), &reads))
}

#[test]
fn no_more_is_read_than_an_octet_past_the_limit(rt: HostRuntime) -> Result<(), Fail> {
    assert!(rt; is_read_to_the_limit(&rt)?);
    Ok(())
}

/// A file of 67108864 octets that begins with `first` and ends with `last`.
fn make_large(rt: &HostRuntime) -> io::Result<File> {
    let mut large = fs::create(rt, "wire_base_large")?;
    large.write_all(b"first")?;
    large.seek(SeekFrom::Start(67_108_860))?;
    large.write_all(b"last")?;
    Ok(large)
}

fn is_large(answer: FileAnswer) -> bool {
    match answer {
        FileAnswer::Content(content) => {
            let octets = content.as_slice();
            octets.len() == 67_108_864
                && octets.starts_with(b"first\0")
                && octets.ends_with(b"\0last")
        }
        _ => false,
    }
}

/// Whether a file as long as the limit is read whole, and one octet more is too long.
fn large_is_read_to_the_limit(rt: &HostRuntime) -> io::Result<bool> {
    let large = make_large(rt)?;
    let whole = FolderFiles::new(rt.alloc(), rt).read("wire_base_large", 67_108_864);
    large.set_len(67_108_865)?;
    let longer = ("wire_base_large", 67_108_864, Wanted::TooLong(67_108_865));
    let refused = all_answer(FolderFiles::new(rt.alloc(), rt), &[longer]);
    fs::remove_file(rt, "wire_base_large")?;
    Ok(refused & is_large(whole))
}

#[test]
fn a_file_at_the_limit_is_read_whole(rt: HostRuntime) -> Result<(), Fail> {
    assert!(rt; large_is_read_to_the_limit(&rt)?);
    Ok(())
}
