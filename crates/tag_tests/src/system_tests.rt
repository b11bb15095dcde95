//! The check of a payload against files of a real system.

use crate::payload::{are, is_fault, stated_of};
use coswid_res::{Verdict, verify};
use std::test::Fail;
use std::{fs, io};
use wire_base::FolderFiles;

/// A folder with the file `f`, which holds `abc`.
fn make_folder(rt: &HostRuntime) -> io::Result<()> {
    let _ = fs::remove_dir_all(rt, "verify_folder");
    fs::create_dir(rt, "verify_folder")?;
    fs::write(rt, "verify_folder/f", b"abc".as_slice())
}

/// A name with its initial octets, the name, and the verdict on the file of that name.
const ROWS: [(&[u8], &str, Verdict); 6] = [
    (b"\x6fverify_folder/f", "verify_folder/f", Verdict::Same),
    (b"\x6fverify_folder/g", "verify_folder/g", Verdict::Missing),
    (
        b"\x70/verify_folder/f",
        "/verify_folder/f",
        Verdict::Missing,
    ),
    (b"\x6d/proc/version", "/proc/version", Verdict::Differs),
    (
        b"\x78\x20verify_folder/../verify_folder/f",
        "verify_folder/../verify_folder/f",
        Verdict::Same,
    ),
    (b"\x60", "", Verdict::Missing),
];

/// Whether the file of that name in the system has this verdict.
fn has_verdict(rt: &HostRuntime, name: &[u8], path: &str, verdict: Verdict) -> Result<bool, Fail> {
    let payload = stated_of(rt.alloc(), name)?;
    let mut files = FolderFiles::new(rt.alloc(), rt);
    Ok(are(verify(rt.alloc(), &payload, &mut files), &[(path, verdict)]))
}

#[test]
fn files_of_the_system_are_compared(rt: HostRuntime) -> Result<(), Fail> {
    make_folder(&rt)?;
    for (name, path, verdict) in ROWS.iter() {
        assert!(rt; has_verdict(&rt, name, path, *verdict)?);
    }
    fs::remove_dir_all(&rt, "verify_folder")?;
    Ok(())
}

/// Whether the read of the working folder, `.`, is a fault: it is no file.
fn refuses_a_folder(rt: &HostRuntime) -> Result<bool, Fail> {
    let payload = stated_of(rt.alloc(), b"\x61.")?;
    let mut files = FolderFiles::new(rt.alloc(), rt);
    Ok(is_fault(verify(rt.alloc(), &payload, &mut files), "."))
}

#[test]
fn a_folder_of_the_system_is_a_fault(rt: HostRuntime) -> Result<(), Fail> {
    assert!(rt; refuses_a_folder(&rt)?);
    Ok(())
}
