//! The check of a payload against files: RFC 9393, section 2.9.

ghost use Rattle.std.specs.Prelude.{◌≡◌, ◌∷◌, [], IfOk, OnOk};
ghost use Rattle.std.specs.List.{flat_map};
ghost use Rattle.coswid_res.specs.Listing.{directory_listing, files_listing, listed, listed_file, listed_in, path_listing, stated_file};
ghost use Rattle.coswid_res.specs.Verify.{AddsVerdicts, IsLine, IsVerdicts, Reads, is_fault};
ghost use Rattle.coswid_res.specs.declared.verification.verify.VerifyRefused.TheVariants as refused;
ghost use Rattle.wire_base.specs.Outside.{HasCause};

use crate::resources::directory::{DirEntry, PathElements};
use crate::resources::file::FileEntry;
use crate::resources::payload::Payload;
use crate::verification::directory_path::DirectoryPath;
use crate::verification::verdict::{Verdict, verdict_on};
use std::alloc::Global;
use thiserror::Error;
use wire_base::{Files, List, Memory, Stopped, Text};

/// Paths of files, each with the verdict on its file.
pub type Verdicts = List<(Text, Verdict)>;

/// Why there are no verdicts.
#[derive(Debug, Drop, Error)]
pub enum VerifyRefused {
    /// The read of a file failed.
    #[error("a file was not read")]
    FileFault {
        /// The path of that file.
        path: Text,
    },
    /// Out of memory.
    #[error("out of memory")]
    Memory,
}

impl From<Memory> for VerifyRefused {
    ghost from_gives = { λ _ e. e ≡ refused.Memory };

    fn from(_memory: Memory) -> Self {
        VerifyRefused::Memory
    }
}

/// The verdicts on all files of a payload, files before directories, depth first (RFC 9393,
/// section 2.9). A file is read once for each entry that names it, and only where the hash there is
/// by a known algorithm. `FileFault` exactly where a read failed, with its path; `Memory` where
/// there is no room. Beside the verdicts it holds the path of one directory and that of one file.
pub fn verify<F: Files>(
    alloc: Global,
    payload: &Payload,
    files: &mut F,
) -> Result<Verdicts, VerifyRefused>
    ensures verdicts { IfOk result (λ verdicts. IsVerdicts (F.contents files.old) (listed payload.now) verdicts) }
    ensures contents { F.contents files.new ≡ F.contents files.old }
    ensures cause { HasCause (F.faults files.old) (F.faults files.new) (is_fault result) }
    ensures reads { Reads (listed payload.now) result (F.reads files.old) (F.reads files.new) }
{
    let mut verdicts = List::new(alloc);
    check_payload(files, payload, &mut verdicts)?;
    Ok(verdicts)
}

/// Puts the verdicts on all files of a payload at the end.
fn check_payload<F: Files>(
    files: &mut F,
    payload: &Payload,
    verdicts: &mut Verdicts,
) -> Result<(), VerifyRefused>
    ensures appended { OnOk result (AddsVerdicts (F.contents files.old) (listed payload.now) verdicts.old verdicts.new) }
    ensures contents { F.contents files.new ≡ F.contents files.old }
    ensures cause { HasCause (F.faults files.old) (F.faults files.new) (is_fault result) }
    ensures reads { Reads (listed payload.now) result (F.reads files.old) (F.reads files.new) }
{
    let mut around = DirectoryPath::new(verdicts.allocator());
    check_held(files, &mut around, payload, verdicts)
}

/// Puts the verdicts on all files of a payload at the end, which stand in the directory `around`.
fn check_held<F: Files>(
    files: &mut F,
    around: &mut DirectoryPath,
    payload: &Payload,
    verdicts: &mut Verdicts,
) -> Result<(), VerifyRefused>
    ensures appended { OnOk result (AddsVerdicts (F.contents files.old) (listed_in around.old payload.now) verdicts.old verdicts.new) }
    ensures contents { F.contents files.new ≡ F.contents files.old }
    ensures cause { HasCause (F.faults files.old) (F.faults files.new) (is_fault result) }
    ensures reads { Reads (listed_in around.old payload.now) result (F.reads files.old) (F.reads files.new) }
{
    check_files(files, around, &payload.file, verdicts)?;
    match &payload.directory {
        None => Ok(()),
        Some(directories) => check_directories(files, around, directories, verdicts),
    }
}

/// Puts the verdicts on the files of the directory `around` at the end.
fn check_files<F: Files>(
    files: &mut F,
    around: &DirectoryPath,
    entries: &Option<List<FileEntry>>,
    verdicts: &mut Verdicts,
) -> Result<(), VerifyRefused>
    ensures appended { OnOk result (AddsVerdicts (F.contents files.old) (files_listing entries.now around.now) verdicts.old verdicts.new) }
    ensures contents { F.contents files.new ≡ F.contents files.old }
    ensures cause { HasCause (F.faults files.old) (F.faults files.new) (is_fault result) }
    ensures reads { Reads (files_listing entries.now around.now) result (F.reads files.old) (F.reads files.new) }
{
    let Some(entries) = entries else {
        return Ok(());
    };
    for file in entries.as_slice() {
        check_file(files, around, file, verdicts)?;
    }
    Ok(())
}

/// Puts the verdict on one file of the directory `around` at the end.
fn check_file<F: Files>(
    files: &mut F,
    around: &DirectoryPath,
    file: &FileEntry,
    verdicts: &mut Verdicts,
) -> Result<(), VerifyRefused>
    ensures appended { OnOk result (AddsVerdicts (F.contents files.old) (listed_file around.now file.now ∷ []) verdicts.old verdicts.new) }
    ensures contents { F.contents files.new ≡ F.contents files.old }
    ensures cause { HasCause (F.faults files.old) (F.faults files.new) (is_fault result) }
    ensures reads { Reads (listed_file around.now file.now ∷ []) result (F.reads files.old) (F.reads files.new) }
{
    let path = around.file_path(file)?;
    let line = with_verdict(files, path, file)?;
    verdicts.push(line)?;
    Ok(())
}

/// The path of a file and the verdict on it.
fn with_verdict<F: Files>(
    files: &mut F,
    path: Text,
    file: &FileEntry,
) -> Result<(Text, Verdict), VerifyRefused>
    ensures verdict { IfOk result (IsLine (F.contents files.old) (stated_file path file.now)) }
    ensures contents { F.contents files.new ≡ F.contents files.old }
    ensures cause { HasCause (F.faults files.old) (F.faults files.new) (is_fault result) }
    ensures reads { Reads (stated_file path file.now ∷ []) result (F.reads files.old) (F.reads files.new) }
{
    match verdict_on(files, path.as_str(), file) {
        Ok(verdict) => Ok((path, verdict)),
        Err(Stopped::Fault) => Err(VerifyRefused::FileFault { path }),
        Err(Stopped::Memory) => Err(VerifyRefused::Memory),
    }
}

/// Puts the verdicts on all files of a directory at the end, which stands in the directory
/// `around`. It calls itself as deep as directories stand in directories.
#[cycle(check)]
fn check_directory<F: Files>(
    files: &mut F,
    around: &mut DirectoryPath,
    directory: &DirEntry,
    verdicts: &mut Verdicts,
) -> Result<(), VerifyRefused>
    ensures appended { OnOk result (AddsVerdicts (F.contents files.old) (directory_listing directory.now around.old) verdicts.old verdicts.new) }
    ensures contents { F.contents files.new ≡ F.contents files.old }
    ensures cause { HasCause (F.faults files.old) (F.faults files.new) (is_fault result) }
    ensures reads { Reads (directory_listing directory.now around.old) result (F.reads files.old) (F.reads files.new) }
    ensures around { OnOk result (around.new ≡ around.old) }
{
    let Some(held) = &directory.path_elements else {
        return Ok(());
    };
    let len = around.enter(&directory.location, &directory.fs_name)?;
    check_path(files, around, held, verdicts)?;
    around.leave(len);
    Ok(())
}

#[cycle(check)]
fn check_path<F: Files>(
    files: &mut F,
    around: &mut DirectoryPath,
    held: &PathElements,
    verdicts: &mut Verdicts,
) -> Result<(), VerifyRefused>
    ensures appended { OnOk result (AddsVerdicts (F.contents files.old) (path_listing held.now around.old) verdicts.old verdicts.new) }
    ensures contents { F.contents files.new ≡ F.contents files.old }
    ensures cause { HasCause (F.faults files.old) (F.faults files.new) (is_fault result) }
    ensures reads { Reads (path_listing held.now around.old) result (F.reads files.old) (F.reads files.new) }
    ensures around { OnOk result (around.new ≡ around.old) }
{
    check_files(files, around, &held.file, verdicts)?;
    match &held.directory {
        None => Ok(()),
        Some(directories) => check_directories(files, around, directories, verdicts),
    }
}

#[cycle(check)]
fn check_directories<F: Files>(
    files: &mut F,
    around: &mut DirectoryPath,
    directories: &List<DirEntry>,
    verdicts: &mut Verdicts,
) -> Result<(), VerifyRefused>
    ensures appended { OnOk result (AddsVerdicts (F.contents files.old) (flat_map (λ d. directory_listing d around.old) directories.now) verdicts.old verdicts.new) }
    ensures contents { F.contents files.new ≡ F.contents files.old }
    ensures cause { HasCause (F.faults files.old) (F.faults files.new) (is_fault result) }
    ensures reads { Reads (flat_map (λ d. directory_listing d around.old) directories.now) result (F.reads files.old) (F.reads files.new) }
    ensures around { OnOk result (around.new ≡ around.old) }
{
    for directory in directories.as_slice() {
        check_directory(files, around, directory, verdicts)?;
    }
    Ok(())
}
