//! The verdict on one file of a payload.

ghost use Rattle.std.specs.Prelude.{◌≡◌, ◌≤◌, IfOk, IsTrue, Some, length};
ghost use Rattle.coswid_res.specs.Listing.{stated_file};
ghost use Rattle.coswid_res.specs.Verify.{FILE_OCTETS, IsVerdict, algorithm_of, digest, is_read, read_for, read_verdict};
ghost use Rattle.std.specs.Bool.{OnTrue};
ghost use Rattle.std.specs.Str.{bytes_eq};
ghost use Rattle.wire_base.specs.NamedFile.{with_reads};
ghost use Rattle.wire_base.specs.Outside.{HasCause};
ghost use Rattle.wire_base.specs.Passing.{is_fault};

use crate::resources::file::FileEntry;
use crate::resources::hash::HashEntry;
use sha2::{Digest, Sha256, Sha384, Sha512};
use wire_base::{FileAnswer, Files, Memory, Stopped, TryCopy};

/// How a file is beside what a payload states of it.
#[derive(Clone, Copy, Debug, PartialEq, Eq)]
pub enum Verdict {
    /// Its octets have the hash and, where one is stated, the size.
    Same,
    /// Its octets have another hash or another size.
    Differs,
    /// There is no file of its path.
    Missing,
    /// It has that many octets, more than 67108864, and was not looked at.
    LongFile(u64),
    /// No hash is stated; the file was not looked at.
    Unhashed,
    /// The hash is by an algorithm of this number, which is not known; the file was not looked at.
    UnknownAlgorithm(i64),
}

impl TryCopy for Verdict {
    fn copy(&self) -> Result<Self, Memory> {
        Ok(*self)
    }
}

/// An algorithm of a hash.
#[derive(Clone, Copy, Debug, PartialEq, Eq)]
pub(crate) enum Algorithm {
    /// SHA-256 (1).
    Sha256,
    /// SHA-384 (7).
    Sha384,
    /// SHA-512 (8).
    Sha512,
}

/// The most octets of a file that is looked at.
const MOST_FILE_OCTETS: usize = 67_108_864;

impl Algorithm {
    /// The algorithm of this number in the Named Information Hash Algorithm Registry, where it is
    /// known.
    fn from_number(number: i64) -> Option<Self>
        ensures algorithm { result ≡ algorithm_of number }
    {
        match number {
            1 => Some(Algorithm::Sha256),
            7 => Some(Algorithm::Sha384),
            8 => Some(Algorithm::Sha512),
            _ => None,
        }
    }

    /// Whether `value` is what it gives for `content`.
    fn gives(self, content: &[u8], value: &[u8]) -> bool
        ensures same { result ≡ bytes_eq (digest self content.now) value.now }
    {
        match self {
            Algorithm::Sha256 => Sha256::digest(content).as_slice() == value,
            Algorithm::Sha384 => Sha384::digest(content).as_slice() == value,
            Algorithm::Sha512 => Sha512::digest(content).as_slice() == value,
        }
    }
}

/// The verdict on the file of an entry, whose path this is. It is read where its hash is by a known
/// algorithm, and in no other case. A fault exactly where that read failed.
pub(crate) fn verdict_on<F: Files>(
    files: &mut F,
    path: &str,
    file: &FileEntry,
) -> Result<Verdict, Stopped>
    ensures verdict { IfOk result (λ verdict. IsVerdict (F.contents files.old) (stated_file path.now file.now) verdict) }
    ensures contents { F.contents files.new ≡ F.contents files.old }
    ensures cause { HasCause (F.faults files.old) (F.faults files.new) (is_fault result) }
    ensures reads { F.reads files.new ≡ with_reads (read_for (stated_file path.now file.now) result) (F.reads files.old) }
    ensures read { OnTrue (is_fault result) (IsTrue (is_read file.now.hash)) }
{
    let Some(hash) = &file.hash else {
        return Ok(Verdict::Unhashed);
    };
    let Some(algorithm) = Algorithm::from_number(hash.algorithm) else {
        return Ok(Verdict::UnknownAlgorithm(hash.algorithm));
    };
    match files.read(path, MOST_FILE_OCTETS) {
        FileAnswer::Content(octets) => {
            Ok(compared(algorithm, hash, file.size, octets.as_slice()))
        }
        FileAnswer::Missing => Ok(Verdict::Missing),
        FileAnswer::TooLong(len) => Ok(Verdict::LongFile(len)),
        FileAnswer::Failed => Err(Stopped::Fault),
        FileAnswer::Memory => Err(Stopped::Memory),
    }
}

/// The verdict on a file that holds `content`.
fn compared(algorithm: Algorithm, hash: &HashEntry, size: Option<u64>, content: &[u8]) -> Verdict
    requires within { length content.now ≤ FILE_OCTETS }
    ensures verdict { result ≡ read_verdict algorithm hash.now.value size (Some content.now) }
{
    let has_size = match size {
        None => true,
        Some(size) => size == content.len() as u64,
    };
    if has_size && algorithm.gives(content, hash.value.as_slice()) {
        return Verdict::Same;
    }
    Verdict::Differs
}
