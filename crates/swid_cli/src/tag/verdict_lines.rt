//! The lines of verdicts on files.

ghost use Rattle.std.specs.Prelude.{◌≡◌, ◌++◌, IfOk, OnOk};
ghost use Rattle.std.specs.List.{flat_map, list_any};
ghost use Rattle.swid_cli.specs.Checking.{file_line, is_wrong, verdict_text};

use coswid_res::Verdict;
use std::alloc::Global;
use wire_base::{Memory, Octets, Text, put_escaped};

/// Puts a line for each file at the end of `out`: the verdict on it, and its path.
pub(crate) fn put_files(
    alloc: Global,
    out: &mut Octets,
    files: &[(Text, Verdict)],
) -> Result<(), Memory>
    ensures appended { OnOk result (out.new ≡ out.old ++ flat_map file_line files.now) }
{
    for file in files {
        put_file(alloc, out, file)?;
    }
    Ok(())
}

fn put_file(alloc: Global, out: &mut Octets, file: &(Text, Verdict)) -> Result<(), Memory>
    ensures appended { OnOk result (out.new ≡ out.old ++ file_line file.now) }
{
    let (path, verdict) = file;
    out.extend(b"file ")?;
    put_verdict(alloc, out, *verdict)?;
    out.push(b' ')?;
    put_escaped(out, path.as_str().as_bytes())?;
    out.push(b'\n')
}

fn put_verdict(alloc: Global, out: &mut Octets, verdict: Verdict) -> Result<(), Memory>
    ensures appended { OnOk result (out.new ≡ out.old ++ verdict_text verdict) }
{
    match verdict {
        Verdict::Same => out.extend(b"same"),
        Verdict::Differs => out.extend(b"differs"),
        Verdict::Missing => out.extend(b"missing"),
        Verdict::LongFile(len) => {
            let word = format!(in alloc; "long {len}")?;
            out.extend(word.as_bytes())
        }
        Verdict::Unhashed => out.extend(b"unhashed"),
        Verdict::UnknownAlgorithm(number) => {
            let word = format!(in alloc; "algorithm {number}")?;
            out.extend(word.as_bytes())
        }
    }
}

/// Whether a file is not as the tag states, or that can't be determined.
pub(crate) fn has_wrong(files: &[(Text, Verdict)]) -> bool
    ensures wrong { result ≡ list_any (λ file. is_wrong file.1) files.now }
{
    files.iter().any(|file| is_wrong(file.1))
}

fn is_wrong(verdict: Verdict) -> bool
    ensures wrong { result ≡ is_wrong verdict }
{
    match verdict {
        Verdict::Same | Verdict::Unhashed => false,
        Verdict::Differs | Verdict::Missing => true,
        Verdict::LongFile(_) | Verdict::UnknownAlgorithm(_) => true,
    }
}
