//! Does what `swid tag verify` does, over standard input and the files of the working folder: the
//! run that is stored beside it checks a tag of two files, of which one is there.
//!
//! It stands on `swid_cli` and `wire_base`.
#![tactic(auto)]

use std::process::ExitCode;
use swid_cli::run_plain;
use wire_base::{FolderFiles, StdinSource, StdoutSink};

fn main(rt: HostRuntime) -> ExitCode {
    let alloc = rt.alloc();
    let mut input = StdinSource::new(rt.stdin());
    let mut output = StdoutSink::new(rt.stdout());
    let mut files = FolderFiles::new(alloc, &rt);
    let status = run_plain(
        alloc,
        &["tag", "verify"],
        &mut input,
        &mut output,
        &mut files,
    );
    ExitCode::from(status)
}
