//! What the words of a command line ask for, and what is printed of words that ask for nothing.

use crate::lent::{fails, prints};
use std::alloc::Global;
use std::test::Fail;
use swid_run::{Plan, plan};

/// Words that are no command line.
const NONE: [&[&str]; 8] = [
    &["mirror"],
    &["mirror", "tags"],
    &["make", "39"],
    &[],
    &["collect"],
    &["collect", "--listen", "a", "--epoch", "0"],
    &["follow"],
    &["follow", "--kind", "all", "a"],
];

#[test]
fn other_words_print_usage(rt: HostRuntime) -> Result<(), Fail> {
    for words in NONE.iter() {
        let printed = prints(rt.alloc(), &rt, *words, &[], (2, "usage\n"))?;
        let failed = fails(rt.alloc(), &rt, *words, &[], 2)?;
        assert!(rt; printed & failed);
    }
    Ok(())
}

#[test]
fn an_empty_input_is_judged(rt: HostRuntime) -> Result<(), Fail> {
    let words = ["mirror", "ids"];
    let printed = prints(rt.alloc(), &rt, &words, &[], (0, "mirror none\n"))?;
    let failed = fails(rt.alloc(), &rt, &words, &[], 3)?;
    assert!(rt; printed & failed);
    Ok(())
}

/// Whether no more is to be made for these words than they say.
fn plans(alloc: Global) -> bool {
    let plain = match plan(alloc, &["mirror", "ids"]) {
        Plan::Plain => true,
        _ => false,
    };
    let usage = match plan(alloc, &["make", "39"]) {
        Plan::Usage => true,
        _ => false,
    };
    plain & usage & plans_collect(alloc) & plans_follow(alloc)
}

fn plans_collect(alloc: Global) -> bool {
    let words = ["collect", "--listen", "here", "--epoch", "7", "one", "two"];
    match plan(alloc, &words) {
        Plan::Collect {
            listen,
            workers,
            names,
        } => match names.as_slice() {
            [one, two] => {
                (listen.as_str() == "here")
                    & (workers == 2)
                    & (one.as_str() == "one")
                    & (two.as_str() == "two")
            }
            _ => false,
        },
        _ => false,
    }
}

fn plans_follow(alloc: Global) -> bool {
    match plan(alloc, &["follow", "--kind", "full", "there"]) {
        Plan::Follow { addresses } => match addresses.as_slice() {
            [there] => there.as_str() == "there",
            _ => false,
        },
        _ => false,
    }
}

#[test]
fn words_say_what_is_to_be_made(rt: HostRuntime) {
    assert!(rt; plans(rt.alloc()));
}
