//! Words that are options of `collect` or `follow`, and words that are none.

use command_options::{OptionsRefused, Texts, collect_options, follow_options};
use std::alloc::Global;
use swima_model::Kind;

/// Whether texts are these words.
fn are(texts: &Texts, words: &[&str]) -> bool {
    for place in 0..words.len() {
        match texts.get(place) {
            Some(text) if text.as_str() == words[place] => {}
            _ => return false,
        }
    }
    texts.len() == words.len()
}

/// Whether the words after `collect` say the address `a`, these numbers, which are epoch, cap,
/// workers, sessions and sweeps, and these names.
fn collects(alloc: Global, words: &[&str], numbers: [u32; 5], names: &[&str]) -> bool {
    let Ok(said) = collect_options(alloc, words) else {
        return false;
    };
    said.listen.as_str() == "a"
        && [
            said.epoch,
            said.cap,
            said.workers,
            said.sessions,
            said.sweeps,
        ] == numbers
        && are(&said.names, names)
}

/// Whether the words after `follow` say these options, with these numbers of rounds and sessions.
fn follows(
    alloc: Global,
    words: &[&str],
    kind: Kind,
    subscribe: bool,
    numbers: [u32; 2],
    addresses: &[&str],
) -> bool {
    let Ok(said) = follow_options(alloc, words) else {
        return false;
    };
    said.kind == kind
        && said.subscribe == subscribe
        && [said.rounds, said.sessions] == numbers
        && are(&said.addresses, addresses)
}

/// Whether all of these words are no options of `collect`.
fn collect_refuses(alloc: Global, lines: &[&[&str]]) -> bool {
    for words in lines {
        match collect_options(alloc, words) {
            Err(OptionsRefused::Usage) => {}
            _ => return false,
        }
    }
    true
}

/// Whether all of these words are no options of `follow`.
fn follow_refuses(alloc: Global, lines: &[&[&str]]) -> bool {
    for words in lines {
        match follow_options(alloc, words) {
            Err(OptionsRefused::Usage) => {}
            _ => return false,
        }
    }
    true
}

#[test]
fn reads_the_fewest_words_of_collect(rt: HostRuntime) {
    let words = ["--listen", "a", "--epoch", "7"];
    assert!(rt; collects(rt.alloc(), &words, [7, 1024, 2, 1, 1], &[]));
}

#[test]
fn reads_more_words_of_collect(rt: HostRuntime) {
    let words = [
        "--listen=a",
        "--epoch",
        "+7",
        "--cap=4096",
        "x",
        "--",
        "--y",
    ];
    assert!(rt; collects(rt.alloc(), &words, [7, 4096, 2, 1, 1], &["x", "--y"]));
}

#[test]
fn refuses_other_words_of_collect(rt: HostRuntime) {
    let lines: [&[&str]; 6] = [
        &["--help"],
        &["--listen", "a"],
        &["--listen", "a", "--epoch", "0"],
        &["--listen", "a", "--epoch", "4294967296"],
        &["--listen", "a", "--epoch", "7", "--epoch", "7"],
        &["--listen", "a", "x", "--epoch", "7", "y"],
    ];
    assert!(rt; collect_refuses(rt.alloc(), &lines));
}

#[test]
fn reads_words_of_follow(rt: HostRuntime) {
    let words = [
        "--kind",
        "full",
        "--subscribe",
        "yes",
        "--rounds",
        "3",
        "--sessions=9",
        "a",
    ];
    assert!(rt; follows(rt.alloc(), &words, Kind::Full, true, [3, 9], &["a"]));
}

#[test]
fn refuses_other_words_of_follow(rt: HostRuntime) {
    let lines: [&[&str]; 4] = [
        &["--kind", "full"],
        &["--kind", "most", "a"],
        &["--subscribe", "true", "a"],
        &["--rounds", "0", "a"],
    ];
    assert!(rt; follow_refuses(rt.alloc(), &lines));
}
