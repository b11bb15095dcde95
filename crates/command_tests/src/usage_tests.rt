//! Words that are no command line.

use crate::run::prints_failing;
use std::test::Fail;

/// Words that are no command line.
const OTHER_WORDS: [&[&str]; 9] = [
    &[],
    &["mirror"],
    &["tag", "all"],
    &["tag", "verify", "all"],
    &["tags"],
    &["mirror", "tags"],
    &["make", "39"],
    &["mirror", "ids", "full"],
    &["full", "mirror"],
];

/// The input would fail if it were read.
#[test]
fn refuses_other_words(rt: HostRuntime) -> Result<(), Fail> {
    for words in OTHER_WORDS.iter() {
        let failing: (&[u64], &[u64]) = (&[1], &[]);
        assert!(rt; prints_failing(rt.alloc(), words, b"", failing, (2, "usage\n"))?);
    }
    Ok(())
}

#[test]
fn keeps_its_status_where_the_output_fails(rt: HostRuntime) -> Result<(), Fail> {
    for words in OTHER_WORDS.iter() {
        let failing: (&[u64], &[u64]) = (&[], &[1]);
        assert!(rt; prints_failing(rt.alloc(), words, b"", failing, (2, ""))?);
    }
    Ok(())
}
