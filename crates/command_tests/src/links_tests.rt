//! The command `links`: calls that fail, and inputs of more octets than it looks at.

use crate::long_input::{LongInput, Part};
use crate::run::{prints, prints_failing, prints_part};
use std::alloc::Global;
use std::test::Fail;

/// A tag.
const TAG: &[u8] = b"\xa4\x00\x61a\x01\x61b\x02\xa2\x18\x1f\x61c\x18\x21\x01\x0c\x00";

/// Calls that fail, of the input and of the output.
const FAILING: [(&[u64], &[u64]); 3] = [(&[1], &[]), (&[2], &[]), (&[], &[1])];

#[test]
fn stops_at_failing_calls(rt: HostRuntime) -> Result<(), Fail> {
    for failing in FAILING.iter() {
        assert!(rt; prints_failing(rt.alloc(), &["links"], TAG, *failing, (3, ""))?);
    }
    Ok(())
}

/// Octets with which an input of 67108865 octets begins, one more than are looked at, and what is
/// printed of it: a tag shows its fault within what is looked at. The faults are a break, and a
/// break after a tag.
const BREAKS: [(Part, &str); 2] = [
    ((b"\xff", 67_108_864), "at-tag 1 fault 2 0\n"),
    (
        (
            b"\xa4\x00\x61a\x01\x61b\x02\xa2\x18\x1f\x61c\x18\x21\x01\x0c\x00\xff",
            67_108_846,
        ),
        "at-tag 2 fault 2 0\n",
    ),
];

#[test]
fn a_break_shows_within_the_limit(rt: HostRuntime) -> Result<(), Fail> {
    for (part, text) in BREAKS.iter() {
        assert!(rt; prints_part(rt.alloc(), &["links"], *part, (1, *text))?);
    }
    Ok(())
}

/// The same of a float in a tag, and of a map without an entity.
const FAULTY: [(Part, &str); 2] = [
    (
        (
            b"\xa4\x00\x61a\x01\x61b\x02\xa2\x18\x1f\x61c\x18\x21\x01\x0c\xf9\x00\x00",
            67_108_845,
        ),
        "at-tag 1 fault 3 17\n",
    ),
    (
        (b"\xa3\x00\x61a\x01\x61b\x0c\x00", 67_108_856),
        "at-tag 1 form 1 2\n",
    ),
];

#[test]
fn a_fault_shows_within_the_limit(rt: HostRuntime) -> Result<(), Fail> {
    for (part, text) in FAULTY.iter() {
        assert!(rt; prints_part(rt.alloc(), &["links"], *part, (1, *text))?);
    }
    Ok(())
}

/// Tags of 8388608, 8388607, 8388591, 6710, 15574 and 25 octets: under a key of no table each has a
/// byte string, of octets of any value.
const OF_8388608: Part = (
    b"\xa5\x00\x61a\x01\x61b\x02\xa2\x18\x1f\x61c\x18\x21\x01\x0c\x00\x20\x5a\x00\x7f\xff\xe8",
    8_388_584,
);

const OF_8388607: Part = (
    b"\xa5\x00\x61a\x01\x61b\x02\xa2\x18\x1f\x61c\x18\x21\x01\x0c\x00\x20\x5a\x00\x7f\xff\xe7",
    8_388_583,
);

const OF_8388591: Part = (
    b"\xa5\x00\x61a\x01\x61b\x02\xa2\x18\x1f\x61c\x18\x21\x01\x0c\x00\x20\x5a\x00\x7f\xff\xd7",
    8_388_567,
);

const OF_6710: Part = (
    b"\xa5\x00\x61a\x01\x61b\x02\xa2\x18\x1f\x61c\x18\x21\x01\x0c\x00\x20\x5a\x00\x00\x1a\x1e",
    6_686,
);

const OF_15574: Part = (
    b"\xa5\x00\x61a\x01\x61b\x02\xa2\x18\x1f\x61c\x18\x21\x01\x0c\x00\x20\x5a\x00\x00\x3c\xbe",
    15_550,
);

const OF_25: Part = (
    b"\xa5\x00\x61a\x01\x61b\x02\xa2\x18\x1f\x61c\x18\x21\x01\x0c\x00\x20\x5a\x00\x00\x00\x01",
    1,
);

/// Whether that limit is printed of a tag `count` times and these parts after it, where more octets
/// follow than are looked at.
fn is_beyond(
    alloc: Global,
    tag: Part,
    count: u32,
    last: &[Part],
    limit: &str,
) -> Result<bool, Fail> {
    let input = LongInput::repeated(alloc, tag, count, last)?;
    prints(alloc, &["links"], input, (1, limit))
}

/// The last octet that is looked at ends a tag.
#[test]
fn a_list_goes_on_after_a_tag(rt: HostRuntime) -> Result<(), Fail> {
    let last: [Part; 1] = [(b"", 1)];
    assert!(rt; is_beyond(rt.alloc(), OF_8388608, 8, &last, "limit 67108864\n")?);
    Ok(())
}

/// The last octet that is looked at is the first of a tag.
#[test]
fn a_list_goes_on_after_the_first_octet_of_a_tag(rt: HostRuntime) -> Result<(), Fail> {
    let last: [Part; 2] = [OF_8388607, (b"\xa4", 1)];
    assert!(rt; is_beyond(rt.alloc(), OF_8388608, 7, &last, "limit 67108864\n")?);
    Ok(())
}

/// One octet of a tag of 18 is not looked at.
#[test]
fn a_list_goes_on_before_the_last_octet_of_a_tag(rt: HostRuntime) -> Result<(), Fail> {
    let begun = b"\xa4\x00\x61a\x01\x61b\x02\xa2\x18\x1f\x61c\x18\x21\x01\x0c";
    let last: [Part; 2] = [OF_8388591, (begun, 1)];
    assert!(rt; is_beyond(rt.alloc(), OF_8388608, 7, &last, "limit 67108864\n")?);
    Ok(())
}

/// The last octet that is looked at ends the 10000th tag.
#[test]
fn a_list_goes_on_after_10000_tags(rt: HostRuntime) -> Result<(), Fail> {
    let last: [Part; 2] = [OF_15574, (b"", 1)];
    assert!(rt; is_beyond(rt.alloc(), OF_6710, 9_999, &last, "limit 67108864\n")?);
    Ok(())
}

/// An octet after the 10000th tag is looked at.
#[test]
fn more_tags_begin_within_the_limit(rt: HostRuntime) -> Result<(), Fail> {
    let last: [Part; 1] = [(b"\xff", 67_108_864)];
    assert!(rt; is_beyond(rt.alloc(), OF_25, 10_000, &last, "limit 10000\n")?);
    Ok(())
}
