//! The command `tag`: calls that fail, and large inputs.

use crate::long_input::Part;
use crate::run::{prints_failing, prints_part};
use std::test::Fail;

/// Byte strings of indefinite length that are not ended, of 8388607, 8388608 and 8388609 octets in
/// all, and what is printed of them.
const UNENDED: [(Part, &str); 3] = [
    (
        (b"\x5f\x5a\x00\x7f\xff\xf9", 8_388_601),
        "fault 1 8388607\n",
    ),
    (
        (b"\x5f\x5a\x00\x7f\xff\xfa", 8_388_602),
        "fault 9 8388608\n",
    ),
    ((b"\x5f\x5a\x00\x7f\xff\xfb", 8_388_603), "limit 8388608\n"),
];

#[test]
fn looks_at_8388608_octets(rt: HostRuntime) -> Result<(), Fail> {
    for (part, line) in UNENDED.iter() {
        assert!(rt; prints_part(rt.alloc(), &["tag"], *part, (1, *line))?);
    }
    Ok(())
}

/// A tag with a software version, with which nothing is wrong.
const TAG: &[u8] = b"\xa5\x00\x61a\x01\x61b\x02\xa2\x18\x1f\x61c\x18\x21\x01\x0c\x00\x0d\x611";

/// Calls that fail, of the input and of the output.
const FAILING: [(&[u64], &[u64]); 3] = [(&[1], &[]), (&[2], &[]), (&[], &[1])];

#[test]
fn stops_at_failing_calls(rt: HostRuntime) -> Result<(), Fail> {
    for failing in FAILING.iter() {
        assert!(rt; prints_failing(rt.alloc(), &["tag"], TAG, *failing, (3, ""))?);
    }
    Ok(())
}
