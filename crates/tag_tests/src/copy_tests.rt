//! Copies of what is found.

use coswid_links::LinkFinding;
use coswid_res::Verdict;
use std::test::Fail;
use wire_base::TryCopy;

#[test]
fn what_is_found_is_copied(rt: HostRuntime) -> Result<(), Fail> {
    let verdict = Verdict::LongFile(67_108_865);
    let finding = LinkFinding {
        kind: 4,
        first: 1,
        second: 2,
    };
    assert!(rt; verdict.copy() == Ok(verdict) && finding.copy() == Ok(finding));
    Ok(())
}
