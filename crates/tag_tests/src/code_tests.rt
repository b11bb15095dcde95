//! Relations of links (RFC 9393, section 4.4): numbers, and texts that name them.

use coswid_tag::{CodeValue, Rel};
use std::alloc::Global;
use std::test::Fail;
use wire_base::Text;

/// Whether the text is the relation.
fn is_text(alloc: Global, rel: Rel, name: &str) -> Result<bool, Fail> {
    let code = CodeValue::Text(Text::new(alloc, name)?);
    Ok(rel.is(&code))
}

#[test]
fn a_relation_is_a_number_or_its_name(rt: HostRuntime) -> Result<(), Fail> {
    let patches = is_text(rt.alloc(), Rel::Patches, "patches")?;
    let required = is_text(rt.alloc(), Rel::Requires, "requires")?;
    let supplemental = is_text(rt.alloc(), Rel::Supplemental, "supplemental")?;
    let other_name = is_text(rt.alloc(), Rel::Requires, "8")?;
    assert!(rt; patches && required && supplemental && !other_name);
    Ok(())
}

/// Whether the number is the relation.
fn is_number(rel: Rel, number: i64) -> bool {
    let code = CodeValue::Int(number);
    rel.is(&code)
}

#[test]
fn a_relation_has_one_number(rt: HostRuntime) {
    let patches = is_number(Rel::Patches, 7);
    let required = is_number(Rel::Requires, 8);
    let supplemental = is_number(Rel::Supplemental, 11);
    let other_number = is_number(Rel::Requires, -8);
    assert!(rt; patches && required && supplemental && !other_number);
}
