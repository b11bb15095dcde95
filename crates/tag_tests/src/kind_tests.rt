//! The kinds of faults and of findings: each has one number and one name.

use cbor_det::{CborFault, CborFaultKind};
use coswid_links::{LinkFinding, LinkFindingKind};
use coswid_res::FormFaultKind;
use coswid_tag::FindingKind;
use std::alloc::Global;
use std::test::Fail;

/// Faults of items, from 1.
const ITEMS: [&str; 9] = [
    "truncated",
    "malformed",
    "float",
    "simple",
    "range",
    "depth",
    "not UTF-8",
    "duplicate key",
    "too long",
];

/// Form faults, from 1.
const FORMS: [&str; 4] = [
    "missing key",
    "wrong form",
    "both payload and evidence",
    "too deep",
];

/// Findings on a tag, from 1.
const TAGS: [&str; 6] = [
    "patch and supplemental",
    "primary without a version",
    "corpus without a version",
    "patch without a link to what it patches",
    "supplemental without a link to what it adds to",
    "no entity is the tag creator",
];

/// Findings between tags, from 1.
const LINKS: [&str; 4] = [
    "leads to no tag",
    "leads to no primary tag",
    "requires a tag that is not there",
    "one identity with different content",
];

fn is_of_item(alloc: Global, number: u8, name: &str) -> Result<bool, Fail> {
    let fault = CborFault {
        kind: number,
        at: 0,
    };
    let Some(kind) = fault.what() else {
        return Ok(false);
    };
    Ok(kind.number() == number && kind.to_string(alloc)?.as_str() == name)
}

fn is_of_form(alloc: Global, number: u8, name: &str) -> Result<bool, Fail> {
    let Some(kind) = FormFaultKind::from_number(number) else {
        return Ok(false);
    };
    Ok(kind.number() == number && kind.to_string(alloc)?.as_str() == name)
}

fn is_of_tag(alloc: Global, number: u8, name: &str) -> Result<bool, Fail> {
    let Some(kind) = FindingKind::from_number(number) else {
        return Ok(false);
    };
    Ok(kind.number() == number && kind.to_string(alloc)?.as_str() == name)
}

fn is_of_link(alloc: Global, number: u8, name: &str) -> Result<bool, Fail> {
    let finding = LinkFinding {
        kind: number,
        first: 1,
        second: 1,
    };
    let Some(kind) = finding.what() else {
        return Ok(false);
    };
    Ok(kind.number() == number && kind.to_string(alloc)?.as_str() == name)
}

#[test]
fn each_fault_of_an_item_has_a_name(rt: HostRuntime) -> Result<(), Fail> {
    for (place, name) in ITEMS.iter().enumerate() {
        assert!(rt; is_of_item(rt.alloc(), place as u8 + 1, name)?);
    }
    Ok(())
}

#[test]
fn each_form_fault_has_a_name(rt: HostRuntime) -> Result<(), Fail> {
    for (place, name) in FORMS.iter().enumerate() {
        assert!(rt; is_of_form(rt.alloc(), place as u8 + 1, name)?);
    }
    Ok(())
}

#[test]
fn each_finding_on_a_tag_has_a_name(rt: HostRuntime) -> Result<(), Fail> {
    for (place, name) in TAGS.iter().enumerate() {
        assert!(rt; is_of_tag(rt.alloc(), place as u8 + 1, name)?);
    }
    Ok(())
}

#[test]
fn each_finding_between_tags_has_a_name(rt: HostRuntime) -> Result<(), Fail> {
    for (place, name) in LINKS.iter().enumerate() {
        assert!(rt; is_of_link(rt.alloc(), place as u8 + 1, name)?);
    }
    Ok(())
}

#[test]
fn other_numbers_have_no_kind(rt: HostRuntime) {
    let items = CborFaultKind::from_number(0).is_none() & CborFaultKind::from_number(10).is_none();
    let forms = FormFaultKind::from_number(0).is_none() & FormFaultKind::from_number(5).is_none();
    let tags = FindingKind::from_number(0).is_none() & FindingKind::from_number(7).is_none();
    let links = LinkFindingKind::from_number(0).is_none()
        & LinkFindingKind::from_number(5).is_none();
    assert!(rt; items & forms & tags & links);
}
