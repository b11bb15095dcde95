//! Copies of attributes, and whether a fault in the value of one of them is answered.

use pa_attrs::{Attr, ERROR, IETF, PlacedAttr, is_value_fault_answered};
use std::alloc::Global;
use std::test::Fail;
use wire_base::{List, Memory, TryCopy};

/// An attribute of the type with a value of two octets.
fn attribute(alloc: Global, vendor: u32, kind: u32) -> Result<Attr, Memory> {
    Ok(Attr {
        noskip: true,
        vendor,
        kind,
        value: List::from_slice(alloc, b"ab")?,
    })
}

/// Whether that is the attribute of the vendor 9 and the type 14.
fn is_attribute(attr: &Attr) -> bool {
    let named = attr.noskip & (attr.vendor == 9) & (attr.kind == 14);
    named & (attr.value.as_slice() == b"ab".as_slice())
}

/// Whether a copy of a list of one attribute has that one.
fn is_copied(attr: Attr) -> Result<bool, Memory> {
    let mut attrs = List::new(attr.value.allocator());
    attrs.push(attr)?;
    let copy = attrs.copy()?;
    Ok(match copy.as_slice() {
        [attr] => is_attribute(attr),
        _ => false,
    })
}

/// Whether a copy of a list of one attribute with its place has that one.
fn is_copied_with_its_place(attr: Attr) -> Result<bool, Memory> {
    let mut attrs = List::new(attr.value.allocator());
    attrs.push(PlacedAttr { at: 20, attr })?;
    let copy = attrs.copy()?;
    Ok(match copy.as_slice() {
        [placed] => (placed.at == 20) & is_attribute(&placed.attr),
        _ => false,
    })
}

#[test]
fn attributes_are_copied(rt: HostRuntime) -> Result<(), Fail> {
    let alone = is_copied(attribute(rt.alloc(), 9, 14)?)?;
    let placed = is_copied_with_its_place(attribute(rt.alloc(), 9, 14)?)?;
    assert!(rt; alone & placed);
    Ok(())
}

/// Whether a fault is answered in a message of an attribute of this type, after another.
fn is_answered_with(alloc: Global, vendor: u32, kind: u32) -> Result<bool, Memory> {
    let mut attrs = List::new(alloc);
    attrs.push(PlacedAttr {
        at: 20,
        attr: attribute(alloc, 9, 14)?,
    })?;
    attrs.push(PlacedAttr {
        at: 34,
        attr: attribute(alloc, vendor, kind)?,
    })?;
    Ok(is_value_fault_answered(attrs.as_slice()))
}

#[test]
fn no_fault_is_answered_beside_an_error(rt: HostRuntime) -> Result<(), Fail> {
    let alloc = rt.alloc();
    let other_type = is_answered_with(alloc, IETF, 14)?;
    let other_vendor = is_answered_with(alloc, 9, ERROR)?;
    let error = is_answered_with(alloc, IETF, ERROR)?;
    assert!(rt; other_type & other_vendor & !error);
    Ok(())
}
