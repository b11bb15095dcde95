//! Payload and evidence made by hand, written as items and read again.

use cbor_det::{Item, Pairs};
use coswid_res::{
    Evidence, Payload, ResourceEntries, ResourceEntry, evidence_item, evidence_of, payload_item,
    payload_of,
};
use std::alloc::Global;
use std::test::Fail;
use wire_base::{List, Text};

/// The number under tag 1 that stands under key 35 of a map.
fn date_of(item: &Item) -> Option<i64> {
    match item {
        Item::Map(pairs) => match pairs.get_unsigned(35) {
            Some(Item::Tag(1, content)) => number_of(content.get()),
            _ => None,
        },
        _ => None,
    }
}

fn number_of(item: &Item) -> Option<i64> {
    match item {
        Item::Int(number) => Some(*number),
        _ => None,
    }
}

/// The item of evidence that has the date 0 alone.
fn dated(alloc: Global) -> Result<Item, Fail> {
    let evidence = Evidence {
        directory: None,
        file: None,
        process: None,
        resource: None,
        location: None,
        date: Some(0),
        device_id: None,
        extras: Pairs::new(alloc),
    };
    Ok(evidence_item(alloc, &evidence)?)
}

/// Whether the date is written under its tag, and read again.
fn has_date(alloc: Global) -> Result<bool, Fail> {
    let item = dated(alloc)?;
    let read = evidence_of(alloc, &item)?;
    Ok(date_of(&item) == Some(0) && read.date == Some(0))
}

#[test]
fn evidence_is_written_and_read(rt: HostRuntime) -> Result<(), Fail> {
    assert!(rt; has_date(rt.alloc())?);
    Ok(())
}

/// A resource of the type `t`.
fn resources(alloc: Global) -> Result<ResourceEntries, Fail> {
    let mut resources = List::new(alloc);
    resources.push(ResourceEntry {
        resource_type: Text::new(alloc, "t")?,
        extras: Pairs::new(alloc),
    })?;
    Ok(resources)
}

/// The item of a payload that has the resource alone.
fn with_resource(alloc: Global) -> Result<Item, Fail> {
    let payload = Payload {
        directory: None,
        file: None,
        process: None,
        resource: Some(resources(alloc)?),
        extras: Pairs::new(alloc),
    };
    Ok(payload_item(alloc, &payload)?)
}

/// The type of the first resource, where there is one.
fn resource_type(payload: &Payload) -> Option<&str> {
    let resource = payload.resource.as_ref()?.get(0)?;
    Some(resource.resource_type.as_str())
}

/// Whether the resource is read again.
fn has_resource(alloc: Global) -> Result<bool, Fail> {
    let item = with_resource(alloc)?;
    let read = payload_of(alloc, &item)?;
    Ok(resource_type(&read) == Some("t"))
}

#[test]
fn a_payload_is_written_and_read(rt: HostRuntime) -> Result<(), Fail> {
    assert!(rt; has_resource(rt.alloc())?);
    Ok(())
}
