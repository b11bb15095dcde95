//! What refusals say.

use cbor_det::{CborFault, CborRefused, PairRefused};
use coswid_codec::TagRefused;
use coswid_res::{FormFaultKind, FormRefused, VerifyRefused};
use coswid_tag::IdentRefused;
use std::alloc::Global;
use std::fmt::Display;
use std::test::Fail;
use wire_base::Text;

/// Whether it says so.
fn says<E: Display + Drop>(alloc: Global, refused: E, text: &str) -> Result<bool, Fail> {
    Ok(refused.to_string(alloc)?.as_str() == text)
}

/// Whether the fault of a payload whose file at the index 0 has no name says its path.
fn says_its_path(alloc: Global) -> Result<bool, Fail> {
    let file = FormRefused::with_place(alloc, FormFaultKind::MissingKey, 24).under(0);
    says(alloc, file.under(17).under(6), "missing key at 6/17/0/24")
}

#[test]
fn a_form_fault_says_its_path(rt: HostRuntime) -> Result<(), Fail> {
    let alloc = rt.alloc();
    let path = says_its_path(alloc)?;
    let item = says(
        alloc,
        FormRefused::new(alloc, FormFaultKind::Both),
        "both payload and evidence at .",
    )?;
    assert!(rt; path && item);
    Ok(())
}

#[test]
fn an_item_fault_says_its_place(rt: HostRuntime) -> Result<(), Fail> {
    let alloc = rt.alloc();
    let fault = CborFault { kind: 8, at: 3 };
    let text = "duplicate key at octet 3";
    let of_item = says(alloc, CborRefused::Fault(fault), text)?;
    let of_tag = says(alloc, TagRefused::Cbor(fault), text)?;
    let of_pair = says(alloc, PairRefused::Doubled, "the key is held already")?;
    assert!(rt; of_item && of_tag && of_pair);
    Ok(())
}

/// The refusal of a read of the file `f`.
fn not_read(alloc: Global) -> Result<VerifyRefused, Fail> {
    Ok(VerifyRefused::FileFault {
        path: Text::new(alloc, "f")?,
    })
}

#[test]
fn what_a_tag_states_may_be_refused(rt: HostRuntime) -> Result<(), Fail> {
    let alloc = rt.alloc();
    let long = IdentRefused::TooLong { len: 65_536 };
    let too_long = says(alloc, long, "the identifier has 65536 octets")?;
    let file = says(alloc, not_read(alloc)?, "a file was not read")?;
    assert!(rt; too_long && file);
    Ok(())
}
