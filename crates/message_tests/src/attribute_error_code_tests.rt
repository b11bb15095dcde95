//! The names of the codes of PA-TNC Errors, as RFC 5792, section 4.2.8, and RFC 8412, section 5.15,
//! have them.

use pa_attrs::{AttrFault, PaErrorCode, PaFault};
use std::alloc::Global;
use std::test::Fail;

const NAMES: [(u32, &str); 8] = [
    (1, "Invalid Parameter"),
    (2, "Version Not Supported"),
    (3, "Attribute Type Not Supported"),
    (4, "SWIMA Error"),
    (5, "SWIMA Subscription Denied Error"),
    (6, "SWIMA Response Too Large Error"),
    (7, "SWIMA Subscription Fulfillment Error"),
    (8, "SWIMA Subscription ID Reuse Error"),
];

/// Whether a fault of the code has this number, and is printed by this name.
fn has_name(alloc: Global, code: u32, name: &str) -> Result<bool, Fail> {
    let fault = AttrFault { code, at: 8 };
    let Some(named) = fault.error_code() else {
        return Ok(false);
    };
    let printed = format!(in alloc; "{fault}")?;
    let wanted = format!(in alloc; "{name} at octet 8")?;
    Ok(named.number() == code && printed.as_str() == wanted.as_str())
}

#[test]
fn a_fault_is_printed_by_the_name_of_its_code(rt: HostRuntime) -> Result<(), Fail> {
    for (code, name) in NAMES.iter() {
        assert!(rt; has_name(rt.alloc(), *code, name)?);
    }
    Ok(())
}

/// Whether a fault of a number without a code has none, and is printed by its number.
fn is_printed_by_number(alloc: Global) -> Result<bool, Fail> {
    let fault = PaFault {
        code: 9,
        offset: 3,
        header: [0; 8],
        first: [0; 8],
        answer: true,
    };
    let no_code = fault.error_code().is_none();
    let printed = format!(in alloc; "{fault}")?;
    Ok(no_code & (printed.as_str() == "code 9 at octet 3"))
}

#[test]
fn a_number_without_a_code_is_printed(rt: HostRuntime) -> Result<(), Fail> {
    let no_code = PaErrorCode::from_number(0).is_none();
    let printed = is_printed_by_number(rt.alloc())?;
    assert!(rt; no_code & printed);
    Ok(())
}
