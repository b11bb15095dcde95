//! The names of the codes of PB-Errors, as RFC 5793, section 4.9.1, has them.

use pb_batch::{PbErrorCode, PbFault};
use std::alloc::Global;
use std::test::Fail;

const NAMES: [(u16, &str); 5] = [
    (0, "Unexpected Batch Type"),
    (1, "Invalid Parameter"),
    (2, "Local Error"),
    (3, "Unsupported Mandatory Message"),
    (4, "Version Not Supported"),
];

/// Whether a fault of the code has this number, and is printed by this name.
fn has_name(alloc: Global, code: u16, name: &str) -> Result<bool, Fail> {
    let fault = PbFault {
        code,
        offset: 8,
        version: 0,
    };
    let Some(named) = fault.error_code() else {
        return Ok(false);
    };
    let printed = format!(in alloc; "{fault}")?;
    let wanted = format!(in alloc; "{name} at octet 8")?;
    Ok(named.number() == code && printed.as_str() == wanted.as_str())
}

#[test]
fn a_fault_is_printed_by_the_name_of_its_code(rt: HostRuntime) -> Result<(), Fail> {
    for (code, name) in NAMES.iter() {
        assert!(rt; has_name(rt.alloc(), *code, name)?);
    }
    Ok(())
}

/// Whether a fault of a number without a code is printed by its number.
fn is_printed_by_number(alloc: Global) -> Result<bool, Fail> {
    let fault = PbFault {
        code: 5,
        offset: 0,
        version: 0,
    };
    let printed = format!(in alloc; "{fault}")?;
    Ok(printed.as_str() == "code 5 at octet 0")
}

#[test]
fn a_number_without_a_code_is_printed(rt: HostRuntime) -> Result<(), Fail> {
    let no_code = PbErrorCode::from_number(5).is_none();
    let printed = is_printed_by_number(rt.alloc())?;
    assert!(rt; no_code & printed);
    Ok(())
}
