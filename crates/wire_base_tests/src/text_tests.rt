//! Texts that own their octets, values in boxes, and what is said of refusals.

use std::alloc::Global;
use std::fmt::Display;
use std::test::Fail;
use wire_base::{
    Boxed, ClockRange, Failed, FieldRefused, Memory, Stopped, Text, TextRefused, TryCopy,
};

/// Whether a text and its copy read as this.
fn reads_as(text: Text, wanted: &str) -> Result<bool, Memory> {
    let copy = text.copy()?;
    Ok((copy.as_str() == wanted) & (text.as_str() == wanted))
}

/// Whether a text that is made of a string, and its copy, read as that string.
fn reads_as_its_string(alloc: Global) -> Result<bool, Fail> {
    let name = Text::from_string(String::from_str(alloc, "name")?);
    Ok(reads_as(name, "name")?)
}

#[test]
fn a_text_is_its_octets(rt: HostRuntime) -> Result<(), Fail> {
    let made = reads_as(Text::new(rt.alloc(), "caf\u{e9}")?, "caf\u{e9}")?;
    let taken = reads_as_its_string(rt.alloc())?;
    assert!(rt; made & taken);
    Ok(())
}

/// Whether texts of their own that read so are equal.
fn are_equal(alloc: Global, one: &str, other: &str) -> Result<bool, Memory> {
    Ok(Text::new(alloc, one)? == Text::new(alloc, other)?)
}

#[test]
fn texts_are_compared_by_their_octets(rt: HostRuntime) -> Result<(), Fail> {
    let alloc = rt.alloc();
    let same = are_equal(alloc, "caf\u{e9}", "caf\u{e9}")?;
    let other = are_equal(alloc, "cafe", "caf\u{e9}")?;
    assert!(rt; same & !other);
    Ok(())
}

/// Whether a box, its copy, and what comes out of it are the text `held`.
fn holds_its_value(alloc: Global) -> Result<bool, Memory> {
    let boxed = Boxed::new(alloc, Text::new(alloc, "held")?)?;
    let other = Boxed::new(boxed.allocator(), boxed.copy()?.into_inner())?;
    Ok((other.get().as_str() == "held") & (boxed.get().as_str() == "held"))
}

#[test]
fn a_box_holds_its_value(rt: HostRuntime) -> Result<(), Fail> {
    assert!(rt; holds_its_value(rt.alloc())?);
    Ok(())
}

/// Whether what is said of the refusal is `wanted`.
fn says<D: Display>(alloc: Global, refused: &D, wanted: &str) -> bool {
    match format!(in alloc; "{refused}") {
        Ok(text) => text.as_str() == wanted,
        Err(_) => false,
    }
}

#[test]
fn refusals_say_what_happened(rt: HostRuntime) {
    let alloc = rt.alloc();
    let fields = says(
        alloc,
        &FieldRefused::Fault { offset: 7 },
        "a fault at octet 7",
    );
    let texts = says(
        alloc,
        &TextRefused::Fault { place: 7 },
        "a fault at octet 7",
    );
    let calls = says(alloc, &Stopped::Fault, "a call of the outside failed")
        & says(alloc, &Failed, "the call failed");
    let stamps = says(
        alloc,
        &ClockRange { secs: 7 },
        "second 7 is too late for a stamp",
    );
    let memory = says(alloc, &FieldRefused::Memory, "out of memory")
        & says(alloc, &TextRefused::Memory, "out of memory")
        & says(alloc, &Stopped::Memory, "out of memory")
        & says(alloc, &Memory, "out of memory");
    assert!(rt; fields & texts & stamps & calls & memory);
}
