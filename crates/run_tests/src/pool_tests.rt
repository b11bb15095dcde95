//! `collect` and `follow`: what they print, what they write, and their status.

use crate::lent::{fails, prints, prints_of_no_link, try_run};
use session_pool::OpenGate;
use std::alloc::Global;
use std::sync::Wait;
use std::test::Fail;
use std::thread::Threads;
use test_talks::{COLLECTOR, COLLECTOR_OF_ONE, VALIDATOR};
use wire_base::Memory;

/// Whether a command line ends with a status, prints a text, and writes octets at its one door.
fn comes_to<R: Threads + Wait + Sync>(
    alloc: Global,
    rt: &R,
    words: &[&str],
    octets: &[u8],
    expected: (u8, &str, &[u8]),
) -> Result<bool, Memory> {
    stops_with(alloc, rt, words, octets, &[], &[], expected)
}

/// The same where those calls of each source fail, and the clock gives these moments first.
fn stops_with<R: Threads + Wait + Sync>(
    alloc: Global,
    rt: &R,
    words: &[&str],
    octets: &[u8],
    no_octet: &[u64],
    moments: &[u64],
    expected: (u8, &str, &[u8]),
) -> Result<bool, Memory> {
    let ran = try_run(
        alloc,
        rt,
        words,
        octets,
        &[],
        &[],
        no_octet,
        moments,
        &OpenGate,
    )?;
    let given = match ran.doors.as_slice() {
        [stand] => match stand.door.returned() {
            [link] => link.given() == expected.2,
            _ => false,
        },
        _ => false,
    };
    Ok((ran.status == expected.0) & (ran.output.written() == expected.1.as_bytes()) & given)
}

/// One worker at epoch 7.
const COLLECT: [&str; 7] = ["collect", "--listen", "a", "--epoch", "7", "--workers", "1"];

#[test]
fn nothing_is_collected(rt: HostRuntime) -> Result<(), Fail> {
    let text = "session 1.1 reports 1 peer-closed\nswept 0 0 0 0\nbook 7 0 0\n";
    assert!(rt; comes_to(rt.alloc(), &rt, &COLLECT, VALIDATOR, (0, text, COLLECTOR))?);
    Ok(())
}

/// The same with a source and two sweeps.
const SWEPT: [&str; 10] = [
    "collect",
    "--listen",
    "a",
    "--epoch",
    "7",
    "--workers",
    "1",
    "--sweeps",
    "2",
    "lines",
];

#[test]
fn a_source_ends_in_the_second_sweep(rt: HostRuntime) -> Result<(), Fail> {
    let text = "session 1.1 reports 1 peer-closed\nswept 1 0 1 1\nbook 7 2 0\n";
    assert!(rt; prints(rt.alloc(), &rt, &SWEPT, VALIDATOR, (0, text))?);
    Ok(())
}

/// The same with three sweeps.
const SWEPT_THRICE: [&str; 10] = [
    "collect",
    "--listen",
    "a",
    "--epoch",
    "7",
    "--workers",
    "1",
    "--sweeps",
    "3",
    "lines",
];

#[test]
fn a_source_that_fails_stops_the_sweeping_alone(rt: HostRuntime) -> Result<(), Fail> {
    let text = "session 1.1 reports 1 peer-closed\n\
                swept 1 0 0 0\nstopped source-failed\nbook 7 1 1\n";
    // The first two lines have 66 octets.
    assert!(rt;
        stops_with(
            rt.alloc(),
            &rt,
            &SWEPT_THRICE,
            VALIDATOR,
            &[68],
            &[],
            (3, text, COLLECTOR_OF_ONE)
        )?
    );
    Ok(())
}

#[test]
fn a_moment_past_the_range_stops_the_sweeping_alone(rt: HostRuntime) -> Result<(), Fail> {
    let text = "session 1.1 reports 1 peer-closed\nswept 0 0 0 0\nstopped clock\nbook 7 0 0\n";
    assert!(rt;
        stops_with(
            rt.alloc(),
            &rt,
            &SWEPT_THRICE,
            VALIDATOR,
            &[],
            &[4_294_967_296],
            (1, text, COLLECTOR)
        )?
    );
    Ok(())
}

#[test]
fn an_inventory_is_followed(rt: HostRuntime) -> Result<(), Fail> {
    let text = "session 1.1 reports 1 closed\nendpoint 1\nmirror 7 0 0\n";
    assert!(rt;
        comes_to(
            rt.alloc(),
            &rt,
            &["follow", "a"],
            COLLECTOR,
            (0, text, VALIDATOR)
        )?
    );
    Ok(())
}

#[test]
fn two_inventories_are_followed(rt: HostRuntime) -> Result<(), Fail> {
    let text = "session 1.1 reports 1 closed\nendpoint 1\nmirror 7 0 0\n\
                session 2.1 reports 1 closed\nendpoint 2\nmirror 7 0 0\n";
    assert!(rt; prints(rt.alloc(), &rt, &["follow", "a", "b"], COLLECTOR, (0, text))?);
    Ok(())
}

#[test]
fn a_door_that_fails_is_a_fault(rt: HostRuntime) -> Result<(), Fail> {
    let text = "door 1 failed\nswept 0 0 0 0\nbook 7 0 0\n";
    let collects = prints_of_no_link(rt.alloc(), &rt, &COLLECT, (3, text))?;
    let text = "door 1 failed\nendpoint 1\nmirror none\n";
    let follows = prints_of_no_link(rt.alloc(), &rt, &["follow", "a"], (3, text))?;
    assert!(rt; collects & follows);
    Ok(())
}

#[test]
fn a_torn_session_is_a_finding(rt: HostRuntime) -> Result<(), Fail> {
    let text = "session 1.1 reports 0 torn 3\nswept 0 0 0 0\nbook 7 0 0\n";
    assert!(rt; prints(rt.alloc(), &rt, &COLLECT, &[0x02, 0x80, 0x00], (1, text))?);
    Ok(())
}

#[test]
fn an_output_that_fails_is_a_fault(rt: HostRuntime) -> Result<(), Fail> {
    let collects = fails(rt.alloc(), &rt, &COLLECT, VALIDATOR, 3)?;
    let follows = fails(rt.alloc(), &rt, &["follow", "a"], COLLECTOR, 3)?;
    assert!(rt; collects & follows);
    Ok(())
}
