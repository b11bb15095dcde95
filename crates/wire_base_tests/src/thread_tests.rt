//! What sessions in threads hold may go to another thread.

use std::fs::File;
use std::net::TcpListener;
use std::num::NonZeroU32;
use std::test::Fail;
use wire_base::{FileSource, List, ListenDoor, MemClock, MemDoor};

/// Takes what may go to another thread.
fn expect_send<T: Send + Drop>(_value: T) {}

#[test]
fn doors_and_sources_may_go_to_another_thread(rt: HostRuntime) -> Result<(), Fail> {
    let alloc = rt.alloc();
    expect_send::<MemDoor>(MemDoor::new(alloc, List::new(alloc), &[])?);
    expect_send::<MemClock>(MemClock::new(List::new(alloc), 0));
    expect_send::<ListenDoor<TcpListener>>(ListenDoor::new(None, NonZeroU32::MIN));
    expect_send::<FileSource<File>>(FileSource::open(&rt, "thread_tests_none"));
    Ok(())
}
