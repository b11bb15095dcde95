//! Sources and sinks, in memory and over readers and writers, and their calls that fail in
//! mid-stream.

use std::alloc::Global;
use std::io;
use std::io::{ErrorKind, Read, Write};
use std::test::Fail;
use wire_base::{
    Failed, List, MemSink, MemSource, Memory, NoFaultSink, NoFaultSource, Octets, Sink, Source,
    StdinSource, StdoutSink, Stopped, TryCopy, fill, write_all,
};

/// Whether the next read of two octets at most gives these.
fn gives<S: Source>(source: &mut S, wanted: &[u8]) -> bool {
    let mut buf = [0; 2];
    match source.read(&mut buf) {
        Ok(count) => &buf[..count] == wanted,
        Err(Failed) => false,
    }
}

fn fails<S: Source>(source: &mut S) -> bool {
    source.read(&mut [0; 2]) == Err(Failed)
}

/// Whether a source whose second and fourth call fail gives all its octets in the others.
fn loses_nothing(alloc: Global) -> Result<bool, Memory> {
    let octets = List::from_slice(alloc, b"abcde")?;
    let mut source = MemSource::new(alloc, octets, &[2, 4])?;
    let first = gives(&mut source, b"ab") && fails(&mut source);
    let then = gives(&mut source, b"cd") && fails(&mut source);
    Ok(first && then && gives(&mut source, b"e") && gives(&mut source, b""))
}

#[test]
fn a_source_loses_nothing_at_a_failing_call(rt: HostRuntime) -> Result<(), Fail> {
    assert!(rt; loses_nothing(rt.alloc())?);
    Ok(())
}

/// Whether a sink whose second call fails takes five octets, and then no more.
fn fails_where_it_is_full(alloc: Global) -> Result<bool, Memory> {
    let mut sink = MemSink::new(alloc, 5, &[2])?;
    let first = (sink.write(b"abc") == Ok(3)) & (sink.write(b"d") == Err(Failed));
    let kept = sink.written() == b"abc".as_slice();
    let rest = (sink.write(b"def") == Ok(2)) & (sink.write(b"f") == Err(Failed));
    Ok(first & kept & rest & (sink.written() == b"abcde".as_slice()))
}

/// Whether a text is written as far as there is room.
fn is_written_until_full(alloc: Global) -> Result<bool, Memory> {
    let mut sink = MemSink::new(alloc, 5, &[2])?;
    let first = write_all(&mut sink, b"").is_ok() & write_all(&mut sink, b"abc").is_ok();
    let fault = write_all(&mut sink, b"de") == Err(Failed);
    let full = write_all(&mut sink, b"def") == Err(Failed);
    Ok(first & fault & full & (sink.written() == b"abcde".as_slice()))
}

#[test]
fn a_sink_fails_where_it_is_full(rt: HostRuntime) -> Result<(), Fail> {
    let by_calls = fails_where_it_is_full(rt.alloc())?;
    let whole = is_written_until_full(rt.alloc())?;
    assert!(rt; by_calls & whole);
    Ok(())
}

/// Whether a source that never fails gives all, by both of its calls.
fn gives_all(octets: Octets) -> bool {
    let mut source = NoFaultSource::new(octets);
    let mut buf = [0; 2];
    (source.take(&mut buf) == 2) & (buf == *b"ab") & gives(&mut source, b"c")
}

#[test]
fn what_never_fails_passes_all(rt: HostRuntime) -> Result<(), Fail> {
    let given = gives_all(List::from_slice(rt.alloc(), b"abc")?);
    let taken = NoFaultSink.write(b"abc") == Ok(3);
    let written = write_all(&mut NoFaultSink, b"abc").is_ok();
    assert!(rt; given & taken & written);
    Ok(())
}

/// Numbers that count up to 250 and begin again, 5000 of them.
fn counted_octets(alloc: Global) -> Result<Octets, Memory> {
    let mut octets = List::new(alloc);
    for number in 0..5000u16 {
        octets.push((number % 251) as u8)?;
    }
    Ok(octets)
}

/// Whether a fill keeps what was read before a fault, and goes on with what comes next.
fn keeps_what_was_read(alloc: Global) -> Result<bool, Memory> {
    let octets = counted_octets(alloc)?;
    let mut source = MemSource::new(alloc, octets.copy()?, &[2])?;
    let mut held = List::new(alloc);
    let none = fill(&mut source, &mut held, 0);
    let fault = fill(&mut source, &mut held, 4999);
    let at_fault = held.len();
    let rest = fill(&mut source, &mut held, 4999);
    let at_rest = held.len();
    let end = fill(&mut source, &mut held, 6000);
    let answers = (none, fault, rest, end) == (Ok(()), Err(Stopped::Fault), Ok(()), Ok(()));
    Ok(answers & (at_fault == 4096) & (at_rest == 4999) & (held == octets))
}

#[test]
fn a_fill_keeps_what_was_read_before_a_fault(rt: HostRuntime) -> Result<(), Fail> {
    assert!(rt; keeps_what_was_read(rt.alloc())?);
    Ok(())
}

/// A reader and a writer that pass one octet a call, and fail at one call.
#[derive(Drop)]
struct OneByOne {
    octets: Octets,
    place: usize,
    until_failing: u32,
}

impl OneByOne {
    fn new(octets: Octets, until_failing: u32) -> Self {
        OneByOne {
            octets,
            place: 0,
            until_failing,
        }
    }

    fn next_call(&mut self) -> io::Result<()> {
        let until_failing = self.until_failing;
        self.until_failing = until_failing.wrapping_sub(1);
        if until_failing == 0 {
            return Err(ErrorKind::TimedOut.into());
        }
        Ok(())
    }
}

impl Read for OneByOne {
    fn read(&mut self, buf: &mut [u8]) -> io::Result<usize> {
        self.next_call()?;
        match self.octets.get(self.place) {
            Some(octet) if !buf.is_empty() => {
                buf[0] = *octet;
                self.place = self.place.saturating_add(1);
                Ok(1)
            }
            _ => Ok(0),
        }
    }
}

impl Write for OneByOne {
    fn write(&mut self, buf: &[u8]) -> io::Result<usize> {
        self.next_call()?;
        match buf.first() {
            Some(octet) => match self.octets.push(*octet) {
                Ok(()) => Ok(1),
                Err(_) => Err(ErrorKind::OutOfMemory.into()),
            },
            None => Ok(0),
        }
    }

    fn flush(&mut self) -> io::Result<()> {
        Ok(())
    }
}

/// Whether octets at hand are read whole.
fn reads_what_is_at_hand(alloc: Global) -> bool {
    let mut held = List::new(alloc);
    let mut source = StdinSource::new(b"abc".as_slice());
    let filled = fill(&mut source, &mut held, 9).is_ok();
    filled & (held.as_slice() == b"abc".as_slice()) & source.last_error().is_none()
}

/// Whether a reader whose third call fails gives what it read, and later the rest.
fn reads_past_a_fault(alloc: Global, octets: Octets) -> bool {
    let mut held = List::new(alloc);
    let mut source = StdinSource::new(OneByOne::new(octets, 2));
    let fault = fill(&mut source, &mut held, 3);
    let at_fault = held.as_slice() == b"ab".as_slice();
    let error = source.last_error();
    let rest = fill(&mut source, &mut held, 3);
    let at_rest = held.as_slice() == b"abc".as_slice();
    let end = fill(&mut source, &mut held, 9);
    let at_end = held.as_slice() == b"abcd".as_slice();
    let answers = (fault, rest, end) == (Err(Stopped::Fault), Ok(()), Ok(()));
    answers & at_fault & (error == Some(ErrorKind::TimedOut)) & at_rest & at_end
}

#[test]
fn a_reader_of_the_system_is_a_source(rt: HostRuntime) -> Result<(), Fail> {
    let past_a_fault = reads_past_a_fault(rt.alloc(), List::from_slice(rt.alloc(), b"abcd")?);
    let at_hand = reads_what_is_at_hand(rt.alloc());
    assert!(rt; past_a_fault & at_hand);
    Ok(())
}

/// Whether a writer whose fourth call fails is given what comes before and after.
fn writes_past_a_fault(alloc: Global) -> bool {
    let mut writer = OneByOne::new(List::new(alloc), 3);
    let mut sink = StdoutSink::new(&mut writer);
    let fault = write_all(&mut sink, b"abcd");
    let error = sink.last_error();
    let rest = write_all(&mut sink, b"def");
    let answers = (fault, rest) == (Err(Failed), Ok(()));
    answers
        & (error == Some(ErrorKind::TimedOut))
        & (writer.octets.as_slice() == b"abcdef".as_slice())
}

/// Whether a write to a buffer of two octets gives these two, and a write of nothing is a fault.
fn fills_a_buffer() -> bool {
    let mut room = [0; 2];
    let mut sink = StdoutSink::new(room.as_mut_slice());
    (sink.write(b"abc") == Ok(2)) & (sink.write(b"c") == Err(Failed))
}

#[test]
fn a_writer_of_the_system_is_a_sink(rt: HostRuntime) {
    let past_a_fault = writes_past_a_fault(rt.alloc());
    let buffer = fills_a_buffer();
    assert!(rt; past_a_fault & buffer);
}
