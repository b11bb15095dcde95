//! Links, doors, files and clocks of the system: what each answers, and where it fails. The tests
//! connect to this host alone, and make a file in the working folder.

ghost use Rattle.std.specs.Prelude.{◌≡◌, false};

use std::cell::Cell;
use std::io::{ErrorKind, Read, Write};
use std::net::{OpenStream, TcpListener, TcpStream};
use std::num::NonZeroU32;
use std::test::Fail;
use std::time::{Clock as TimeSource, Duration};
use std::{fs, io};
use wire_base::{
    Came, Clock, DialDoor, Door, Failed, FileSource, Link, ListenDoor, Source, SystemClock,
    TcpLink, Took,
};

/// A link over a connection, and the stream of its other end. A write to the link waits for one
/// second.
fn pair(rt: &HostRuntime) -> io::Result<(TcpLink<TcpStream>, TcpStream)> {
    let listener = TcpListener::bind(rt, "127.0.0.1:0")?;
    let peer = TcpStream::connect(rt, listener.local_addr()?)?;
    let (stream, _) = listener.accept()?;
    match TcpLink::from_stream(stream, NonZeroU32::MIN) {
        Ok(link) => Ok((link, peer)),
        Err(Failed) => Err(io::Error::from(ErrorKind::Other)),
    }
}

/// Whether the next octets that come on the link are `wanted`.
fn gives<L: Link>(link: &mut L, wanted: &[u8]) -> bool {
    let mut buf = [0; 8];
    match link.take(&mut buf) {
        Took::Bytes(count) => &buf[..count] == wanted,
        _ => false,
    }
}

/// Whether the next `take` answers `wanted`, which is no octets.
fn answers<L: Link>(link: &mut L, wanted: Took) -> bool {
    let mut buf = [0; 8];
    link.take(&mut buf) == wanted
}

/// Whether what is written at one end of a link comes at the other, after a second in which nothing
/// comes.
fn passes_octets(rt: &HostRuntime) -> io::Result<bool> {
    let (mut link, mut peer) = pair(rt)?;
    let was_idle = answers(&mut link, Took::Idle);
    let sent = peer.write(b"abc")?;
    let came = gives(&mut link, b"abc");
    let given = link.give(b"defg") == Ok(4);
    let mut buf = [0; 8];
    let received = peer.read(&mut buf)?;
    Ok(was_idle & (sent == 3) & came & given & (received == 4) & buf.starts_with(b"defg"))
}

/// Whether a link whose other end closed at once has ended, and stays so.
fn ends_at_once(rt: &HostRuntime) -> io::Result<bool> {
    let (mut link, peer) = pair(rt)?;
    drop(peer);
    Ok(answers(&mut link, Took::Ended) && answers(&mut link, Took::Ended))
}

/// Whether a link whose other end closed after some octets gives these before it has ended.
fn ends_after_octets(rt: &HostRuntime) -> io::Result<bool> {
    let (mut link, mut peer) = pair(rt)?;
    let sent = peer.write(b"abc")?;
    drop(peer);
    Ok((sent == 3) & gives(&mut link, b"abc") && answers(&mut link, Took::Ended))
}

/// A link whose other end closed before it read what was given: the connection was reset.
fn reset(rt: &HostRuntime) -> io::Result<TcpLink<TcpStream>> {
    let (mut link, peer) = pair(rt)?;
    let _ = link.give(b"abc");
    drop(peer);
    Ok(link)
}

/// Whether a write to a link that was reset fails.
fn does_not_give(rt: &HostRuntime) -> io::Result<bool> {
    let mut link = reset(rt)?;
    Ok(link.give(b"abc") == Err(Failed))
}

/// Whether a read of a link that was reset fails.
fn does_not_take(rt: &HostRuntime) -> io::Result<bool> {
    let mut link = reset(rt)?;
    Ok(answers(&mut link, Took::Failed))
}

/// Whether writes to a link whose other end reads nothing fail at last.
fn is_full(rt: &HostRuntime) -> io::Result<bool> {
    let (mut link, _peer) = pair(rt)?;
    let piece = [0; 16384];
    for _ in 0..65536 {
        if link.give(&piece).is_err() {
            return Ok(true);
        }
    }
    Ok(false)
}

#[test]
fn octets_pass_and_ends_are_seen(rt: HostRuntime) -> Result<(), Fail> {
    let passed = passes_octets(&rt)?;
    let at_once = ends_at_once(&rt)?;
    let after_octets = ends_after_octets(&rt)?;
    assert!(rt; passed & at_once & after_octets);
    Ok(())
}

#[test]
fn a_reset_and_a_full_link_are_faults(rt: HostRuntime) -> Result<(), Fail> {
    let at_write = does_not_give(&rt)?;
    let at_read = does_not_take(&rt)?;
    let full = is_full(&rt)?;
    assert!(rt; at_write & at_read & full);
    Ok(())
}

/// A stream whose calls are interrupted, and whose settings the system refuses.
#[derive(Drop)]
struct Interrupted;

impl Read for Interrupted {
    fn read(&mut self, _buf: &mut [u8]) -> io::Result<usize> {
        Err(io::Error::from(ErrorKind::Interrupted))
    }
}

impl Write for Interrupted {
    fn write(&mut self, _buf: &[u8]) -> io::Result<usize> {
        Err(io::Error::from(ErrorKind::Interrupted))
    }

    fn flush(&mut self) -> io::Result<()> {
        Ok(())
    }
}

impl OpenStream for Interrupted {}

/// Whether a read of the link is idle, and a write fails and is counted.
fn is_idle_and_fails(mut link: TcpLink<Interrupted>) -> bool {
    let idle = answers(&mut link, Took::Idle) & (link.faults() == 0);
    idle & (link.give(b"abc") == Err(Failed)) & (link.faults() == 1)
}

/// Whether no link is made where the system refuses the settings.
fn is_not_made() -> bool {
    TcpLink::from_stream(Interrupted, NonZeroU32::MIN).is_err()
}

#[test]
fn an_interrupted_read_is_idle_and_a_write_fails(rt: HostRuntime) {
    let interrupted = is_idle_and_fails(TcpLink::new(Interrupted));
    let refused = is_not_made();
    assert!(rt; interrupted & refused);
}

/// Whether a link comes at the door. It goes back.
fn comes<D: Door>(door: &mut D) -> bool
    requires home { D.out door.old ≡ false }
    ensures home { D.out door.new ≡ false }
{
    match door.next() {
        Came::Link(link) => {
            door.back(link);
            true
        }
        Came::Ended => false,
        Came::Failed => false,
    }
}

/// Whether the door answers that it failed. A link that comes goes back.
fn fails<D: Door>(door: &mut D) -> bool
    requires home { D.out door.old ≡ false }
    ensures home { D.out door.new ≡ false }
{
    match door.next() {
        Came::Link(link) => {
            door.back(link);
            false
        }
        Came::Ended => false,
        Came::Failed => true,
    }
}

/// Whether links come at two doors over one listener, as often as another end connects.
fn comes_to_both(rt: &HostRuntime) -> io::Result<bool> {
    let listener = TcpListener::bind(rt, "127.0.0.1:0")?;
    let address = listener.local_addr()?;
    let mut first = ListenDoor::new(Some(listener), NonZeroU32::MIN);
    let mut second = first.another();
    let _one = TcpStream::connect(rt, address)?;
    let _two = TcpStream::connect(rt, address)?;
    let _three = TcpStream::connect(rt, address)?;
    Ok(comes(&mut first) & comes(&mut second) & comes(&mut first))
}

/// Whether a door over an address in use fails, each time.
fn is_taken(rt: &HostRuntime) -> io::Result<bool> {
    let listener = TcpListener::bind(rt, "127.0.0.1:0")?;
    let address = format!(in rt.alloc(); "{}", listener.local_addr()?)?;
    let mut door = ListenDoor::bind(rt, &address, NonZeroU32::MIN);
    Ok(fails(&mut door) & fails(&mut door) & fails(&mut door.another()))
}

/// Whether a door makes each of its links anew, and fails once nobody listens any more.
fn dials(rt: &HostRuntime) -> io::Result<bool> {
    let listener = TcpListener::bind(rt, "127.0.0.1:0")?;
    let address = format!(in rt.alloc(); "{}", listener.local_addr()?)?;
    let mut door = DialDoor::new(rt, address.as_str(), NonZeroU32::MIN);
    let came = comes(&mut door) & comes(&mut door);
    drop(listener);
    Ok(came & fails(&mut door) & fails(&mut door))
}

/// Whether doors over texts that are no address fail.
fn fail_at_no_address(rt: &HostRuntime) -> bool {
    for text in ["no address", "127.0.0.1", "127.0.0.1:65536", ""].iter() {
        let listens = fails(&mut ListenDoor::bind(rt, text, NonZeroU32::MIN));
        let dials = fails(&mut DialDoor::new(rt, text, NonZeroU32::MIN));
        if !listens || !dials {
            return false;
        }
    }
    true
}

#[test]
fn doors_hand_out_links_or_fail(rt: HostRuntime) -> Result<(), Fail> {
    let both = comes_to_both(&rt)?;
    let in_use = is_taken(&rt)?;
    let dialled = dials(&rt)?;
    let no_address = fail_at_no_address(&rt);
    assert!(rt; both & in_use & dialled & no_address);
    Ok(())
}

/// Whether a file gives its octets, and then its end.
fn is_read(rt: &HostRuntime) -> io::Result<bool> {
    fs::write(rt, "adapter_tests_file", b"abc".as_slice())?;
    let mut source = FileSource::open(rt, "adapter_tests_file");
    let mut buf = [0; 8];
    let first = source.read(&mut buf);
    let then = source.read(&mut buf);
    fs::remove_file(rt, "adapter_tests_file")?;
    Ok((first == Ok(3)) & (then == Ok(0)) & buf.starts_with(b"abc"))
}

/// Whether each read of a file that does not open fails.
fn is_missing(rt: &HostRuntime) -> bool {
    let mut source = FileSource::open(rt, "adapter_tests_none");
    let mut buf = [0; 8];
    (source.read(&mut buf) == Err(Failed)) & (source.read(&mut buf) == Err(Failed))
}

#[test]
fn files_are_read_or_fail(rt: HostRuntime) -> Result<(), Fail> {
    let read = is_read(&rt)?;
    let missing = is_missing(&rt);
    assert!(rt; read & missing);
    Ok(())
}

/// A clock of a system that gives a time at its first call, if it has one, and then none.
#[derive(Drop)]
struct Once(Cell<Option<u64>>);

impl Once {
    fn new(seconds: Option<u64>) -> Self {
        Once(Cell::new(seconds))
    }
}

impl TimeSource for Once {
    fn monotonic(&self) -> io::Result<Duration> {
        self.since_1970()
    }

    fn since_1970(&self) -> io::Result<Duration> {
        match self.0.take() {
            Some(seconds) => Ok(Duration::from_secs(seconds)),
            None => Err(io::Error::from(ErrorKind::Other)),
        }
    }
}

/// Whether a clock shows at least one second more after a rest.
fn goes_on<C: Clock>(clock: &mut C) -> bool {
    let before = clock.now();
    clock.rest();
    before < clock.now()
}

/// The first two moments of a clock.
fn two_moments<C: Clock>(clock: &mut C) -> (u64, u64) {
    let first = clock.now();
    (first, clock.now())
}

#[test]
fn clocks_give_seconds(rt: HostRuntime) {
    let last_again = two_moments(&mut SystemClock::new(Once::new(Some(5)))) == (5, 5);
    let none_at_first = two_moments(&mut SystemClock::new(Once::new(None))) == (0, 0);
    let later = goes_on(&mut SystemClock::new(&rt));
    assert!(rt; last_again & none_at_first & later);
}
