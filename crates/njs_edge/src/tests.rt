// The objects in memory call by call, and those over the system over devices that are interrupted.
ghost use Rattle.std.specs.Prelude.{◌≡◌, ◌<◌, ◌≤◌, ◌^◌, IfOk, true};

use crate::{
    Accepted, BytesDesk, BytesIn, BytesOut, Clock, Clocks, Desk, Ends, ErrorDesk, FileStop, Files,
    Flushed, Gate, ListClock, ListClocks, ListConn, ListListener, Listener, MapFiles, OpenGate,
    Put, RealClock, RealClocks, RealFiles, Sink, Source, StdSink, StdSource, Taken, TcpEnds,
};
use njs_text::{NoMemory, Text};
use std::alloc::Global;
use std::cell::Cell;
use std::io::{ErrorKind, Read, Write};
use std::net::{Ipv4Addr, Net, OpenListener, OpenStream, SocketAddr, TcpListener, TcpStream};
use std::os::fd::{AsRawFd, RawFd};
use std::test::Fail;
use std::{env, fs, io, process};

const LETTERS: &[u8] = b"abcdefghijklmnopqrst";

#[test]
fn a_source_in_memory_gives_its_bytes_in_pieces(rt: HostRuntime) -> Result<(), Fail> {
    let alloc = rt.alloc();
    let fails = Vec::from_slice(alloc, &[2])?;
    let mut source = BytesIn::new(Vec::from_slice(alloc, LETTERS)?, 7, fails);
    let mut room = [0u8; 10];
    let calls: [(Taken, &[u8]); 5] = [
        (Taken::Bytes(7), b"abcdefg"),
        (Taken::Failed, b""),
        (Taken::Bytes(7), b"hijklmn"),
        (Taken::Bytes(6), b"opqrst"),
        (Taken::End, b""),
    ];
    for (taken, bytes) in calls {
        assert_eq!(rt; source.read(&mut room), taken);
        assert!(rt; room.starts_with(bytes));
    }
    Ok(())
}

#[test]
fn a_sink_in_memory_takes_pieces_and_fails_by_number(rt: HostRuntime) -> Result<(), Fail> {
    let alloc = rt.alloc();
    let mut sink = BytesOut::new(alloc, 11, Vec::from_slice(alloc, &[3, 4])?);
    assert_eq!(rt; sink.write(LETTERS), Put::Bytes(11));
    assert_eq!(rt; sink.flush(), Flushed::Done);
    assert_eq!(rt; sink.flush(), Flushed::Failed);
    assert_eq!(rt; sink.write(b"lmn"), Put::Failed);
    assert_eq!(rt; sink.write(b"lmn"), Put::Bytes(3));
    assert_eq!(rt; sink.bytes(), b"abcdefghijklmn".as_slice());
    Ok(())
}

fn text(alloc: Global, word: &str) -> Result<Text, NoMemory> {
    match Text::from_utf8(alloc, word.as_bytes()) {
        Ok(text) => Ok(text),
        Err(_) => Err(NoMemory),
    }
}

#[test]
fn files_in_memory_answer_by_name(rt: HostRuntime) -> Result<(), Fail> {
    let alloc = rt.alloc();
    let mut list = Vec::new(alloc);
    for (name, content) in [("a.js", "first"), ("b.js", ""), ("a.js", "second")] {
        let content = Vec::from_slice(alloc, content.as_bytes())?;
        list.push((text(alloc, name)?, content))?;
    }
    let mut files = MapFiles::new(alloc, list, Vec::from_slice(alloc, &[4])?);
    let reads: [(&str, usize, Result<&[u8], FileStop>); 6] = [
        ("a.js", 100, Ok(b"first")),
        ("a.js", 3, Ok(b"fir")),
        ("c.js", 100, Err(FileStop::Failed)),
        ("a.js", 100, Err(FileStop::Failed)),
        ("a.js", 5, Ok(b"first")),
        ("b.js", 100, Ok(b"")),
    ];
    for (name, limit, content) in reads {
        let name = text(alloc, name)?;
        match files.read(alloc, &name, limit) {
            Ok(bytes) => assert_eq!(rt; Ok(bytes.as_slice()), content),
            Err(stop) => assert_eq!(rt; Err(stop), content),
        }
    }
    Ok(())
}

#[test]
fn a_list_clock_gives_its_last_number_again(rt: HostRuntime) {
    let mut clock = ListClock::new(&[5, 9_007_199_254_740_991]);
    for reading in [5, 9_007_199_254_740_991, 9_007_199_254_740_991] {
        assert_eq!(rt; clock.now(), reading);
    }
    let mut empty = ListClock::new(&[]);
    assert_eq!(rt; empty.now(), 0);
    assert_eq!(rt; empty.now(), 0);
}

// A device that is interrupted so often, and then takes or gives so many bytes, or fails.
#[derive(Drop)]
struct Device {
    interruptions: u32,
    count: Option<usize>,
}

impl Device {
    fn answer(&mut self, most: usize) -> io::Result<usize>
        ensures { IfOk result (λ count. count ≤ most) }
    {
        if self.interruptions > 0 {
            self.interruptions -= 1;
            return Err(io::Error::from(ErrorKind::Interrupted));
        }
        match self.count {
            Some(count) => Ok(count.min(most)),
            None => Err(io::Error::from(ErrorKind::BrokenPipe)),
        }
    }
}

impl Read for Device {
    fn read(&mut self, room: &mut [u8]) -> io::Result<usize> {
        let count = self.answer(room.len())?;
        room[..count].fill(b'x');
        Ok(count)
    }
}

impl Write for Device {
    fn write(&mut self, piece: &[u8]) -> io::Result<usize> {
        self.answer(piece.len())
    }

    fn flush(&mut self) -> io::Result<()> {
        self.answer(0)?;
        Ok(())
    }
}

#[test]
fn a_thousand_interruptions_are_a_failure(rt: HostRuntime) {
    let cases = [
        (0, Some(3), Taken::Bytes(3), Put::Bytes(3), Flushed::Done),
        (999, Some(3), Taken::Bytes(3), Put::Bytes(3), Flushed::Done),
        (1000, Some(3), Taken::Failed, Put::Failed, Flushed::Failed),
        (999, Some(0), Taken::End, Put::Failed, Flushed::Done),
        (999, None, Taken::Failed, Put::Failed, Flushed::Failed),
    ];
    for (interruptions, count, taken, put, flushed) in cases {
        let device = || Device {
            interruptions,
            count,
        };
        let mut room = [0u8; 5];
        assert_eq!(rt; StdSource::new(device()).read(&mut room), taken);
        assert_eq!(rt; StdSink::new(device()).write(b"abcde"), put);
        assert_eq!(rt; StdSink::new(device()).flush(), flushed);
    }
}

#[test]
fn a_file_of_the_system_is_read_up_to_the_limit(rt: HostRuntime) -> Result<(), Fail> {
    let alloc = rt.alloc();
    let file = format!(in alloc; "njs_edge.{}", process::id(rt.process()))?;
    let path = env::temp_dir(&rt)?.join(alloc, file.as_str())?;
    fs::write(&rt, &path, LETTERS)?;
    let name = text(alloc, path.as_str())?;
    let mut files = RealFiles::new(&rt);
    let whole = files.read(alloc, &name, 4096)?;
    assert_eq!(rt; whole.as_slice(), LETTERS);
    let front = files.read(alloc, &name, 3)?;
    assert_eq!(rt; front.as_slice(), b"abc".as_slice());
    fs::remove_file(&rt, &path)?;
    for absent in [name, text(alloc, "")?] {
        match files.read(alloc, &absent, 4096) {
            Ok(_) => assert!(rt; false),
            Err(stop) => assert_eq!(rt; stop, FileStop::Failed),
        }
    }
    Ok(())
}

#[test]
fn the_clock_of_the_system_tells_the_time(rt: HostRuntime) {
    let mut clock = RealClock::new(&rt);
    let reading = clock.now();
    // Past 2024, and below 2^53.
    assert!(rt; 1_704_067_200_000 < reading && reading < 9_007_199_254_740_992);
}

#[test]
fn each_connection_has_a_clock_and_notes_of_its_own(rt: HostRuntime) {
    let clocks = ListClocks::new(&[5, 6]);
    let mut first = clocks.own();
    let mut second = clocks.own();
    assert_eq!(rt; (first.now(), first.now(), second.now()), (5, 6, 5));
    let desk = BytesDesk::new(rt.alloc());
    let mut notes = desk.own();
    assert_eq!(rt; notes.write(LETTERS), Put::Bytes(LETTERS.len()));
    assert_eq!(rt;
        (notes.bytes(), desk.own().bytes()),
        (LETTERS, b"".as_slice())
    );
    // Past 2024.
    assert!(rt; 1_704_067_200_000 < RealClocks::new(&rt).own().now());
    assert_eq!(rt; ErrorDesk::new(rt.stderr()).own().flush(), Flushed::Done);
    OpenGate.before(0);
    OpenGate.after(0);
}

fn conn(alloc: Global, bytes: &str, peer: &str) -> Result<ListConn, NoMemory> {
    let source = BytesIn::new(
        Vec::from_slice(alloc, bytes.as_bytes())?,
        9,
        Vec::new(alloc),
    );
    let sink = BytesOut::new(alloc, 9, Vec::new(alloc));
    Ok(ListConn::new(source, sink, text(alloc, peer)?))
}

// What a listener answers, by the peer's address.
fn next_peer(alloc: Global, listener: &mut ListListener) -> Accepted<Text>
    requires { ⟦<ListListener as Listener>⟧.is_open listener.old ≡ true }
    ensures { ⟦<ListListener as Listener>⟧.is_open listener.new ≡ true }
{
    match listener.accept(alloc) {
        Accepted::Conn(conn) => Accepted::Conn(conn.parts().2),
        Accepted::Closed => Accepted::Closed,
        Accepted::Failed => Accepted::Failed,
        Accepted::NoMemory => Accepted::NoMemory,
    }
}

#[test]
fn a_listener_in_memory_gives_its_connections_in_order(rt: HostRuntime) -> Result<(), Fail> {
    let alloc = rt.alloc();
    let mut conns = Vec::new(alloc);
    for peer in ["a", "b"] {
        conns.push(conn(alloc, "", peer)?)?;
    }
    let fails = Vec::from_slice(alloc, &[1, 4, 6])?;
    let mut listener = ListListener::new(alloc, conns, fails);
    let host = text(alloc, "localhost")?;
    assert_eq!(rt; listener.open(&host, 80), Flushed::Failed);
    assert_eq!(rt; listener.open(&host, 80), Flushed::Done);
    let (a, b) = (text(alloc, "a")?, text(alloc, "b")?);
    assert_eq!(rt; next_peer(alloc, &mut listener), Accepted::Conn(a));
    assert_eq!(rt; next_peer(alloc, &mut listener), Accepted::Failed);
    assert_eq!(rt; next_peer(alloc, &mut listener), Accepted::Conn(b));
    assert_eq!(rt; next_peer(alloc, &mut listener), Accepted::Failed);
    assert_eq!(rt; next_peer(alloc, &mut listener), Accepted::Closed);
    assert_eq!(rt; next_peer(alloc, &mut listener), Accepted::Closed);
    Ok(())
}

#[test]
fn a_connection_in_memory_is_its_ends_and_address(rt: HostRuntime) -> Result<(), Fail> {
    let alloc = rt.alloc();
    let (mut source, mut sink, peer) = conn(alloc, "ping", "10.0.0.1")?.parts();
    let mut room = [0u8; 9];
    assert_eq!(rt; source.read(&mut room), Taken::Bytes(4));
    assert!(rt; room.starts_with(b"ping"));
    assert_eq!(rt; sink.write(b"pong"), Put::Bytes(4));
    assert_eq!(rt;
        (sink.bytes(), peer.as_str()),
        (b"pong".as_slice(), "10.0.0.1")
    );
    Ok(())
}

// A net whose listener is interrupted so often, then gives so many connections that have one end alone, and then
// connections with both ends.
#[derive(Drop)]
struct OddNet {
    interruptions: u32,
    halves: u32,
}

#[derive(Drop)]
struct OddListener {
    interruptions: Cell<u32>,
    halves: Cell<u32>,
}

#[derive(Drop)]
struct OddStream {
    is_half: bool,
}

impl Net for OddNet {
    type Stream = OddStream;

    type Listener = OddListener;

    fn bind(&self, _addr: SocketAddr) -> io::Result<OddListener> {
        Ok(OddListener {
            interruptions: Cell::new(self.interruptions),
            halves: Cell::new(self.halves),
        })
    }

    fn connect(&self, _addr: SocketAddr) -> io::Result<OddStream> {
        Err(io::Error::from(ErrorKind::Unsupported))
    }
}

// Whether a count was above 0, which is one smaller then.
fn count_down(count: &Cell<u32>) -> bool {
    let was = count.get();
    count.set(was.saturating_sub(1));
    was > 0
}

impl OpenListener for OddListener {
    type Stream = OddStream;

    fn accept(&self) -> io::Result<(OddStream, SocketAddr)> {
        if count_down(&self.interruptions) {
            return Err(io::Error::from(ErrorKind::Interrupted));
        }
        let is_half = count_down(&self.halves);
        let peer = SocketAddr::from((Ipv4Addr::LOCALHOST, 80));
        Ok((OddStream { is_half }, peer))
    }
}

impl AsRawFd for OddListener {
    fn as_raw_fd(&self) -> RawFd {
        -1
    }
}

impl OpenStream for OddStream {
    fn try_clone(&self) -> io::Result<OddStream> {
        if self.is_half {
            return Err(io::Error::from(ErrorKind::Unsupported));
        }
        Ok(OddStream { is_half: false })
    }
}

impl AsRawFd for OddStream {
    fn as_raw_fd(&self) -> RawFd {
        -1
    }
}

impl Read for OddStream {
    fn read(&mut self, _room: &mut [u8]) -> io::Result<usize> {
        Ok(0)
    }
}

impl Write for OddStream {
    fn write(&mut self, piece: &[u8]) -> io::Result<usize> {
        Ok(piece.len())
    }

    fn flush(&mut self) -> io::Result<()> {
        Ok(())
    }
}

#[test]
fn a_thousand_dropped_connections_are_a_failure(rt: HostRuntime) -> Result<(), Fail> {
    let alloc = rt.alloc();
    let host = text(alloc, "127.0.0.1")?;
    let cases = [
        (0, 0, true),
        (999, 0, true),
        (1000, 0, false),
        (0, 999, true),
        (0, 1000, false),
        (500, 499, true),
        (500, 500, false),
    ];
    for (interruptions, halves, is_accepted) in cases {
        let net = OddNet {
            interruptions,
            halves,
        };
        let mut listener = TcpEnds::new(&net);
        assert_eq!(rt; listener.open(&host, 80), Flushed::Done);
        match listener.accept(alloc) {
            Accepted::Conn(conn) => {
                let (mut source, mut sink, peer) = conn.parts();
                assert_eq!(rt;
                    (source.read(&mut [0u8; 5]), sink.write(b"abc")),
                    (Taken::End, Put::Bytes(3))
                );
                assert_eq!(rt; (is_accepted, peer.as_str()), (true, "127.0.0.1"));
            }
            Accepted::Failed => assert!(rt; !is_accepted),
            Accepted::Closed | Accepted::NoMemory => assert!(rt; false),
        }
    }
    Ok(())
}

#[test]
fn a_connection_of_the_system_is_served(rt: HostRuntime) -> Result<(), Fail> {
    let alloc = rt.alloc();
    let free = TcpListener::bind(&rt, (Ipv4Addr::LOCALHOST, 0))?;
    let port = free.local_addr()?.port();
    drop(free);
    let host = text(alloc, "127.0.0.1")?;
    let mut listener = TcpEnds::new(&rt);
    assert_eq!(rt; listener.open(&host, port), Flushed::Done);
    assert_eq!(rt; TcpEnds::new(&rt).open(&host, port), Flushed::Failed);
    let mut client = TcpStream::connect(&rt, (Ipv4Addr::LOCALHOST, port))?;
    client.write_all(b"ping")?;
    let Accepted::Conn(conn) = listener.accept(alloc) else {
        assert!(rt; false);
        return Ok(());
    };
    let (mut source, mut sink, peer) = conn.parts();
    assert_eq!(rt; peer.as_str(), "127.0.0.1");
    let mut room = [0u8; 9];
    assert_eq!(rt; source.read(&mut room), Taken::Bytes(4));
    assert!(rt; room.starts_with(b"ping"));
    assert_eq!(rt;
        (sink.write(b"pong"), sink.flush()),
        (Put::Bytes(4), Flushed::Done)
    );
    drop(source);
    drop(sink);
    let answer = io::read_to_string(alloc, client)?;
    assert_eq!(rt; answer.as_str(), "pong");
    Ok(())
}
