// Connections of the system's sockets.
ghost use Rattle.std.specs.Prelude.{◌≡◌, None, false};
ghost use Rattle.std.specs.Option.{is_some};
ghost use Rattle.njs_edge.specs.Listener.{IsClosed};

use crate::ends::Ends;
use crate::interruptions::Interruptions;
use crate::listener::{Accepted, Listener};
use crate::sink::{Flushed, StdSink};
use crate::source::StdSource;
use njs_text::{Text, TextFault};
use std::alloc::Global;
use std::io;
use std::io::{ErrorKind, Read, Write};
use std::net::{IpAddr, Net, OpenListener, OpenStream, TcpListener};

/// A connection of the system: the two ends of one socket. It tells nothing of what they hold, or what its stream tells.
#[derive(Drop)]
pub struct TcpConn<S: Read + Write> {
    source: StdSource<S>,
    sink: StdSink<S>,
    peer: Text,
}

impl<S: Read + Write + Drop + Send> Ends for TcpConn<S> {
    type In = StdSource<S>;

    type Out = StdSink<S>;

    ghost source = { λ conn. conn.source };

    ghost sink = { λ conn. conn.sink };

    ghost peer = { λ conn. conn.peer };

    fn parts(self) -> (StdSource<S>, StdSink<S>, Text) {
        let TcpConn { source, sink, peer } = self;
        (source, sink, peer)
    }
}

// Why a connection could not be had.
enum Lost {
    // It has no second end, or no address.
    Ends,
    NoMemory,
}

// The address as a text, without its port.
fn address(alloc: Global, peer: IpAddr) -> Result<Text, Lost> {
    let Ok(digits) = format!(in alloc; "{peer}") else {
        return Err(Lost::NoMemory);
    };
    match Text::from_utf8(alloc, digits.as_bytes()) {
        Ok(text) => Ok(text),
        Err(TextFault::NoMemory) => Err(Lost::NoMemory),
        Err(_) => Err(Lost::Ends),
    }
}

// The two ends of a socket.
fn ends<S: Read + Write + OpenStream + Drop>(
    alloc: Global,
    stream: S,
    peer: IpAddr,
) -> Result<TcpConn<S>, Lost> {
    let Ok(second) = stream.try_clone() else {
        return Err(Lost::Ends);
    };
    Ok(TcpConn {
        source: StdSource::new(second),
        sink: StdSink::new(stream),
        peer: address(alloc, peer)?,
    })
}

// The next connection whose two ends can be had.
fn next_conn<L: OpenListener>(alloc: Global, listener: &L) -> Accepted<TcpConn<L::Stream>>
where
    L::Stream: Read + Write + OpenStream,
    ensures { IsClosed result → ⊥ }
{
    let mut interruptions = Interruptions::new();
    loop {
        let is_allowed = match listener.accept() {
            Ok((stream, peer)) => match ends(alloc, stream, peer.ip()) {
                Ok(conn) => return Accepted::Conn(conn),
                Err(Lost::NoMemory) => return Accepted::NoMemory,
                Err(Lost::Ends) => interruptions.allow_dropped(),
            },
            Err(error) if error.kind() == ErrorKind::ConnectionAborted => {
                interruptions.allow_dropped()
            }
            Err(error) => interruptions.allow(&error),
        };
        if !is_allowed {
            return Accepted::Failed;
        }
    }
}

/// The system's listener for TCP. It tells nothing of the addresses, and never says that no more connections will come.
/// A connection whose two ends can't be had, or that was aborted before it was accepted, is dropped, and the next one is
/// accepted. Interruptions and dropped connections are counted together; the 1,000th within one call is a failure.
#[derive(Drop)]
pub struct TcpEnds<'a, R: Net> {
    rt: &'a R,
    listener: Option<R::Listener>,
    number: u64,
    faults: u64,
}

impl<'a, R: Net> TcpEnds<'a, R>
where
    R::Stream: Send,
{
    /// A listener that isn't open.
    pub fn new(rt: &'a R) -> TcpEnds<'a, R>
        ensures number { ⟦<TcpEnds<'a, R> as Listener>⟧.number result ≡ 0 }
        ensures closed { ⟦<TcpEnds<'a, R> as Listener>⟧.closed result ≡ 0 }
        ensures faults { ⟦<TcpEnds<'a, R> as Listener>⟧.faults result ≡ 0 }
        ensures open { ⟦<TcpEnds<'a, R> as Listener>⟧.is_open result ≡ false }
        ensures asked { ⟦<TcpEnds<'a, R> as Listener>⟧.asked result ≡ None }
    {
        TcpEnds {
            rt,
            listener: None,
            number: 0,
            faults: 0,
        }
    }
}

// A socket that listens.
fn bind<R: Net>(rt: &R, host: &Text, port: u16) -> Option<R::Listener> {
    let mut interruptions = Interruptions::new();
    loop {
        match TcpListener::bind(rt, (host.as_str(), port)) {
            Ok(listener) => return Some(listener),
            Err(error) => {
                if !interruptions.allow(&error) {
                    return None;
                }
            }
        }
    }
}

impl<'a, R: Net> Listener for TcpEnds<'a, R>
where
    R::Stream: Send,
{
    type Conn = TcpConn<R::Stream>;

    ghost number = { λ s. s.number };

    ghost closed = { λ _. 0 };

    ghost faults = { λ s. s.faults };

    ghost is_open = { λ s. is_some s.listener };

    ghost asked = { λ _. None };

    fn open(&mut self, host: &Text, port: u16) -> Flushed {
        match bind(self.rt, host, port) {
            Some(listener) => {
                self.listener = Some(listener);
                Flushed::Done
            }
            None => {
                self.faults = self.faults.saturating_add(1);
                Flushed::Failed
            }
        }
    }

    fn accept(&mut self, alloc: Global) -> Accepted<TcpConn<R::Stream>> {
        let Some(listener) = &self.listener else {
            unreachable!()
        };
        let accepted = next_conn(alloc, listener);
        match accepted {
            Accepted::Conn(_) => self.number = self.number.wrapping_add(1),
            Accepted::Failed => self.faults = self.faults.saturating_add(1),
            Accepted::Closed | Accepted::NoMemory => {}
        }
        accepted
    }
}
