// Sinks of bytes: what they got, where that is told, and a count of faults that never falls.
ghost use Rattle.std.specs.Prelude.{◌≡◌, ◌↔◌, ◌<◌, ◌≤◌, ℕ, List, [], Option, Some, None, length};
ghost use Rattle.std.specs.Io.KnownBytes.{Keeps};
ghost use Rattle.njs_edge.specs.Causes.{Counts};
ghost use Rattle.njs_edge.specs.Sink.{PutsTo, IsPutWithin};
ghost use Rattle.njs_edge.specs.Calls.{IsFaultNext, CountsOne, NoneCounted};

use crate::calls::Calls;
use crate::interruptions::Interruptions;
use std::alloc::Global;
use std::io::Write;

/// What a write put.
#[derive(Clone, Copy, Debug, PartialEq, Eq)]
pub enum Put {
    /// So many bytes of the piece's front, at least one.
    Bytes(usize),
    /// The sink failed, and took nothing of the piece.
    Failed,
}

/// What a flush answered.
#[derive(Clone, Copy, Debug, PartialEq, Eq)]
pub enum Flushed {
    /// What was written has left the sink's own buffers.
    Done,
    /// The sink failed.
    Failed,
}

/// Takes bytes, in order.
pub trait Sink {
    /// The bytes that the sink got, where it tells them.
    ghost got: { Self → Option (List ℕ) };

    /// How often a call has failed.
    ghost faults: { Self → ℕ };

    /// Puts the front of a piece that is not empty. A device that takes nothing of it has failed.
    fn write(&mut self, piece: &[u8]) -> Put
        requires { 0 < length piece.now }
        ensures put { PutsTo (got self.old) (got self.new) result piece.now }
        ensures within { IsPutWithin result (length piece.now) }
        ensures cause { Counts (faults self.old) (faults self.new) (result ≡ Put.Failed) };

    /// Passes on what was written.
    fn flush(&mut self) -> Flushed
        ensures same { Keeps (got self.old) (got self.new) }
        ensures cause { Counts (faults self.old) (faults self.new) (result ≡ Flushed.Failed) };
}

// Writes once, and again after each interruption, up to the last that is allowed.
fn write_once<W: Write>(inner: &mut W, piece: &[u8]) -> Put
    ensures put { PutsTo (W.contents inner.old) (W.contents inner.new) result piece.now }
    ensures within { IsPutWithin result (length piece.now) }
{
    let mut interruptions = Interruptions::new();
    loop {
        match inner.write(piece) {
            Ok(0) => return Put::Failed,
            Ok(count) => return Put::Bytes(count),
            Err(error) => {
                if !interruptions.allow(&error) {
                    return Put::Failed;
                }
            }
        }
    }
}

// Flushes once, and again after each interruption, up to the last that is allowed.
fn flush_once<W: Write>(inner: &mut W) -> Flushed
    ensures { Keeps (W.contents inner.old) (W.contents inner.new) }
{
    let mut interruptions = Interruptions::new();
    loop {
        match inner.flush() {
            Ok(()) => return Flushed::Done,
            Err(error) => {
                if !interruptions.allow(&error) {
                    return Flushed::Failed;
                }
            }
        }
    }
}

/// A sink over a writer of std. It tells what the writer tells: nothing, where that is a file, a socket
/// or a terminal. It tries again after an interruption; the 1,000th within one call is a failure, as any
/// other error is, and as a write that takes nothing.
#[derive(Drop)]
pub struct StdSink<W: Write> {
    inner: W,
    faults: u64,
}

impl<W: Write> StdSink<W> {
    /// The writer, to which nothing was written and which has not failed.
    pub fn new(inner: W) -> StdSink<W>
        ensures got { ⟦<StdSink<W> as Sink>⟧.got result ≡ W.contents inner }
        ensures faults { ⟦<StdSink<W> as Sink>⟧.faults result ≡ 0 }
    {
        StdSink { inner, faults: 0 }
    }
}

impl<W: Write> Sink for StdSink<W> {
    ghost got = { λ s. W.contents s.inner };

    ghost faults = { λ s. s.faults };

    fn write(&mut self, piece: &[u8]) -> Put {
        let put = write_once(&mut self.inner, piece);
        if let Put::Failed = put {
            self.faults = self.faults.saturating_add(1);
        }
        put
    }

    fn flush(&mut self) -> Flushed {
        let flushed = flush_once(&mut self.inner);
        if let Flushed::Failed = flushed {
            self.faults = self.faults.saturating_add(1);
        }
        flushed
    }
}

/// A sink in memory, which tells what it got.
#[derive(Drop)]
pub struct BytesOut {
    got: Vec<u8>,
    most: usize,
    calls: Calls,
    faults: u64,
    ghost some: { 0 < most },
}

impl BytesOut {
    /// Takes at most `most` bytes in a call. The calls of both kinds are numbered together from 1, and
    /// those whose numbers stand in `fails` fail. A write that finds no memory fails too.
    pub fn new(alloc: Global, most: usize, fails: Vec<u64>) -> BytesOut
        requires { 0 < most }
        ensures got { ⟦<BytesOut as Sink>⟧.got result ≡ Some [] }
        ensures faults { ⟦<BytesOut as Sink>⟧.faults result ≡ 0 }
        ensures most { result.most ≡ most }
        ensures calls { NoneCounted result.calls fails.items }
    {
        BytesOut {
            got: Vec::new(alloc),
            most,
            calls: Calls::new(fails),
            faults: 0,
        }
    }

    /// The bytes that the sink got.
    pub fn bytes(&self) -> &[u8]
        ensures { ⟦<BytesOut as Sink>⟧.got self.now ≡ Some result.now }
    {
        self.got.as_slice()
    }
}

impl Sink for BytesOut {
    ghost use Rattle.std.specs.Prelude.{Some};

    ghost got = { λ s. Some s.got.items };

    ghost faults = { λ s. s.faults };

    fn write(&mut self, piece: &[u8]) -> Put
        requires { 0 < length piece.now }
        ensures put { PutsTo (⟦<BytesOut as Sink>⟧.got self.old) (⟦<BytesOut as Sink>⟧.got self.new) result piece.now }
        ensures within { IsPutWithin result (length piece.now) }
        ensures cause { Counts self.old.faults self.new.faults (result ≡ Put.Failed) }

        // Which calls fail, where there is memory, and how many bytes one takes at most.
        ensures fails { IsFaultNext self.old.calls → result ≡ Put.Failed }
        ensures counted { CountsOne self.old.calls self.new.calls }
        ensures most { IsPutWithin result self.old.most }
        ensures same_most { self.new.most ≡ self.old.most }
    {
        let fails = self.calls.begin();
        let count = piece.len().min(self.most);
        if !fails && self.got.extend_from_slice(&piece[..count]).is_ok() {
            return Put::Bytes(count);
        }
        self.faults = self.faults.saturating_add(1);
        Put::Failed
    }

    fn flush(&mut self) -> Flushed
        ensures same { Keeps (⟦<BytesOut as Sink>⟧.got self.old) (⟦<BytesOut as Sink>⟧.got self.new) }
        ensures cause { Counts self.old.faults self.new.faults (result ≡ Flushed.Failed) }

        // Which calls fail.
        ensures fails { result ≡ Flushed.Failed ↔ IsFaultNext self.old.calls }
        ensures counted { CountsOne self.old.calls self.new.calls }
        ensures same_most { self.new.most ≡ self.old.most }
    {
        if self.calls.begin() {
            self.faults = self.faults.saturating_add(1);
            return Flushed::Failed;
        }
        Flushed::Done
    }
}
