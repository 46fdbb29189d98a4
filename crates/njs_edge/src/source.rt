// Sources of bytes: what is left, where that is told, and a count of faults that never falls.
ghost use Rattle.std.specs.Prelude.{◌≡◌, ◌↔◌, ◌<◌, ◌≤◌, ℕ, List, Option, Some, None, length};
ghost use Rattle.njs_edge.specs.Causes.{Counts};
ghost use Rattle.njs_edge.specs.Source.{TakesFrom, IsWithin};
ghost use Rattle.njs_edge.specs.Calls.{IsFaultNext, CountsOne, NoneCounted};

use crate::calls::Calls;
use crate::interruptions::Interruptions;
use std::io::Read;

/// What a read gave.
#[derive(Clone, Copy, Debug, PartialEq, Eq)]
pub enum Taken {
    /// So many bytes, at least one. They stand at the front of the room.
    Bytes(usize),
    /// There are no more bytes. What the room holds is not said.
    End,
    /// The source failed, and took nothing from what it tells. What the room holds is not said.
    Failed,
}

/// Gives bytes, in order.
pub trait Source {
    /// The bytes that are left, where the source tells them.
    ghost left: { Self → Option (List ℕ) };

    /// How often a read has failed.
    ghost faults: { Self → ℕ };

    /// Takes bytes into a room that is not empty.
    fn read(&mut self, room: &mut [u8]) -> Taken
        requires { 0 < length room.old }
        ensures taken { TakesFrom (left self.old) (left self.new) result room.new }
        ensures within { IsWithin result (length room.new) }
        ensures cause { Counts (faults self.old) (faults self.new) (result ≡ Taken.Failed) };
}

/// Reads once, and again after each interruption, up to the last that is allowed.
pub fn read_once<R: Read>(
    inner: &mut R,
    room: &mut [u8],
    interruptions: &mut Interruptions,
) -> Taken
    requires { 0 < length room.old }
    ensures taken { TakesFrom (R.remaining inner.old) (R.remaining inner.new) result room.new }
    ensures within { IsWithin result (length room.new) }
{
    loop {
        match inner.read(room) {
            Ok(0) => return Taken::End,
            Ok(count) => return Taken::Bytes(count),
            Err(error) => {
                if !interruptions.allow(&error) {
                    return Taken::Failed;
                }
            }
        }
    }
}

/// A source over a reader of std. It tells what the reader tells: nothing, where that is a file, a
/// socket or a terminal. It reads again after an interruption; the 1,000th within one call is a failure,
/// as any other error is.
#[derive(Drop)]
pub struct StdSource<R: Read> {
    inner: R,
    faults: u64,
}

impl<R: Read> StdSource<R> {
    /// The reader, of which nothing was read and nothing failed.
    pub fn new(inner: R) -> StdSource<R>
        ensures left { ⟦<StdSource<R> as Source>⟧.left result ≡ R.remaining inner }
        ensures faults { ⟦<StdSource<R> as Source>⟧.faults result ≡ 0 }
    {
        StdSource { inner, faults: 0 }
    }
}

impl<R: Read> Source for StdSource<R> {
    ghost left = { λ s. R.remaining s.inner };

    ghost faults = { λ s. s.faults };

    fn read(&mut self, room: &mut [u8]) -> Taken {
        let taken = read_once(&mut self.inner, room, &mut Interruptions::new());
        if let Taken::Failed = taken {
            self.faults = self.faults.saturating_add(1);
        }
        taken
    }
}

/// A source in memory, which tells what is left. It takes no memory.
#[derive(Drop)]
pub struct BytesIn {
    bytes: Vec<u8>,
    at: usize,
    most: usize,
    calls: Calls,
    faults: u64,
    ghost within: { at ≤ length bytes.items },
    ghost some: { 0 < most },
}

impl BytesIn {
    /// Gives these bytes, at most `most` in a call. The calls are numbered from 1, and those whose
    /// numbers stand in `fails` fail.
    pub fn new(bytes: Vec<u8>, most: usize, fails: Vec<u64>) -> BytesIn
        requires { 0 < most }
        ensures left { ⟦<BytesIn as Source>⟧.left result ≡ Some bytes.items }
        ensures faults { ⟦<BytesIn as Source>⟧.faults result ≡ 0 }
        ensures most { result.most ≡ most }
        ensures calls { NoneCounted result.calls fails.items }
    {
        BytesIn {
            bytes,
            at: 0,
            most,
            calls: Calls::new(fails),
            faults: 0,
        }
    }
}

impl Source for BytesIn {
    ghost use Rattle.std.specs.Prelude.{drop, Some};

    ghost left = { λ s. Some (drop s.at s.bytes.items) };

    ghost faults = { λ s. s.faults };

    fn read(&mut self, room: &mut [u8]) -> Taken
        requires { 0 < length room.old }
        ensures taken { TakesFrom (⟦<BytesIn as Source>⟧.left self.old) (⟦<BytesIn as Source>⟧.left self.new) result room.new }
        ensures within { IsWithin result (length room.new) }
        ensures cause { Counts self.old.faults self.new.faults (result ≡ Taken.Failed) }

        // Which calls fail, and how many bytes one gives at most.
        ensures fails { result ≡ Taken.Failed ↔ IsFaultNext self.old.calls }
        ensures counted { CountsOne self.old.calls self.new.calls }
        ensures most { IsWithin result self.old.most }
        ensures same_most { self.new.most ≡ self.old.most }
    {
        if self.calls.begin() {
            self.faults = self.faults.saturating_add(1);
            return Taken::Failed;
        }
        let rest = &self.bytes[self.at..];
        if rest.is_empty() {
            return Taken::End;
        }
        let count = rest.len().min(self.most).min(room.len());
        room[..count].copy_from_slice(&rest[..count]);
        self.at += count;
        Taken::Bytes(count)
    }
}
