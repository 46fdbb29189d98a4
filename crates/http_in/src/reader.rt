// Reads one request after another off a source.
ghost use Rattle.std.specs.Prelude.{◌≡◌, ◌≤◌, [], length, drop, false, OnOk, OnErr};
ghost use Rattle.njs_edge.specs.Causes.{Counts};
ghost use Rattle.http_in.specs.Deciding.{IsUndecided};
ghost use Rattle.http_in.specs.Keeping.{HasAdded, IsSpent};
ghost use Rattle.http_in.specs.Reader.{is_last, count_given, ReadsOn, LookIs, FillIs, EndIs};

use crate::decide::{Decided, Progress, decide};
use crate::head::{MAX_HEAD, Place, is_nothing};
use crate::request::Request;
use njs_edge::{Source, Taken};
use njs_text::NoMemory;
use std::alloc::Global;
use std::marker::Model;

/// What stands at the next place.
#[derive(Drop)]
pub enum Next {
    Request(Request),
    /// The bytes are refused with this status: 400, 413, 414, 501 or 505 (RFC 9110 §15.5, §15.6).
    Bad(u16),
    /// The source has ended, and at most empty lines were left.
    End,
    /// The source has ended within a request.
    Cut,
    /// The source failed.
    ReadFault,
    /// A growth was refused.
    NoMemory,
}

/// What the held bytes give.
#[derive(Drop)]
pub(crate) enum Look {
    Request(Request),
    Bad(u16),
    Undecided,
    NoMemory,
}

/// What one more read gave.
#[derive(Clone, Copy, Debug, PartialEq, Eq)]
pub(crate) enum Fill {
    Added,
    End,
    Failed,
    NoMemory,
}

/// Reads the requests of one connection, one after another. It holds the bytes that it has taken and not yet given out.
#[derive(Drop)]
pub struct Reader {
    bytes: Vec<u8>,
    at: usize,
    progress: Progress,
    given: usize,
    spent: bool,
}

impl Model for Reader {
    ghost use Rattle.std.specs.Prelude.{drop};
    ghost use Rattle.http_in.specs.Keeping.{Kept, IsKept};

    ghost Value = { Kept };

    ghost view = { λ r. record { held = drop r.at r.bytes.items; given = r.given; spent = r.spent } };

    ghost invariant = { λ r. IsKept r.bytes.items r.at r.given r.spent r.progress };
}

// Nothing is known of the bytes of a request of which none was looked at.
const FRESH: Progress = Progress {
    place: Place::EmptyLines(0),
    need: 0,
};

/// The most bytes that are asked for at once.
const ROOM: usize = 4096;

// Lets go of so many bytes at the front.
fn let_go(bytes: &mut Vec<u8>, count: usize)
    requires { count ≤ length bytes.old.items }
    ensures { bytes.new.items ≡ drop count bytes.old.items }
{
    drop(bytes.drain(..count));
}

impl Reader {
    /// Nothing was taken, and no request given.
    pub fn new(alloc: Global) -> Reader
        ensures held { result.held ≡ [] }
        ensures given { result.given ≡ 0 }
        ensures spent { result.spent ≡ false }
    {
        Reader {
            bytes: Vec::new(alloc),
            at: 0,
            progress: FRESH,
            given: 0,
            spent: false,
        }
    }

    /// Whether the reader gives no further answer: after each but a request that keeps the connection.
    pub fn is_spent(&self) -> bool
        ensures { result ≡ self.now.spent }
    {
        self.spent
    }

    // What the held bytes give.
    fn look(&mut self, alloc: Global) -> Look
        requires { self.old.spent ≡ false }
        ensures { LookIs result self.old self.new }
    {
        match decide(
            alloc,
            self.given,
            &self.bytes[self.at..],
            &mut self.progress,
        ) {
            Decided::Request(request, used) => {
                self.at += used;
                self.progress = FRESH;
                self.given += 1;
                self.spent = !request.keep;
                Look::Request(request)
            }
            Decided::Bad(status) => {
                self.spent = true;
                Look::Bad(status)
            }
            Decided::Undecided => Look::Undecided,
            Decided::NoMemory => {
                self.spent = true;
                Look::NoMemory
            }
        }
    }

    // Lets go of the bytes that were given out.
    fn compact(&mut self)
        ensures { self.new ≡ self.old }
    {
        if self.at > 0 {
            let_go(&mut self.bytes, self.at);
            self.at = 0;
        }
    }

    fn add(&mut self, piece: &[u8]) -> Result<(), NoMemory>
        ensures ok { OnOk result (HasAdded self.old self.new piece.now) }
        ensures err { OnErr result (self.new ≡ self.old) }
    {
        self.compact();
        self.bytes.extend_from_slice(piece)?;
        Ok(())
    }

    // One more piece of the source.
    fn fill<S: Source>(&mut self, source: &mut S, room: &mut [u8]) -> Fill
        requires { length room.old ≡ 4096 }
        ensures filled { FillIs result (S.left source.old) (S.left source.new) self.old self.new }
        ensures cause { Counts (S.faults source.old) (S.faults source.new) (result ≡ Fill.Failed) }
    {
        match source.read(room) {
            Taken::Bytes(count) => match self.add(&room[..count]) {
                Ok(()) => Fill::Added,
                Err(NoMemory) => Fill::NoMemory,
            },
            Taken::End => Fill::End,
            Taken::Failed => Fill::Failed,
        }
    }

    fn spend(&mut self)
        ensures { IsSpent self.old self.new }
    {
        self.spent = true;
    }

    // What stands there where the source has ended.
    fn end(&mut self) -> Next
        requires { IsUndecided self.old.given self.old.held }
        ensures { EndIs result self.old self.new }
    {
        let held = &self.bytes[self.at..];
        let nothing = is_nothing(&held[..held.len().min(MAX_HEAD)]);
        self.spent = true;
        if nothing {
            return Next::End;
        }
        Next::Cut
    }

    /// The next request, or what stands there in its place. It reads on only while the bytes that are held decide nothing, and
    /// the answer is the same whatever bytes may follow.
    pub fn next<S: Source>(&mut self, alloc: Global, source: &mut S) -> Next
        requires { self.old.spent ≡ false }
        ensures next { ReadsOn (S.left source.old) (S.left source.new) self.old self.new result }
        ensures given { self.new.given ≡ count_given result self.old.given }
        ensures spent { self.new.spent ≡ is_last result }
        ensures cause { Counts (S.faults source.old) (S.faults source.new) (result ≡ Next.ReadFault) }
    {
        let mut room = [0u8; ROOM];
        loop {
            match self.look(alloc) {
                Look::Request(request) => return Next::Request(request),
                Look::Bad(status) => return Next::Bad(status),
                Look::Undecided => {}
                Look::NoMemory => return Next::NoMemory,
            }
            match self.fill(source, &mut room) {
                Fill::Added => {}
                Fill::End => return self.end(),
                Fill::Failed => {
                    self.spend();
                    return Next::ReadFault;
                }
                Fill::NoMemory => {
                    self.spend();
                    return Next::NoMemory;
                }
            }
        }
    }
}
