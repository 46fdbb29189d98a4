// What gives each connection a sink of its own for notes.
ghost use Rattle.std.specs.Prelude.{◌≡◌, ◌-◌, ◌^◌, []};
ghost use Rattle.njs_edge.specs.Begins.{BeginsEmpty};
ghost use Rattle.njs_edge.specs.Calls.{NoneCounted};

use crate::sink::{BytesOut, Sink, StdSink};
use std::alloc::Global;
use std::rt::Stderr;

/// Gives sinks for notes. It may be shared by several threads.
pub trait Desk {
    /// The sink of one connection's notes.
    type Own: Sink + Drop + Send;

    /// A sink that got nothing and has not failed.
    fn own(&self) -> Self::Own
        ensures got { BeginsEmpty (Self.Own.got result) }
        ensures faults { Self.Own.faults result ≡ 0 };
}

/// Gives sinks in memory. No call of them is to fail, and one takes as much as it is given.
#[derive(Drop)]
pub struct BytesDesk {
    alloc: Global,
}

impl BytesDesk {
    /// A desk whose sinks take their memory here.
    pub fn new(alloc: Global) -> BytesDesk {
        BytesDesk { alloc }
    }
}

impl Desk for BytesDesk {
    type Own = BytesOut;

    fn own(&self) -> BytesOut
        ensures got { BeginsEmpty (⟦<BytesOut as Sink>⟧.got result) }
        ensures faults { ⟦<BytesOut as Sink>⟧.faults result ≡ 0 }

        // None of its calls is to fail, and one has no bound.
        ensures calls { NoneCounted result.calls [] }
        ensures most { result.most ≡ 2 ^ 64 - 1 }
    {
        BytesOut::new(self.alloc, usize::MAX, Vec::new(self.alloc))
    }
}

/// Gives sinks over the standard error.
#[derive(Drop)]
pub struct ErrorDesk {
    errors: Stderr,
}

impl ErrorDesk {
    /// A desk over the standard error.
    pub fn new(errors: Stderr) -> ErrorDesk {
        ErrorDesk { errors }
    }
}

impl Desk for ErrorDesk {
    type Own = StdSink<Stderr>;

    fn own(&self) -> StdSink<Stderr> {
        StdSink::new(self.errors)
    }
}
