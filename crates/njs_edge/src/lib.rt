//! The outside of the engine: sources, sinks, files, clocks, connections and their listeners, each as a
//! trait with an object in memory and one over the system.
//!
//! An object that has failed says so in its answer and in `faults`, a count that never falls. A count
//! that stands at its last value, 2^64 - 1, is taken to have risen. The objects in memory tell what they
//! hold; those over the system tell nothing of it, or what a reader or writer of std tells.
#![tactic(auto)]

mod calls;
mod clock;
mod clocks;
mod desk;
mod ends;
mod files;
mod gate;
mod interruptions;
mod listener;
mod sink;
mod source;
mod tcp;
#[cfg(test)]
mod tests;

pub use clock::{Clock, ListClock, RealClock};
pub use clocks::{Clocks, ListClocks, RealClocks};
pub use desk::{BytesDesk, Desk, ErrorDesk};
pub use ends::{Ends, ListConn};
pub use files::{FileStop, Files, MapFiles, RealFiles};
pub use gate::{Gate, OpenGate};
pub use listener::{Accepted, ListListener, Listener};
pub use sink::{BytesOut, Flushed, Put, Sink, StdSink};
pub use source::{BytesIn, Source, StdSource, Taken};
pub use tcp::{TcpConn, TcpEnds};
