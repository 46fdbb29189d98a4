// Listeners, by how many connections they handed out and what they said besides.
ghost use Rattle.std.specs.Prelude.{◌≡◌, ◌⊎◌, ℕ, List, [], ◌∷◌, ◌++◌, Bool, true, false, Option, Some, None, OnOk};
ghost use Rattle.std.specs.Vec.Iter.{into_iter_items};
ghost use Rattle.njs_edge.specs.Causes.{Counts};
ghost use Rattle.njs_edge.specs.Calls.{IsFaultNext, CountsOne, NoneCounted};
ghost use Rattle.njs_edge.specs.Listener.{number_after, IsClosed, IsFailed, open_after, AsksToOpen, GivesFirst};

use crate::calls::Calls;
use crate::ends::{Ends, ListConn};
use crate::sink::Flushed;
use njs_text::{NoMemory, Text};
use std::alloc::Global;
use std::vec::IntoIter;

/// What a listener answered.
#[derive(Debug, Drop, PartialEq, Eq)]
pub enum Accepted<E> {
    /// One connection, whole.
    Conn(E),
    /// No more connections will come.
    Closed,
    /// The listener failed.
    Failed,
    /// A growth was refused. What connection came is lost, and was not counted.
    NoMemory,
}

/// Gives connections, once it is open.
pub trait Listener {
    /// A connection.
    type Conn: Ends + Send;

    /// How many connections it handed out, modulo 2^64.
    ghost number: { Self → ℕ };

    /// How often it said that no more connections will come.
    ghost closed: { Self → ℕ };

    /// How often a call has failed.
    ghost faults: { Self → ℕ };

    /// Whether it is open.
    ghost is_open: { Self → Bool };

    /// The addresses, as host and port, that it was asked to open, in order, where they are told.
    ghost asked: { Self → Option (List (List ℕ × ℕ)) };

    /// Opens the listener at an address. It is open afterwards exactly where that is `Done` or where it was before.
    fn open(&mut self, host: &Text, port: u16) -> Flushed
        ensures open { is_open self.new ≡ open_after result (is_open self.old) }
        ensures asked { AsksToOpen (asked self.old) (asked self.new) (host.now, port) result }
        ensures number { number self.new ≡ number self.old }
        ensures closed { closed self.new ≡ closed self.old }
        ensures cause { Counts (faults self.old) (faults self.new) (result ≡ Flushed.Failed) };

    /// The next connection.
    fn accept(&mut self, alloc: Global) -> Accepted<Self::Conn>
        requires { is_open self.old ≡ true }
        ensures open { is_open self.new ≡ true }
        ensures asked { asked self.new ≡ asked self.old }
        ensures number { number self.new ≡ number_after result (number self.old) }
        ensures closed { Counts (closed self.old) (closed self.new) (IsClosed result) }
        ensures cause { Counts (faults self.old) (faults self.new) (IsFailed result) };
}

/// A listener in memory, which tells the addresses that it was asked to open, and gives the connections of a list. Past
/// its list it is closed.
#[derive(Drop)]
pub struct ListListener {
    alloc: Global,
    conns: IntoIter<ListConn, Global>,
    calls: Calls,
    is_open: bool,
    asked: Option<Vec<(Text, u16)>>,
    number: u64,
    closed: u64,
    faults: u64,
}

impl ListListener {
    /// Gives these connections, in order. The calls of both kinds are numbered together from 1, and those whose numbers
    /// stand in `fails` fail. An `open` that finds no memory fails too, and from then on no address is told.
    pub fn new(alloc: Global, conns: Vec<ListConn>, fails: Vec<u64>) -> ListListener
        ensures number { ⟦<ListListener as Listener>⟧.number result ≡ 0 }
        ensures closed { ⟦<ListListener as Listener>⟧.closed result ≡ 0 }
        ensures faults { ⟦<ListListener as Listener>⟧.faults result ≡ 0 }
        ensures open { ⟦<ListListener as Listener>⟧.is_open result ≡ false }
        ensures asked { ⟦<ListListener as Listener>⟧.asked result ≡ Some [] }
        ensures conns { into_iter_items result.conns ≡ conns.items }
        ensures calls { NoneCounted result.calls fails.items }
    {
        ListListener {
            alloc,
            conns: conns.into_iter(),
            calls: Calls::new(fails),
            is_open: false,
            asked: Some(Vec::new(alloc)),
            number: 0,
            closed: 0,
            faults: 0,
        }
    }
}

// Notes an address.
fn note(alloc: Global, asked: &mut Vec<(Text, u16)>, host: &Text, port: u16) -> Result<(), NoMemory>
    ensures { OnOk result (asked.new.items ≡ asked.old.items ++ (host.now, port) ∷ []) }
{
    asked.push((host.copy(alloc)?, port))?;
    Ok(())
}

impl Listener for ListListener {
    ghost use Rattle.std.specs.Option.{option_map};

    type Conn = ListConn;

    ghost number = { λ s. s.number };

    ghost closed = { λ s. s.closed };

    ghost faults = { λ s. s.faults };

    ghost is_open = { λ s. s.is_open };

    ghost asked = { λ s. option_map (λ asked. asked.items) s.asked };

    fn open(&mut self, host: &Text, port: u16) -> Flushed
        ensures open { self.new.is_open ≡ open_after result self.old.is_open }
        ensures asked { AsksToOpen (⟦<ListListener as Listener>⟧.asked self.old) (⟦<ListListener as Listener>⟧.asked self.new) (host.now, port) result }
        ensures number { self.new.number ≡ self.old.number }
        ensures closed { self.new.closed ≡ self.old.closed }
        ensures cause { Counts self.old.faults self.new.faults (result ≡ Flushed.Failed) }

        // Which calls fail, where there is memory.
        ensures fails { IsFaultNext self.old.calls → result ≡ Flushed.Failed }
        ensures opens { result ≡ Flushed.Failed → IsFaultNext self.old.calls ⊎ (⟦<ListListener as Listener>⟧.asked self.new ≡ None) }
        ensures counted { CountsOne self.old.calls self.new.calls }
        ensures conns { into_iter_items self.new.conns ≡ into_iter_items self.old.conns }
    {
        let fails = self.calls.begin();
        if let Some(asked) = &mut self.asked {
            if note(self.alloc, asked, host, port).is_err() {
                self.asked = None;
                self.faults = self.faults.saturating_add(1);
                return Flushed::Failed;
            }
        }
        if fails {
            self.faults = self.faults.saturating_add(1);
            return Flushed::Failed;
        }
        self.is_open = true;
        Flushed::Done
    }

    fn accept(&mut self, _alloc: Global) -> Accepted<ListConn>
        requires { self.old.is_open ≡ true }
        ensures open { self.new.is_open ≡ true }
        ensures asked { ⟦<ListListener as Listener>⟧.asked self.new ≡ ⟦<ListListener as Listener>⟧.asked self.old }
        ensures number { self.new.number ≡ number_after result self.old.number }
        ensures closed { Counts self.old.closed self.new.closed (IsClosed result) }
        ensures cause { Counts self.old.faults self.new.faults (IsFailed result) }

        // Which calls fail, and which connection comes.
        ensures gives { GivesFirst (into_iter_items self.old.conns) (into_iter_items self.new.conns) (IsFaultNext self.old.calls) result }
        ensures counted { CountsOne self.old.calls self.new.calls }
    {
        if self.calls.begin() {
            self.faults = self.faults.saturating_add(1);
            return Accepted::Failed;
        }
        match self.conns.next() {
            Some(conn) => {
                self.number = self.number.wrapping_add(1);
                Accepted::Conn(conn)
            }
            None => {
                self.closed = self.closed.saturating_add(1);
                Accepted::Closed
            }
        }
    }
}
