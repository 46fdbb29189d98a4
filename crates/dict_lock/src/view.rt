use dict_model::{Entry, ZoneSpec};
use std::collections::LinkedList;
use std::snapshot::Snapshot;

/// What lies in a zone's slot: the state, and the next caller's number.
#[derive(Drop)]
pub struct Held<Z> {
    pub state: Z,
    pub next: u32,
}

/// What a zone's table is told when it is made: its first state, and how many callers it begins with.
#[derive(Drop)]
pub struct Opening<Z> {
    pub state: Snapshot<Z>,
    pub count: u32,
}

/// Where a caller stands: it has no ticket, waits with one, or is in its turn.
pub enum Turn {
    Idle,
    Waits,
    Holds,
}

/// What a seat at a zone's table knows. It exists in proofs alone: no value of it is made.
pub struct ZoneView {
    // What the zone was opened with.
    pub of: ZoneSpec,
    // The caller's number. A note, and a seat that was joined into another, have none.
    pub own: Option<u32>,
    // The places in the history of the caller's own entries.
    pub mine: LinkedList<u64>,
    // The numbers that were closed into it, each with a bound: from there on the history has no entry of that number.
    pub closed: LinkedList<(u32, u64)>,
    // The history that it has seen.
    pub seen: LinkedList<Entry>,
    // A history that a join brought, which the next load takes in.
    pub told: LinkedList<Entry>,
    // All numbers that were handed out, as far as it knows, are below this one.
    pub made: u32,
    pub turn: Turn,
    pub ticket: u64,
    // In a turn, the longest history.
    pub whole: LinkedList<Entry>,
}
