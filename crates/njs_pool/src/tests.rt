// Workers over listeners in memory. Each test ends by itself.
ghost use Rattle.std.specs.Prelude.{◌≡◌, IfOk, vec_len, None, true};
ghost use Rattle.std.specs.List.{All};

use crate::{Handler, PoolEnd, Pooled, workers};
use njs_edge::{
    Accepted, BytesDesk, BytesIn, BytesOut, Ends, ErrorDesk, Flushed, Gate, ListClocks, ListConn,
    ListListener, Listener, OpenGate, RealClocks, TcpEnds,
};
use njs_text::{NoMemory, Text};
use std::alloc::Global;
use std::sync::atomic::{AtomicU64, Ordering};
use std::test::Fail;
use std::thread;

const KEY: u32 = 7;

// How many connections it served, for handlers of a key.
#[derive(Drop)]
struct Seat {
    key: u32,
    served: u64,
}

// Counts each connection in the place that its peer's address says.
#[derive(Drop)]
struct Marks<'a> {
    key: u32,
    handled: &'a [AtomicU64],
}

fn count_at(counts: &[AtomicU64], place: usize) {
    if let Some(count) = counts.get(place) {
        count.fetch_add(1, Ordering::SeqCst);
    }
}

impl<'a> Handler<ListConn> for Marks<'a> {
    type Seat = Seat;

    type Served = (BytesIn, BytesOut);

    ghost fits = { λ handler seat. seat.key ≡ handler.key };

    ghost number = { λ _ seat. seat.served };

    fn handle(&self, _alloc: Global, seat: &mut Seat, conn: ListConn) -> (BytesIn, BytesOut) {
        let (source, sink, peer) = conn.parts();
        if let Ok(place) = peer.as_str().parse::<usize>() {
            count_at(self.handled, place);
        }
        seat.served = seat.served.wrapping_add(1);
        (source, sink)
    }
}

fn text(alloc: Global, word: &str) -> Result<Text, NoMemory> {
    match Text::from_utf8(alloc, word.as_bytes()) {
        Ok(text) => Ok(text),
        Err(_) => Err(NoMemory),
    }
}

fn seats(alloc: Global, count: u32) -> Result<Vec<Seat>, NoMemory>
    ensures len { IfOk result (λ seats. vec_len seats ≡ count) }
    ensures key { IfOk result (λ seats. All (λ seat. seat.key ≡ KEY) seats.items) }
{
    let mut seats = Vec::new(alloc);
    for _ in 0..count {
        seats.push(Seat {
            key: KEY,
            served: 0,
        })?;
    }
    Ok(seats)
}

// As many counts, each 0.
fn counts(alloc: Global, count: u32) -> Result<Vec<AtomicU64>, NoMemory> {
    let mut counts = Vec::new(alloc);
    for _ in 0..count {
        counts.push(AtomicU64::new(0))?;
    }
    Ok(counts)
}

fn conn(alloc: Global, number: u32) -> Result<ListConn, NoMemory> {
    let peer = format!(in alloc; "{number}")?;
    Ok(ListConn::new(
        BytesIn::new(Vec::new(alloc), 1, Vec::new(alloc)),
        BytesOut::new(alloc, 1, Vec::new(alloc)),
        text(alloc, peer.as_str())?,
    ))
}

// An open listener of so many connections, whose addresses are 0, 1 and so on. Its first call was `open`.
fn open_listener(alloc: Global, count: u32, fails: &[u64]) -> Result<ListListener, NoMemory>
    ensures { IfOk result (λ listener. ⟦<ListListener as Listener>⟧.is_open listener ≡ true) }
{
    let mut conns = Vec::new(alloc);
    for number in 0..count {
        conns.push(conn(alloc, number)?)?;
    }
    let fails = Vec::from_slice(alloc, fails)?;
    let mut listener = ListListener::new(alloc, conns, fails);
    let host = text(alloc, "localhost")?;
    match listener.open(&host, 80) {
        Flushed::Done => Ok(listener),
        Flushed::Failed => Err(NoMemory),
    }
}

fn served(seats: &[Seat]) -> u64 {
    let mut sum: u64 = 0;
    for seat in seats {
        sum = sum.wrapping_add(seat.served);
    }
    sum
}

fn are_all(counts: &[AtomicU64], value: u64) -> bool {
    counts
        .iter()
        .all(|count| count.load(Ordering::SeqCst) == value)
}

// Counts how often it was called with each number.
#[derive(Drop)]
struct CountingGate<'a> {
    before: &'a [AtomicU64],
    after: &'a [AtomicU64],
}

impl<'a> Gate for CountingGate<'a> {
    fn before(&self, number: u64) {
        count_at(self.before, number as usize);
    }

    fn after(&self, number: u64) {
        count_at(self.after, number as usize);
    }
}

#[test]
fn a_thousand_connections_on_four_workers_are_handled_once(rt: HostRuntime) -> Result<(), Fail> {
    let alloc = rt.alloc();
    let mut listener = open_listener(alloc, 1000, &[])?;
    let handled = counts(alloc, 1000)?;
    let (before, after) = (counts(alloc, 1000)?, counts(alloc, 1000)?);
    let gate = CountingGate {
        before: before.as_slice(),
        after: after.as_slice(),
    };
    let handler = Marks {
        key: KEY,
        handled: handled.as_slice(),
    };
    let Pooled { seats, end } = workers(
        &rt,
        alloc,
        &mut listener,
        &gate,
        seats(alloc, 4)?,
        &handler,
    );
    assert_eq!(rt;
        (end, seats.len(), served(seats.as_slice())),
        (PoolEnd::Closed, 4, 1000)
    );
    assert!(rt; are_all(handled.as_slice(), 1));
    assert!(rt; are_all(before.as_slice(), 1) && are_all(after.as_slice(), 1));
    Ok(())
}

// Checks, for workers at one seat, that the calls are in order: before, the connection of that number, after.
#[derive(Drop)]
struct Order {
    // Thrice the number of the connections that were handled, and one for each call since.
    step: AtomicU64,
    faults: AtomicU64,
}

impl Order {
    // One step on, from the one that is due.
    fn step(&self, due: u64) {
        if self.step.fetch_add(1, Ordering::SeqCst) != due {
            self.faults.fetch_add(1, Ordering::SeqCst);
        }
    }
}

impl Gate for Order {
    fn before(&self, number: u64) {
        self.step(number.wrapping_mul(3));
    }

    fn after(&self, number: u64) {
        self.step(number.wrapping_mul(3).wrapping_add(2));
    }
}

// The connections are to come in the order of their addresses.
#[derive(Drop)]
struct Ordered<'a> {
    order: &'a Order,
}

impl<'a> Handler<ListConn> for Ordered<'a> {
    type Seat = Seat;

    type Served = ();

    ghost fits = { λ _ seat. seat.key ≡ 7 };

    ghost number = { λ _ seat. seat.served };

    fn handle(&self, _alloc: Global, seat: &mut Seat, conn: ListConn) {
        let (_source, _sink, peer) = conn.parts();
        let number = peer.as_str().parse::<u64>().unwrap_or(u64::MAX);
        self.order.step(number.wrapping_mul(3).wrapping_add(1));
        seat.served = seat.served.wrapping_add(1);
    }
}

#[test]
fn connections_are_numbered_in_the_order_of_acceptance(rt: HostRuntime) -> Result<(), Fail> {
    let alloc = rt.alloc();
    // The first call was `open`; the fourth fails.
    let mut listener = open_listener(alloc, 5, &[4])?;
    let order = Order {
        step: AtomicU64::new(0),
        faults: AtomicU64::new(0),
    };
    let handler = Ordered { order: &order };
    let first = workers(
        &rt,
        alloc,
        &mut listener,
        &order,
        seats(alloc, 1)?,
        &handler,
    );
    assert_eq!(rt;
        (first.end, served(first.seats.as_slice())),
        (PoolEnd::Failed, 2)
    );
    let counted = (
        order.step.load(Ordering::SeqCst),
        order.faults.load(Ordering::SeqCst),
    );
    assert_eq!(rt; counted, (6, 0));
    let rest = workers(&rt, alloc, &mut listener, &OpenGate, first.seats, &handler);
    assert_eq!(rt;
        (rest.end, served(rest.seats.as_slice())),
        (PoolEnd::Closed, 5)
    );
    Ok(())
}

// A listener that finds no memory.
#[derive(Drop)]
struct Hungry;

impl Listener for Hungry {
    type Conn = ListConn;

    ghost number = { λ _. 0 };

    ghost closed = { λ _. 0 };

    ghost faults = { λ _. 0 };

    ghost is_open = { λ _. true };

    ghost asked = { λ _. None };

    fn open(&mut self, _host: &Text, _port: u16) -> Flushed {
        Flushed::Done
    }

    fn accept(&mut self, _alloc: Global) -> Accepted<ListConn> {
        Accepted::NoMemory
    }
}

#[test]
fn want_of_memory_gives_the_seats_back(rt: HostRuntime) -> Result<(), Fail> {
    let alloc = rt.alloc();
    let handler = Marks {
        key: KEY,
        handled: &[],
    };
    let pooled = workers(
        &rt,
        alloc,
        &mut Hungry,
        &OpenGate,
        seats(alloc, 3)?,
        &handler,
    );
    assert_eq!(rt; (pooled.end, pooled.seats.len()), (PoolEnd::NoMemory, 3));
    Ok(())
}

const MAX_TURNS: u32 = 1_000_000;

// Holds connection 0 until connection 1 was handled, for so many turns at most.
#[derive(Drop)]
struct HoldingGate {
    is_handled: AtomicU64,
    gave_up: AtomicU64,
}

impl Gate for HoldingGate {
    fn before(&self, number: u64) {
        if number > 0 {
            return;
        }
        for _ in 0..MAX_TURNS {
            if self.is_handled.load(Ordering::SeqCst) > 0 {
                return;
            }
            thread::yield_now();
        }
        self.gave_up.fetch_add(1, Ordering::SeqCst);
    }

    fn after(&self, number: u64) {
        if number == 1 {
            self.is_handled.fetch_add(1, Ordering::SeqCst);
        }
    }
}

#[test]
fn connections_are_handled_side_by_side(rt: HostRuntime) -> Result<(), Fail> {
    let alloc = rt.alloc();
    let mut listener = open_listener(alloc, 2, &[])?;
    let gate = HoldingGate {
        is_handled: AtomicU64::new(0),
        gave_up: AtomicU64::new(0),
    };
    let handler = Marks {
        key: KEY,
        handled: &[],
    };
    let pooled = workers(&rt, alloc, &mut listener, &gate, seats(alloc, 2)?, &handler);
    assert_eq!(rt;
        (pooled.end, served(pooled.seats.as_slice())),
        (PoolEnd::Closed, 2)
    );
    assert_eq!(rt; gate.gave_up.load(Ordering::SeqCst), 0);
    Ok(())
}

fn is_shared<T: Sync>(_value: &T) {}

fn is_moved<T: Send>(_value: &T) {}

#[test]
fn threads_may_share_what_gives_each_connection_its_own(rt: HostRuntime) {
    is_shared(&ListClocks::new(&[]));
    is_shared(&RealClocks::new(&rt));
    is_shared(&BytesDesk::new(rt.alloc()));
    is_shared(&ErrorDesk::new(rt.stderr()));
    is_shared(&OpenGate);
    is_moved(&TcpEnds::new(&rt));
}
