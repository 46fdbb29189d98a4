// The workers.
ghost use Rattle.std.specs.Prelude.{◌≡◌, ◌+◌, ◌%◌, ◌^◌, ◌<◌, ◌≤◌, ℕ, [], true, length, slice_index_or, vec_len, vec_capacity};
ghost use Rattle.std.specs.List.{All, sum_by};
ghost use Rattle.njs_edge.specs.Causes.{Counts};
ghost use Rattle.njs_pool.specs.Numbers.{RiseAlike};
ghost use Rattle.njs_pool.specs.declared.pool_end.PoolEnd.TheVariants as end_is;

use crate::acceptor::{Acceptor, Run};
use crate::handler::Handler;
use crate::pool_end::PoolEnd;
use njs_edge::{Ends, Gate, Listener};
use std::alloc::Global;
use std::marker::Brand;
use std::sync::ledger::{Blank, Share};
use std::sync::{Mutex, Wait};
use std::thread;
use std::thread::Threads;

/// All seats, and why the workers ended.
#[derive(Drop)]
pub struct Pooled<S> {
    /// The seats.
    pub seats: Vec<S>,
    /// Why the workers ended.
    pub end: PoolEnd,
}

// A seat, and its part in the count of connections.
struct Worker<J: Run, S> {
    seat: S,
    share: Share<J>,
    ghost one_part: { share.parts ≡ 1 },
}

// Takes connections and handles them, until the listener has ended.
fn serve<'l, J: Run, I: Listener, G: Gate, H: Handler<I::Conn>, R: Wait>(
    rt: &R,
    alloc: Global,
    acceptor: &Mutex<Acceptor<'l, J, I>>,
    gate: &G,
    handler: &H,
    worker: &mut Worker<J, H::Seat>,
)
    requires fits { H.fits handler.now worker.old.seat }
    requires fresh { worker.old.share.amount ≡ 0 }
    ensures fits { H.fits handler.now worker.new.seat }
    ensures served { H.number handler.now worker.new.seat % 2 ^ 64 ≡ (H.number handler.now worker.old.seat + worker.new.share.amount) % 2 ^ 64 }
{
    for _ in rt.forever() {
        let next = acceptor.lock(rt).accept(alloc, &mut worker.share);
        let Some((conn, number)) = next else {
            return;
        };
        gate.before(number);
        drop(handler.handle(alloc, &mut worker.seat, conn));
        gate.after(number);
    }
    unreachable!()
}

// Gives each seat a part of the ledger.
fn arm<J: Run, E: Ends, H: Handler<E>>(
    handler: &H,
    all: &mut Share<J>,
    seats: &mut Vec<H::Seat>,
    workers: &mut Vec<Worker<J, H::Seat>>,
)
    requires parts { (vec_len seats.old ≡ all.old.parts) × (all.old.amount ≡ 0) }
    requires room { (workers.old.items ≡ []) × (vec_len seats.old ≤ vec_capacity workers.old) }
    requires fits { All (H.fits handler.now) seats.old.items }
    ensures parts { (all.new.parts ≡ 0) × (all.new.amount ≡ 0) }
    ensures seats { (seats.new.items ≡ []) × (vec_len seats.old ≤ vec_capacity seats.new) }
    ensures workers { vec_len workers.new ≡ vec_len seats.old }
    ensures fits { All (λ w. H.fits handler.now w.seat × (w.share.amount ≡ 0)) workers.new.items }
    ensures numbers { sum_by (λ w. H.number handler.now w.seat) workers.new.items ≡ sum_by (H.number handler.now) seats.old.items }
{
    while let Some(seat) = seats.pop() {
        let share = all.split_off(1, 0);
        workers.push_reserved(Worker { seat, share });
    }
}

// Takes the seats and the parts back.
fn disarm<J: Run, E: Ends, H: Handler<E>>(
    handler: &H,
    all: &mut Share<J>,
    seats: &mut Vec<H::Seat>,
    workers: &mut Vec<Worker<J, H::Seat>>,
)
    requires parts { (all.old.parts ≡ 0) × (all.old.amount ≡ 0) }
    requires room { (seats.old.items ≡ []) × (vec_len workers.old ≤ vec_capacity seats.old) }
    requires fits { All (λ w. H.fits handler.now w.seat) workers.old.items }
    ensures parts { all.new.parts ≡ vec_len workers.old }
    ensures amount { all.new.amount ≡ sum_by (λ w. w.share.amount) workers.old.items }
    ensures workers { workers.new.items ≡ [] }
    ensures seats { vec_len seats.new ≡ vec_len workers.old }
    ensures fits { All (H.fits handler.now) seats.new.items }
    ensures numbers { sum_by (H.number handler.now) seats.new.items ≡ sum_by (λ w. H.number handler.now w.seat) workers.old.items }
{
    while let Some(worker) = workers.pop() {
        let Worker { seat, share } = worker;
        all.merge(share);
        seats.push_reserved(seat);
    }
}

// One thread for each worker, as far as threads can be made.
fn serve_each<
    'l,
    J: Run + Send + Sync,
    I: Listener + Send,
    G: Gate + Sync,
    H: Handler<I::Conn> + Sync,
    R: Threads + Wait + Sync,
>(
    rt: &R,
    alloc: Global,
    acceptor: &Mutex<Acceptor<'l, J, I>>,
    gate: &G,
    handler: &H,
    workers: &mut [Worker<J, H::Seat>],
)
    requires some { 0 < length workers.old }
    requires ready { (i : ℕ) (d : _) → i < length workers.old → H.fits handler.now (slice_index_or workers.old i d).seat × ((slice_index_or workers.old i d).share.amount ≡ 0) }
    ensures fits { (i : ℕ) (d : _) → i < length workers.old → H.fits handler.now (slice_index_or workers.new i d).seat }
    ensures served { (i : ℕ) (d : _) → i < length workers.old → H.number handler.now (slice_index_or workers.new i d).seat % 2 ^ 64 ≡ (H.number handler.now (slice_index_or workers.old i d).seat + (slice_index_or workers.new i d).share.amount) % 2 ^ 64 }
{
    let count = workers.len();
    thread::for_each_mut(
        rt,
        workers,
        count,
        &|_: usize, worker: &mut Worker<J, H::Seat>|
            requires { H.fits handler.now worker.now.seat × (worker.now.share.amount ≡ 0) }
            ensures { H.fits handler.entry.now worker.exit.now.seat × (H.number handler.entry.now worker.exit.now.seat % 2 ^ 64 ≡ (H.number handler.entry.now worker.entry.now.seat + worker.exit.now.share.amount) % 2 ^ 64) }
        { serve(rt, alloc, acceptor, gate, handler, worker) },
    );
}

// The same, for all together.
fn serve_all<
    'l,
    J: Run + Send + Sync,
    I: Listener + Send,
    G: Gate + Sync,
    H: Handler<I::Conn> + Sync,
    R: Threads + Wait + Sync,
>(
    rt: &R,
    alloc: Global,
    acceptor: &Mutex<Acceptor<'l, J, I>>,
    gate: &G,
    handler: &H,
    workers: &mut [Worker<J, H::Seat>],
)
    requires some { 0 < length workers.old }
    requires ready { All (λ w. H.fits handler.now w.seat × (w.share.amount ≡ 0)) workers.old }
    ensures fits { All (λ w. H.fits handler.now w.seat) workers.new }
    ensures served { sum_by (λ w. H.number handler.now w.seat) workers.new % 2 ^ 64 ≡ (sum_by (λ w. H.number handler.now w.seat) workers.old + sum_by (λ w. w.share.amount) workers.new) % 2 ^ 64 }
{
    serve_each(rt, alloc, acceptor, gate, handler, workers);
}

// `workers`, in a ledger that has a part for each seat. It gives the listener back, so that what became of it is known.
fn run<
    'l,
    J: Run + Send + Sync,
    I: Listener + Send,
    G: Gate + Sync,
    H: Handler<I::Conn> + Sync,
    R: Threads + Wait + Sync,
>(
    rt: &R,
    alloc: Global,
    blank: Blank,
    listener: &'l mut I,
    gate: &G,
    mut seats: Vec<H::Seat>,
    handler: &H,
) -> (Pooled<H::Seat>, &'l mut I)
    requires blank { (blank.name ≡ J.name) × (blank.parts ≡ J.parts) × (J.parts ≡ vec_len seats) }
    requires begins { (J.number ≡ I.number listener.old) × (J.closed ≡ I.closed listener.old) × (J.faults ≡ I.faults listener.old) × (J.asked ≡ I.asked listener.old) }
    requires place { J.place ≡ listener.ghost_name }
    requires open { I.is_open listener.old ≡ true }
    requires seats { 0 < vec_len seats }
    requires fits { All (H.fits handler.now) seats.items }
    ensures name { result.1.ghost_name ≡ listener.entry.ghost_name }
    ensures open { I.is_open result.1.now ≡ true }
    ensures asked { I.asked result.1.now ≡ I.asked listener.entry.now }
    ensures seats { vec_len result.0.seats ≡ vec_len seats }
    ensures fits { All (H.fits handler.now) result.0.seats.items }
    ensures numbers { RiseAlike (sum_by (H.number handler.now) seats.items) (sum_by (H.number handler.now) result.0.seats.items) (I.number listener.entry.now) (I.number result.1.now) }
    ensures closed { Counts (I.closed listener.entry.now) (I.closed result.1.now) (result.0.end ≡ end_is.Closed) }
    ensures failed { Counts (I.faults listener.entry.now) (I.faults result.1.now) (result.0.end ≡ end_is.Failed) }
{
    let count = seats.len();
    let Ok(mut workers) = Vec::with_capacity(alloc, count) else {
        let end = PoolEnd::NoMemory;
        return (Pooled { seats, end }, listener);
    };
    let (book, mut all) = blank.open::<J>();
    arm(handler, &mut all, &mut seats, &mut workers);
    let acceptor = Mutex::new(Acceptor {
        listener,
        end: None,
        next: 0,
        book,
    });
    serve_all(rt, alloc, &acceptor, gate, handler, workers.as_mut_slice());
    disarm(handler, &mut all, &mut seats, &mut workers);
    workers.destroy_empty();
    let Acceptor {
        listener,
        end,
        next: _,
        mut book,
    } = acceptor.into_inner();
    book.audit(&mut all);
    let end = end.unwrap_or(PoolEnd::NoMemory);
    (Pooled { seats, end }, listener)
}

/// Serves the listener's connections until it has ended. There is one worker for each seat, in a thread of its own; where
/// one can't be started, the caller serves in its place. A worker takes one connection after another, and calls the gate
/// before and after each that it handles, with its number in the order of acceptance; no lock is held meanwhile. All
/// seats come back.
pub fn workers<
    R: Threads + Wait + Sync,
    I: Listener + Send,
    G: Gate + Sync,
    H: Handler<I::Conn> + Sync,
>(
    rt: &R,
    alloc: Global,
    listener: &mut I,
    gate: &G,
    seats: Vec<H::Seat>,
    handler: &H,
) -> Pooled<H::Seat>
    requires open { I.is_open listener.old ≡ true }
    requires seats { 0 < vec_len seats }
    requires fits { All (H.fits handler.now) seats.items }
    ensures seats { vec_len result.seats ≡ vec_len seats }
    ensures fits { All (H.fits handler.now) result.seats.items }
    ensures numbers { RiseAlike (sum_by (H.number handler.now) seats.items) (sum_by (H.number handler.now) result.seats.items) (I.number listener.old) (I.number listener.new) }
    ensures closed { Counts (I.closed listener.old) (I.closed listener.new) (result.end ≡ end_is.Closed) }
    ensures failed { Counts (I.faults listener.old) (I.faults listener.new) (result.end ≡ end_is.Failed) }
    ensures open { I.is_open listener.new ≡ true }
    ensures asked { I.asked listener.new ≡ I.asked listener.old }
{
    let blank = Blank::new(seats.len() as u64);
    let (pooled, _listener) = run::<Brand, I, G, H, R>(
        rt, alloc, blank, listener, gate, seats, handler,
    );
    pooled
}
