// What lies under the workers' lock.
ghost use base.Fml.{GName};
ghost use Rattle.std.specs.Prelude.{◌≡◌, ◌+◌, ◌%◌, ◌^◌, ◌<◌, ◌≤◌, ℕ, List, Option, Some, None, true, MatchOption};
ghost use Rattle.njs_edge.specs.Causes.{Rose};
ghost use Rattle.njs_pool.specs.declared.pool_end.PoolEnd.TheVariants as end_is;

use crate::pool_end::PoolEnd;
use njs_edge::{Accepted, Listener};
use std::alloc::Global;
use std::marker::Brand;
use std::sync::ledger::{Book, Ledger, Share};

/// One call of `workers`: where its listener stood at the beginning. Each call picks it.
pub trait Run: Ledger {
    ghost number: { ℕ };

    ghost closed: { ℕ };

    ghost faults: { ℕ };

    ghost asked: { Option (List (List ℕ × ℕ)) };

    /// Which `&mut` to the listener it is.
    ghost place: { GName };
}

impl Run for Brand {
    ghost number = { 0 };

    ghost closed = { 0 };

    ghost faults = { 0 };

    ghost asked = { None };

    ghost place = { 0 };
}

/// The listener, why it has ended, the number of the next connection, and the book of those that it handed out in this
/// call.
#[derive(Drop)]
pub struct Acceptor<'l, J: Run, I: Listener> {
    pub listener: &'l mut I,
    pub end: Option<PoolEnd>,
    pub next: u64,
    pub book: Book<J>,
    ghost same: { listener.ghost_name ≡ J.place },
    ghost open: { I.is_open listener.now ≡ true },
    ghost asked: { I.asked listener.now ≡ J.asked },
    ghost counted: { I.number listener.now % 2 ^ 64 ≡ (J.number + book.total) % 2 ^ 64 },
    ghost closed: { (J.closed ≤ I.closed listener.now) × (end ≡ Some end_is.Closed → Rose J.closed (I.closed listener.now)) },
    ghost failed: { (J.faults ≤ I.faults listener.now) × (end ≡ Some end_is.Failed → Rose J.faults (I.faults listener.now)) },
}

impl<'l, J: Run, I: Listener> Acceptor<'l, J, I> {
    // The next connection with its number, which counts in the share. None once the listener has ended.
    pub fn accept(&mut self, alloc: Global, share: &mut Share<J>) -> Option<(I::Conn, u64)>
        requires { 0 < share.old.parts }
        ensures parts { share.new.parts ≡ share.old.parts }
        ensures amount { MatchOption result (share.new.amount ≡ share.old.amount) (λ _. share.new.amount ≡ share.old.amount + 1) }
    {
        if self.end.is_some() {
            return None;
        }
        let Acceptor {
            listener,
            end,
            next,
            book,
        } = self;
        match listener.accept(alloc) {
            Accepted::Conn(conn) => {
                book.add(share, 1);
                let number = *next;
                *next = number.wrapping_add(1);
                return Some((conn, number));
            }
            Accepted::Closed => *end = Some(PoolEnd::Closed),
            Accepted::Failed => *end = Some(PoolEnd::Failed),
            Accepted::NoMemory => *end = Some(PoolEnd::NoMemory),
        }
        None
    }
}
