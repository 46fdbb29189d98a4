// What handles connections.
ghost use Rattle.std.specs.Prelude.{◌≡◌, ◌+◌, ◌%◌, ◌^◌, ℕ};

use njs_edge::Ends;
use std::alloc::Global;

/// Handles connections, each at a seat. It may be shared by several threads, each with seats of its own.
pub trait Handler<E: Ends> {
    /// What one worker keeps from connection to connection.
    type Seat: Send;

    /// What is left of a connection that was handled.
    type Served: Drop + Send;

    /// Which seats fit the handler.
    ghost fits: { Self → Self.Seat → Type 0 };

    /// How many connections a seat has served, modulo 2^64.
    ghost number: { Self → Self.Seat → ℕ };

    /// Handles one connection, which is given whole and is gone then.
    fn handle(&self, alloc: Global, seat: &mut Self::Seat, conn: E) -> Self::Served
        requires { fits self.now seat.old }
        ensures fits { fits self.now seat.new }
        ensures number { number self.now seat.new ≡ (number self.now seat.old + 1) % 2 ^ 64 };
}
