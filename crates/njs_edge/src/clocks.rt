// What gives each connection a clock of its own.
ghost use Rattle.std.specs.Prelude.{◌≡◌, ◌<◌, ◌^◌};
ghost use Rattle.std.specs.List.{All};
ghost use Rattle.njs_edge.specs.Begins.{BeginsEmpty};

use crate::clock::{Clock, ListClock, RealClock};

/// Gives clocks. It may be shared by several threads.
pub trait Clocks {
    /// The clock of one connection.
    type Own: Clock + Drop + Send;

    /// A clock of which nothing was read.
    fn own(&self) -> Self::Own
        ensures readings { BeginsEmpty (Self.Own.readings result) };
}

/// Gives clocks of one list. They take no memory.
#[derive(Drop)]
pub struct ListClocks<'a> {
    list: &'a [u64],
    ghost small: { All (λ reading. reading < 2 ^ 53) list.now },
}

impl<'a> ListClocks<'a> {
    /// The clocks of this list, whose numbers are below 2^53.
    pub fn new(list: &'a [u64]) -> ListClocks<'a>
        requires { All (λ reading. reading < 2 ^ 53) list.now }
        ensures { result.list.now ≡ list.now }
    {
        ListClocks { list }
    }
}

impl<'a> Clocks for ListClocks<'a> {
    type Own = ListClock<'a>;

    fn own(&self) -> ListClock<'a>
        ensures readings { BeginsEmpty (⟦<ListClock<'a> as Clock>⟧.readings result) }

        // It gives the numbers of the list.
        ensures list { result.list.now ≡ self.now.list.now }
    {
        ListClock::new(self.list)
    }
}

/// Gives clocks of the system.
#[derive(Drop)]
pub struct RealClocks<'a, R: std::rt::Clock> {
    rt: &'a R,
}

impl<'a, R: std::rt::Clock> RealClocks<'a, R> {
    /// The system's clocks.
    pub fn new(rt: &'a R) -> RealClocks<'a, R> {
        RealClocks { rt }
    }
}

impl<'a, R: std::rt::Clock + Sync + 'a> Clocks for RealClocks<'a, R> {
    type Own = RealClock<'a, R>;

    fn own(&self) -> RealClock<'a, R> {
        RealClock::new(self.rt)
    }
}
