// Clocks, by the readings that they gave.
ghost use Rattle.std.specs.Prelude.{◌≡◌, ◌<◌, ◌^◌, ℕ, List, Option, None, Some, [], ◌∷◌};
ghost use Rattle.std.specs.List.{All};
ghost use Rattle.njs_edge.specs.Clock.{Reads};

use std::time::{SystemTime, UNIX_EPOCH};

/// Tells the time.
pub trait Clock {
    /// The readings so far, in order, where the clock tells them.
    ghost readings: { Self → Option (List ℕ) };

    /// Milliseconds since 1970-01-01 00:00:00 UTC, below 2^53. It may fall from one call to the next.
    fn now(&mut self) -> u64
        ensures small { result < 2 ^ 53 }
        ensures readings { Reads (readings self.old) (readings self.new) (result ∷ []) };
}

/// A clock that gives the numbers of a list, one in a call. Past the list's end it gives the last
/// number again, and 0 for an empty list. It tells its readings as long as the count of its calls is
/// below 2^64 - 1, where that stands still.
#[derive(Drop)]
pub struct ListClock<'a> {
    list: &'a [u64],
    calls: u64,
    ghost small: { All (λ reading. reading < 2 ^ 53) list.now },
}

impl<'a> ListClock<'a> {
    /// Nothing was read of the list, whose numbers are below 2^53.
    pub fn new(list: &'a [u64]) -> ListClock<'a>
        requires { All (λ reading. reading < 2 ^ 53) list.now }
        ensures readings { ⟦<ListClock<'a> as Clock>⟧.readings result ≡ Some [] }
        ensures list { result.list.now ≡ list.now }
    {
        ListClock { list, calls: 0 }
    }
}

impl<'a> Clock for ListClock<'a> {
    ghost use Rattle.njs_edge.specs.Clock.{told_readings};

    ghost readings = { λ s. told_readings s.list.now s.calls };

    fn now(&mut self) -> u64 {
        let last = self.list.len().saturating_sub(1);
        let index = (self.calls as usize).min(last);
        let reading = self.list.get(index).copied().unwrap_or(0);
        self.calls = self.calls.saturating_add(1);
        reading
    }
}

/// The largest reading.
const MAX_READING: u64 = 9_007_199_254_740_991;

/// The clock of the system. It tells nothing of its readings, and caps them at 2^53 - 1. Where the
/// system's clock can't be read or stands before 1970, the last reading is given again, 0 at first.
#[derive(Drop)]
pub struct RealClock<'a, R: std::rt::Clock> {
    rt: &'a R,
    last: u64,
    ghost small: { last < 2 ^ 53 },
}

impl<'a, R: std::rt::Clock> RealClock<'a, R> {
    /// The system's clock, of which nothing was read.
    pub fn new(rt: &'a R) -> RealClock<'a, R>
        ensures { ⟦<RealClock<'a, R> as Clock>⟧.readings result ≡ None }
    {
        RealClock { rt, last: 0 }
    }
}

impl<'a, R: std::rt::Clock> Clock for RealClock<'a, R> {
    ghost readings = { λ _. None };

    fn now(&mut self) -> u64 {
        if let Ok(time) = SystemTime::now(self.rt) {
            if let Ok(since) = time.duration_since(UNIX_EPOCH) {
                let seconds = since.as_secs().min(MAX_READING / 1000);
                self.last = (seconds * 1000 + u64::from(since.subsec_millis())).min(MAX_READING);
            }
        }
        self.last
    }
}
