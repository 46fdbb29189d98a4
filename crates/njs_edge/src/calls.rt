// The calls of an object in memory, and which of them are to fail.
ghost use Rattle.std.specs.Prelude.{◌≡◌, ◌↔◌, IsTrue};

/// The calls of one object, numbered from 1 in their order. The count stands still at its last value.
#[derive(Drop)]
pub struct Calls {
    fails: Vec<u64>,
    count: u64,
}

impl Calls {
    ghost use Rattle.njs_edge.specs.Calls.{IsFaultNext, CountsOne};

    /// No call yet; those of these numbers are to fail.
    pub fn new(fails: Vec<u64>) -> Calls
        ensures fails { result.fails ≡ fails }
        ensures count { result.count ≡ 0 }
    {
        Calls { fails, count: 0 }
    }

    /// Counts one more call, and answers whether it is to fail.
    pub fn begin(&mut self) -> bool
        ensures fails { IsTrue result ↔ IsFaultNext self.old }
        ensures counted { CountsOne self.old self.new }
    {
        self.count = self.count.saturating_add(1);
        self.fails.contains(&self.count)
    }
}
