// A caller of all zones.
ghost use Rattle.std.specs.Prelude.{◌≡◌, ◌<◌, ◌+◌, ◌^◌, map, length, IfOk, IsOk, MatchResult};
ghost use Rattle.dict_model.specs.Operation.{TakesNoMemory};
ghost use Rattle.dict_model.specs.Calls.{Calls, IsAsked};
ghost use Rattle.dict_lock.specs.Known.{Stays, Learns, Closes, IsCaller, IsNewFrom};
ghost use Rattle.dict_pass.specs.Callers.{Asks, ComesLater, EachPair, EachTriple, IsStopped, KnownAt, SameZones, dealer, opened, own_of, specs_of, zone_of};

use crate::seats::{close_all, deal_all, end_all, learn_all, split_all};
use dict_lock::{SplitStop, Zone, ZoneSeat};
use dict_model::{DictOp, DictReply, Dicts, PlainZone};
use njs_text::NoMemory;
use std::alloc::Global;
use std::marker::Model;
use std::sync::Wait;

/// A caller of all zones, with one number in each. Contracts see the list of its callers, zone by zone. It has no `Drop`:
/// it ends in `close` or `end`.
pub struct Pass<'z, R> {
    rt: &'z R,
    zones: &'z [Zone<PlainZone>],
    seats: Vec<ZoneSeat<PlainZone>>,
}

impl<'z, R> Model for Pass<'z, R> {
    ghost use Rattle.std.specs.Prelude.{◌≡◌, List, map};
    ghost use Rattle.dict_lock.specs.Known.{Caller};
    ghost use Rattle.dict_pass.specs.Callers.{zone_of};

    ghost Value = { List Caller };

    ghost view = { λ p. p.seats.items };

    ghost invariant = { λ p. map zone_of p.seats.items ≡ p.zones.now };
}

impl<'z, R: Wait> Dicts for Pass<'z, R> {
    ghost use Rattle.dict_pass.specs.Later.{later_reflexive, later_transitive};

    ghost specs = { λ p. specs_of p };

    ghost own = { λ p. map own_of p };

    ghost later = { λ p q. EachPair ComesLater p q };

    ghost reflexive = { λ p. later_reflexive p };

    ghost transitive = { λ p q r first second. later_transitive p q r first second };

    fn call(
        &mut self,
        alloc: Global,
        zone: u32,
        op: DictOp,
        reading: u64,
    ) -> Result<DictReply, NoMemory>
        requires asked { IsAsked (specs_of self.old) zone op }
        requires reading { reading < 2 ^ 53 }
        ensures specs { specs_of self.new ≡ specs_of self.old }
        ensures calls { Calls (specs_of self.old) (map own_of self.old) (map own_of self.new) zone op reading result }
        ensures later { EachPair ComesLater self.old self.new }

        // The new entry stands in a legal history, which begins with what had been seen.
        ensures asks { Asks self.old self.new zone op reading result }
    {
        self.is_caller(zone);
        self.ask(alloc, zone, op, reading)
    }
}

impl<'z, R> Pass<'z, R> {
    pub(crate) fn of(
        rt: &'z R,
        zones: &'z [Zone<PlainZone>],
        seats: Vec<ZoneSeat<PlainZone>>,
    ) -> Pass<'z, R>
        requires { map zone_of seats.items ≡ zones.now }
        ensures { result ≡ seats.items }
    {
        Pass { rt, zones, seats }
    }

    /// What holds of the pass's caller of a zone. It is for proofs, and does nothing.
    pub fn is_caller(&self, zone: u32)
        requires { zone < length self.now }
        ensures { KnownAt self.now zone IsCaller }
    {
        self.seats[zone as usize].is_caller();
    }

    /// How many callers' numbers the pass knows the zone to have handed out.
    pub fn made(&self, zone: u32) -> u32
        requires { zone < length self.now }
        ensures { KnownAt self.now zone (λ k. k.made ≡ result) }
    {
        let at = zone as usize;
        self.zones[at].made(&self.seats[at])
    }

    // The next number that the zones were opened with goes to a new pass.
    pub(crate) fn deal(
        &mut self,
        alloc: Global,
        number: u32,
        count: u32,
    ) -> Result<Pass<'z, R>, NoMemory>
        requires dealer { self.old ≡ map (dealer number count) (map zone_of self.old) }
        requires number { number < count }
        ensures new { IfOk result (λ new. new ≡ map (opened number count) (map zone_of self.old)) }
        ensures rest { MatchResult result (λ _. self.new ≡ map (dealer (number + 1) count) (map zone_of self.old)) (λ _. self.new ≡ self.old) }
    {
        let Ok(mut seats) = Vec::with_capacity(alloc, self.zones.len()) else {
            return Err(NoMemory);
        };
        deal_all(self.zones, &mut self.seats, &mut seats, number, count);
        Ok(Pass {
            rt: self.rt,
            zones: self.zones,
            seats,
        })
    }

    /// From now on this pass has seen what the other had seen. It waits for nobody, and takes no memory.
    pub fn learn(&mut self, other: &mut Pass<'z, R>)
        requires { SameZones other.old self.old }
        ensures zones { SameZones self.new self.old }
        ensures learns { EachTriple Learns self.old other.old self.new }
        ensures other { other.new ≡ other.old }
    {
        learn_all(self.zones, &mut self.seats, &mut other.seats);
    }

    /// Closes this pass into another of the same zones, which has then seen what this one had seen, and keeps its numbers
    /// with the lengths of that. It waits for nobody, and takes no memory.
    pub fn close(self, into: &mut Pass<'z, R>)
        requires { SameZones self into.old }
        ensures zones { SameZones into.new into.old }
        ensures closes { EachTriple Closes self.entry into.old into.new }
    {
        let Pass {
            rt: _,
            zones: _,
            seats,
        } = self;
        close_all(into.zones, seats, &mut into.seats);
    }

    /// Gives up this pass, which is closed into no other.
    pub fn end(self) {
        let Pass {
            rt: _,
            zones,
            seats,
        } = self;
        end_all(zones, seats);
    }
}

impl<'z, R: Wait> Pass<'z, R> {
    /// One call of a zone, in a turn for which it waits. After `NoMemory` the zone is as it was.
    pub fn ask(
        &mut self,
        alloc: Global,
        zone: u32,
        op: DictOp,
        reading: u64,
    ) -> Result<DictReply, NoMemory>
        requires asked { IsAsked (specs_of self.old) zone op }
        requires reading { reading < 2 ^ 53 }
        ensures zones { SameZones self.new self.old }
        ensures asks { Asks self.old self.new zone op reading result }
        ensures free { TakesNoMemory op → IsOk result }
    {
        let at = zone as usize;
        self.zones[at].call(alloc, self.rt, &mut self.seats[at], op, reading)
    }

    /// A pass of its own, with new numbers, which has seen what this one has seen. Each number is drawn in a turn, for which
    /// it waits. `Spent` is answered exactly where a zone has handed out 2^32 - 1 numbers.
    pub fn split(&mut self, alloc: Global) -> Result<Pass<'z, R>, SplitStop>
        ensures zones { SameZones self.new self.old }
        ensures same { IfOk result (λ new. SameZones new self.old) }
        ensures stays { EachPair Stays self.old self.new }
        ensures new { MatchResult result (λ new. EachTriple IsNewFrom self.old self.new new) (λ stop. IsStopped self.new stop) }
    {
        let seats = split_all(alloc, self.rt, self.zones, &mut self.seats)?;
        Ok(Pass {
            rt: self.rt,
            zones: self.zones,
            seats,
        })
    }
}
