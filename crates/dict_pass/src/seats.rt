// The callers of a pass, one for each zone.
ghost use Rattle.std.specs.Prelude.{◌≡◌, ◌<◌, ◌≤◌, ◌+◌, map, length, [], IfOk, MatchResult, vec_len, vec_capacity};
ghost use Rattle.dict_lock.specs.Known.{Stays, IsNewFrom, Learns, Closes};
ghost use Rattle.dict_pass.specs.Callers.{EachPair, EachTriple, IsStopped, dealer, opened, zone_of};

use dict_lock::{SplitStop, Zone, ZoneSeat};
use dict_model::PlainZone;
use std::alloc::Global;
use std::sync::Wait;

// Gives up all.
pub fn end_all(zones: &[Zone<PlainZone>], mut seats: Vec<ZoneSeat<PlainZone>>)
    requires { vec_len seats ≤ length zones.now }
{
    while let Some(seat) = seats.pop() {
        zones[seats.len()].end(seat);
    }
    seats.destroy_empty();
}

// A new caller in each zone.
pub fn split_all<R: Wait>(
    alloc: Global,
    rt: &R,
    zones: &[Zone<PlainZone>],
    seats: &mut Vec<ZoneSeat<PlainZone>>,
) -> Result<Vec<ZoneSeat<PlainZone>>, SplitStop>
    requires { map zone_of seats.old.items ≡ zones.now }
    ensures zones { map zone_of seats.new.items ≡ zones.now }
    ensures own { IfOk result (λ new. map zone_of new.items ≡ zones.now) }
    ensures stays { EachPair Stays seats.old.items seats.new.items }
    ensures new { MatchResult result (λ new. EachTriple IsNewFrom seats.old.items seats.new.items new.items) (λ stop. IsStopped seats.new.items stop) }
{
    let Ok(mut new) = Vec::with_capacity(alloc, zones.len()) else {
        return Err(SplitStop::NoMemory);
    };
    for at in 0..zones.len() {
        match zones[at].split(rt, &mut seats[at]) {
            Ok(seat) => new.push_reserved(seat),
            Err(stop) => {
                end_all(zones, new);
                return Err(stop);
            }
        }
    }
    Ok(new)
}

// Each caller learns of the other pass's.
pub fn learn_all(
    zones: &[Zone<PlainZone>],
    seats: &mut Vec<ZoneSeat<PlainZone>>,
    others: &mut Vec<ZoneSeat<PlainZone>>,
)
    requires seats { map zone_of seats.old.items ≡ zones.now }
    requires others { map zone_of others.old.items ≡ zones.now }
    ensures zones { map zone_of seats.new.items ≡ zones.now }
    ensures learns { EachTriple Learns seats.old.items others.old.items seats.new.items }
    ensures others { others.new.items ≡ others.old.items }
{
    for at in 0..zones.len() {
        zones[at].learn(&mut seats[at], &mut others[at]);
    }
}

// Each caller of the other pass is closed into the one of its zone.
pub fn close_all(
    zones: &[Zone<PlainZone>],
    mut others: Vec<ZoneSeat<PlainZone>>,
    seats: &mut Vec<ZoneSeat<PlainZone>>,
)
    requires seats { map zone_of seats.old.items ≡ zones.now }
    requires others { map zone_of others.items ≡ zones.now }
    ensures zones { map zone_of seats.new.items ≡ zones.now }
    ensures closes { EachTriple Closes others.items seats.old.items seats.new.items }
{
    while let Some(seat) = others.pop() {
        let at = others.len();
        zones[at].close(seat, &mut seats[at]);
    }
    others.destroy_empty();
}

// The next number that the zones were opened with goes to a new caller in each.
pub fn deal_all(
    zones: &[Zone<PlainZone>],
    seats: &mut Vec<ZoneSeat<PlainZone>>,
    new: &mut Vec<ZoneSeat<PlainZone>>,
    number: u32,
    count: u32,
)
    requires seats { seats.old.items ≡ map (dealer number count) zones.now }
    requires number { number < count }
    requires room { (new.old.items ≡ []) × (length zones.now ≤ vec_capacity new.old) }
    ensures seats { seats.new.items ≡ map (dealer (number + 1) count) zones.now }
    ensures new { new.new.items ≡ map (opened number count) zones.now }
{
    let (_number, _count) = (number, count);
    for at in 0..zones.len() {
        new.push_reserved(zones[at].deal(&mut seats[at]));
    }
}
