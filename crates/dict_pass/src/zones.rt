// Zones, and the passes over them.
ghost use Rattle.std.specs.Prelude.{◌≡◌, ◌<◌, ◌≤◌, map, [], ◌∷◌, All, IfOk, OnOk, vec_capacity};
ghost use Rattle.dict_model.specs.Operation.{IsSpec};
ghost use Rattle.dict_lock.specs.Known.{first_caller};
ghost use Rattle.dict_pass.specs.Callers.{IsOpened, dealer, spec_of, specs_of, zone_of};
ghost use Rattle.dict_pass.specs.Rounds.{round, zones_of_first};

use crate::pass::Pass;
use crate::seats::end_all;
use dict_lock::{Zone, ZoneSeat};
use dict_model::{PlainZone, ZoneSpec};
use njs_text::NoMemory;
use std::alloc::Global;
use std::marker::Model;

/// The zones of one configuration. Contracts see what they are opened with.
#[derive(Drop)]
pub struct Zones {
    specs: Vec<ZoneSpec>,
    zones: Vec<Zone<PlainZone>>,
}

impl Model for Zones {
    ghost use Rattle.std.specs.Prelude.{List, All};
    ghost use Rattle.dict_model.specs.declared.operation.ZoneSpec.{ZoneSpec};
    ghost use Rattle.dict_model.specs.Operation.{IsSpec};

    ghost Value = { List ZoneSpec };

    ghost view = { λ z. z.specs.items };

    ghost invariant = { λ z. All IsSpec z.specs.items };
}

/// The passes over zones that were opened.
pub struct Passes<'z, R> {
    pub list: Vec<Pass<'z, R>>,
}

impl Zones {
    /// Zones with these specs, in their order. They are empty until `Passes::open` opens them.
    pub fn open(alloc: Global, specs: &[ZoneSpec]) -> Result<Zones, NoMemory>
        requires { All IsSpec specs.now }
        ensures { IfOk result (λ zones. zones ≡ specs.now) }
    {
        let mut copies = Vec::new(alloc);
        for spec in specs {
            copies.push(spec.copy(alloc)?)?;
        }
        Ok(Zones {
            specs: copies,
            zones: Vec::new(alloc),
        })
    }
}

// A new zone, empty, and its first caller, which has all numbers below the count.
fn open_zone(
    alloc: Global,
    spec: &ZoneSpec,
    count: u32,
) -> Result<(Zone<PlainZone>, ZoneSeat<PlainZone>), NoMemory>
    requires spec { IsSpec spec.now }
    requires some { 0 < count }
    ensures spec { IfOk result (λ r. r.0.spec ≡ spec.now) }
    ensures caller { IfOk result (λ r. r.1 ≡ first_caller r.0 count) }
{
    let zone = PlainZone::new(alloc, spec.copy(alloc)?)?;
    Zone::new(alloc, zone, count)
}

// New zones, each empty, and the first caller of each.
fn open_all(
    alloc: Global,
    specs: &[ZoneSpec],
    count: u32,
) -> Result<(Vec<Zone<PlainZone>>, Vec<ZoneSeat<PlainZone>>), NoMemory>
    requires specs { All IsSpec specs.now }
    requires some { 0 < count }
    ensures specs { IfOk result (λ r. map spec_of r.0.items ≡ specs.now) }
    ensures callers { IfOk result (λ r. r.1.items ≡ map (dealer 1 count) r.0.items) }
{
    let Ok(mut zones) = Vec::with_capacity(alloc, specs.len()) else {
        return Err(NoMemory);
    };
    let Ok(mut seats) = Vec::with_capacity(alloc, specs.len()) else {
        return Err(NoMemory);
    };
    for at in 0..specs.len() {
        match open_zone(alloc, &specs[at], count) {
            Ok((zone, seat)) => {
                zones.push_reserved(zone);
                seats.push_reserved(seat);
            }
            Err(NoMemory) => {
                end_all(zones.as_slice(), seats);
                return Err(NoMemory);
            }
        }
    }
    Ok((zones, seats))
}

// Opens the zones anew, and gives the first pass, which has all numbers below the count.
fn first_pass<'z, R>(
    alloc: Global,
    rt: &'z R,
    zones: &'z mut Zones,
    count: u32,
) -> Result<Pass<'z, R>, NoMemory>
    requires { 0 < count }
    ensures dealer { IfOk result (λ pass. pass ≡ map (dealer 1 count) (map zone_of pass)) }
    ensures specs { IfOk result (λ pass. specs_of pass ≡ zones.old) }
{
    let (new, seats) = open_all(alloc, zones.specs.as_slice(), count)?;
    zones.zones = new;
    let shared: &'z [Zone<PlainZone>] = zones.zones.as_slice();
    Ok(Pass::of(rt, shared, seats))
}

// Ends each pass of a list.
fn end_passes<R>(mut list: Vec<Pass<'_, R>>) {
    while let Some(pass) = list.pop() {
        pass.end();
    }
    list.destroy_empty();
}

// A list with room for so many passes, which has the first one.
fn list_of<R>(alloc: Global, first: Pass<'_, R>, count: u32) -> Result<Vec<Pass<'_, R>>, NoMemory>
    requires { 0 < count }
    ensures items { IfOk result (λ list. list.items ≡ first.entry ∷ []) }
    ensures room { IfOk result (λ list. count ≤ vec_capacity list) }
{
    match Vec::with_capacity(alloc, count as usize) {
        Ok(mut list) => {
            list.push_reserved(first);
            Ok(list)
        }
        Err(_) => {
            first.end();
            Err(NoMemory)
        }
    }
}

// Gives the remaining numbers to new passes, which stand behind the first one.
fn deal_rest<R>(alloc: Global, list: &mut Vec<Pass<'_, R>>, count: u32) -> Result<(), NoMemory>
    requires some { 0 < count }
    requires first { list.old.items ≡ round (zones_of_first list.old.items) count 1 }
    requires room { count ≤ vec_capacity list.old }
    ensures { OnOk result (list.new.items ≡ round (zones_of_first list.old.items) count count) }
{
    for number in 1..count {
        let pass = list[0].deal(alloc, number, count)?;
        list.push_reserved(pass);
    }
    Ok(())
}

impl<'z, R> Passes<'z, R> {
    /// Opens the zones anew, each empty, and so many passes over them, at least one, with the numbers from 0 on. It waits
    /// for nobody.
    pub fn open(
        alloc: Global,
        rt: &'z R,
        zones: &'z mut Zones,
        count: u32,
    ) -> Result<Passes<'z, R>, NoMemory>
        requires { 0 < count }
        ensures { IfOk result (λ passes. IsOpened zones.old count passes.list.items) }
    {
        let first = first_pass(alloc, rt, zones, count)?;
        let mut list = list_of(alloc, first, count)?;
        match deal_rest(alloc, &mut list, count) {
            Ok(()) => Ok(Passes { list }),
            Err(NoMemory) => {
                end_passes(list);
                Err(NoMemory)
            }
        }
    }
}
