// Several zones, with the list of the caller's own calls of each.
ghost use Rattle.std.specs.Prelude.{◌≡◌, ◌<◌, ◌^◌, ◌∷◌, ◌++◌, List, [], length, map, slice_get, Some, IfOk, OnOk, OnErr, All};
ghost use Rattle.dict_model.specs.declared.operation.ZoneSpec.{ZoneSpec};
ghost use Rattle.dict_model.specs.declared.operation.Entry.{Entry};
ghost use Rattle.dict_model.specs.Operation.{IsSpec, IsAllowed};
ghost use Rattle.dict_model.specs.Calls.{Adds, Calls, IsAsked};
ghost use Rattle.dict_model.specs.History.{own_entry, OwnHistory, OwnHistories};

use crate::{DictOp, DictReply, Entry, PlainZone, ZoneSpec, ZoneState};
use njs_text::NoMemory;
use std::alloc::Global;
use std::marker::Model;

/// The dictionaries that a caller sees: zones, whose specs no call changes, and for each zone the list of the caller's
/// own entries.
pub trait Dicts {
    /// The zones, by number.
    ghost specs: { Self → List ZoneSpec };

    /// The entries of this caller, zone by zone.
    ghost own: { Self → List (List Entry) };

    /// The second state comes later than the first.
    ghost later: { Self → Self → Type 0 };

    /// Asks a zone, with a reading of the clock in milliseconds.
    fn call(
        &mut self,
        alloc: Global,
        zone: u32,
        op: DictOp,
        reading: u64,
    ) -> Result<DictReply, NoMemory>
        requires asked { IsAsked (specs self.old) zone op }
        requires reading { reading < 2 ^ 53 }
        ensures specs { specs self.new ≡ specs self.old }
        ensures calls { Calls (specs self.old) (own self.old) (own self.new) zone op reading result }
        ensures later { later self.old self.new };

    /// A state comes later than itself.
    ghost reflexive: { (d : Self) → later d d };

    /// What comes later than a later state comes later.
    ghost transitive: { (a b c : Self) → later a b → later b c → later a c };
}

// A zone, and the calls that were answered.
#[derive(Drop)]
struct OwnZone {
    zone: PlainZone,
    own: Vec<Entry>,
}

impl Model for OwnZone {
    ghost use Rattle.dict_model.specs.PlainDicts.{OwnList};

    ghost Value = { OwnList };

    ghost use Rattle.dict_model.specs.History.{HasLedTo};

    ghost view = { λ z. record { spec = z.zone.spec; own = z.own.items } };

    ghost invariant = { λ z. HasLedTo z.zone.spec z.own.items z.zone.state };
}

// The entry of a call of the caller with the number 0, with copies of the operation and of the reply to come.
fn entry_of(alloc: Global, zone: &PlainZone, op: &DictOp, reading: u64) -> Result<Entry, NoMemory>
    requires allowed { IsAllowed zone.now.spec op.now }
    requires reading { reading < 2 ^ 53 }
    ensures { IfOk result (λ entry. entry ≡ own_entry zone.now.spec zone.now.state op.now reading) }
{
    let reply = zone.answer(alloc, op, reading)?;
    Ok(Entry {
        caller: 0,
        op: op.copy(alloc)?,
        reading,
        reply,
    })
}

fn record(
    alloc: Global,
    zone: &PlainZone,
    own: &mut Vec<Entry>,
    op: &DictOp,
    reading: u64,
) -> Result<(), NoMemory>
    requires allowed { IsAllowed zone.now.spec op.now }
    requires reading { reading < 2 ^ 53 }
    ensures ok { OnOk result (own.new.items ≡ own.old.items ++ own_entry zone.now.spec zone.now.state op.now reading ∷ []) }
    ensures err { OnErr result (own.new.items ≡ own.old.items) }
{
    own.push(entry_of(alloc, zone, op, reading)?)?;
    Ok(())
}

impl OwnZone {
    fn new(alloc: Global, spec: ZoneSpec) -> Result<OwnZone, NoMemory>
        requires { IsSpec spec }
        ensures spec { IfOk result (λ zone. zone.spec ≡ spec) }
        ensures own { IfOk result (λ zone. zone.own ≡ []) }
    {
        Ok(OwnZone {
            zone: PlainZone::new(alloc, spec)?,
            own: Vec::new(alloc),
        })
    }

    fn call(&mut self, alloc: Global, op: DictOp, reading: u64) -> Result<DictReply, NoMemory>
        requires allowed { IsAllowed self.old.spec op }
        requires reading { reading < 2 ^ 53 }
        ensures spec { self.new.spec ≡ self.old.spec }
        ensures adds { Adds self.old.spec self.old.own self.new.own op reading result }
        ensures legal { OwnHistory self.new.spec self.new.own }
    {
        match record(alloc, &self.zone, &mut self.own, &op, reading) {
            Ok(()) => {}
            Err(NoMemory) => {
                drop(op);
                return Err(NoMemory);
            }
        }
        match self.zone.apply(alloc, op, reading) {
            Ok(reply) => Ok(reply),
            Err(NoMemory) => {
                self.own.pop();
                Err(NoMemory)
            }
        }
    }
}

/// Plain zones of one caller, whose number is 0. Its own entries are the whole history of each zone.
#[derive(Drop)]
pub struct PlainDicts {
    zones: Vec<OwnZone>,
}

impl Model for PlainDicts {
    ghost use Rattle.std.specs.Prelude.{map};
    ghost use Rattle.dict_model.specs.PlainDicts.{OwnLists};

    ghost Value = { OwnLists };

    ghost use Rattle.dict_model.specs.History.{OwnHistories};

    ghost view = { λ d. record { specs = map (λ z. z.spec) d.zones.items; own = map (λ z. z.own) d.zones.items } };

    ghost invariant = { λ d. OwnHistories (map (λ z. z.spec) d.zones.items) (map (λ z. z.own) d.zones.items) };
}

impl PlainDicts {
    /// Empty zones with these specs, in their order.
    pub fn new(alloc: Global, specs: &[ZoneSpec]) -> Result<PlainDicts, NoMemory>
        requires { All IsSpec specs.now }
        ensures specs { IfOk result (λ dicts. dicts.specs ≡ specs.now) }
        ensures own { IfOk result (λ dicts. dicts.own ≡ map (λ spec. []) specs.now) }
    {
        let mut zones = Vec::new(alloc);
        for spec in specs {
            zones.push(OwnZone::new(alloc, spec.copy(alloc)?)?)?;
        }
        Ok(PlainDicts { zones })
    }

    /// The calls of a zone that were answered, which are its whole history.
    pub fn history(&self, zone: u32) -> &[Entry]
        requires { zone < length self.now.specs }
        ensures own { slice_get self.now.own zone ≡ Some result.now }
        ensures legal { OwnHistories self.now.specs self.now.own }
    {
        let own = &self.zones[zone as usize];
        own.own.as_slice()
    }
}

impl Dicts for PlainDicts {
    ghost use Rattle.dict_model.specs.History.{Later};
    ghost use Rattle.dict_model.specs.Later.{later_reflexive, later_transitive};

    ghost specs = { λ d. d.specs };

    ghost own = { λ d. d.own };

    ghost later = { λ a b. Later a.own b.own };

    ghost reflexive = { λ d. later_reflexive d.own };

    ghost transitive = { λ a b c first second. later_transitive a.own b.own c.own first second };

    fn call(
        &mut self,
        alloc: Global,
        zone: u32,
        op: DictOp,
        reading: u64,
    ) -> Result<DictReply, NoMemory>
        requires asked { IsAsked self.old.specs zone op }
        requires reading { reading < 2 ^ 53 }
        ensures specs { self.new.specs ≡ self.old.specs }
        ensures calls { Calls self.old.specs self.old.own self.new.own zone op reading result }
        ensures later { Later self.old.own self.new.own }

        // The own entries are the whole history.
        ensures legal { OwnHistories self.new.specs self.new.own }
    {
        self.zones[zone as usize].call(alloc, op, reading)
    }
}
