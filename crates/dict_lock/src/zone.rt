// A zone as its callers see it.
ghost use Rattle.std.specs.Prelude.{◌≡◌, ◌+◌, ◌-◌, ◌^◌, ◌<◌, ◌≤◌, IfOk, IsOk, OnErr, MatchResult};
ghost use Rattle.dict_model.specs.Operation.{IsAllowed, TakesNoMemory};
ghost use Rattle.dict_model.specs.Zone.{empty};
ghost use Rattle.dict_lock.specs.declared.stop.SplitStop.TheVariants.{Spent};
ghost use Rattle.dict_lock.specs.Views.{entry_by};
ghost use Rattle.dict_lock.specs.Known.{IsCaller, IsReply, Stays, Commits, Learns, Closes, IsNewFrom, HasSpare, new_caller, first_closed, without_first, first_caller};

use crate::SplitStop;
use crate::plays::{Deal, Hear, NewCaller, Note, TakeOver, Turns};
use crate::turn::{Place, TICKET, commit, enter, leave};
use crate::view::{Held, Opening, ZoneView};
use atomic_table::{Refused, Table};
use dict_model::{DictOp, DictReply, ZoneState};
use njs_text::NoMemory;
use std::alloc::Global;
use std::marker::{Brand, Model};
use std::snapshot::Snapshot;
use std::sync::Wait;

// A zone hands out the numbers below this one.
const LAST: u32 = u32::MAX;

/// A zone whose callers take turns. Contracts see which zone it is, and what it was opened with.
#[derive(Drop)]
pub struct Zone<Z: ZoneState> {
    table: Table<Option<Held<Z>>, ZoneView, Opening<Z>, Turns<Z>, Global>,
}

impl<Z: ZoneState> Model for Zone<Z> {
    ghost use Rattle.std.specs.Prelude.{◌≡◌};
    ghost use Rattle.dict_lock.specs.Known.{ZoneName};

    ghost Value = { ZoneName };

    ghost view = { λ z. record { table = z.table.shared.table_id; spec = Z.spec z.table.shared.key.state.value } };

    ghost invariant = { λ z. (z.table.shared.table_id.words ≡ 3) × (z.table.shared.table_id.slots ≡ 1) };
}

/// A caller of a zone. Contracts see its number, what it has seen of the zone's history and where its own calls stand
/// there, which other callers were closed into it, and how many numbers it knows to be handed out. It has no `Drop`: it
/// ends in `close` or `end`.
pub struct ZoneSeat<Z> {
    seat: Place<Z>,
    made: u32,
}

impl<Z> Model for ZoneSeat<Z> {
    ghost use Rattle.std.specs.Prelude.{◌≡◌};
    ghost use Rattle.dict_lock.specs.Known.{Caller, caller_of};
    ghost use Rattle.dict_lock.specs.Seats.{IsIdle};

    ghost Value = { Caller };

    ghost view = { λ s. caller_of s.seat.table_id s.seat.me.0 };

    ghost invariant = { λ s. IsIdle s.seat.me × (s.made ≡ s.seat.me.0.made) };
}

impl<Z> ZoneSeat<Z> {
    /// What holds of each caller. It is for proofs, and does nothing.
    pub fn is_caller(&self)
        ensures { IsCaller self.now }
    {
        let _ = &self.seat;
    }
}

impl<Z: ZoneState> Zone<Z> {
    /// A zone over an empty state, and its first caller, which has the number 0. It keeps the numbers 1 to `count` - 1 for
    /// callers that `deal` makes.
    pub fn new(alloc: Global, state: Z, count: u32) -> Result<(Zone<Z>, ZoneSeat<Z>), NoMemory>
    where
        Z: Drop,
        requires state { Z.state state ≡ empty }
        requires some { 0 < count }
        ensures spec { IfOk result (λ r. r.0.spec ≡ Z.spec state) }
        ensures caller { IfOk result (λ r. r.1 ≡ first_caller r.0 count) }
    {
        let key = Opening {
            state: Snapshot::of(&state),
            count,
        };
        let Ok(mut slots) = Vec::with_capacity(alloc, 1) else {
            return Err(NoMemory);
        };
        slots.push_reserved(Some(Held { state, next: count }));
        match Table::new(alloc, &[0, 0, 0], slots, &key) {
            Ok((table, seat)) => Ok((Zone { table }, ZoneSeat { seat, made: count })),
            Err(Refused { slots: _ }) => Err(NoMemory),
        }
    }

    /// One call, in a turn: it waits until the turns that were taken before have passed. What the caller had seen, and what
    /// others did meanwhile, comes before it in the history. After `NoMemory` the zone is as it was.
    pub fn call<R: Wait>(
        &self,
        alloc: Global,
        rt: &R,
        seat: &mut ZoneSeat<Z>,
        op: DictOp,
        reading: u64,
    ) -> Result<DictReply, NoMemory>
        requires seat { seat.old.zone ≡ self.now }
        requires allowed { IsAllowed self.now.spec op }
        requires reading { reading < 2 ^ 53 }
        ensures ok { IfOk result (λ reply. Commits (entry_by seat.old.number op reading reply) seat.old seat.new) }
        ensures err { OnErr result (Stays seat.old seat.new) }
        ensures reply { IfOk result (λ reply. IsReply self.now.spec op reading reply) }
        ensures caller { IsCaller seat.new }
        ensures free { TakesNoMemory op → IsOk result }
    {
        let table = &self.table.shared;
        let mut held = enter(table, rt, &mut seat.seat);
        seat.made = held.next;
        let asked = Snapshot::of(&op);
        match held.state.apply(alloc, op, reading) {
            Ok(reply) => {
                commit::<Z, Brand>(table, &mut seat.seat, asked, reading, &reply);
                leave(table, &mut seat.seat, held);
                Ok(reply)
            }
            Err(NoMemory) => {
                leave(table, &mut seat.seat, held);
                Err(NoMemory)
            }
        }
    }

    /// A caller of its own, with a new number, which has seen what this one has seen. It is drawn in a turn, for which it
    /// waits. It takes no memory, and answers `Spent` exactly where the zone has handed out 2^32 - 1 numbers.
    pub fn split<R: Wait>(&self, rt: &R, seat: &mut ZoneSeat<Z>) -> Result<ZoneSeat<Z>, SplitStop>
        requires { seat.old.zone ≡ self.now }
        ensures stays { Stays seat.old seat.new }
        ensures new { MatchResult result (λ new. IsNewFrom seat.old seat.new new) (λ stop. (stop ≡ Spent) × (seat.new.made ≡ 2 ^ 32 - 1)) }
    {
        let table = &self.table.shared;
        let mut held = enter(table, rt, &mut seat.seat);
        let number = held.next;
        if number == LAST {
            leave(table, &mut seat.seat, held);
            seat.made = number;
            return Err(SplitStop::Spent);
        }
        held.next = number + 1;
        let new = table.split_seat::<NewCaller>(&mut seat.seat);
        leave(table, &mut seat.seat, held);
        seat.made = number + 1;
        Ok(ZoneSeat {
            seat: new,
            made: number + 1,
        })
    }

    /// A caller with the first of the numbers that the zone's first caller keeps. It waits for nobody.
    pub fn deal(&self, seat: &mut ZoneSeat<Z>) -> ZoneSeat<Z>
        requires seat { seat.old.zone ≡ self.now }
        requires spare { HasSpare seat.old.closed }
        ensures new { result ≡ new_caller seat.old (first_closed seat.old) seat.old.made }
        ensures rest { seat.new ≡ without_first seat.old }
    {
        let new = self.table.shared.split_seat::<Deal>(&mut seat.seat);
        ZoneSeat {
            seat: new,
            made: seat.made,
        }
    }

    /// From now on this caller has seen what the other had seen. It waits for nobody, and takes no memory.
    pub fn learn(&self, seat: &mut ZoneSeat<Z>, other: &mut ZoneSeat<Z>)
        requires seat { seat.old.zone ≡ self.now }
        requires other { other.old.zone ≡ self.now }
        ensures learns { Learns seat.old other.old seat.new }
        ensures other { other.new ≡ other.old }
    {
        let table = &self.table.shared;
        let note = table.split_seat::<Note>(&mut other.seat);
        table.join_seat::<TakeOver>(&mut seat.seat, note);
        table.load::<Hear>(&mut seat.seat, TICKET);
        seat.made = seat.made.max(other.made);
    }

    /// Closes a caller into another, which has then seen what it had seen, and keeps its number with the length of that.
    /// It waits for nobody, and takes no memory.
    pub fn close(&self, seat: ZoneSeat<Z>, into: &mut ZoneSeat<Z>)
        requires seat { seat.zone ≡ self.now }
        requires into { into.old.zone ≡ self.now }
        ensures { Closes seat into.old into.new }
    {
        let table = &self.table.shared;
        let ZoneSeat { seat: place, made } = seat;
        table.join_seat::<TakeOver>(&mut into.seat, place);
        table.load::<Hear>(&mut into.seat, TICKET);
        into.made = into.made.max(made);
    }

    /// Gives up a caller that is closed into no other.
    pub fn end(&self, seat: ZoneSeat<Z>) {
        let ZoneSeat { seat: _, made: _ } = seat;
    }

    /// How many numbers this caller knows to be handed out.
    pub fn made(&self, seat: &ZoneSeat<Z>) -> u32
        ensures { result ≡ seat.now.made }
    {
        seat.made
    }
}
