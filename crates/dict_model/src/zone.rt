// A zone, and the plain one.
ghost use Rattle.std.specs.Prelude.{◌≡◌, ◌<◌, ◌≤◌, ◌^◌, ℕ, true, IfOk, IsOk, OnOk, vec_len, vec_capacity};
ghost use Rattle.std.specs.List.{AllByRecursion};
ghost use Rattle.dict_model.specs.declared.operation.ZoneSpec.{ZoneSpec};
ghost use Rattle.dict_model.specs.Operation.{IsSpec, IsValue, IsAllowed, TakesNoMemory, is_storing};
ghost use Rattle.dict_model.specs.Eviction.{total};
ghost use Rattle.dict_model.specs.Zone.{State, IsValid, empty, dict, done, live_state};
ghost use Rattle.dict_model.specs.Calls.{Applies};

use crate::{DictOp, DictReply, Kept, ZoneSpec, answer, change, kept};
use njs_text::NoMemory;
use std::alloc::Global;
use std::marker::Model;

/// A zone: its spec, which no call changes, and a state.
pub trait ZoneState {
    ghost spec: { Self → ZoneSpec };

    /// The entries and the last moment.
    ghost state: { Self → State };

    /// Asks the zone, with a reading of the clock in milliseconds.
    fn apply(&mut self, alloc: Global, op: DictOp, reading: u64) -> Result<DictReply, NoMemory>
        requires allowed { IsAllowed (spec self.old) op }
        requires reading { reading < 2 ^ 53 }
        ensures spec { spec self.new ≡ spec self.old }
        ensures applied { Applies (spec self.old) (state self.old) op reading (state self.new) result }
        ensures valid { IsValid (spec self.new) (state self.new) }
        ensures free { TakesNoMemory op → IsOk result };
}

/// A zone that is a list, which is searched whole at each call.
#[derive(Drop)]
pub struct PlainZone {
    spec: ZoneSpec,
    entries: Vec<Kept>,
    moment: u64,
}

impl Model for PlainZone {
    ghost use Rattle.dict_model.specs.Plain.{Zone};

    ghost Value = { Zone };

    ghost use Rattle.dict_model.specs.Operation.{IsSpec};
    ghost use Rattle.dict_model.specs.Zone.{IsValid, state_of};

    ghost view = { λ z. record { spec = z.spec; state = state_of z.entries.items z.moment } };

    ghost invariant = { λ z. IsSpec z.spec × IsValid z.spec (state_of z.entries.items z.moment) };
}

// Takes all the memory that an operation needs: room for a new entry, and the texts of the reply.
#[tactic(auto, using(crate::proofs::Free::free_stores_nothing))]
fn prepare(
    alloc: Global,
    spec: &ZoneSpec,
    entries: &mut Vec<Kept>,
    moment: u64,
    op: &DictOp,
) -> Result<DictReply, NoMemory>
    requires limit { spec.now.limit ≤ 9007199254740991 }
    requires within { total entries.old.items ≤ spec.now.limit }
    requires values { AllByRecursion (λ e. IsValue spec.now.numeric e.value) entries.old.items }
    requires allowed { IsAllowed spec.now op.now }
    ensures reply { IfOk result (λ reply. reply ≡ (done spec.now (live_state entries.old.items moment) op.now).0) }
    ensures items { entries.new.items ≡ entries.old.items }
    ensures room { OnOk result (is_storing op.now ≡ true → vec_len entries.new < vec_capacity entries.new) }
    ensures free { TakesNoMemory op.now → IsOk result }
{
    change::make_room(entries, op)?;
    answer::answer(alloc, spec, entries.as_slice(), moment, op)
}

impl PlainZone {
    /// An empty zone, at moment 0. It is made as every kind of zone is, so it answers a `Result`, but a list takes no
    /// memory before its first entry.
    pub fn new(alloc: Global, spec: ZoneSpec) -> Result<PlainZone, NoMemory>
        requires { IsSpec spec }
        ensures made { IsOk result }
        ensures spec { IfOk result (λ zone. zone.spec ≡ spec) }
        ensures state { IfOk result (λ zone. zone.state ≡ empty) }
    {
        Ok(PlainZone {
            spec,
            entries: Vec::new(alloc),
            moment: 0,
        })
    }

    /// What was opened.
    pub fn spec(&self) -> &ZoneSpec
        ensures { result.now ≡ self.now.spec }
    {
        &self.spec
    }

    /// The reply that `apply` would give. Nothing changes.
    pub fn answer(&self, alloc: Global, op: &DictOp, reading: u64) -> Result<DictReply, NoMemory>
        requires allowed { IsAllowed self.now.spec op.now }
        requires reading { reading < 2 ^ 53 }
        ensures reply { IfOk result (λ reply. reply ≡ (dict self.now.spec self.now.state op.now reading).0) }
        ensures free { TakesNoMemory op.now → IsOk result }
    {
        let moment = self.moment.max(reading);
        answer::answer(alloc, &self.spec, self.entries.as_slice(), moment, op)
    }
}

impl ZoneState for PlainZone {
    ghost spec = { λ z. z.spec };

    ghost state = { λ z. z.state };

    fn apply(&mut self, alloc: Global, op: DictOp, reading: u64) -> Result<DictReply, NoMemory> {
        let moment = self.moment.max(reading);
        match prepare(alloc, &self.spec, &mut self.entries, moment, &op) {
            Ok(reply) => {
                self.moment = moment;
                kept::expire(&mut self.entries, moment);
                change::change(&self.spec, &mut self.entries, moment, op, &reply);
                Ok(reply)
            }
            Err(NoMemory) => {
                drop(op);
                Err(NoMemory)
            }
        }
    }
}
