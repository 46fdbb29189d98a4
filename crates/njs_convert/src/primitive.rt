// Conversions of values (ECMA-262 5.1 §9), which may call functions of the script.
ghost use Rattle.std.specs.Prelude.{◌≡◌, ◌≤◌, ◌<◌, ℕ, length};
ghost use Rattle.njs_value.specs.Number.{IsSafe};
ghost use Rattle.njs_shared.specs.Heap.{sizes};
ghost use Rattle.njs_shared.specs.Fits.{FitsValue};
ghost use Rattle.njs_clone.specs.Content.{content};
ghost use Rattle.njs_meaning.specs.Running.{Calls};
ghost use Rattle.njs_meaning.specs.Replies.{Known};
ghost use Rattle.njs_meaning.specs.Errors.{first_count};
ghost use Rattle.njs_meaning.specs.Conversions.{by_second, by_methods, to_primitive};
ghost use Rattle.njs_convert.specs.Tells.{Means, Counts, ShowsPrimitive, Grows, FitsAnswer, FitsSimple};

use crate::methods::{first_method, is_object, second_method, tried};
use crate::{Caller, Hint, Stop, throw};
use njs_clone::Machine;
use njs_text::Steps;
use njs_value::{Cause, ObjId, Value};
use std::alloc::Global;
use std::sync::ledger::Ledger;

// Calls the second method, which is the last.
fn by_second<C: Caller<L>, L: Ledger>(
    alloc: Global,
    caller: &mut C,
    machine: &mut Machine<'_>,
    object: ObjId,
    hint: Hint,
    steps: &mut Steps<L>,
) -> Result<Value, Stop>
    requires may { C.may_call caller.old }
    requires fits { C.fits caller.old machine.old }
    requires first { first_count ≤ length machine.old.objects }
    requires object { object.0 < length machine.old.objects }
    ensures told { (calls : Calls) (k : Known) → C.follows caller.old k calls → C.agrees caller.new k → Means (C.stands caller.old k machine.old) (C.stands caller.new k machine.new) (C.stopped caller.new k) machine.new.texts (ShowsPrimitive machine.new.texts) result (by_second calls.call hint object.0) }
    ensures kept { (calls : Calls) (k : Known) → C.follows caller.old k calls → C.follows caller.new k calls }
    ensures agrees { (k : Known) → C.agrees caller.new k → C.agrees caller.old k }
    ensures may { C.may_call caller.new }
    ensures fits { C.fits caller.new machine.new }
    ensures same { C.lent caller.new ≡ C.lent caller.old }
    ensures grows { Grows machine.old machine.new }
    ensures value { FitsAnswer (FitsSimple (sizes machine.new)) (sizes machine.new) result }
    ensures spent { C.ticks_of caller.new ≤ C.ticks_of caller.old }
    ensures steps { Counts (C.adds caller.old steps.old caller.new) steps.new result }
{
    let given = match tried(alloc, caller, machine, object, &second_method(hint), steps) {
        Ok(given) => given,
        Err(stop) => return Err(stop),
    };
    if !is_object(given) {
        return Ok(given);
    }
    Err(throw(alloc, machine, Cause::NoPrimitive, steps))
}

// Calls the methods of an object.
fn by_methods<C: Caller<L>, L: Ledger>(
    alloc: Global,
    caller: &mut C,
    machine: &mut Machine<'_>,
    object: ObjId,
    hint: Hint,
    steps: &mut Steps<L>,
) -> Result<Value, Stop>
    requires may { C.may_call caller.old }
    requires fits { C.fits caller.old machine.old }
    requires first { first_count ≤ length machine.old.objects }
    requires object { object.0 < length machine.old.objects }
    ensures told { (calls : Calls) (k : Known) → C.follows caller.old k calls → C.agrees caller.new k → Means (C.stands caller.old k machine.old) (C.stands caller.new k machine.new) (C.stopped caller.new k) machine.new.texts (ShowsPrimitive machine.new.texts) result (by_methods calls.call hint object.0) }
    ensures kept { (calls : Calls) (k : Known) → C.follows caller.old k calls → C.follows caller.new k calls }
    ensures agrees { (k : Known) → C.agrees caller.new k → C.agrees caller.old k }
    ensures may { C.may_call caller.new }
    ensures fits { C.fits caller.new machine.new }
    ensures same { C.lent caller.new ≡ C.lent caller.old }
    ensures grows { Grows machine.old machine.new }
    ensures value { FitsAnswer (FitsSimple (sizes machine.new)) (sizes machine.new) result }
    ensures spent { C.ticks_of caller.new ≤ C.ticks_of caller.old }
    ensures steps { Counts (C.adds caller.old steps.old caller.new) steps.new result }
{
    let given = match tried(alloc, caller, machine, object, &first_method(hint), steps) {
        Ok(given) => given,
        Err(stop) => return Err(stop),
    };
    if !is_object(given) {
        return Ok(given);
    }
    by_second(alloc, caller, machine, object, hint, steps)
}

/// ToPrimitive (ECMA-262 5.1 §9.1, §8.12.8): a value that is no object. It throws what a method throws, and `NoPrimitive`
/// where neither method gives such a value.
pub fn to_primitive<C: Caller<L>, L: Ledger>(
    alloc: Global,
    caller: &mut C,
    machine: &mut Machine<'_>,
    value: Value,
    hint: Hint,
    steps: &mut Steps<L>,
) -> Result<Value, Stop>
    requires may { C.may_call caller.old }
    requires fits { C.fits caller.old machine.old }
    requires first { first_count ≤ length machine.old.objects }
    requires value { FitsValue (sizes machine.old) value }
    ensures told { (calls : Calls) (k : Known) → C.follows caller.old k calls → C.agrees caller.new k → Means (C.stands caller.old k machine.old) (C.stands caller.new k machine.new) (C.stopped caller.new k) machine.new.texts (ShowsPrimitive machine.new.texts) result (to_primitive calls.call hint (content machine.old.texts value)) }
    ensures kept { (calls : Calls) (k : Known) → C.follows caller.old k calls → C.follows caller.new k calls }
    ensures agrees { (k : Known) → C.agrees caller.new k → C.agrees caller.old k }
    ensures may { C.may_call caller.new }
    ensures fits { C.fits caller.new machine.new }
    ensures same { C.lent caller.new ≡ C.lent caller.old }
    ensures grows { Grows machine.old machine.new }
    ensures value { FitsAnswer (FitsSimple (sizes machine.new)) (sizes machine.new) result }
    ensures spent { C.ticks_of caller.new ≤ C.ticks_of caller.old }
    ensures steps { Counts (C.adds caller.old steps.old caller.new) steps.new result }
{
    match value {
        Value::Obj(object) => by_methods(alloc, caller, machine, object, hint, steps),
        Value::Undefined => Ok(Value::Undefined),
        Value::Null => Ok(Value::Null),
        Value::Bool(truth) => Ok(Value::Bool(truth)),
        Value::Num(number) => Ok(Value::Num(number)),
        Value::Str(text) => Ok(Value::Str(text)),
    }
}
