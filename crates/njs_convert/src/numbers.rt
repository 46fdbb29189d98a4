// ToNumber, ToString, ToInt32 and ToUint32 (ECMA-262 5.1 §9.3, §9.5, §9.6, §9.8).
ghost use Rattle.std.specs.Prelude.{◌≡◌, ◌≤◌, ◌<◌, ℕ, length, MatchOption, IfOk, IfSome};
ghost use Rattle.njs_value.specs.Number.{IsSafe};
ghost use Rattle.njs_shared.specs.Heap.{sizes};
ghost use Rattle.njs_shared.specs.Fits.{FitsValue};
ghost use Rattle.njs_clone.specs.Content.{content};
ghost use Rattle.njs_meaning.specs.Running.{Calls};
ghost use Rattle.njs_meaning.specs.Replies.{Known};
ghost use Rattle.njs_meaning.specs.Errors.{first_count};
ghost use Rattle.njs_meaning.specs.Conversions.{to_number, to_int32, to_uint32};
ghost use Rattle.njs_convert.specs.Tells.{Means, Counts, ShowsNumber, Grows, FitsAnswer, FitsSimple, HasNumber, AnyNumber};

use crate::{Caller, Hint, Stop, throw, to_primitive};
use njs_clone::Machine;
use njs_meaning::{number_of_text, signed_32, unsigned_32};
use njs_text::Steps;
use njs_value::{Cause, Value};
use std::alloc::Global;
use std::sync::ledger::Ledger;

// The number of a value that is no object, if it has one.
fn number_of(machine: &Machine<'_>, value: Value) -> Option<i64>
    requires { FitsSimple (sizes machine.now) value }
    ensures number { HasNumber machine.now.texts value result }
    ensures safe { IfSome result IsSafe }
{
    match value {
        Value::Undefined => None,
        Value::Null => Some(0),
        Value::Bool(truth) => Some(i64::from(truth)),
        Value::Num(number) => Some(number),
        Value::Str(text) => number_of_text(machine.text(text)),
        Value::Obj(_) => unreachable!(),
    }
}

/// ToNumber (ECMA-262 5.1 §9.3): a whole number within plus or minus `MAX_SAFE`. It throws what `to_primitive` throws, and
/// `NotNumber` where the value stands for no number.
pub fn to_number<C: Caller<L>, L: Ledger>(
    alloc: Global,
    caller: &mut C,
    machine: &mut Machine<'_>,
    value: Value,
    steps: &mut Steps<L>,
) -> Result<i64, Stop>
    requires may { C.may_call caller.old }
    requires fits { C.fits caller.old machine.old }
    requires first { first_count ≤ length machine.old.objects }
    requires value { FitsValue (sizes machine.old) value }
    ensures told { (calls : Calls) (k : Known) → C.follows caller.old k calls → C.agrees caller.new k → Means (C.stands caller.old k machine.old) (C.stands caller.new k machine.new) (C.stopped caller.new k) machine.new.texts ShowsNumber result (to_number calls.call (content machine.old.texts value)) }
    ensures kept { (calls : Calls) (k : Known) → C.follows caller.old k calls → C.follows caller.new k calls }
    ensures agrees { (k : Known) → C.agrees caller.new k → C.agrees caller.old k }
    ensures may { C.may_call caller.new }
    ensures fits { C.fits caller.new machine.new }
    ensures same { C.lent caller.new ≡ C.lent caller.old }
    ensures grows { Grows machine.old machine.new }
    ensures value { FitsAnswer IsSafe (sizes machine.new) result }
    ensures spent { C.ticks_of caller.new ≤ C.ticks_of caller.old }
    ensures steps { Counts (C.adds caller.old steps.old caller.new) steps.new result }
{
    let primitive = match to_primitive(alloc, caller, machine, value, Hint::Number, steps) {
        Ok(primitive) => primitive,
        Err(stop) => return Err(stop),
    };
    match number_of(machine, primitive) {
        Some(number) => Ok(number),
        None => Err(throw(alloc, machine, Cause::NotNumber, steps)),
    }
}

/// ToInt32 (ECMA-262 5.1 §9.5). It throws what `to_number` throws.
pub fn to_int32<C: Caller<L>, L: Ledger>(
    alloc: Global,
    caller: &mut C,
    machine: &mut Machine<'_>,
    value: Value,
    steps: &mut Steps<L>,
) -> Result<i32, Stop>
    requires may { C.may_call caller.old }
    requires fits { C.fits caller.old machine.old }
    requires first { first_count ≤ length machine.old.objects }
    requires value { FitsValue (sizes machine.old) value }
    ensures told { (calls : Calls) (k : Known) → C.follows caller.old k calls → C.agrees caller.new k → Means (C.stands caller.old k machine.old) (C.stands caller.new k machine.new) (C.stopped caller.new k) machine.new.texts ShowsNumber result (to_int32 calls.call (content machine.old.texts value)) }
    ensures kept { (calls : Calls) (k : Known) → C.follows caller.old k calls → C.follows caller.new k calls }
    ensures agrees { (k : Known) → C.agrees caller.new k → C.agrees caller.old k }
    ensures may { C.may_call caller.new }
    ensures fits { C.fits caller.new machine.new }
    ensures same { C.lent caller.new ≡ C.lent caller.old }
    ensures grows { Grows machine.old machine.new }
    ensures value { FitsAnswer AnyNumber (sizes machine.new) result }
    ensures spent { C.ticks_of caller.new ≤ C.ticks_of caller.old }
    ensures steps { Counts (C.adds caller.old steps.old caller.new) steps.new result }
{
    match to_number(alloc, caller, machine, value, steps) {
        Ok(number) => Ok(signed_32(number)),
        Err(stop) => Err(stop),
    }
}

/// ToUint32 (ECMA-262 5.1 §9.6). It throws what `to_number` throws.
pub fn to_uint32<C: Caller<L>, L: Ledger>(
    alloc: Global,
    caller: &mut C,
    machine: &mut Machine<'_>,
    value: Value,
    steps: &mut Steps<L>,
) -> Result<u32, Stop>
    requires may { C.may_call caller.old }
    requires fits { C.fits caller.old machine.old }
    requires first { first_count ≤ length machine.old.objects }
    requires value { FitsValue (sizes machine.old) value }
    ensures told { (calls : Calls) (k : Known) → C.follows caller.old k calls → C.agrees caller.new k → Means (C.stands caller.old k machine.old) (C.stands caller.new k machine.new) (C.stopped caller.new k) machine.new.texts ShowsNumber result (to_uint32 calls.call (content machine.old.texts value)) }
    ensures kept { (calls : Calls) (k : Known) → C.follows caller.old k calls → C.follows caller.new k calls }
    ensures agrees { (k : Known) → C.agrees caller.new k → C.agrees caller.old k }
    ensures may { C.may_call caller.new }
    ensures fits { C.fits caller.new machine.new }
    ensures same { C.lent caller.new ≡ C.lent caller.old }
    ensures grows { Grows machine.old machine.new }
    ensures value { FitsAnswer AnyNumber (sizes machine.new) result }
    ensures spent { C.ticks_of caller.new ≤ C.ticks_of caller.old }
    ensures steps { Counts (C.adds caller.old steps.old caller.new) steps.new result }
{
    match to_number(alloc, caller, machine, value, steps) {
        Ok(number) => Ok(unsigned_32(number)),
        Err(stop) => Err(stop),
    }
}
