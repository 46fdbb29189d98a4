// `instanceof`, `in`, and `typeof` of objects (ECMA-262 5.1 §11.4.3, §11.8.6, §11.8.7).
ghost use Rattle.std.specs.Prelude.{◌≡◌, ◌≤◌, if◌then◌else◌, length, codes};
ghost use Rattle.njs_shared.specs.Heap.{sizes};
ghost use Rattle.njs_shared.specs.Fits.{FitsValue};
ghost use Rattle.njs_clone.specs.Content.{content};
ghost use Rattle.njs_meaning.specs.Errors.{first_count};
ghost use Rattle.njs_meaning.specs.Running.{Calls};
ghost use Rattle.njs_meaning.specs.Replies.{Known};
ghost use Rattle.njs_meaning.specs.Operations.{binary, instance_of, type_of};
ghost use Rattle.njs_convert.specs.Tells.{Means, Counts, Extends, ShowsValue, Grows, FitsAnswer};
ghost use Rattle.njs_interp.specs.Alone.{TellsAlone, group_of};
ghost use Rattle.njs_interp.specs.declared.operators.groups.Group.TheVariants as group;

use crate::operators::plain::{object_in, of_one, text_value};
use njs_clone::Machine;
use njs_convert::{Caller, Stop, throw, to_text};
use njs_members::{has_member, is_callable};
use njs_text::{Steps, Text};
use njs_tree::{BinaryOp, UnaryOp};
use njs_value::{Cause, Value};
use std::alloc::Global;
use std::sync::ledger::Ledger;

/// `instanceof` (ECMA-262 5.1 §11.8.6, §15.3.5.3).
pub fn instance_of<L: Ledger>(
    alloc: Global,
    machine: &mut Machine<'_>,
    left: Value,
    right: Value,
    steps: &mut Steps<L>,
) -> Result<Value, Stop>
    requires first { first_count ≤ length machine.old.objects }
    requires left { FitsValue (sizes machine.old) left }
    requires right { FitsValue (sizes machine.old) right }
    ensures told { TellsAlone machine.old machine.new result (instance_of (content machine.old.texts left) (content machine.old.texts right)) }
    ensures extends { Extends machine.old machine.new }
    ensures value { FitsAnswer (FitsValue (sizes machine.new)) (sizes machine.new) result }
    ensures steps { Counts (λ n. n ≡ steps.old) steps.new result }
{
    match njs_members::instance_of(machine, left, right) {
        Ok(truth) => Ok(Value::Bool(truth)),
        Err(cause) => Err(throw(alloc, machine, cause, steps)),
    }
}

/// `in` (ECMA-262 5.1 §11.8.7).
pub fn is_in<C: Caller<L>, L: Ledger>(
    alloc: Global,
    caller: &mut C,
    machine: &mut Machine<'_>,
    op: BinaryOp,
    left: Value,
    right: Value,
    steps: &mut Steps<L>,
) -> Result<Value, Stop>
    requires may { C.may_call caller.old }
    requires fits { C.fits caller.old machine.old }
    requires first { first_count ≤ length machine.old.objects }
    requires left { FitsValue (sizes machine.old) left }
    requires right { FitsValue (sizes machine.old) right }
    requires op { group_of op ≡ group.Member }
    ensures told { (calls : Calls) (k : Known) → C.follows caller.old k calls → C.agrees caller.new k → Means (C.stands caller.old k machine.old) (C.stands caller.new k machine.new) (C.stopped caller.new k) machine.new.texts (ShowsValue machine.new.texts) result (binary calls.call op (content machine.old.texts left) (content machine.old.texts right)) }
    ensures kept { (calls : Calls) (k : Known) → C.follows caller.old k calls → C.follows caller.new k calls }
    ensures agrees { (k : Known) → C.agrees caller.new k → C.agrees caller.old k }
    ensures may { C.may_call caller.new }
    ensures fits { C.fits caller.new machine.new }
    ensures same { C.lent caller.new ≡ C.lent caller.old }
    ensures grows { Grows machine.old machine.new }
    ensures value { FitsAnswer (FitsValue (sizes machine.new)) (sizes machine.new) result }
    ensures spent { C.ticks_of caller.new ≤ C.ticks_of caller.old }
    ensures steps { Counts (C.adds caller.old steps.old caller.new) steps.new result }
{
    let Some(object) = object_in(right) else {
        return Err(throw(alloc, machine, Cause::NotObject, steps));
    };
    match to_text(alloc, caller, machine, left, steps) {
        Ok(name) => Ok(Value::Bool(has_member(machine, Value::Obj(object), machine.text(name)))),
        Err(stop) => Err(stop),
    }
}

// What `typeof` gives of an object.
fn object_type(is_function: bool) -> Text
    ensures { result ≡ (if is_function then codes "function" else codes "object") }
{
    if is_function {
        Text::fixed("function")
    } else {
        Text::fixed("object")
    }
}

/// `typeof` (ECMA-262 5.1 §11.4.3).
pub fn type_of<L: Ledger>(
    alloc: Global,
    machine: &mut Machine<'_>,
    value: Value,
    steps: &mut Steps<L>,
) -> Result<Value, Stop>
    requires first { first_count ≤ length machine.old.objects }
    requires value { FitsValue (sizes machine.old) value }
    ensures told { TellsAlone machine.old machine.new result (type_of (content machine.old.texts value)) }
    ensures extends { Extends machine.old machine.new }
    ensures value { FitsAnswer (FitsValue (sizes machine.new)) (sizes machine.new) result }
    ensures steps { Counts (λ n. n ≡ steps.old) steps.new result }
{
    if object_in(value).is_none() {
        return of_one(alloc, machine, UnaryOp::TypeOf, value, steps);
    }
    match text_value(machine, object_type(is_callable(machine, value))) {
        Ok(text) => Ok(text),
        Err(_) => Err(Stop::NoMemory),
    }
}
