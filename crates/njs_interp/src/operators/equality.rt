// `==`, `!=`, `===` and `!==` (ECMA-262 5.1 §11.9).
ghost use Rattle.std.specs.Prelude.{◌≡◌, ◌≤◌, ◌<◌, ℕ, List, Bool, length};
ghost use Rattle.njs_shared.specs.Heap.{sizes};
ghost use Rattle.njs_shared.specs.Fits.{FitsValue};
ghost use Rattle.njs_clone.specs.Content.{content};
ghost use Rattle.njs_meaning.specs.Errors.{first_count};
ghost use Rattle.njs_meaning.specs.Running.{Calls};
ghost use Rattle.njs_meaning.specs.Replies.{Known};
ghost use Rattle.njs_meaning.specs.Primitives.{Primitive};
ghost use Rattle.njs_meaning.specs.Values.{Simple, ObjectAt};
ghost use Rattle.njs_meaning.specs.Operators.{is_nothing};
ghost use Rattle.njs_meaning.specs.Operations.{binary, equal_to_object, equals};
ghost use Rattle.njs_convert.specs.Tells.{Means, Counts, ShowsValue, Grows, FitsAnswer, FitsSimple, AnyNumber};
ghost use Rattle.njs_interp.specs.Alone.{group_of, ShowsTruth};
ghost use Rattle.njs_interp.specs.declared.operators.groups.Group.TheVariants as group;

use crate::operators::plain;
use njs_clone::Machine;
use njs_convert::{Caller, Hint, Stop, to_primitive};
use njs_text::Steps;
use njs_tree::BinaryOp;
use njs_value::{ObjId, Value};
use std::alloc::Global;
use std::sync::ledger::Ledger;

fn is_nothing(value: Value) -> bool
    ensures { (texts : List (List ℕ)) (p : Primitive) → content texts value ≡ Simple p → result ≡ is_nothing p }
{
    match value {
        Value::Undefined | Value::Null => true,
        Value::Bool(_) | Value::Num(_) | Value::Str(_) | Value::Obj(_) => false,
    }
}

// An object and a value that is none.
fn equals_object<C: Caller<L>, L: Ledger>(
    alloc: Global,
    caller: &mut C,
    machine: &mut Machine<'_>,
    object: ObjId,
    other: Value,
    steps: &mut Steps<L>,
) -> Result<bool, Stop>
    requires may { C.may_call caller.old }
    requires fits { C.fits caller.old machine.old }
    requires first { first_count ≤ length machine.old.objects }
    requires object { object.0 < length machine.old.objects }
    requires other { FitsSimple (sizes machine.old) other }
    ensures told { (calls : Calls) (k : Known) (p : Primitive) → content machine.old.texts other ≡ Simple p → C.follows caller.old k calls → C.agrees caller.new k → Means (C.stands caller.old k machine.old) (C.stands caller.new k machine.new) (C.stopped caller.new k) machine.new.texts ShowsTruth result (equal_to_object calls.call (ObjectAt object.0) p) }
    ensures kept { (calls : Calls) (k : Known) → C.follows caller.old k calls → C.follows caller.new k calls }
    ensures agrees { (k : Known) → C.agrees caller.new k → C.agrees caller.old k }
    ensures may { C.may_call caller.new }
    ensures fits { C.fits caller.new machine.new }
    ensures same { C.lent caller.new ≡ C.lent caller.old }
    ensures grows { Grows machine.old machine.new }
    ensures value { FitsAnswer (AnyNumber {N = Bool}) (sizes machine.new) result }
    ensures spent { C.ticks_of caller.new ≤ C.ticks_of caller.old }
    ensures steps { Counts (C.adds caller.old steps.old caller.new) steps.new result }
{
    if is_nothing(other) {
        return Ok(false);
    }
    match to_primitive(alloc, caller, machine, Value::Obj(object), Hint::Any, steps) {
        Ok(value) => Ok(plain::is_equal(alloc, machine, value, other)),
        Err(stop) => Err(stop),
    }
}

// Any values.
fn equals<C: Caller<L>, L: Ledger>(
    alloc: Global,
    caller: &mut C,
    machine: &mut Machine<'_>,
    left: Value,
    right: Value,
    steps: &mut Steps<L>,
) -> Result<bool, Stop>
    requires may { C.may_call caller.old }
    requires fits { C.fits caller.old machine.old }
    requires first { first_count ≤ length machine.old.objects }
    requires left { FitsValue (sizes machine.old) left }
    requires right { FitsValue (sizes machine.old) right }
    ensures told { (calls : Calls) (k : Known) → C.follows caller.old k calls → C.agrees caller.new k → Means (C.stands caller.old k machine.old) (C.stands caller.new k machine.new) (C.stopped caller.new k) machine.new.texts ShowsTruth result (equals calls.call (content machine.old.texts left) (content machine.old.texts right)) }
    ensures kept { (calls : Calls) (k : Known) → C.follows caller.old k calls → C.follows caller.new k calls }
    ensures agrees { (k : Known) → C.agrees caller.new k → C.agrees caller.old k }
    ensures may { C.may_call caller.new }
    ensures fits { C.fits caller.new machine.new }
    ensures same { C.lent caller.new ≡ C.lent caller.old }
    ensures grows { Grows machine.old machine.new }
    ensures value { FitsAnswer (AnyNumber {N = Bool}) (sizes machine.new) result }
    ensures spent { C.ticks_of caller.new ≤ C.ticks_of caller.old }
    ensures steps { Counts (C.adds caller.old steps.old caller.new) steps.new result }
{
    match (plain::object_in(left), plain::object_in(right)) {
        (Some(first), Some(second)) => Ok(first.0 == second.0),
        (Some(object), None) => equals_object(alloc, caller, machine, object, right, steps),
        (None, Some(object)) => equals_object(alloc, caller, machine, object, left, steps),
        (None, None) => Ok(plain::is_equal(alloc, machine, left, right)),
    }
}

/// `==` (ECMA-262 5.1 §11.9.1, §11.9.3): an object equals itself, and what its value without a hint equals.
pub fn is_equal<C: Caller<L>, L: Ledger>(
    alloc: Global,
    caller: &mut C,
    machine: &mut Machine<'_>,
    op: BinaryOp,
    left: Value,
    right: Value,
    steps: &mut Steps<L>,
) -> Result<Value, Stop>
    requires may { C.may_call caller.old }
    requires fits { C.fits caller.old machine.old }
    requires first { first_count ≤ length machine.old.objects }
    requires left { FitsValue (sizes machine.old) left }
    requires right { FitsValue (sizes machine.old) right }
    requires op { group_of op ≡ group.Equality }
    ensures told { (calls : Calls) (k : Known) → C.follows caller.old k calls → C.agrees caller.new k → Means (C.stands caller.old k machine.old) (C.stands caller.new k machine.new) (C.stopped caller.new k) machine.new.texts (ShowsValue machine.new.texts) result (binary calls.call op (content machine.old.texts left) (content machine.old.texts right)) }
    ensures kept { (calls : Calls) (k : Known) → C.follows caller.old k calls → C.follows caller.new k calls }
    ensures agrees { (k : Known) → C.agrees caller.new k → C.agrees caller.old k }
    ensures may { C.may_call caller.new }
    ensures fits { C.fits caller.new machine.new }
    ensures same { C.lent caller.new ≡ C.lent caller.old }
    ensures grows { Grows machine.old machine.new }
    ensures value { FitsAnswer (FitsValue (sizes machine.new)) (sizes machine.new) result }
    ensures spent { C.ticks_of caller.new ≤ C.ticks_of caller.old }
    ensures steps { Counts (C.adds caller.old steps.old caller.new) steps.new result }
{
    match equals(alloc, caller, machine, left, right, steps) {
        Ok(truth) => Ok(Value::Bool(truth)),
        Err(stop) => Err(stop),
    }
}

/// `!=` (ECMA-262 5.1 §11.9.2).
pub fn is_unequal<C: Caller<L>, L: Ledger>(
    alloc: Global,
    caller: &mut C,
    machine: &mut Machine<'_>,
    op: BinaryOp,
    left: Value,
    right: Value,
    steps: &mut Steps<L>,
) -> Result<Value, Stop>
    requires may { C.may_call caller.old }
    requires fits { C.fits caller.old machine.old }
    requires first { first_count ≤ length machine.old.objects }
    requires left { FitsValue (sizes machine.old) left }
    requires right { FitsValue (sizes machine.old) right }
    requires op { group_of op ≡ group.Inequality }
    ensures told { (calls : Calls) (k : Known) → C.follows caller.old k calls → C.agrees caller.new k → Means (C.stands caller.old k machine.old) (C.stands caller.new k machine.new) (C.stopped caller.new k) machine.new.texts (ShowsValue machine.new.texts) result (binary calls.call op (content machine.old.texts left) (content machine.old.texts right)) }
    ensures kept { (calls : Calls) (k : Known) → C.follows caller.old k calls → C.follows caller.new k calls }
    ensures agrees { (k : Known) → C.agrees caller.new k → C.agrees caller.old k }
    ensures may { C.may_call caller.new }
    ensures fits { C.fits caller.new machine.new }
    ensures same { C.lent caller.new ≡ C.lent caller.old }
    ensures grows { Grows machine.old machine.new }
    ensures value { FitsAnswer (FitsValue (sizes machine.new)) (sizes machine.new) result }
    ensures spent { C.ticks_of caller.new ≤ C.ticks_of caller.old }
    ensures steps { Counts (C.adds caller.old steps.old caller.new) steps.new result }
{
    match equals(alloc, caller, machine, left, right, steps) {
        Ok(truth) => Ok(Value::Bool(!truth)),
        Err(stop) => Err(stop),
    }
}
