// What is asked of values, and their methods.
ghost use Rattle.std.specs.Prelude.{◌≡◌, ◌≤◌, ◌<◌, length};
ghost use Rattle.njs_shared.specs.Heap.{sizes};
ghost use Rattle.njs_shared.specs.Fits.{FitsValue};
ghost use Rattle.njs_clone.specs.Content.{content};
ghost use Rattle.njs_meaning.specs.Running.{Calls};
ghost use Rattle.njs_meaning.specs.Replies.{Known};
ghost use Rattle.njs_meaning.specs.Errors.{first_count};
ghost use Rattle.njs_meaning.specs.Conversions.{to_boolean, is_callable, first_method, second_method, tried};
ghost use Rattle.njs_clone.specs.StandsFor.{plain_objects};
ghost use Rattle.njs_convert.specs.Tells.{Means, ShowsValue, Grows, FitsAnswer};
ghost use Rattle.njs_convert.specs.Tests.{is_object, is_function_part};

use crate::{Caller, Stop};
use njs_clone::Machine;
use njs_meaning::Hint;
use njs_shared::Inner;
use njs_text::{Steps, Text};
use njs_value::{ObjId, Value};
use std::alloc::Global;
use std::sync::ledger::Ledger;

/// ToBoolean (ECMA-262 5.1 §9.2). It takes no memory.
pub fn to_boolean(machine: &Machine<'_>, value: Value) -> bool
    requires { FitsValue (sizes machine.now) value }
    ensures { result ≡ to_boolean (content machine.now.texts value) }
{
    match value {
        Value::Undefined | Value::Null => false,
        Value::Bool(truth) => truth,
        Value::Num(number) => number != 0,
        Value::Str(text) => !machine.text(text).is_empty(),
        Value::Obj(_) => true,
    }
}

pub fn is_object(value: Value) -> bool
    ensures { result ≡ is_object value }
{
    matches!(value, Value::Obj(_))
}

fn is_function(inner: &Inner) -> bool
    ensures { result ≡ is_function_part inner.now }
{
    match inner {
        Inner::Plain | Inner::ZoneNumber(_) => false,
        Inner::Script { .. } | Inner::BuiltIn(_) | Inner::Bound { .. } => true,
    }
}

fn is_callable(machine: &Machine<'_>, value: Value) -> bool
    requires { FitsValue (sizes machine.now) value }
    ensures { result ≡ is_callable (plain_objects machine.now) (content machine.now.texts value) }
{
    match value {
        Value::Obj(object) => is_function(&machine.object(object).inner),
        Value::Undefined | Value::Null | Value::Bool(_) | Value::Num(_) | Value::Str(_) => false,
    }
}

pub fn first_method(hint: Hint) -> Text
    ensures { result ≡ first_method hint }
{
    match hint {
        Hint::Any => Text::fixed("valueOf"),
        Hint::Number => Text::fixed("valueOf"),
        Hint::Text => Text::fixed("toString"),
    }
}

pub fn second_method(hint: Hint) -> Text
    ensures { result ≡ second_method hint }
{
    match hint {
        Hint::Any => Text::fixed("toString"),
        Hint::Number => Text::fixed("toString"),
        Hint::Text => Text::fixed("valueOf"),
    }
}

// Calls a method of an object, if it can be called; else the object itself is given.
pub fn tried<C: Caller<L>, L: Ledger>(
    alloc: Global,
    caller: &mut C,
    machine: &mut Machine<'_>,
    object: ObjId,
    name: &Text,
    steps: &mut Steps<L>,
) -> Result<Value, Stop>
    requires may { C.may_call caller.old }
    requires fits { C.fits caller.old machine.old }
    requires first { first_count ≤ length machine.old.objects }
    requires object { object.0 < length machine.old.objects }
    ensures told { (calls : Calls) (k : Known) → C.follows caller.old k calls → C.agrees caller.new k → Means (C.stands caller.old k machine.old) (C.stands caller.new k machine.new) (C.stopped caller.new k) machine.new.texts (ShowsValue machine.new.texts) result (tried calls.call name.now object.0) }
    ensures kept { (calls : Calls) (k : Known) → C.follows caller.old k calls → C.follows caller.new k calls }
    ensures agrees { (k : Known) → C.agrees caller.new k → C.agrees caller.old k }
    ensures may { C.may_call caller.new }
    ensures fits { C.fits caller.new machine.new }
    ensures same { C.lent caller.new ≡ C.lent caller.old }
    ensures grows { Grows machine.old machine.new }
    ensures value { FitsAnswer (FitsValue (sizes machine.new)) (sizes machine.new) result }
    ensures spent { C.ticks_of caller.new ≤ C.ticks_of caller.old }
    ensures steps { C.adds caller.old steps.old caller.new steps.new }
{
    let method = machine.get(object, name);
    if !is_callable(machine, method) {
        return Ok(Value::Obj(object));
    }
    caller.call(alloc, machine, method, Value::Obj(object), &[], steps)
}
