// Arrays and objects that are written out (ECMA-262 5.1 §11.1.4, §11.1.5).
ghost use Rattle.std.specs.Prelude.{◌≡◌, ◌≤◌, ◌<◌, length, true, Some, Err, OnErr};
ghost use Rattle.njs_value.specs.declared.Class.TheVariants as class;
ghost use Rattle.njs_shared.specs.Heap.{sizes};
ghost use Rattle.njs_shared.specs.Fits.{FitsValue};
ghost use Rattle.njs_clone.specs.Content.{content};
ghost use Rattle.njs_meaning.specs.declared.prototypes.Prototype.TheVariants as prototype;
ghost use Rattle.njs_meaning.specs.Meaning.{ordinary};
ghost use Rattle.njs_meaning.specs.Errors.{first_count};
ghost use Rattle.njs_convert.specs.Tells.{Extends, FitsAnswer};
ghost use Rattle.njs_members.specs.Gains.{KeepsRest};
ghost use Rattle.njs_members.specs.Tells as members;
ghost use Rattle.njs_simul.specs.Step.{defined};
ghost use Rattle.njs_interp.specs.Sits.{Ready};
ghost use Rattle.njs_interp.specs.Grown.{Grown};
ghost use Rattle.njs_interp.specs.Tells.{ActsOnHeap, Leaves};
ghost use Rattle.njs_interp.specs.Outcomes.{MeansOnHeap, Moves, made_object};

use crate::answers::{given, push_given};
use crate::taken::take_two;
use crate::{At, Stacks};
use njs_clone::{Machine, operations_go_by_content};
use njs_code::Kind;
use njs_convert::Stop;
use njs_meaning::Prototype;
use njs_shared::Inner;
use njs_text::{Steps, Text};
use njs_value::{Class, Desc, HeapStop, ObjId, Value};
use std::alloc::Global;
use std::sync::ledger::Ledger;

// A new object of a class.
fn made_object<L: Ledger>(
    alloc: Global,
    machine: &mut Machine<'_>,
    class: Class,
    prototype: Prototype,
    steps: &mut Steps<L>,
) -> Result<Value, Stop>
    requires { first_count ≤ length machine.old.objects }
    ensures told { MeansOnHeap machine.old machine.new result (made_object class prototype) }
    ensures extends { Extends machine.old machine.new }
    ensures fits { FitsAnswer (FitsValue (sizes machine.new)) (sizes machine.new) result }
    ensures steps { steps.old ≤ steps.new }
{
    operations_go_by_content();
    let up = ObjId(prototype.place());
    match machine.new_object(alloc, class, Some(up), Inner::Plain, steps) {
        Ok(object) => Ok(Value::Obj(object)),
        Err(_) => Err(Stop::NoMemory),
    }
}

/// A new array: `[] → [array]`
pub(crate) fn new_array<L: Ledger>(
    alloc: Global,
    at: &At<'_>,
    machine: &mut Machine<'_>,
    stacks: &mut Stacks<'_>,
    steps: &mut Steps<L>,
) -> Result<(), Stop>
    requires kind { at.now.op.now.kind ≡ Kind.NewArray }
    requires ready { Ready at.now.functions.now at.now.function.now at.now.op.now machine.old stacks.old }
    requires first { first_count ≤ length machine.old.objects }
    ensures told { ActsOnHeap Kind.NewArray machine.old machine.new stacks.old stacks.new result }
    ensures leaves { Leaves at.now.function.now at.now.op.now machine.new stacks.new result }
    ensures grown { Grown machine.old machine.new }
    ensures steps { steps.old ≤ steps.new }
{
    let given = made_object(alloc, machine, Class::Array, Prototype::Array, steps);
    push_given(stacks, given)
}

/// A new object: `[] → [object]`
pub(crate) fn new_object<L: Ledger>(
    alloc: Global,
    at: &At<'_>,
    machine: &mut Machine<'_>,
    stacks: &mut Stacks<'_>,
    steps: &mut Steps<L>,
) -> Result<(), Stop>
    requires kind { at.now.op.now.kind ≡ Kind.NewObject }
    requires ready { Ready at.now.functions.now at.now.function.now at.now.op.now machine.old stacks.old }
    requires first { first_count ≤ length machine.old.objects }
    ensures told { ActsOnHeap Kind.NewObject machine.old machine.new stacks.old stacks.new result }
    ensures leaves { Leaves at.now.function.now at.now.op.now machine.new stacks.new result }
    ensures grown { Grown machine.old machine.new }
    ensures steps { steps.old ≤ steps.new }
{
    let given = made_object(alloc, machine, Class::Object, Prototype::Object, steps);
    push_given(stacks, given)
}

// An ordinary property with a value.
fn ordinary(value: Value) -> Desc
    ensures { result ≡ record { value = Some value; writable = Some true; enumerable = Some true; configurable = Some true } }
{
    Desc {
        value: Some(value),
        writable: Some(true),
        enumerable: Some(true),
        configurable: Some(true),
    }
}

// Defines a property of an object.
fn define_at<L: Ledger>(
    alloc: Global,
    machine: &mut Machine<'_>,
    object: ObjId,
    name: &Text,
    value: Value,
    steps: &mut Steps<L>,
) -> Result<(), HeapStop>
    requires object { object.0 < length machine.old.objects }
    requires value { FitsValue (sizes machine.old) value }
    ensures told { members.Tells (content machine.old.texts (Value.Obj object)) (defined name.now (content machine.old.texts (Value.Obj object)) (content machine.old.texts value)) machine.old machine.new result }
    ensures kept { KeepsRest machine.old machine.new }
    ensures steps { steps.old ≤ steps.new }
{
    operations_go_by_content();
    machine.define(alloc, object, name, ordinary(value), steps)
}

// The same of any value; where it is no object nothing happens.
fn define_member<L: Ledger>(
    alloc: Global,
    machine: &mut Machine<'_>,
    object: Value,
    name: &Text,
    value: Value,
    steps: &mut Steps<L>,
) -> Result<(), HeapStop>
    requires object { FitsValue (sizes machine.old) object }
    requires value { FitsValue (sizes machine.old) value }
    ensures told { members.Tells (content machine.old.texts object) (defined name.now (content machine.old.texts object) (content machine.old.texts value)) machine.old machine.new result }
    ensures kept { KeepsRest machine.old machine.new }
    ensures steps { steps.old ≤ steps.new }
{
    match object {
        Value::Obj(object) => define_at(alloc, machine, object, name, value, steps),
        Value::Undefined | Value::Null | Value::Bool(_) | Value::Num(_) | Value::Str(_) => Ok(()),
    }
}

// The object, with a property.
fn with_property<L: Ledger>(
    alloc: Global,
    machine: &mut Machine<'_>,
    object: Value,
    name: &Text,
    value: Value,
    steps: &mut Steps<L>,
) -> Result<Value, Stop>
    requires first { first_count ≤ length machine.old.objects }
    requires object { FitsValue (sizes machine.old) object }
    requires value { FitsValue (sizes machine.old) value }
    ensures told { MeansOnHeap machine.old machine.new result (defined name.now (content machine.old.texts object) (content machine.old.texts value)) }
    ensures extends { Extends machine.old machine.new }
    ensures fits { FitsAnswer (FitsValue (sizes machine.new)) (sizes machine.new) result }
    ensures steps { steps.old ≤ steps.new }
{
    let done = define_member(alloc, machine, object, name, value, steps);
    given(alloc, machine, object, done, steps)
}

/// Gives an object a property: `[object, value] → [object]`
pub(crate) fn define<L: Ledger>(
    alloc: Global,
    at: &At<'_>,
    machine: &mut Machine<'_>,
    stacks: &mut Stacks<'_>,
    name: &Text,
    steps: &mut Steps<L>,
) -> Result<(), Stop>
    requires kind { at.now.op.now.kind ≡ Kind.Define name.now }
    requires ready { Ready at.now.functions.now at.now.function.now at.now.op.now machine.old stacks.old }
    requires first { first_count ≤ length machine.old.objects }
    ensures told { ActsOnHeap (Kind.Define name.now) machine.old machine.new stacks.old stacks.new result }
    ensures leaves { Leaves at.now.function.now at.now.op.now machine.new stacks.new result }
    ensures grown { Grown machine.old machine.new }
    ensures steps { steps.old ≤ steps.new }
{
    let (object, value) = take_two(at, machine, stacks);
    let given = with_property(alloc, machine, object, name, value, steps);
    push_given(stacks, given)
}
