// Members that are written or deleted.
ghost use Rattle.std.specs.Prelude.{◌≡◌, ◌≤◌, ◌<◌, ◌+◌, length, true};
ghost use Rattle.njs_shared.specs.Heap.{sizes};
ghost use Rattle.njs_shared.specs.Fits.{FitsValue};
ghost use Rattle.njs_clone.specs.Content.{content};
ghost use Rattle.njs_meaning.specs.Primitives.{Truth};
ghost use Rattle.njs_meaning.specs.Values.{Simple};
ghost use Rattle.njs_meaning.specs.Members.{put_member, delete_member};
ghost use Rattle.njs_members.specs.Starts.{text_at};
ghost use Rattle.njs_members.specs.Gains.{KeepsRest};
ghost use Rattle.njs_members.specs.Tells.{Tells};

use crate::own::has_own;
use njs_clone::{Machine, operations_go_by_content};
use njs_text::Steps;
use njs_value::{Cause, HeapStop, ObjId, TextId, Value};
use std::alloc::Global;
use std::sync::ledger::Ledger;

// Puts a value under a name of an object.
fn put_at<L: Ledger>(
    alloc: Global,
    machine: &mut Machine<'_>,
    object: ObjId,
    name: TextId,
    value: Value,
    steps: &mut Steps<L>,
) -> Result<(), HeapStop>
    requires object { object.0 < length machine.old.objects }
    requires name { name.0 < length machine.old.texts }
    requires value { FitsValue (sizes machine.old) value }
    ensures told { Tells (content machine.old.texts value) (put_member (text_at machine.old.texts name) (content machine.old.texts (Value.Obj object)) (content machine.old.texts value)) machine.old machine.new result }
    ensures kept { KeepsRest machine.old machine.new }
    ensures cells { (steps.old ≤ steps.new) × (steps.new ≤ steps.old + 1) }
{
    operations_go_by_content();
    let Ok(name) = machine.text(name).copy(alloc) else {
        return Err(HeapStop::NoMemory);
    };
    machine.put(alloc, object, &name, value, steps)
}

/// Gives a member of an object its value (ECMA-262 5.1 §8.7.2). A value that is no object takes none. What is left after a
/// throw or want of memory is as for `Machine::put`.
pub fn put_member<L: Ledger>(
    alloc: Global,
    machine: &mut Machine<'_>,
    base: Value,
    name: TextId,
    value: Value,
    steps: &mut Steps<L>,
) -> Result<(), HeapStop>
    requires base { FitsValue (sizes machine.old) base }
    requires name { name.0 < length machine.old.texts }
    requires value { FitsValue (sizes machine.old) value }
    ensures told { Tells (content machine.old.texts value) (put_member (text_at machine.old.texts name) (content machine.old.texts base) (content machine.old.texts value)) machine.old machine.new result }
    ensures kept { KeepsRest machine.old machine.new }
    ensures cells { (steps.old ≤ steps.new) × (steps.new ≤ steps.old + 1) }
{
    match base {
        Value::Obj(object) => put_at(alloc, machine, object, name, value, steps),
        Value::Undefined | Value::Null | Value::Bool(_) | Value::Num(_) | Value::Str(_) => {
            Err(HeapStop::Throw(Cause::NotObject))
        }
    }
}

// Deletes a name of an object.
fn delete_at<L: Ledger>(
    alloc: Global,
    machine: &mut Machine<'_>,
    object: ObjId,
    name: TextId,
    steps: &mut Steps<L>,
) -> Result<(), HeapStop>
    requires object { object.0 < length machine.old.objects }
    requires name { name.0 < length machine.old.texts }
    ensures told { Tells (Simple (Truth true)) (delete_member (text_at machine.old.texts name) (content machine.old.texts (Value.Obj object))) machine.old machine.new result }
    ensures kept { KeepsRest machine.old machine.new }
    ensures cells { (steps.old ≤ steps.new) × (steps.new ≤ steps.old + 1) }
{
    operations_go_by_content();
    let Ok(name) = machine.text(name).copy(alloc) else {
        return Err(HeapStop::NoMemory);
    };
    machine.delete(alloc, object, &name, steps)
}

/// Deletes a member (ECMA-262 5.1 §11.4.1). What a text has itself can't be deleted, and what isn't there needn't be. What is
/// left after a throw or want of memory is as for `Machine::delete`.
pub fn delete_member<L: Ledger>(
    alloc: Global,
    machine: &mut Machine<'_>,
    base: Value,
    name: TextId,
    steps: &mut Steps<L>,
) -> Result<(), HeapStop>
    requires base { FitsValue (sizes machine.old) base }
    requires name { name.0 < length machine.old.texts }
    ensures told { Tells (Simple (Truth true)) (delete_member (text_at machine.old.texts name) (content machine.old.texts base)) machine.old machine.new result }
    ensures kept { KeepsRest machine.old machine.new }
    ensures cells { (steps.old ≤ steps.new) × (steps.new ≤ steps.old + 1) }
{
    match base {
        Value::Obj(object) => delete_at(alloc, machine, object, name, steps),
        _ if has_own(machine, base, machine.text(name)) => {
            Err(HeapStop::Throw(Cause::NotConfigurable))
        }
        _ => Ok(()),
    }
}
