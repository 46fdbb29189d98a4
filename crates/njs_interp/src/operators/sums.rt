// `+` (ECMA-262 5.1 §11.6.1).
ghost use Rattle.std.specs.Prelude.{◌≡◌, ◌≤◌, ◌++◌, List, ℕ, length, IfOk};
ghost use Rattle.njs_shared.specs.Heap.{Heap, sizes};
ghost use Rattle.njs_shared.specs.Fits.{FitsValue};
ghost use Rattle.njs_clone.specs.Content.{content};
ghost use Rattle.njs_meaning.specs.Errors.{first_count};
ghost use Rattle.njs_meaning.specs.Running.{Calls};
ghost use Rattle.njs_meaning.specs.Replies.{Known};
ghost use Rattle.njs_meaning.specs.State.{State};
ghost use Rattle.njs_meaning.specs.Primitives.{Primitive};
ghost use Rattle.njs_meaning.specs.Values.{Simple};
ghost use Rattle.njs_meaning.specs.Numbers.{text_of};
ghost use Rattle.njs_meaning.specs.Operators.{binary_of, is_text};
ghost use Rattle.njs_meaning.specs.Operations.{binary, paid};
ghost use Rattle.njs_tree.specs.declared.tree.BinaryOp.TheVariants as op_of;
ghost use Rattle.njs_convert.specs.Tells.{Means, Counts, ShowsValue, Grows, FitsAnswer, FitsSimple};
ghost use Rattle.njs_interp.specs.Alone.{group_of, Pays, ThrowsNothing};
ghost use Rattle.njs_interp.specs.declared.operators.groups.Group.TheVariants as group;

use crate::operators::plain::{of_two, operand};
use njs_clone::Machine;
use njs_convert::{Caller, Hint, Stop, to_primitive};
use njs_ops::text_of;
use njs_text::{NoMemory, Steps};
use njs_tree::BinaryOp;
use njs_value::Value;
use std::alloc::Global;
use std::sync::ledger::Ledger;

// How long a text may be.
const MAX_LENGTH: usize = 1_048_576;

fn is_text(value: Value) -> bool
    ensures { (texts : List (List ℕ)) (p : Primitive) → content texts value ≡ Simple p → result ≡ is_text p }
{
    match value {
        Value::Str(_) => true,
        Value::Undefined | Value::Null | Value::Bool(_) | Value::Num(_) | Value::Obj(_) => false,
    }
}

// How long the text of a value that is no object is. That of a text takes no memory.
fn text_length(alloc: Global, machine: &Machine<'_>, value: Value) -> Result<usize, NoMemory>
    requires { FitsSimple (sizes machine.now) value }
    ensures length { IfOk result (λ n. (p : Primitive) → content machine.now.texts value ≡ Simple p → n ≡ length (text_of p)) }
    ensures few { IfOk result (λ n. n ≤ 1048576) }
{
    if let Value::Str(number) = value {
        let text = machine.text(number);
        let _bytes = text.as_bytes();
        return Ok(text.len());
    }
    let text = text_of(alloc, operand(machine, value))?;
    let _bytes = text.as_bytes();
    Ok(text.len())
}

// How long the text of two values that are no objects is.
fn joined_length(
    alloc: Global,
    machine: &Machine<'_>,
    left: Value,
    right: Value,
) -> Result<usize, NoMemory>
    requires left { FitsSimple (sizes machine.now) left }
    requires right { FitsSimple (sizes machine.now) right }
    ensures length { IfOk result (λ n. (p q : Primitive) → content machine.now.texts left ≡ Simple p → content machine.now.texts right ≡ Simple q → n ≡ length (text_of p ++ text_of q)) }
    ensures few { IfOk result (λ n. n ≤ 2097152) }
{
    let first = text_length(alloc, machine, left)?;
    let second = text_length(alloc, machine, right)?;
    Ok(first + second)
}

// Takes the ticks for the text that two values are joined to, where one of them is a text and it is no longer than a text
// may be.
fn pay<C: Caller<L>, L: Ledger>(
    alloc: Global,
    caller: &mut C,
    machine: &Machine<'_>,
    left: Value,
    right: Value,
) -> Result<(), Stop>
    requires left { FitsSimple (sizes machine.now) left }
    requires right { FitsSimple (sizes machine.now) right }
    ensures told { (k : Known) (p q : Primitive) (s : State) → content machine.now.texts left ≡ Simple p → content machine.now.texts right ≡ Simple q → C.stands caller.old k machine.now s → Pays (C.stands caller.new k machine.now) (C.ticks_of caller.new) result (binary_of op_of.Add p q) s }
    ensures kept { (calls : Calls) (k : Known) → C.follows caller.old k calls → C.follows caller.new k calls }
    ensures agrees { (k : Known) → C.agrees caller.new k → C.agrees caller.old k }
    ensures may { C.may_call caller.old → C.may_call caller.new }
    ensures fits { (h : Heap) → C.fits caller.old h → C.fits caller.new h }
    ensures same { C.lent caller.new ≡ C.lent caller.old }
    ensures spent { C.ticks_of caller.new ≤ C.ticks_of caller.old }
    ensures steps { (n : ℕ) → C.adds caller.old n caller.new n }
    ensures nothing { ThrowsNothing result }
{
    if !is_text(left) && !is_text(right) {
        return Ok(());
    }
    let length = match joined_length(alloc, machine, left, right) {
        Ok(length) => length,
        Err(_) => return Err(Stop::NoMemory),
    };
    if length > MAX_LENGTH {
        return Ok(());
    }
    caller.charge(1 + length as u64 / 64)
}

// `+` of two values that are no objects.
fn sum<C: Caller<L>, L: Ledger>(
    alloc: Global,
    caller: &mut C,
    machine: &mut Machine<'_>,
    left: Value,
    right: Value,
    steps: &mut Steps<L>,
) -> Result<Value, Stop>
    requires may { C.may_call caller.old }
    requires fits { C.fits caller.old machine.old }
    requires first { first_count ≤ length machine.old.objects }
    requires left { FitsSimple (sizes machine.old) left }
    requires right { FitsSimple (sizes machine.old) right }
    ensures told { (calls : Calls) (k : Known) (p q : Primitive) → content machine.old.texts left ≡ Simple p → content machine.old.texts right ≡ Simple q → C.agrees caller.new k → Means (C.stands caller.old k machine.old) (C.stands caller.new k machine.new) (C.stopped caller.new k) machine.new.texts (ShowsValue machine.new.texts) result (paid (binary_of op_of.Add p q)) }
    ensures kept { (calls : Calls) (k : Known) → C.follows caller.old k calls → C.follows caller.new k calls }
    ensures agrees { (k : Known) → C.agrees caller.new k → C.agrees caller.old k }
    ensures may { C.may_call caller.new }
    ensures fits { C.fits caller.new machine.new }
    ensures same { C.lent caller.new ≡ C.lent caller.old }
    ensures grows { Grows machine.old machine.new }
    ensures value { FitsAnswer (FitsValue (sizes machine.new)) (sizes machine.new) result }
    ensures spent { C.ticks_of caller.new ≤ C.ticks_of caller.old }
    ensures steps { Counts (C.adds caller.old steps.old caller.new) steps.new result }
{
    match pay(alloc, caller, machine, left, right) {
        Ok(()) => {}
        Err(stop) => return Err(stop),
    }
    of_two(alloc, machine, BinaryOp::Add, left, right, steps)
}

/// `+`: both values are made values that are no objects, the left before the right. Where one of them is a text, their texts
/// are joined, which costs a tick for each 64 scalar values and one.
pub fn added<C: Caller<L>, L: Ledger>(
    alloc: Global,
    caller: &mut C,
    machine: &mut Machine<'_>,
    op: BinaryOp,
    left: Value,
    right: Value,
    steps: &mut Steps<L>,
) -> Result<Value, Stop>
    requires may { C.may_call caller.old }
    requires fits { C.fits caller.old machine.old }
    requires first { first_count ≤ length machine.old.objects }
    requires left { FitsValue (sizes machine.old) left }
    requires right { FitsValue (sizes machine.old) right }
    requires op { group_of op ≡ group.Sum }
    ensures told { (calls : Calls) (k : Known) → C.follows caller.old k calls → C.agrees caller.new k → Means (C.stands caller.old k machine.old) (C.stands caller.new k machine.new) (C.stopped caller.new k) machine.new.texts (ShowsValue machine.new.texts) result (binary calls.call op (content machine.old.texts left) (content machine.old.texts right)) }
    ensures kept { (calls : Calls) (k : Known) → C.follows caller.old k calls → C.follows caller.new k calls }
    ensures agrees { (k : Known) → C.agrees caller.new k → C.agrees caller.old k }
    ensures may { C.may_call caller.new }
    ensures fits { C.fits caller.new machine.new }
    ensures same { C.lent caller.new ≡ C.lent caller.old }
    ensures grows { Grows machine.old machine.new }
    ensures value { FitsAnswer (FitsValue (sizes machine.new)) (sizes machine.new) result }
    ensures spent { C.ticks_of caller.new ≤ C.ticks_of caller.old }
    ensures steps { Counts (C.adds caller.old steps.old caller.new) steps.new result }
{
    let first = match to_primitive(alloc, caller, machine, left, Hint::Any, steps) {
        Ok(first) => first,
        Err(stop) => return Err(stop),
    };
    let second = match to_primitive(alloc, caller, machine, right, Hint::Any, steps) {
        Ok(second) => second,
        Err(stop) => return Err(stop),
    };
    sum(alloc, caller, machine, first, second, steps)
}
