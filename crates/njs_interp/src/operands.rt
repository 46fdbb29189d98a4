// Operations on operands.
ghost use Rattle.std.specs.Prelude.{◌≡◌, ◌≤◌, ◌<◌, ◌+◌, [], ◌∷◌, length};
ghost use Rattle.njs_value.specs.Number.{IsSafe};
ghost use Rattle.njs_shared.specs.Heap.{sizes};
ghost use Rattle.njs_shared.specs.Fits.{FitsValue};
ghost use Rattle.njs_code.specs.declared.op.Kind.TheVariants as Kind;
ghost use Rattle.njs_code.specs.Effects.{depth_left};
ghost use Rattle.njs_meaning.specs.Errors.{first_count};
ghost use Rattle.njs_interp.specs.Sits.{Sits, Ready};
ghost use Rattle.njs_interp.specs.Tells.{ActsOnHeap, ActsInCall, Leaves};
ghost use Rattle.njs_interp.specs.Grown.{Grown};
ghost use Rattle.njs_interp.specs.Operands.{Takes, Gives, HasTaken, Pushed, PushedTwo, Added};

use crate::{At, Stacks};
use njs_clone::Machine;
use njs_convert::Stop;
use njs_text::Text;
use njs_value::Value;
use std::alloc::Global;

// Puts the value on top that an operation gives.
pub(crate) fn push(
    at: &At<'_>,
    machine: &Machine<'_>,
    stacks: &mut Stacks<'_>,
    value: Value,
) -> Result<(), Stop>
    requires gives { Gives at.now.op.now.kind 1 }
    requires sits { Sits machine.now at.now.function.now.slots (depth_left at.now.op.now.kind at.now.op.now.depth) stacks.old }
    requires fits { FitsValue (sizes machine.now) value }
    ensures pushed { Pushed value stacks.old stacks.new result }
    ensures leaves { Leaves at.now.function.now at.now.op.now machine.now stacks.new result }
{
    match stacks.operands.push(value) {
        Ok(()) => Ok(()),
        Err(_) => Err(Stop::NoMemory),
    }
}

// Takes the operand of an operation.
pub(crate) fn take(at: &At<'_>, machine: &Machine<'_>, stacks: &mut Stacks<'_>) -> Value
    requires takes { Takes at.now.op.now.kind 1 }
    requires ready { Ready at.now.functions.now at.now.function.now at.now.op.now machine.now stacks.old }
    ensures { HasTaken at.now.function.now at.now.op.now machine.now stacks.old stacks.new (result ∷ []) }
{
    let _op = at.op;
    let _sizes = machine.sizes();
    stacks.operands.pop()
}

// Takes the two operands of an operation: the lower one and the top.
pub(crate) fn take_two(
    at: &At<'_>,
    machine: &Machine<'_>,
    stacks: &mut Stacks<'_>,
) -> (Value, Value)
    requires takes { Takes at.now.op.now.kind 2 }
    requires ready { Ready at.now.functions.now at.now.function.now at.now.op.now machine.now stacks.old }
    ensures { HasTaken at.now.function.now at.now.op.now machine.now stacks.old stacks.new (result.1 ∷ result.0 ∷ []) }
{
    let _op = at.op;
    let _sizes = machine.sizes();
    let top = stacks.operands.pop();
    let below = stacks.operands.pop();
    (below, top)
}

// Puts the value of an operation that takes nothing on top.
pub(crate) fn give(
    at: &At<'_>,
    machine: &Machine<'_>,
    stacks: &mut Stacks<'_>,
    value: Value,
) -> Result<(), Stop>
    requires takes { Takes at.now.op.now.kind 0 }
    requires gives { Gives at.now.op.now.kind 1 }
    requires ready { Ready at.now.functions.now at.now.function.now at.now.op.now machine.now stacks.old }
    requires fits { FitsValue (sizes machine.now) value }
    ensures pushed { Pushed value stacks.old stacks.new result }
    ensures leaves { Leaves at.now.function.now at.now.op.now machine.now stacks.new result }
{
    push(at, machine, stacks, value)
}

/// `undefined` (ECMA-262 5.1 §8.1): `[] → [undefined]`
#[tactic(auto, using(crate::proofs::Moves::undefined_takes))]
pub(crate) fn undefined(
    at: &At<'_>,
    machine: &Machine<'_>,
    stacks: &mut Stacks<'_>,
) -> Result<(), Stop>
    requires kind { at.now.op.now.kind ≡ Kind.Undefined }
    requires ready { Ready at.now.functions.now at.now.function.now at.now.op.now machine.now stacks.old }
    ensures told { ActsOnHeap Kind.Undefined machine.now machine.now stacks.old stacks.new result }
    ensures leaves { Leaves at.now.function.now at.now.op.now machine.now stacks.new result }
{
    give(at, machine, stacks, Value::Undefined)
}

/// `null` (ECMA-262 5.1 §8.2): `[] → [null]`
#[tactic(auto, using(crate::proofs::Moves::null_takes))]
pub(crate) fn null(at: &At<'_>, machine: &Machine<'_>, stacks: &mut Stacks<'_>) -> Result<(), Stop>
    requires kind { at.now.op.now.kind ≡ Kind.Null }
    requires ready { Ready at.now.functions.now at.now.function.now at.now.op.now machine.now stacks.old }
    ensures told { ActsOnHeap Kind.Null machine.now machine.now stacks.old stacks.new result }
    ensures leaves { Leaves at.now.function.now at.now.op.now machine.now stacks.new result }
{
    give(at, machine, stacks, Value::Null)
}

/// A truth value (ECMA-262 5.1 §8.3): `[] → [truth value]`
#[tactic(auto, using(crate::proofs::Moves::truth_takes))]
pub(crate) fn truth(
    at: &At<'_>,
    machine: &Machine<'_>,
    stacks: &mut Stacks<'_>,
    truth: bool,
) -> Result<(), Stop>
    requires kind { at.now.op.now.kind ≡ Kind.Bool truth }
    requires ready { Ready at.now.functions.now at.now.function.now at.now.op.now machine.now stacks.old }
    ensures told { ActsOnHeap (Kind.Bool truth) machine.now machine.now stacks.old stacks.new result }
    ensures leaves { Leaves at.now.function.now at.now.op.now machine.now stacks.new result }
{
    give(at, machine, stacks, Value::Bool(truth))
}

/// A number (ECMA-262 5.1 §8.5): `[] → [number]`
#[tactic(auto, using(crate::proofs::Moves::number_takes))]
pub(crate) fn number(
    at: &At<'_>,
    machine: &Machine<'_>,
    stacks: &mut Stacks<'_>,
    number: i64,
) -> Result<(), Stop>
    requires kind { at.now.op.now.kind ≡ Kind.Num number }
    requires ready { Ready at.now.functions.now at.now.function.now at.now.op.now machine.now stacks.old }
    ensures told { ActsOnHeap (Kind.Num number) machine.now machine.now stacks.old stacks.new result }
    ensures leaves { Leaves at.now.function.now at.now.op.now machine.now stacks.new result }
{
    give(at, machine, stacks, Value::Num(number))
}

/// `this` (ECMA-262 5.1 §11.1.1): `[] → [this]`
#[tactic(auto, using(crate::proofs::Moves::this_takes))]
pub(crate) fn this(
    at: &At<'_>,
    machine: &Machine<'_>,
    stacks: &mut Stacks<'_>,
    unit: u32,
    this: Value,
    args: &[Value],
) -> Result<(), Stop>
    requires kind { at.now.op.now.kind ≡ Kind.This }
    requires ready { Ready at.now.functions.now at.now.function.now at.now.op.now machine.now stacks.old }
    requires this { FitsValue (sizes machine.now) this }
    ensures told { ActsInCall unit this args.now Kind.This machine.now machine.now stacks.old stacks.new result }
    ensures leaves { Leaves at.now.function.now at.now.op.now machine.now stacks.new result }
{
    give(at, machine, stacks, this)
}

// A text of the machine, with this content.
fn add_copy(alloc: Global, machine: &mut Machine<'_>, text: &Text) -> Result<Value, Stop>
    ensures added { Added text.now machine.old machine.new result }
{
    let copy = match text.copy(alloc) {
        Ok(copy) => copy,
        Err(_) => return Err(Stop::NoMemory),
    };
    match machine.add_text(copy) {
        Ok(id) => Ok(Value::Str(id)),
        Err(_) => Err(Stop::NoMemory),
    }
}

/// A text (ECMA-262 5.1 §8.4), which is a new one of the machine: `[] → [text]`
#[tactic(auto, using(crate::proofs::Moves::text_takes))]
pub(crate) fn text(
    alloc: Global,
    at: &At<'_>,
    machine: &mut Machine<'_>,
    stacks: &mut Stacks<'_>,
    text: &Text,
) -> Result<(), Stop>
    requires kind { at.now.op.now.kind ≡ Kind.Str text.now }
    requires ready { Ready at.now.functions.now at.now.function.now at.now.op.now machine.old stacks.old }
    ensures told { ActsOnHeap (Kind.Str text.now) machine.old machine.new stacks.old stacks.new result }
    ensures leaves { Leaves at.now.function.now at.now.op.now machine.new stacks.new result }
    ensures grown { Grown machine.old machine.new }
{
    let _sizes = machine.sizes();
    match add_copy(alloc, machine, text) {
        Ok(value) => give(at, machine, stacks, value),
        Err(stop) => Err(stop),
    }
}

/// Drops the top: `[value] → []`
#[tactic(auto, using(crate::proofs::Moves::drop_top_takes))]
pub(crate) fn drop_top(
    at: &At<'_>,
    machine: &Machine<'_>,
    stacks: &mut Stacks<'_>,
) -> Result<(), Stop>
    requires kind { at.now.op.now.kind ≡ Kind.Drop }
    requires ready { Ready at.now.functions.now at.now.function.now at.now.op.now machine.now stacks.old }
    ensures told { ActsOnHeap Kind.Drop machine.now machine.now stacks.old stacks.new result }
    ensures leaves { Leaves at.now.function.now at.now.op.now machine.now stacks.new result }
{
    take(at, machine, stacks);
    Ok(())
}

/// Drops the one below the top: `[below, value] → [value]`
#[tactic(auto, using(crate::proofs::Moves::nip_takes))]
pub(crate) fn nip(at: &At<'_>, machine: &Machine<'_>, stacks: &mut Stacks<'_>) -> Result<(), Stop>
    requires kind { at.now.op.now.kind ≡ Kind.Nip }
    requires ready { Ready at.now.functions.now at.now.function.now at.now.op.now machine.now stacks.old }
    ensures told { ActsOnHeap Kind.Nip machine.now machine.now stacks.old stacks.new result }
    ensures leaves { Leaves at.now.function.now at.now.op.now machine.now stacks.new result }
{
    let (_, top) = take_two(at, machine, stacks);
    push(at, machine, stacks, top)
}

/// `undefined` under the top, as the receiver of a call: `[value] → [undefined, value]`
#[tactic(auto, using(crate::proofs::Moves::receiver_takes))]
pub(crate) fn receiver(
    at: &At<'_>,
    machine: &Machine<'_>,
    stacks: &mut Stacks<'_>,
) -> Result<(), Stop>
    requires kind { at.now.op.now.kind ≡ Kind.Receiver }
    requires ready { Ready at.now.functions.now at.now.function.now at.now.op.now machine.now stacks.old }
    ensures told { ActsOnHeap Kind.Receiver machine.now machine.now stacks.old stacks.new result }
    ensures leaves { Leaves at.now.function.now at.now.op.now machine.now stacks.new result }
{
    let value = take(at, machine, stacks);
    push_two(at, machine, stacks, Value::Undefined, value)
}

// Puts the two values on top that an operation gives.
fn push_two(
    at: &At<'_>,
    machine: &Machine<'_>,
    stacks: &mut Stacks<'_>,
    below: Value,
    top: Value,
) -> Result<(), Stop>
    requires gives { Gives at.now.op.now.kind 2 }
    requires sits { Sits machine.now at.now.function.now.slots (depth_left at.now.op.now.kind at.now.op.now.depth) stacks.old }
    requires below { FitsValue (sizes machine.now) below }
    requires top { FitsValue (sizes machine.now) top }
    ensures pushed { PushedTwo below top stacks.old stacks.new result }
    ensures leaves { Leaves at.now.function.now at.now.op.now machine.now stacks.new result }
{
    if stacks.operands.push(below).is_err() {
        return Err(Stop::NoMemory);
    }
    match stacks.operands.push(top) {
        Ok(()) => Ok(()),
        Err(_) => Err(Stop::NoMemory),
    }
}

/// Puts the top also under so many operands below it.
pub(crate) fn tuck(
    at: &At<'_>,
    machine: &Machine<'_>,
    stacks: &mut Stacks<'_>,
    under: u32,
) -> Result<(), Stop>
    requires kind { at.now.op.now.kind ≡ Kind.Tuck under }
    requires ready { Ready at.now.functions.now at.now.function.now at.now.op.now machine.now stacks.old }
    ensures told { ActsOnHeap (Kind.Tuck under) machine.now machine.now stacks.old stacks.new result }
    ensures leaves { Leaves at.now.function.now at.now.op.now machine.now stacks.new result }
{
    let _op = at.op;
    let _sizes = machine.sizes();
    match stacks.operands.tuck(under as usize) {
        Ok(()) => Ok(()),
        Err(_) => Err(Stop::NoMemory),
    }
}
