// Operations that go on elsewhere.
ghost use Rattle.std.specs.Prelude.{◌≡◌};
ghost use Rattle.njs_shared.specs.Heap.{sizes};
ghost use Rattle.njs_shared.specs.Fits.{FitsValue};
ghost use Rattle.njs_clone.specs.Content.{content};
ghost use Rattle.njs_code.specs.declared.op.Kind.TheVariants as Kind;
ghost use Rattle.njs_meaning.specs.Operations.{leaves_out};
ghost use Rattle.njs_meaning.specs.Values.{is_same};
ghost use Rattle.njs_interp.specs.Sits.{Ready};
ghost use Rattle.njs_interp.specs.Jumps.{JumpsOnHeap, LeavesNext};
ghost use Rattle.njs_interp.specs.Stepping.{GoesTo};

use crate::operands::{push, take, take_two};
use crate::{At, Next, Stacks};
use njs_clone::Machine;
use njs_code::Address;
use njs_convert::{Stop, to_boolean};
use njs_tree::LogicalOp;
use njs_value::Value;

/// On at another operation.
#[tactic(auto, using(crate::proofs::Onward::jump_goes))]
pub(crate) fn jump<'a>(
    at: &At<'_>,
    machine: &Machine<'_>,
    stacks: &Stacks<'a>,
    to: Address,
) -> Result<Next<'a>, Stop>
    requires kind { at.now.op.now.kind ≡ Kind.Jump to }
    requires ready { Ready at.now.functions.now at.now.function.now at.now.op.now machine.now stacks.now }
    ensures told { JumpsOnHeap (Kind.Jump to) machine.now machine.now stacks.now stacks.now result }
    ensures goes { GoesTo at.now.op.now.kind result }
    ensures leaves { LeavesNext at.now.function.now at.now.op.now machine.now stacks.now result }
{
    let _op = at.op;
    let _sizes = machine.sizes();
    let _operands = stacks.operands.len();
    Ok(Next::To(to))
}

/// On there where the value is false (ECMA-262 5.1 §9.2): `[value] → []`
#[tactic(auto, using(crate::proofs::Moves::jump_false_takes, crate::proofs::Onward::jump_false_goes, crate::proofs::Onward::jump_false_on))]
pub(crate) fn jump_false<'a>(
    at: &At<'_>,
    machine: &Machine<'_>,
    stacks: &mut Stacks<'a>,
    to: Address,
) -> Result<Next<'a>, Stop>
    requires kind { at.now.op.now.kind ≡ Kind.JumpFalse to }
    requires ready { Ready at.now.functions.now at.now.function.now at.now.op.now machine.now stacks.old }
    ensures told { JumpsOnHeap (Kind.JumpFalse to) machine.now machine.now stacks.old stacks.new result }
    ensures goes { GoesTo at.now.op.now.kind result }
    ensures leaves { LeavesNext at.now.function.now at.now.op.now machine.now stacks.new result }
{
    let value = take(at, machine, stacks);
    if to_boolean(machine, value) {
        Ok(Next::On)
    } else {
        Ok(Next::To(to))
    }
}

// Whether an operator leaves out its second value (ECMA-262 5.1 §11.11).
fn leaves_out(machine: &Machine<'_>, op: LogicalOp, value: Value) -> bool
    requires { FitsValue (sizes machine.now) value }
    ensures { result ≡ leaves_out op (content machine.now.texts value) }
{
    match op {
        LogicalOp::Or => to_boolean(machine, value),
        LogicalOp::And => !to_boolean(machine, value),
    }
}

/// On there with the value, where the operator leaves out its second: `[value] → []`, there `[value]`
#[tactic(auto, using(crate::proofs::Moves::jump_logical_takes, crate::proofs::Onward::jump_logical_goes, crate::proofs::Onward::jump_logical_on))]
pub(crate) fn jump_logical<'a>(
    at: &At<'_>,
    machine: &Machine<'_>,
    stacks: &mut Stacks<'a>,
    op: LogicalOp,
    to: Address,
) -> Result<Next<'a>, Stop>
    requires kind { at.now.op.now.kind ≡ Kind.JumpLogical op to }
    requires ready { Ready at.now.functions.now at.now.function.now at.now.op.now machine.now stacks.old }
    ensures told { JumpsOnHeap (Kind.JumpLogical op to) machine.now machine.now stacks.old stacks.new result }
    ensures goes { GoesTo at.now.op.now.kind result }
    ensures leaves { LeavesNext at.now.function.now at.now.op.now machine.now stacks.new result }
{
    let _op = at.op;
    let _sizes = machine.sizes();
    let value = stacks.operands.top();
    if leaves_out(machine, op, value) {
        return Ok(Next::To(to));
    }
    take(at, machine, stacks);
    Ok(Next::On)
}

// Whether two values are the same (ECMA-262 5.1 §9.12), texts by content.
fn is_same(machine: &Machine<'_>, left: Value, right: Value) -> bool
    requires left { FitsValue (sizes machine.now) left }
    requires right { FitsValue (sizes machine.now) right }
    ensures { result ≡ is_same (content machine.now.texts left) (content machine.now.texts right) }
{
    match (left, right) {
        (Value::Undefined, Value::Undefined) | (Value::Null, Value::Null) => true,
        (Value::Bool(left), Value::Bool(right)) => left == right,
        (Value::Num(left), Value::Num(right)) => left == right,
        (Value::Str(left), Value::Str(right)) => *machine.text(left) == *machine.text(right),
        (Value::Obj(left), Value::Obj(right)) => left.0 == right.0,
        _ => false,
    }
}

/// On there where both are the same (ECMA-262 5.1 §9.12): `[value, other] → [value]`, there `[]`
#[tactic(auto, using(crate::proofs::Moves::jump_same_takes, crate::proofs::Onward::jump_same_goes, crate::proofs::Onward::jump_same_on))]
pub(crate) fn jump_same<'a>(
    at: &At<'_>,
    machine: &Machine<'_>,
    stacks: &mut Stacks<'a>,
    to: Address,
) -> Result<Next<'a>, Stop>
    requires kind { at.now.op.now.kind ≡ Kind.JumpSame to }
    requires ready { Ready at.now.functions.now at.now.function.now at.now.op.now machine.now stacks.old }
    ensures told { JumpsOnHeap (Kind.JumpSame to) machine.now machine.now stacks.old stacks.new result }
    ensures goes { GoesTo at.now.op.now.kind result }
    ensures leaves { LeavesNext at.now.function.now at.now.op.now machine.now stacks.new result }
{
    let (value, other) = take_two(at, machine, stacks);
    if is_same(machine, value, other) {
        return Ok(Next::To(to));
    }
    match push(at, machine, stacks, value) {
        Ok(()) => Ok(Next::On),
        Err(stop) => Err(stop),
    }
}
