// Operators of values that are no objects, and what they give as values of a machine.
ghost use Rattle.std.specs.Prelude.{◌≡◌, ◌≤◌, length, IfOk, OnErr};
ghost use Rattle.njs_shared.specs.Heap.{sizes};
ghost use Rattle.njs_shared.specs.Fits.{FitsValue};
ghost use Rattle.njs_clone.specs.Content.{content};
ghost use Rattle.njs_meaning.specs.Primitives.{Primitive, IsSafeValue};
ghost use Rattle.njs_meaning.specs.Values.{Simple};
ghost use Rattle.njs_meaning.specs.Operators.{Answer, binary_of, unary_of, is_equal};
ghost use Rattle.njs_meaning.specs.Errors.{first_count};
ghost use Rattle.njs_meaning.specs.Operations.{answered};
ghost use Rattle.njs_members.specs.Gains.{GainsTexts};
ghost use Rattle.njs_ops.specs.Values.{operand, given, AnswersIfRoom, IsSafeResult};
ghost use Rattle.njs_convert.specs.Tells.{Counts, Extends, FitsAnswer, FitsSimple};
ghost use Rattle.njs_interp.specs.Alone.{TellsAlone, IsOperand, NamesNothing, object_in};

use njs_clone::Machine;
use njs_convert::{Stop, throw};
use njs_ops::{OpStop, OpValue, Prim};
use njs_text::{NoMemory, Steps, Text};
use njs_tree::{BinaryOp, UnaryOp};
use njs_value::{ObjId, Value};
use std::alloc::Global;
use std::sync::ledger::Ledger;

pub fn object_in(value: Value) -> Option<ObjId>
    ensures { result ≡ object_in value }
{
    match value {
        Value::Obj(object) => Some(object),
        Value::Undefined | Value::Null | Value::Bool(_) | Value::Num(_) | Value::Str(_) => None,
    }
}

pub fn operand<'m>(machine: &'m Machine<'_>, value: Value) -> Prim<'m>
    requires { FitsSimple (sizes machine.now) value }
    ensures { IsOperand machine.now.texts value (operand result) }
{
    match value {
        Value::Undefined => Prim::Undefined,
        Value::Null => Prim::Null,
        Value::Bool(truth) => Prim::Bool(truth),
        Value::Num(number) => Prim::Num(number),
        Value::Str(text) => Prim::Str(machine.text(text)),
        Value::Obj(_) => unreachable!(),
    }
}

// A text as a value of a machine.
pub fn text_value(machine: &mut Machine<'_>, text: Text) -> Result<Value, NoMemory>
    ensures shows { IfOk result (λ v. content machine.new.texts v ≡ Simple (Primitive.Characters text)) }
    ensures fits { IfOk result (FitsValue (sizes machine.new)) }
    ensures texts { GainsTexts machine.old machine.new }
    ensures err { OnErr result (machine.new ≡ machine.old) }
{
    let _sizes = machine.sizes();
    match machine.add_text(text) {
        Ok(number) => Ok(Value::Str(number)),
        Err(_) => Err(NoMemory),
    }
}

// What an operator gives, as a value of a machine.
fn value_of(machine: &mut Machine<'_>, value: OpValue) -> Result<Value, NoMemory>
    requires { IsSafeValue (given value) }
    ensures shows { IfOk result (λ v. content machine.new.texts v ≡ Simple (given value)) }
    ensures fits { IfOk result (FitsValue (sizes machine.new)) }
    ensures texts { GainsTexts machine.old machine.new }
    ensures err { OnErr result (machine.new ≡ machine.old) }
{
    match value {
        OpValue::Undefined => Ok(Value::Undefined),
        OpValue::Null => Ok(Value::Null),
        OpValue::Bool(truth) => Ok(Value::Bool(truth)),
        OpValue::Num(number) => Ok(Value::Num(number)),
        OpValue::Str(text) => text_value(machine, text),
    }
}

// What an operator gives or throws.
fn answered<L: Ledger>(
    alloc: Global,
    machine: &mut Machine<'_>,
    answer: Result<OpValue, OpStop>,
    steps: &mut Steps<L>,
) -> Result<Value, Stop>
    requires first { first_count ≤ length machine.old.objects }
    requires safe { IsSafeResult answer }
    requires names { NamesNothing answer }
    ensures told { (a : Answer) → AnswersIfRoom a answer → TellsAlone machine.old machine.new result (answered a) }
    ensures extends { Extends machine.old machine.new }
    ensures value { FitsAnswer (FitsValue (sizes machine.new)) (sizes machine.new) result }
    ensures steps { Counts (λ n. n ≡ steps.old) steps.new result }
{
    match answer {
        Ok(value) => match value_of(machine, value) {
            Ok(value) => Ok(value),
            Err(_) => Err(Stop::NoMemory),
        },
        Err(OpStop::Throw(cause)) => Err(throw(alloc, machine, cause, steps)),
        Err(OpStop::NoMemory) => Err(Stop::NoMemory),
    }
}

/// An operator of two values that are no objects.
pub fn of_two<L: Ledger>(
    alloc: Global,
    machine: &mut Machine<'_>,
    op: BinaryOp,
    left: Value,
    right: Value,
    steps: &mut Steps<L>,
) -> Result<Value, Stop>
    requires first { first_count ≤ length machine.old.objects }
    requires left { FitsSimple (sizes machine.old) left }
    requires right { FitsSimple (sizes machine.old) right }
    ensures told { (p q : Primitive) → content machine.old.texts left ≡ Simple p → content machine.old.texts right ≡ Simple q → TellsAlone machine.old machine.new result (answered (binary_of op p q)) }
    ensures extends { Extends machine.old machine.new }
    ensures value { FitsAnswer (FitsValue (sizes machine.new)) (sizes machine.new) result }
    ensures steps { Counts (λ n. n ≡ steps.old) steps.new result }
{
    let answer = njs_ops::binary(alloc, op, operand(machine, left), operand(machine, right));
    answered(alloc, machine, answer, steps)
}

/// An operator of one value that is no object.
pub fn of_one<L: Ledger>(
    alloc: Global,
    machine: &mut Machine<'_>,
    op: UnaryOp,
    value: Value,
    steps: &mut Steps<L>,
) -> Result<Value, Stop>
    requires first { first_count ≤ length machine.old.objects }
    requires value { FitsSimple (sizes machine.old) value }
    ensures told { (p : Primitive) → content machine.old.texts value ≡ Simple p → TellsAlone machine.old machine.new result (answered (unary_of op p)) }
    ensures extends { Extends machine.old machine.new }
    ensures value { FitsAnswer (FitsValue (sizes machine.new)) (sizes machine.new) result }
    ensures steps { Counts (λ n. n ≡ steps.old) steps.new result }
{
    let answer = njs_ops::unary(alloc, op, operand(machine, value));
    answered(alloc, machine, answer, steps)
}

/// `==` of two values that are no objects (ECMA-262 5.1 §11.9.3). It takes no memory.
pub fn is_equal(alloc: Global, machine: &Machine<'_>, left: Value, right: Value) -> bool
    requires left { FitsSimple (sizes machine.now) left }
    requires right { FitsSimple (sizes machine.now) right }
    ensures { (p q : Primitive) → content machine.now.texts left ≡ Simple p → content machine.now.texts right ≡ Simple q → result ≡ is_equal p q }
{
    match njs_ops::binary(
        alloc,
        BinaryOp::Eq,
        operand(machine, left),
        operand(machine, right),
    ) {
        Ok(OpValue::Bool(truth)) => truth,
        _ => unreachable!(),
    }
}
