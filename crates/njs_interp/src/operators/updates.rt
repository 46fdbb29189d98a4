// The number after `++` and `--` (ECMA-262 5.1 §11.3, §11.4.4, §11.4.5).
ghost use Rattle.std.specs.Prelude.{◌≡◌, ◌≤◌, ℤ, length};
ghost use Rattle.njs_shared.specs.Heap.{sizes};
ghost use Rattle.njs_shared.specs.Fits.{FitsValue};
ghost use Rattle.njs_clone.specs.Content.{content};
ghost use Rattle.njs_meaning.specs.Primitives.{Number};
ghost use Rattle.njs_meaning.specs.Values.{Simple};
ghost use Rattle.njs_meaning.specs.Errors.{first_count};
ghost use Rattle.njs_convert.specs.Tells.{Extends, FitsAnswer, FitsSimple};
ghost use Rattle.njs_simul.specs.Step.{stepped_from};
ghost use Rattle.njs_interp.specs.Outcomes.{MeansOnHeap};
ghost use Rattle.njs_interp.specs.Updates.{step_operator};

use crate::operators::plain::of_two;
use njs_clone::Machine;
use njs_convert::Stop;
use njs_text::Steps;
use njs_tree::{BinaryOp, UpdateOp};
use njs_value::Value;
use std::alloc::Global;
use std::sync::ledger::Ledger;

// The operator by which a number is stepped.
fn operator_of(op: UpdateOp) -> BinaryOp
    ensures { result ≡ step_operator op }
{
    match op {
        UpdateOp::Add => BinaryOp::Add,
        UpdateOp::Sub => BinaryOp::Sub,
    }
}

// The number after a number.
fn stepped<L: Ledger>(
    alloc: Global,
    machine: &mut Machine<'_>,
    op: UpdateOp,
    number: Value,
    steps: &mut Steps<L>,
) -> Result<Value, Stop>
    requires first { first_count ≤ length machine.old.objects }
    requires number { FitsSimple (sizes machine.old) number }
    ensures told { (n : ℤ) → content machine.old.texts number ≡ Simple (Number n) → MeansOnHeap machine.old machine.new result (stepped_from op (Simple (Number n))) }
    ensures extends { Extends machine.old machine.new }
    ensures value { FitsAnswer (FitsValue (sizes machine.new)) (sizes machine.new) result }
    ensures steps { steps.old ≤ steps.new }
{
    let _sizes = machine.sizes();
    let operator = operator_of(op);
    of_two(alloc, machine, operator, number, Value::Num(1), steps)
}

/// The number after a number; any other value stays.
pub fn stepped_from<L: Ledger>(
    alloc: Global,
    machine: &mut Machine<'_>,
    op: UpdateOp,
    value: Value,
    steps: &mut Steps<L>,
) -> Result<Value, Stop>
    requires first { first_count ≤ length machine.old.objects }
    requires value { FitsValue (sizes machine.old) value }
    ensures told { MeansOnHeap machine.old machine.new result (stepped_from op (content machine.old.texts value)) }
    ensures extends { Extends machine.old machine.new }
    ensures value { FitsAnswer (FitsValue (sizes machine.new)) (sizes machine.new) result }
    ensures steps { steps.old ≤ steps.new }
{
    match value {
        Value::Num(_) => stepped(alloc, machine, op, value, steps),
        _ => Ok(value),
    }
}
