// Operands that operations take.
ghost use Rattle.std.specs.Prelude.{◌≡◌, [], ◌∷◌};
ghost use Rattle.njs_code.specs.Effects.{operands_taken};
ghost use Rattle.njs_interp.specs.Sits.{Ready};
ghost use Rattle.njs_interp.specs.Outcomes.{Moves, Took, Shows};

use crate::{At, Stacks};
use njs_clone::Machine;
use njs_value::Value;

// Takes one operand.
pub(crate) fn take_one(at: &At<'_>, machine: &Machine<'_>, stacks: &mut Stacks<'_>) -> Value
    requires moves { Moves at.now.op.now.kind 1 1 }
    requires ready { Ready at.now.functions.now at.now.function.now at.now.op.now machine.now stacks.old }
    ensures { Took at.now.function.now at.now.op.now machine.now stacks.old stacks.new (result ∷ []) }
{
    let _at = at.op;
    let _sizes = machine.sizes();
    stacks.operands.pop()
}

// Takes two operands, the lower one first.
pub(crate) fn take_two(
    at: &At<'_>,
    machine: &Machine<'_>,
    stacks: &mut Stacks<'_>,
) -> (Value, Value)
    requires moves { Moves at.now.op.now.kind 2 1 }
    requires ready { Ready at.now.functions.now at.now.function.now at.now.op.now machine.now stacks.old }
    ensures { Took at.now.function.now at.now.op.now machine.now stacks.old stacks.new (result.1 ∷ result.0 ∷ []) }
{
    let _at = at.op;
    let _sizes = machine.sizes();
    let upper = stacks.operands.pop();
    let lower = stacks.operands.pop();
    (lower, upper)
}

// Takes three operands, the lowest one first.
pub(crate) fn take_three(
    at: &At<'_>,
    machine: &Machine<'_>,
    stacks: &mut Stacks<'_>,
) -> (Value, Value, Value)
    requires moves { Moves at.now.op.now.kind 3 1 }
    requires ready { Ready at.now.functions.now at.now.function.now at.now.op.now machine.now stacks.old }
    ensures { Took at.now.function.now at.now.op.now machine.now stacks.old stacks.new (result.2 ∷ result.1 ∷ result.0 ∷ []) }
{
    let _at = at.op;
    let _sizes = machine.sizes();
    let upper = stacks.operands.pop();
    let middle = stacks.operands.pop();
    let lower = stacks.operands.pop();
    (lower, middle, upper)
}

// The two operands on top, the lower one first, which stay.
pub(crate) fn show_two(at: &At<'_>, machine: &Machine<'_>, stacks: &Stacks<'_>) -> (Value, Value)
    requires takes { operands_taken at.now.op.now.kind ≡ 2 }
    requires ready { Ready at.now.functions.now at.now.function.now at.now.op.now machine.now stacks.now }
    ensures { Shows at.now.function.now at.now.op.now machine.now stacks.now (result.1 ∷ result.0 ∷ []) }
{
    let _at = at.op;
    let _sizes = machine.sizes();
    (stacks.operands.second(), stacks.operands.top())
}
