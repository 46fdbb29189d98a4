// Stepping numbers (ECMA-262 5.1 §11.3, §11.4.4, §11.4.5).
ghost use Rattle.std.specs.Prelude.{◌≡◌, ◌≤◌, length};
ghost use Rattle.njs_code.specs.declared.op.Kind.TheVariants as Kind;
ghost use Rattle.njs_meaning.specs.Errors.{first_count};
ghost use Rattle.njs_interp.specs.Sits.{Ready};
ghost use Rattle.njs_interp.specs.Grown.{Grown};
ghost use Rattle.njs_interp.specs.Tells.{ActsOnHeap, Leaves};

use crate::answers::push_given;
use crate::operators::stepped_from;
use crate::taken::take_one;
use crate::{At, Stacks};
use njs_clone::Machine;
use njs_convert::Stop;
use njs_text::Steps;
use njs_tree::UpdateOp;
use std::alloc::Global;
use std::sync::ledger::Ledger;

/// The number after `++` or `--`: `[number] → [number]`
pub(crate) fn update<L: Ledger>(
    alloc: Global,
    at: &At<'_>,
    machine: &mut Machine<'_>,
    stacks: &mut Stacks<'_>,
    op: UpdateOp,
    steps: &mut Steps<L>,
) -> Result<(), Stop>
    requires kind { at.now.op.now.kind ≡ Kind.Step op }
    requires ready { Ready at.now.functions.now at.now.function.now at.now.op.now machine.old stacks.old }
    requires first { first_count ≤ length machine.old.objects }
    ensures told { ActsOnHeap (Kind.Step op) machine.old machine.new stacks.old stacks.new result }
    ensures leaves { Leaves at.now.function.now at.now.op.now machine.new stacks.new result }
    ensures grown { Grown machine.old machine.new }
    ensures steps { steps.old ≤ steps.new }
{
    let value = take_one(at, machine, stacks);
    let given = stepped_from(alloc, machine, op, value, steps);
    push_given(stacks, given)
}
