// Ends of parts of the code, and what leads out of them (ECMA-262 5.1 §8.9, §12).
ghost use Rattle.std.specs.Prelude.{◌≡◌};
ghost use Rattle.njs_code.specs.declared.op.Kind.TheVariants as Kind;
ghost use Rattle.njs_interp.specs.Sits.{Ready};
ghost use Rattle.njs_interp.specs.Tells.{ActsOnHeap, Leaves};
ghost use Rattle.njs_interp.specs.Jumps.{JumpsOnHeap, LeavesNext};
ghost use Rattle.njs_interp.specs.Stepping.{GoesTo};

use crate::operands::{give, take};
use crate::{At, Ending, Next, Stacks};
use njs_clone::Machine;
use njs_code::Address;
use njs_convert::Stop;
use njs_text::{List, Text};
use njs_value::Value;

/// The end of a loop's body, come to from above.
pub(crate) fn end_body(
    at: &At<'_>,
    machine: &Machine<'_>,
    stacks: &Stacks<'_>,
    labels: &List<Text>,
    past: Address,
) -> Result<(), Stop>
    requires kind { at.now.op.now.kind ≡ Kind.EndBody labels.now past }
    requires ready { Ready at.now.functions.now at.now.function.now at.now.op.now machine.now stacks.now }
    ensures told { ActsOnHeap (Kind.EndBody labels.now past) machine.now machine.now stacks.now stacks.now result }
    ensures leaves { Leaves at.now.function.now at.now.op.now machine.now stacks.now result }
{
    let _op = at.op;
    let _sizes = machine.sizes();
    Ok(())
}

/// The end of a `switch`, come to from above.
pub(crate) fn end_switch(
    at: &At<'_>,
    machine: &Machine<'_>,
    stacks: &Stacks<'_>,
) -> Result<(), Stop>
    requires kind { at.now.op.now.kind ≡ Kind.EndSwitch }
    requires ready { Ready at.now.functions.now at.now.function.now at.now.op.now machine.now stacks.now }
    ensures told { ActsOnHeap Kind.EndSwitch machine.now machine.now stacks.now stacks.now result }
    ensures leaves { Leaves at.now.function.now at.now.op.now machine.now stacks.now result }
{
    let _op = at.op;
    let _sizes = machine.sizes();
    Ok(())
}

/// The end of a block with a `catch`, come to from above: `[] → [undefined]`
#[tactic(auto, using(crate::proofs::Moves::end_block_takes))]
pub(crate) fn end_block(
    at: &At<'_>,
    machine: &Machine<'_>,
    stacks: &mut Stacks<'_>,
) -> Result<(), Stop>
    requires kind { at.now.op.now.kind ≡ Kind.EndBlock }
    requires ready { Ready at.now.functions.now at.now.function.now at.now.op.now machine.now stacks.old }
    ensures told { ActsOnHeap Kind.EndBlock machine.now machine.now stacks.old stacks.new result }
    ensures leaves { Leaves at.now.function.now at.now.op.now machine.now stacks.new result }
{
    give(at, machine, stacks, Value::Undefined)
}

/// The end of a block with a `finally`, come to from above: that it came to its end waits.
pub(crate) fn finally(
    at: &At<'_>,
    machine: &Machine<'_>,
    stacks: &mut Stacks<'_>,
) -> Result<(), Stop>
    requires kind { at.now.op.now.kind ≡ Kind.Finally }
    requires ready { Ready at.now.functions.now at.now.function.now at.now.op.now machine.now stacks.old }
    ensures told { ActsOnHeap Kind.Finally machine.now machine.now stacks.old stacks.new result }
    ensures leaves { Leaves at.now.function.now at.now.op.now machine.now stacks.new result }
{
    let _op = at.op;
    let _sizes = machine.sizes();
    match stacks.endings.push(Ending::Normal) {
        Ok(()) => Ok(()),
        Err(_) => Err(Stop::NoMemory),
    }
}

/// Ends the function with a value (ECMA-262 5.1 §12.9): `[value] → `
#[tactic(auto, using(crate::proofs::Moves::return_takes))]
pub(crate) fn return_top<'a>(
    at: &At<'_>,
    machine: &Machine<'_>,
    stacks: &mut Stacks<'a>,
) -> Result<Next<'a>, Stop>
    requires kind { at.now.op.now.kind ≡ Kind.Return }
    requires ready { Ready at.now.functions.now at.now.function.now at.now.op.now machine.now stacks.old }
    ensures told { JumpsOnHeap Kind.Return machine.now machine.now stacks.old stacks.new result }
    ensures goes { GoesTo at.now.op.now.kind result }
    ensures leaves { LeavesNext at.now.function.now at.now.op.now machine.now stacks.new result }
{
    let value = take(at, machine, stacks);
    Ok(Next::Out(Ending::Returned(value)))
}

/// Throws a value (ECMA-262 5.1 §12.13): `[value] → `
#[tactic(auto, using(crate::proofs::Moves::throw_takes))]
pub(crate) fn throw_top<'a>(
    at: &At<'_>,
    machine: &Machine<'_>,
    stacks: &mut Stacks<'a>,
) -> Result<Next<'a>, Stop>
    requires kind { at.now.op.now.kind ≡ Kind.Throw }
    requires ready { Ready at.now.functions.now at.now.function.now at.now.op.now machine.now stacks.old }
    ensures told { JumpsOnHeap Kind.Throw machine.now machine.now stacks.old stacks.new result }
    ensures goes { GoesTo at.now.op.now.kind result }
    ensures leaves { LeavesNext at.now.function.now at.now.op.now machine.now stacks.new result }
{
    let value = take(at, machine, stacks);
    Ok(Next::Out(Ending::Thrown(value)))
}

/// Ends a loop or `switch` (ECMA-262 5.1 §12.8).
pub(crate) fn break_out<'a>(
    at: &At<'_>,
    machine: &Machine<'_>,
    stacks: &Stacks<'a>,
    label: &'a Option<Text>,
) -> Result<Next<'a>, Stop>
    requires kind { at.now.op.now.kind ≡ Kind.Break label.now }
    requires ready { Ready at.now.functions.now at.now.function.now at.now.op.now machine.now stacks.now }
    ensures told { JumpsOnHeap (Kind.Break label.now) machine.now machine.now stacks.now stacks.now result }
    ensures goes { GoesTo at.now.op.now.kind result }
    ensures leaves { LeavesNext at.now.function.now at.now.op.now machine.now stacks.now result }
{
    let _op = at.op;
    let _sizes = machine.sizes();
    Ok(Next::Out(Ending::Broken(label)))
}

/// Ends a turn of a loop (ECMA-262 5.1 §12.7).
pub(crate) fn continue_out<'a>(
    at: &At<'_>,
    machine: &Machine<'_>,
    stacks: &Stacks<'a>,
    label: &'a Option<Text>,
) -> Result<Next<'a>, Stop>
    requires kind { at.now.op.now.kind ≡ Kind.Continue label.now }
    requires ready { Ready at.now.functions.now at.now.function.now at.now.op.now machine.now stacks.now }
    ensures told { JumpsOnHeap (Kind.Continue label.now) machine.now machine.now stacks.now stacks.now result }
    ensures goes { GoesTo at.now.op.now.kind result }
    ensures leaves { LeavesNext at.now.function.now at.now.op.now machine.now stacks.now result }
{
    let _op = at.op;
    let _sizes = machine.sizes();
    Ok(Next::Out(Ending::Continued(label)))
}

/// The end of a `finally`: the ending that waited goes on (ECMA-262 5.1 §12.14).
#[tactic(auto, using(crate::proofs::Onward::resume_on))]
pub(crate) fn resume<'a>(
    at: &At<'_>,
    machine: &Machine<'_>,
    stacks: &mut Stacks<'a>,
) -> Result<Next<'a>, Stop>
    requires kind { at.now.op.now.kind ≡ Kind.Resume }
    requires ready { Ready at.now.functions.now at.now.function.now at.now.op.now machine.now stacks.old }
    ensures told { JumpsOnHeap Kind.Resume machine.now machine.now stacks.old stacks.new result }
    ensures goes { GoesTo at.now.op.now.kind result }
    ensures leaves { LeavesNext at.now.function.now at.now.op.now machine.now stacks.new result }
{
    let _op = at.op;
    let _sizes = machine.sizes();
    match stacks.endings.pop() {
        Ending::Normal => Ok(Next::On),
        ending => Ok(Next::Out(ending)),
    }
}
