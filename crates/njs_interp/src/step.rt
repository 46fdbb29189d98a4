// One step: the operation at a place of the code.
ghost use Rattle.std.specs.Prelude.{◌≡◌, ◌≤◌, ◌<◌, ℕ, length, OnOk, OnErr, Err};
ghost use Rattle.std.specs.List.{AllByRecursion};
ghost use Rattle.njs_shared.specs.Heap.{sizes};
ghost use Rattle.njs_shared.specs.Fits.{FitsValue};
ghost use Rattle.njs_code.specs.declared.op.Kind.TheVariants as Kind;
ghost use Rattle.njs_meaning.specs.Errors.{first_count};
ghost use Rattle.njs_meaning.specs.Replies.{Known};
ghost use Rattle.njs_meaning.specs.Running.{Calls};
ghost use Rattle.njs_interp.specs.Sits.{Ready};
ghost use Rattle.njs_interp.specs.Jumps.{LeavesNext};
ghost use Rattle.njs_interp.specs.Grown.{Widens};
ghost use Rattle.njs_interp.specs.Stepping.{GoesTo, Steps as StepsAs, CountsAre};
ghost use Rattle.njs_interp.specs.declared.families.Family.TheVariants as family;
ghost use Rattle.njs_interp.specs.Dispatch.{family_of, next_after, OnHeapAlone};

mod asked;
mod heap;
mod leading;

use crate::families::{Family, family_of};
use crate::{At, InCall, Next, Runner, Stacks};
use asked::{ask, ask_in_call};
use heap::on_heap;
use leading::{jump, lead_out};
use njs_clone::Machine;
use njs_convert::{Caller, Stop};
use njs_text::Steps;
use std::alloc::Global;
use std::sync::ledger::Ledger;

// On behind the operation, once it is done.
fn next_after<'a>(done: Result<(), Stop>) -> Result<Next<'a>, Stop>
    ensures { result ≡ next_after done }
{
    match done {
        Ok(()) => Ok(Next::On),
        Err(stop) => Err(stop),
    }
}

// Does an operation on the heap.
fn step_on_heap<'a, C: Runner<L>, L: Ledger>(
    alloc: Global,
    at: &At<'a>,
    call: &InCall<'_>,
    caller: &mut C,
    machine: &mut Machine<'_>,
    stacks: &mut Stacks<'a>,
    steps: &mut Steps<L>,
) -> Result<Next<'a>, Stop>
    requires family { OnHeapAlone (family_of at.now.op.now.kind) }
    requires ready { Ready at.now.functions.now at.now.function.now at.now.op.now machine.old stacks.old }
    requires this { FitsValue (sizes machine.old) call.now.this }
    requires args { AllByRecursion (FitsValue (sizes machine.old)) call.now.args.now }
    requires counts { CountsAre (C.lent caller.old).counts call.now.unit at.now.functions.now }
    requires may { C.may_call caller.old }
    requires fits { C.fits caller.old machine.old }
    requires first { first_count ≤ length machine.old.objects }
    ensures told { (k : Known) → StepsAs (C.follows caller.old k) (C.agrees caller.new k) (C.stands caller.old k machine.old) (C.holds caller.new k machine.new) (C.stopped caller.new k) call.now.unit call.now.this call.now.args.now at.now.op.now.kind machine.old machine.new stacks.old stacks.new result }
    ensures goes { GoesTo at.now.op.now.kind result }
    ensures leaves { LeavesNext at.now.function.now at.now.op.now machine.new stacks.new result }
    ensures falls { at.now.op.now.kind ≡ Kind.Charge → OnOk result (C.ticks_of caller.new < C.ticks_of caller.old) }
    ensures spends { at.now.op.now.kind ≡ Kind.Charge → OnErr result (result ≡ Err Stop.Fuel) }
    ensures kept { (calls : Calls) (k : Known) → C.follows caller.old k calls → C.follows caller.new k calls }
    ensures agrees { (k : Known) → C.agrees caller.new k → C.agrees caller.old k }
    ensures may { C.may_call caller.new }
    ensures fits { C.fits caller.new machine.new }
    ensures same { C.lent caller.new ≡ C.lent caller.old }
    ensures spent { C.ticks_of caller.new ≤ C.ticks_of caller.old }
    ensures widens { Widens machine.old machine.new }
    ensures steps { steps.old ≤ steps.new }
{
    let done = on_heap(alloc, at, call, machine, stacks, steps);
    let _sizes = machine.sizes();
    next_after(done)
}

// Does a jump.
fn step_jump<'a, C: Runner<L>, L: Ledger>(
    alloc: Global,
    at: &At<'a>,
    call: &InCall<'_>,
    caller: &mut C,
    machine: &mut Machine<'_>,
    stacks: &mut Stacks<'a>,
    steps: &mut Steps<L>,
) -> Result<Next<'a>, Stop>
    requires family { family_of at.now.op.now.kind ≡ family.Jump }
    requires ready { Ready at.now.functions.now at.now.function.now at.now.op.now machine.old stacks.old }
    requires this { FitsValue (sizes machine.old) call.now.this }
    requires args { AllByRecursion (FitsValue (sizes machine.old)) call.now.args.now }
    requires counts { CountsAre (C.lent caller.old).counts call.now.unit at.now.functions.now }
    requires may { C.may_call caller.old }
    requires fits { C.fits caller.old machine.old }
    requires first { first_count ≤ length machine.old.objects }
    ensures told { (k : Known) → StepsAs (C.follows caller.old k) (C.agrees caller.new k) (C.stands caller.old k machine.old) (C.holds caller.new k machine.new) (C.stopped caller.new k) call.now.unit call.now.this call.now.args.now at.now.op.now.kind machine.old machine.new stacks.old stacks.new result }
    ensures goes { GoesTo at.now.op.now.kind result }
    ensures leaves { LeavesNext at.now.function.now at.now.op.now machine.new stacks.new result }
    ensures falls { at.now.op.now.kind ≡ Kind.Charge → OnOk result (C.ticks_of caller.new < C.ticks_of caller.old) }
    ensures spends { at.now.op.now.kind ≡ Kind.Charge → OnErr result (result ≡ Err Stop.Fuel) }
    ensures kept { (calls : Calls) (k : Known) → C.follows caller.old k calls → C.follows caller.new k calls }
    ensures agrees { (k : Known) → C.agrees caller.new k → C.agrees caller.old k }
    ensures may { C.may_call caller.new }
    ensures fits { C.fits caller.new machine.new }
    ensures same { C.lent caller.new ≡ C.lent caller.old }
    ensures spent { C.ticks_of caller.new ≤ C.ticks_of caller.old }
    ensures widens { Widens machine.old machine.new }
    ensures steps { steps.old ≤ steps.new }
{
    let _sizes = machine.sizes();
    jump(at, machine, stacks)
}

// Does an operation that leads out of the part of the code around it.
fn step_out<'a, C: Runner<L>, L: Ledger>(
    alloc: Global,
    at: &At<'a>,
    call: &InCall<'_>,
    caller: &mut C,
    machine: &mut Machine<'_>,
    stacks: &mut Stacks<'a>,
    steps: &mut Steps<L>,
) -> Result<Next<'a>, Stop>
    requires family { family_of at.now.op.now.kind ≡ family.Leading }
    requires ready { Ready at.now.functions.now at.now.function.now at.now.op.now machine.old stacks.old }
    requires this { FitsValue (sizes machine.old) call.now.this }
    requires args { AllByRecursion (FitsValue (sizes machine.old)) call.now.args.now }
    requires counts { CountsAre (C.lent caller.old).counts call.now.unit at.now.functions.now }
    requires may { C.may_call caller.old }
    requires fits { C.fits caller.old machine.old }
    requires first { first_count ≤ length machine.old.objects }
    ensures told { (k : Known) → StepsAs (C.follows caller.old k) (C.agrees caller.new k) (C.stands caller.old k machine.old) (C.holds caller.new k machine.new) (C.stopped caller.new k) call.now.unit call.now.this call.now.args.now at.now.op.now.kind machine.old machine.new stacks.old stacks.new result }
    ensures goes { GoesTo at.now.op.now.kind result }
    ensures leaves { LeavesNext at.now.function.now at.now.op.now machine.new stacks.new result }
    ensures falls { at.now.op.now.kind ≡ Kind.Charge → OnOk result (C.ticks_of caller.new < C.ticks_of caller.old) }
    ensures spends { at.now.op.now.kind ≡ Kind.Charge → OnErr result (result ≡ Err Stop.Fuel) }
    ensures kept { (calls : Calls) (k : Known) → C.follows caller.old k calls → C.follows caller.new k calls }
    ensures agrees { (k : Known) → C.agrees caller.new k → C.agrees caller.old k }
    ensures may { C.may_call caller.new }
    ensures fits { C.fits caller.new machine.new }
    ensures same { C.lent caller.new ≡ C.lent caller.old }
    ensures spent { C.ticks_of caller.new ≤ C.ticks_of caller.old }
    ensures widens { Widens machine.old machine.new }
    ensures steps { steps.old ≤ steps.new }
{
    let _sizes = machine.sizes();
    lead_out(at, machine, stacks)
}

// Does an operation that asks a caller, wherever it stands.
fn step_asking<'a, C: Runner<L>, L: Ledger>(
    alloc: Global,
    at: &At<'a>,
    call: &InCall<'_>,
    caller: &mut C,
    machine: &mut Machine<'_>,
    stacks: &mut Stacks<'a>,
    steps: &mut Steps<L>,
) -> Result<Next<'a>, Stop>
    requires family { family_of at.now.op.now.kind ≡ family.Asked }
    requires ready { Ready at.now.functions.now at.now.function.now at.now.op.now machine.old stacks.old }
    requires this { FitsValue (sizes machine.old) call.now.this }
    requires args { AllByRecursion (FitsValue (sizes machine.old)) call.now.args.now }
    requires counts { CountsAre (C.lent caller.old).counts call.now.unit at.now.functions.now }
    requires may { C.may_call caller.old }
    requires fits { C.fits caller.old machine.old }
    requires first { first_count ≤ length machine.old.objects }
    ensures told { (k : Known) → StepsAs (C.follows caller.old k) (C.agrees caller.new k) (C.stands caller.old k machine.old) (C.holds caller.new k machine.new) (C.stopped caller.new k) call.now.unit call.now.this call.now.args.now at.now.op.now.kind machine.old machine.new stacks.old stacks.new result }
    ensures goes { GoesTo at.now.op.now.kind result }
    ensures leaves { LeavesNext at.now.function.now at.now.op.now machine.new stacks.new result }
    ensures falls { at.now.op.now.kind ≡ Kind.Charge → OnOk result (C.ticks_of caller.new < C.ticks_of caller.old) }
    ensures spends { at.now.op.now.kind ≡ Kind.Charge → OnErr result (result ≡ Err Stop.Fuel) }
    ensures kept { (calls : Calls) (k : Known) → C.follows caller.old k calls → C.follows caller.new k calls }
    ensures agrees { (k : Known) → C.agrees caller.new k → C.agrees caller.old k }
    ensures may { C.may_call caller.new }
    ensures fits { C.fits caller.new machine.new }
    ensures same { C.lent caller.new ≡ C.lent caller.old }
    ensures spent { C.ticks_of caller.new ≤ C.ticks_of caller.old }
    ensures widens { Widens machine.old machine.new }
    ensures steps { steps.old ≤ steps.new }
{
    let done = ask(alloc, at, caller, machine, stacks, steps);
    next_after(done)
}

// Does an operation that asks a caller in the call.
fn step_in_call<'a, C: Runner<L>, L: Ledger>(
    alloc: Global,
    at: &At<'a>,
    call: &InCall<'_>,
    caller: &mut C,
    machine: &mut Machine<'_>,
    stacks: &mut Stacks<'a>,
    steps: &mut Steps<L>,
) -> Result<Next<'a>, Stop>
    requires family { family_of at.now.op.now.kind ≡ family.Called }
    requires ready { Ready at.now.functions.now at.now.function.now at.now.op.now machine.old stacks.old }
    requires this { FitsValue (sizes machine.old) call.now.this }
    requires args { AllByRecursion (FitsValue (sizes machine.old)) call.now.args.now }
    requires counts { CountsAre (C.lent caller.old).counts call.now.unit at.now.functions.now }
    requires may { C.may_call caller.old }
    requires fits { C.fits caller.old machine.old }
    requires first { first_count ≤ length machine.old.objects }
    ensures told { (k : Known) → StepsAs (C.follows caller.old k) (C.agrees caller.new k) (C.stands caller.old k machine.old) (C.holds caller.new k machine.new) (C.stopped caller.new k) call.now.unit call.now.this call.now.args.now at.now.op.now.kind machine.old machine.new stacks.old stacks.new result }
    ensures goes { GoesTo at.now.op.now.kind result }
    ensures leaves { LeavesNext at.now.function.now at.now.op.now machine.new stacks.new result }
    ensures falls { at.now.op.now.kind ≡ Kind.Charge → OnOk result (C.ticks_of caller.new < C.ticks_of caller.old) }
    ensures spends { at.now.op.now.kind ≡ Kind.Charge → OnErr result (result ≡ Err Stop.Fuel) }
    ensures kept { (calls : Calls) (k : Known) → C.follows caller.old k calls → C.follows caller.new k calls }
    ensures agrees { (k : Known) → C.agrees caller.new k → C.agrees caller.old k }
    ensures may { C.may_call caller.new }
    ensures fits { C.fits caller.new machine.new }
    ensures same { C.lent caller.new ≡ C.lent caller.old }
    ensures spent { C.ticks_of caller.new ≤ C.ticks_of caller.old }
    ensures widens { Widens machine.old machine.new }
    ensures steps { steps.old ≤ steps.new }
{
    let done = ask_in_call(alloc, at, call, caller, machine, stacks, steps);
    next_after(done)
}

/// Does one operation, and says where the code goes on.
pub(crate) fn step<'a, C: Runner<L>, L: Ledger>(
    alloc: Global,
    at: &At<'a>,
    call: &InCall<'_>,
    caller: &mut C,
    machine: &mut Machine<'_>,
    stacks: &mut Stacks<'a>,
    steps: &mut Steps<L>,
) -> Result<Next<'a>, Stop>
    requires ready { Ready at.now.functions.now at.now.function.now at.now.op.now machine.old stacks.old }
    requires this { FitsValue (sizes machine.old) call.now.this }
    requires args { AllByRecursion (FitsValue (sizes machine.old)) call.now.args.now }
    requires counts { CountsAre (C.lent caller.old).counts call.now.unit at.now.functions.now }
    requires may { C.may_call caller.old }
    requires fits { C.fits caller.old machine.old }
    requires first { first_count ≤ length machine.old.objects }
    ensures told { (k : Known) → StepsAs (C.follows caller.old k) (C.agrees caller.new k) (C.stands caller.old k machine.old) (C.holds caller.new k machine.new) (C.stopped caller.new k) call.now.unit call.now.this call.now.args.now at.now.op.now.kind machine.old machine.new stacks.old stacks.new result }
    ensures goes { GoesTo at.now.op.now.kind result }
    ensures leaves { LeavesNext at.now.function.now at.now.op.now machine.new stacks.new result }
    ensures falls { at.now.op.now.kind ≡ Kind.Charge → OnOk result (C.ticks_of caller.new < C.ticks_of caller.old) }
    ensures spends { at.now.op.now.kind ≡ Kind.Charge → OnErr result (result ≡ Err Stop.Fuel) }
    ensures kept { (calls : Calls) (k : Known) → C.follows caller.old k calls → C.follows caller.new k calls }
    ensures agrees { (k : Known) → C.agrees caller.new k → C.agrees caller.old k }
    ensures may { C.may_call caller.new }
    ensures fits { C.fits caller.new machine.new }
    ensures same { C.lent caller.new ≡ C.lent caller.old }
    ensures spent { C.ticks_of caller.new ≤ C.ticks_of caller.old }
    ensures widens { Widens machine.old machine.new }
    ensures steps { steps.old ≤ steps.new }
{
    match family_of(&at.op.kind) {
        Family::Jump => step_jump(alloc, at, call, caller, machine, stacks, steps),
        Family::Leading => step_out(alloc, at, call, caller, machine, stacks, steps),
        Family::Asked => step_asking(alloc, at, call, caller, machine, stacks, steps),
        Family::Called => step_in_call(alloc, at, call, caller, machine, stacks, steps),
        Family::Constant
        | Family::Operand
        | Family::Slot
        | Family::Member
        | Family::Made
        | Family::Listed
        | Family::End
        | Family::Failing => step_on_heap(alloc, at, call, caller, machine, stacks, steps),
    }
}
