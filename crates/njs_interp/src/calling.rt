// Calls of values, and `new` (ECMA-262 5.1 §11.2.2, §11.2.3).
ghost use Rattle.std.specs.Prelude.{◌≡◌, ◌≤◌, ◌++◌, ◌∷◌, [], length, reverse, IfOk};
ghost use Rattle.std.specs.List.{AllByRecursion};
ghost use Rattle.njs_shared.specs.Heap.{sizes};
ghost use Rattle.njs_shared.specs.Fits.{FitsValue};
ghost use Rattle.njs_code.specs.declared.op.Kind.TheVariants as Kind;
ghost use Rattle.njs_meaning.specs.Errors.{first_count};
ghost use Rattle.njs_meaning.specs.Replies.{Known};
ghost use Rattle.njs_meaning.specs.Running.{Calls};
ghost use Rattle.njs_interp.specs.Sits.{Ready};
ghost use Rattle.njs_interp.specs.Tells.{Leaves};
ghost use Rattle.njs_interp.specs.Grown.{Widens};
ghost use Rattle.njs_interp.specs.Operands.{HasTaken};
ghost use Rattle.njs_interp.specs.Asked.{ActsAsked};

use crate::asking::finish;
use crate::{At, Runner, Stacks};
use njs_clone::Machine;
use njs_convert::{Caller, Stop};
use njs_text::{NoMemory, Steps};
use njs_value::Value;
use std::alloc::Global;
use std::sync::ledger::Ledger;

// Takes the arguments of a call, the function and `this`.
fn take_call(
    at: &At<'_>,
    machine: &Machine<'_>,
    stacks: &mut Stacks<'_>,
    count: u32,
) -> Result<(Vec<Value>, Value, Value), NoMemory>
    requires kind { at.now.op.now.kind ≡ Kind.Call count }
    requires ready { Ready at.now.functions.now at.now.function.now at.now.op.now machine.now stacks.old }
    ensures count { IfOk result (λ r. length r.0.items ≡ count) }
    ensures args { IfOk result (λ r. AllByRecursion (FitsValue (sizes machine.now)) r.0.items) }
    ensures taken { IfOk result (λ r. HasTaken at.now.function.now at.now.op.now machine.now stacks.old stacks.new (reverse r.0.items ++ r.1 ∷ r.2 ∷ [])) }
{
    let _op = at.op;
    let _sizes = machine.sizes();
    let args = match stacks.operands.take_top(count as usize) {
        Ok(args) => args,
        Err(_) => return Err(NoMemory),
    };
    let callee = stacks.operands.pop();
    let this = stacks.operands.pop();
    Ok((args, callee, this))
}

/// With so many arguments (ECMA-262 5.1 §11.2.3): `[this, function, arguments] → [value]`
pub(crate) fn call<C: Runner<L>, L: Ledger>(
    alloc: Global,
    at: &At<'_>,
    caller: &mut C,
    machine: &mut Machine<'_>,
    stacks: &mut Stacks<'_>,
    count: u32,
    steps: &mut Steps<L>,
) -> Result<(), Stop>
    requires kind { at.now.op.now.kind ≡ Kind.Call count }
    requires ready { Ready at.now.functions.now at.now.function.now at.now.op.now machine.old stacks.old }
    requires may { C.may_call caller.old }
    requires fits { C.fits caller.old machine.old }
    requires first { first_count ≤ length machine.old.objects }
    ensures told { (k : Known) → ActsAsked (C.follows caller.old k) (C.agrees caller.new k) (C.stands caller.old k machine.old) (C.holds caller.new k machine.new) (C.stopped caller.new k) (Kind.Call count) machine.old machine.new stacks.old stacks.new result }
    ensures leaves { Leaves at.now.function.now at.now.op.now machine.new stacks.new result }
    ensures kept { (calls : Calls) (k : Known) → C.follows caller.old k calls → C.follows caller.new k calls }
    ensures agrees { (k : Known) → C.agrees caller.new k → C.agrees caller.old k }
    ensures may { C.may_call caller.new }
    ensures fits { C.fits caller.new machine.new }
    ensures same { C.lent caller.new ≡ C.lent caller.old }
    ensures spent { C.ticks_of caller.new ≤ C.ticks_of caller.old }
    ensures widens { Widens machine.old machine.new }
    ensures steps { steps.old ≤ steps.new }
{
    let (args, callee, this) = match take_call(at, machine, stacks, count) {
        Ok(taken) => taken,
        Err(_) => return Err(Stop::NoMemory),
    };
    let answer = caller.call(alloc, machine, callee, this, args.as_slice(), steps);
    finish(at, machine, stacks, answer)
}

// Takes the arguments of `new`, and the function.
fn take_new(
    at: &At<'_>,
    machine: &Machine<'_>,
    stacks: &mut Stacks<'_>,
    count: u32,
) -> Result<(Vec<Value>, Value), NoMemory>
    requires kind { at.now.op.now.kind ≡ Kind.New count }
    requires ready { Ready at.now.functions.now at.now.function.now at.now.op.now machine.now stacks.old }
    ensures count { IfOk result (λ r. length r.0.items ≡ count) }
    ensures args { IfOk result (λ r. AllByRecursion (FitsValue (sizes machine.now)) r.0.items) }
    ensures taken { IfOk result (λ r. HasTaken at.now.function.now at.now.op.now machine.now stacks.old stacks.new (reverse r.0.items ++ r.1 ∷ [])) }
{
    let _op = at.op;
    let _sizes = machine.sizes();
    let args = match stacks.operands.take_top(count as usize) {
        Ok(args) => args,
        Err(_) => return Err(NoMemory),
    };
    let callee = stacks.operands.pop();
    Ok((args, callee))
}

/// With so many arguments (ECMA-262 5.1 §11.2.2): `[function, arguments] → [object]`
pub(crate) fn construct<C: Runner<L>, L: Ledger>(
    alloc: Global,
    at: &At<'_>,
    caller: &mut C,
    machine: &mut Machine<'_>,
    stacks: &mut Stacks<'_>,
    count: u32,
    steps: &mut Steps<L>,
) -> Result<(), Stop>
    requires kind { at.now.op.now.kind ≡ Kind.New count }
    requires ready { Ready at.now.functions.now at.now.function.now at.now.op.now machine.old stacks.old }
    requires may { C.may_call caller.old }
    requires fits { C.fits caller.old machine.old }
    requires first { first_count ≤ length machine.old.objects }
    ensures told { (k : Known) → ActsAsked (C.follows caller.old k) (C.agrees caller.new k) (C.stands caller.old k machine.old) (C.holds caller.new k machine.new) (C.stopped caller.new k) (Kind.New count) machine.old machine.new stacks.old stacks.new result }
    ensures leaves { Leaves at.now.function.now at.now.op.now machine.new stacks.new result }
    ensures kept { (calls : Calls) (k : Known) → C.follows caller.old k calls → C.follows caller.new k calls }
    ensures agrees { (k : Known) → C.agrees caller.new k → C.agrees caller.old k }
    ensures may { C.may_call caller.new }
    ensures fits { C.fits caller.new machine.new }
    ensures same { C.lent caller.new ≡ C.lent caller.old }
    ensures spent { C.ticks_of caller.new ≤ C.ticks_of caller.old }
    ensures widens { Widens machine.old machine.new }
    ensures steps { steps.old ≤ steps.new }
{
    let (args, callee) = match take_new(at, machine, stacks, count) {
        Ok(taken) => taken,
        Err(_) => return Err(Stop::NoMemory),
    };
    let answer = caller.construct(alloc, machine, callee, args.as_slice(), steps);
    finish(at, machine, stacks, answer)
}
