// Operations that ask a caller, by families.
ghost use Rattle.std.specs.Prelude.{◌≡◌, ◌≤◌, ◌<◌, length, OnOk, OnErr, Err};
ghost use Rattle.std.specs.List.{AllByRecursion};
ghost use Rattle.njs_shared.specs.Heap.{sizes};
ghost use Rattle.njs_shared.specs.Fits.{FitsValue};
ghost use Rattle.njs_code.specs.declared.op.Kind.TheVariants as kind;
ghost use Rattle.njs_meaning.specs.Errors.{first_count};
ghost use Rattle.njs_meaning.specs.Replies.{Known};
ghost use Rattle.njs_meaning.specs.Running.{Calls};
ghost use Rattle.njs_interp.specs.declared.families.Family.TheVariants as family;
ghost use Rattle.njs_interp.specs.Sits.{Ready};
ghost use Rattle.njs_interp.specs.Tells.{Leaves};
ghost use Rattle.njs_interp.specs.Grown.{Widens};
ghost use Rattle.njs_interp.specs.Asked.{ActsAsked};
ghost use Rattle.njs_interp.specs.Stepping.{CountsAre};
ghost use Rattle.njs_interp.specs.Dispatch.{family_of, AsksInCall};

use crate::{At, InCall, Runner, Stacks, asking, calling, making};
use njs_clone::Machine;
use njs_code::Kind;
use njs_convert::{Caller, Stop};
use njs_text::Steps;
use std::alloc::Global;
use std::sync::ledger::Ledger;

/// Does an operation that asks a caller, wherever it stands.
pub(crate) fn ask<C: Runner<L>, L: Ledger>(
    alloc: Global,
    at: &At<'_>,
    caller: &mut C,
    machine: &mut Machine<'_>,
    stacks: &mut Stacks<'_>,
    steps: &mut Steps<L>,
) -> Result<(), Stop>
    requires family { family_of at.now.op.now.kind ≡ family.Asked }
    requires ready { Ready at.now.functions.now at.now.function.now at.now.op.now machine.old stacks.old }
    requires may { C.may_call caller.old }
    requires fits { C.fits caller.old machine.old }
    requires first { first_count ≤ length machine.old.objects }
    ensures told { (k : Known) → ActsAsked (C.follows caller.old k) (C.agrees caller.new k) (C.stands caller.old k machine.old) (C.holds caller.new k machine.new) (C.stopped caller.new k) at.now.op.now.kind machine.old machine.new stacks.old stacks.new result }
    ensures leaves { Leaves at.now.function.now at.now.op.now machine.new stacks.new result }
    ensures falls { at.now.op.now.kind ≡ kind.Charge → OnOk result (C.ticks_of caller.new < C.ticks_of caller.old) }
    ensures spends { at.now.op.now.kind ≡ kind.Charge → OnErr result (result ≡ Err Stop.Fuel) }
    ensures kept { (calls : Calls) (k : Known) → C.follows caller.old k calls → C.follows caller.new k calls }
    ensures agrees { (k : Known) → C.agrees caller.new k → C.agrees caller.old k }
    ensures may { C.may_call caller.new }
    ensures fits { C.fits caller.new machine.new }
    ensures same { C.lent caller.new ≡ C.lent caller.old }
    ensures spent { C.ticks_of caller.new ≤ C.ticks_of caller.old }
    ensures widens { Widens machine.old machine.new }
    ensures steps { steps.old ≤ steps.new }
{
    match &at.op.kind {
        Kind::Charge => asking::charge(at, caller, machine, stacks),
        Kind::Key => asking::key(alloc, at, caller, machine, stacks, steps),
        Kind::Binary(op) => asking::binary(alloc, at, caller, machine, stacks, *op, steps),
        Kind::Unary(op) => asking::unary(alloc, at, caller, machine, stacks, *op, steps),
        Kind::ToNumber => asking::to_number(alloc, at, caller, machine, stacks, steps),
        Kind::ListNames => asking::list_names(alloc, at, caller, machine, stacks),
        _ => unreachable!(),
    }
}

/// Does an operation that asks a caller in the call that it stands in.
pub(crate) fn ask_in_call<C: Runner<L>, L: Ledger>(
    alloc: Global,
    at: &At<'_>,
    call: &InCall<'_>,
    caller: &mut C,
    machine: &mut Machine<'_>,
    stacks: &mut Stacks<'_>,
    steps: &mut Steps<L>,
) -> Result<(), Stop>
    requires family { family_of at.now.op.now.kind ≡ family.Called }
    requires ready { Ready at.now.functions.now at.now.function.now at.now.op.now machine.old stacks.old }
    requires args { AllByRecursion (FitsValue (sizes machine.old)) call.now.args.now }
    requires counts { CountsAre (C.lent caller.old).counts call.now.unit at.now.functions.now }
    requires may { C.may_call caller.old }
    requires fits { C.fits caller.old machine.old }
    requires first { first_count ≤ length machine.old.objects }
    ensures told { (k : Known) → AsksInCall (C.follows caller.old k) (C.agrees caller.new k) (C.stands caller.old k machine.old) (C.holds caller.new k machine.new) (C.stopped caller.new k) call.now.unit call.now.this call.now.args.now at.now.op.now.kind machine.old machine.new stacks.old stacks.new result }
    ensures leaves { Leaves at.now.function.now at.now.op.now machine.new stacks.new result }
    ensures kept { (calls : Calls) (k : Known) → C.follows caller.old k calls → C.follows caller.new k calls }
    ensures agrees { (k : Known) → C.agrees caller.new k → C.agrees caller.old k }
    ensures may { C.may_call caller.new }
    ensures fits { C.fits caller.new machine.new }
    ensures same { C.lent caller.new ≡ C.lent caller.old }
    ensures spent { C.ticks_of caller.new ≤ C.ticks_of caller.old }
    ensures widens { Widens machine.old machine.new }
    ensures steps { steps.old ≤ steps.new }
{
    match &at.op.kind {
        Kind::Call(count) => calling::call(alloc, at, caller, machine, stacks, *count, steps),
        Kind::New(count) => calling::construct(alloc, at, caller, machine, stacks, *count, steps),
        Kind::Closure {
            number,
            params,
            name,
        } => making::closure(
            alloc, at, call, caller, machine, stacks, *number, *params, name, steps,
        ),
        Kind::Arguments => {
            making::call_arguments(alloc, at, call, caller, machine, stacks, steps)
        }
        _ => unreachable!(),
    }
}
