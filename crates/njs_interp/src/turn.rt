// One turn of the loop over the code of a function.
ghost use Rattle.std.specs.Prelude.{◌≡◌, ◌≤◌, ◌<◌, length, OnOk};
ghost use Rattle.std.specs.List.{AllByRecursion};
ghost use Rattle.njs_shared.specs.Heap.{Heap, sizes};
ghost use Rattle.njs_shared.specs.Fits.{FitsValue};
ghost use Rattle.njs_code.specs.declared.op.Kind.TheVariants as Kind;
ghost use Rattle.njs_code.specs.Effects.{depth_left};
ghost use Rattle.njs_code.specs.Facts.{PartRule, StandsAt};
ghost use Rattle.njs_meaning.specs.Errors.{first_count};
ghost use Rattle.njs_meaning.specs.Replies.{Known};
ghost use Rattle.njs_meaning.specs.Running.{Calls};
ghost use Rattle.njs_interp.specs.Sits.{Sits};
ghost use Rattle.njs_interp.specs.Jumps.{LeavesNext};
ghost use Rattle.njs_interp.specs.Grown.{Widens};
ghost use Rattle.njs_interp.specs.Stepping.{CountsAre};
ghost use Rattle.njs_interp.specs.Turning.{over, LeadsTo, WentOn, Turns, LeavesTurned, Onward};

use crate::lead::lead;
use crate::step::step;
use crate::{At, Ending, InCall, Next, Runner, Stacks};
use njs_clone::Machine;
use njs_convert::{Caller, Stop};
use njs_text::Steps;
use njs_value::Value;
use std::alloc::Global;
use std::sync::ledger::Ledger;

/// What comes of a turn: the code goes on at a place, which counts from the end, or the function ends with a value.
#[derive(Clone, Copy)]
pub(crate) enum Turned {
    Goes(usize),
    Ends(Value),
}

// What the function answers whose code an ending led out of (ECMA-262 5.1 §13.2.1).
fn over(ending: Ending<'_>) -> Result<Turned, Stop>
    ensures { result ≡ over ending.entry }
{
    match ending {
        Ending::Returned(value) => Ok(Turned::Ends(value)),
        Ending::Thrown(value) => Err(Stop::Throw(value)),
        Ending::Normal | Ending::Broken(_) | Ending::Continued(_) => {
            Ok(Turned::Ends(Value::Undefined))
        }
    }
}

// Leads an ending out of the part of the code around an operation.
fn lead_out<'a>(
    at: &At<'a>,
    place: usize,
    ending: Ending<'a>,
    stacks: &mut Stacks<'a>,
) -> Result<Turned, Stop>
    requires part { PartRule at.now.functions.now at.now.function.now }
    requires place { StandsAt at.now.function.now.ops place at.now.op.now }
    requires operands { (depth_left at.now.op.now.kind at.now.op.now.depth).operands ≤ length stacks.old.operands }
    ensures { LeadsTo at.now.function.now place at.now.op.now ending.entry stacks.old stacks.new result }
{
    match lead(at, place, ending, stacks) {
        Ok(Some(to)) => Ok(Turned::Goes(to)),
        Ok(None) => over(ending),
        Err(_) => Err(Stop::NoMemory),
    }
}

// Where the code goes on by the answer of an operation.
fn go_on<'a>(
    at: &At<'a>,
    place: usize,
    next: Result<Next<'a>, Stop>,
    stacks: &mut Stacks<'a>,
) -> Result<Turned, Stop>
    requires part { PartRule at.now.functions.now at.now.function.now }
    requires place { StandsAt at.now.function.now.ops place at.now.op.now }
    requires leaves { (h : Heap) × LeavesNext at.now.function.now at.now.op.now h stacks.old next }
    ensures { WentOn at.now.function.now place at.now.op.now stacks.old stacks.new next.entry result }
{
    match next {
        Ok(Next::On) => Ok(Turned::Goes(place - 1)),
        Ok(Next::To(to)) => Ok(Turned::Goes(to.0 as usize)),
        Ok(Next::Out(ending)) => lead_out(at, place, ending, stacks),
        Err(Stop::Throw(value)) => lead_out(at, place, Ending::Thrown(value), stacks),
        Err(stop) => Err(stop),
    }
}

/// Does the operation at a place, and says where the code goes on.
pub(crate) fn turn<'a, C: Runner<L>, L: Ledger>(
    alloc: Global,
    at: &At<'a>,
    place: usize,
    call: &InCall<'_>,
    caller: &mut C,
    machine: &mut Machine<'_>,
    stacks: &mut Stacks<'a>,
    steps: &mut Steps<L>,
) -> Result<Turned, Stop>
    requires part { PartRule at.now.functions.now at.now.function.now }
    requires place { StandsAt at.now.function.now.ops place at.now.op.now }
    requires sits { Sits machine.old at.now.function.now.slots at.now.op.now.depth stacks.old }
    requires this { FitsValue (sizes machine.old) call.now.this }
    requires args { AllByRecursion (FitsValue (sizes machine.old)) call.now.args.now }
    requires counts { CountsAre (C.lent caller.old).counts call.now.unit at.now.functions.now }
    requires may { C.may_call caller.old }
    requires fits { C.fits caller.old machine.old }
    requires first { first_count ≤ length machine.old.objects }
    ensures told { (k : Known) → Turns k.around (C.follows caller.old k) (C.agrees caller.new k) (C.stands caller.old k machine.old) (C.holds caller.new k machine.new) (C.stopped caller.new k) call.now.unit call.now.this call.now.args.now at.now.function.now.ops place machine.old machine.new stacks.old stacks.new result }
    ensures leaves { LeavesTurned at.now.function.now machine.new stacks.new result }
    ensures onward { Onward at.now.function.now.ops place result }
    ensures falls { at.now.op.now.kind ≡ Kind.Charge → OnOk result (C.ticks_of caller.new < C.ticks_of caller.old) }
    ensures kept { (calls : Calls) (k : Known) → C.follows caller.old k calls → C.follows caller.new k calls }
    ensures agrees { (k : Known) → C.agrees caller.new k → C.agrees caller.old k }
    ensures may { C.may_call caller.new }
    ensures fits { C.fits caller.new machine.new }
    ensures same { C.lent caller.new ≡ C.lent caller.old }
    ensures spent { C.ticks_of caller.new ≤ C.ticks_of caller.old }
    ensures widens { Widens machine.old machine.new }
    ensures steps { steps.old ≤ steps.new }
{
    let next = step(alloc, at, call, caller, machine, stacks, steps);
    go_on(at, place, next, stacks)
}
