// The loop over the code of a function.
ghost use Rattle.std.specs.Prelude.{◌≡◌, ◌≤◌, length, IfOk};
ghost use Rattle.std.specs.List.{AllByRecursion};
ghost use Rattle.njs_shared.specs.Heap.{sizes};
ghost use Rattle.njs_shared.specs.Fits.{FitsValue};
ghost use Rattle.njs_code.specs.Facts.{PartRule};
ghost use Rattle.njs_meaning.specs.Errors.{first_count};
ghost use Rattle.njs_meaning.specs.Replies.{Known};
ghost use Rattle.njs_meaning.specs.Running.{Calls};
ghost use Rattle.njs_convert.specs.Tells.{FitsAnswer};
ghost use Rattle.njs_interp.specs.Sits.{SlotsFrom};
ghost use Rattle.njs_interp.specs.Grown.{Widens};
ghost use Rattle.njs_interp.specs.Stepping.{CountsAre};
ghost use Rattle.njs_interp.specs.Turning.{RunsCode, AtStart};

use crate::lead::op_at;
use crate::turn::{Turned, turn};
use crate::{At, InCall, Pile, Runner, Stacks};
use njs_clone::Machine;
use njs_code::FunctionCode;
use njs_convert::{Caller, Stop};
use njs_text::{NoMemory, Steps};
use njs_value::{ScopeId, Value};
use std::alloc::Global;
use std::sync::ledger::Ledger;

// What stands as a call begins: its scope.
fn starting<'a>(alloc: Global, scope: ScopeId) -> Result<Stacks<'a>, NoMemory>
    ensures { IfOk result (λ st. AtStart scope st) }
{
    let mut scopes = Pile::new(alloc);
    scopes.push(scope)?;
    Ok(Stacks {
        operands: Pile::new(alloc),
        scopes,
        lists: Vec::new(alloc),
        endings: Pile::new(alloc),
    })
}

/// Runs the code of a function in a call (ECMA-262 5.1 §13.2.1), from its first operation, in a scope.
pub(crate) fn run_code<C: Runner<L>, L: Ledger>(
    alloc: Global,
    functions: &[FunctionCode],
    function: &FunctionCode,
    call: &InCall<'_>,
    scope: ScopeId,
    caller: &mut C,
    machine: &mut Machine<'_>,
    steps: &mut Steps<L>,
) -> Result<Value, Stop>
    requires part { PartRule functions.now function.now }
    requires scope { SlotsFrom function.now.slots machine.old.scopes scope.0 }
    requires this { FitsValue (sizes machine.old) call.now.this }
    requires args { AllByRecursion (FitsValue (sizes machine.old)) call.now.args.now }
    requires counts { CountsAre (C.lent caller.old).counts call.now.unit functions.now }
    requires may { C.may_call caller.old }
    requires fits { C.fits caller.old machine.old }
    requires first { first_count ≤ length machine.old.objects }
    ensures told { (k : Known) → RunsCode k.around (C.follows caller.old k) (C.agrees caller.new k) (C.stands caller.old k machine.old) (C.holds caller.new k machine.new) (C.stopped caller.new k) call.now.unit call.now.this call.now.args.now function.now.ops scope.0 machine.old machine.new result }
    ensures value { FitsAnswer (FitsValue (sizes machine.new)) (sizes machine.new) result }
    ensures kept { (calls : Calls) (k : Known) → C.follows caller.old k calls → C.follows caller.new k calls }
    ensures agrees { (k : Known) → C.agrees caller.new k → C.agrees caller.old k }
    ensures may { C.may_call caller.new }
    ensures fits { C.fits caller.new machine.new }
    ensures same { C.lent caller.new ≡ C.lent caller.old }
    ensures spent { C.ticks_of caller.new ≤ C.ticks_of caller.old }
    ensures widens { Widens machine.old machine.new }
    ensures steps { steps.old ≤ steps.new }
{
    let mut stacks = match starting(alloc, scope) {
        Ok(stacks) => stacks,
        Err(_) => return Err(Stop::NoMemory),
    };
    let mut place = function.ops.len();
    loop {
        let at = At {
            functions,
            function,
            op: op_at(function, place),
        };
        match turn(alloc, &at, place, call, caller, machine, &mut stacks, steps) {
            Ok(Turned::Goes(to)) => place = to,
            Ok(Turned::Ends(value)) => return Ok(value),
            Err(stop) => return Err(stop),
        }
    }
}
