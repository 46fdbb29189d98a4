// Calls of functions of scripts (ECMA-262 5.1 §10.4, §13.2.1).
ghost use Rattle.std.specs.Prelude.{◌≡◌, ◌≤◌, ◌<◌, [], ◌∷◌, ◌++◌, ℕ, List, length, map, Some, slice_get, IfOk, OnOk};
ghost use Rattle.std.specs.List.{AllByRecursion};
ghost use Rattle.njs_shared.specs.Heap.{sizes};
ghost use Rattle.njs_shared.specs.Fits.{FitsValue};
ghost use Rattle.njs_clone.specs.Content.{content};
ghost use Rattle.njs_code.specs.declared.code.Code.{Code as PlainCode};
ghost use Rattle.njs_code.specs.Facts.{PartRule};
ghost use Rattle.njs_meaning.specs.Errors.{first_count};
ghost use Rattle.njs_meaning.specs.Functions.{Program, call_script};
ghost use Rattle.njs_meaning.specs.Replies.{Known};
ghost use Rattle.njs_meaning.specs.Running.{Calls, one_and};
ghost use Rattle.njs_convert.specs.Tells.{Means, ShowsValue, FitsAnswer};
ghost use Rattle.njs_simul.specs.Fits.{Scoped};
ghost use Rattle.njs_interp.specs.Sits.{SlotsFrom};
ghost use Rattle.njs_interp.specs.Grown.{Widens, Grown};
ghost use Rattle.njs_interp.specs.Hosts.{behind_own, counts_of};
ghost use Rattle.njs_interp.specs.Stepping.{CountsAre};
ghost use Rattle.njs_interp.specs.Calling.{CodesOf, own_slots, scope_filled, StandsThere, RunsInScope};

use crate::code_run::run_code;
use crate::{InCall, Runner};
use njs_clone::Machine;
use njs_code::{Code, FunctionCode, ValidCode, valid_code_keeps_its_rule};
use njs_convert::{Caller, Stop};
use njs_text::{NoMemory, Steps};
use njs_value::{ScopeId, Value};
use std::alloc::Global;
use std::sync::ledger::Ledger;

// How many slots the scope of a call has.
fn own_slots(function: &FunctionCode) -> u32
    requires { 0 < length function.now.slots }
    ensures { result ≡ own_slots function.now.slots }
{
    function.slots.as_slice()[0]
}

// The code of a module.
pub(crate) fn code_at<'a>(codes: &'a [ValidCode], unit: u32) -> &'a ValidCode
    requires { (code : PlainCode) × (slice_get codes.now unit ≡ Some code) }
    ensures { slice_get codes.now unit ≡ Some result.now }
{
    codes.get(unit as usize).unwrap()
}

// A function of a module.
fn function_at<'a>(code: &'a Code, number: u32) -> &'a FunctionCode
    requires { number < length code.now.functions }
    ensures { slice_get code.now.functions number ≡ Some result.now }
{
    code.functions.get(number as usize).unwrap()
}

// The argument at a place, or none from their number on.
fn argument(args: &[Value], place: u32) -> Option<Value>
    ensures { result ≡ slice_get args.now place }
{
    args.get(place as usize).copied()
}

/// The scope of a call (§10.5), below another: so many slots, of which the first, for the parameters, have the arguments.
fn call_scope<L: Ledger>(
    alloc: Global,
    machine: &mut Machine<'_>,
    parent: ScopeId,
    slots: u32,
    params: u32,
    args: &[Value],
    steps: &mut Steps<L>,
) -> Result<ScopeId, NoMemory>
    requires parent { parent.0 < length machine.old.scopes }
    requires params { params ≤ slots }
    requires args { AllByRecursion (FitsValue (sizes machine.old)) args.now }
    ensures number { IfOk result (λ scope. scope.0 ≡ length machine.old.scopes) }
    ensures filled { OnOk result (machine.new ≡ record machine.old { scopes = machine.old.scopes ++ scope_filled parent slots params args.now ∷ [] }) }
    ensures grown { Grown machine.old machine.new }
    ensures steps { steps.old ≤ steps.new }
{
    let scope = machine.new_scope(alloc, parent, slots, steps)?;
    for place in 0..params {
        let Some(value) = argument(args, place) else {
            return Ok(scope);
        };
        machine.scope_put(alloc, scope, place, value, steps)?;
    }
    Ok(scope)
}

/// Runs the code of a function, or of a module's body, in a new scope below another (§10.4.1, §10.4.3).
pub(crate) fn run_in_scope<C: Runner<L>, L: Ledger>(
    alloc: Global,
    functions: &[FunctionCode],
    function: &FunctionCode,
    call: &InCall<'_>,
    parent: ScopeId,
    caller: &mut C,
    machine: &mut Machine<'_>,
    steps: &mut Steps<L>,
) -> Result<Value, Stop>
    requires part { PartRule functions.now function.now }
    requires around { (around : List ℕ) × (behind_own function.now.slots ≡ Some around) × SlotsFrom around machine.old.scopes parent.0 }
    requires this { FitsValue (sizes machine.old) call.now.this }
    requires args { AllByRecursion (FitsValue (sizes machine.old)) call.now.args.now }
    requires counts { CountsAre (C.lent caller.old).counts call.now.unit functions.now }
    requires may { C.may_call caller.old }
    requires fits { C.fits caller.old machine.old }
    requires first { first_count ≤ length machine.old.objects }
    ensures told { (k : Known) → RunsInScope k (C.follows caller.old k) (C.agrees caller.new k) (C.stands caller.old k machine.old) (C.holds caller.new k machine.new) (C.stopped caller.new k) call.now.unit call.now.this call.now.args.now function.now parent machine.old machine.new result }
    ensures value { FitsAnswer (FitsValue (sizes machine.new)) (sizes machine.new) result }
    ensures kept { (calls : Calls) (k : Known) → C.follows caller.old k calls → C.follows caller.new k calls }
    ensures agrees { (k : Known) → C.agrees caller.new k → C.agrees caller.old k }
    ensures may { C.may_call caller.new }
    ensures fits { C.fits caller.new machine.new }
    ensures same { C.lent caller.new ≡ C.lent caller.old }
    ensures spent { C.ticks_of caller.new ≤ C.ticks_of caller.old }
    ensures widens { Widens machine.old machine.new }
    ensures steps { steps.old ≤ steps.new }
{
    let slots = own_slots(function);
    let params = function.params;
    let scope = match call_scope(alloc, machine, parent, slots, params, call.args, steps) {
        Ok(scope) => scope,
        Err(_) => return Err(Stop::NoMemory),
    };
    let _sizes = machine.sizes();
    run_code(
        alloc, functions, function, call, scope, caller, machine, steps,
    )
}

// What a call costs: a tick, and another for each eight names of its scope.
fn ticks_of(function: &FunctionCode) -> u64
    requires { 0 < length function.now.slots }
    ensures { result ≡ one_and (own_slots function.now.slots) 8 }
{
    1 + u64::from(own_slots(function)) / 8
}

/// Calls a function of a script, which stands in a scope.
pub(crate) fn call_script<C: Runner<L>, L: Ledger>(
    alloc: Global,
    codes: &[ValidCode],
    call: &InCall<'_>,
    number: u32,
    scope: ScopeId,
    caller: &mut C,
    machine: &mut Machine<'_>,
    steps: &mut Steps<L>,
) -> Result<Value, Stop>
    requires there { StandsThere (counts_of codes.now) machine.old.scopes call.now.unit number scope }
    requires this { FitsValue (sizes machine.old) call.now.this }
    requires args { AllByRecursion (FitsValue (sizes machine.old)) call.now.args.now }
    requires counts { (C.lent caller.old).counts ≡ counts_of codes.now }
    requires may { C.may_call caller.old }
    requires fits { C.fits caller.old machine.old }
    requires first { first_count ≤ length machine.old.objects }
    ensures told { (calls : Calls) (k : Known) (program : Program) → CodesOf codes.now k program → C.follows caller.old k calls → C.agrees caller.new k → Means (λ s. C.stands caller.old k machine.old s × Scoped (k.around call.now.unit number) s.scopes scope.0) (C.holds caller.new k machine.new) (C.stopped caller.new k) machine.new.texts (ShowsValue machine.new.texts) result (call_script program calls call.now.unit number scope (content machine.old.texts call.now.this) (map (content machine.old.texts) call.now.args.now)) }
    ensures value { FitsAnswer (FitsValue (sizes machine.new)) (sizes machine.new) result }
    ensures kept { (calls : Calls) (k : Known) → C.follows caller.old k calls → C.follows caller.new k calls }
    ensures agrees { (k : Known) → C.agrees caller.new k → C.agrees caller.old k }
    ensures may { C.may_call caller.new }
    ensures fits { C.fits caller.new machine.new }
    ensures same { C.lent caller.new ≡ C.lent caller.old }
    ensures spent { C.ticks_of caller.new ≤ C.ticks_of caller.old }
    ensures widens { Widens machine.old machine.new }
    ensures steps { steps.old ≤ steps.new }
{
    valid_code_keeps_its_rule();
    let code = code_at(codes, call.unit).code();
    let function = function_at(code, number);
    match caller.charge(ticks_of(function)) {
        Ok(()) => run_in_scope(
            alloc,
            code.functions.as_slice(),
            function,
            call,
            scope,
            caller,
            machine,
            steps,
        ),
        Err(stop) => Err(stop),
    }
}
