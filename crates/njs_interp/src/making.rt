// Functions that are made where they stand, and `arguments` (ECMA-262 5.1 §10.6, §13).
ghost use Rattle.std.specs.Prelude.{◌≡◌, ◌≤◌, ◌<◌, [], ◌∷◌, List, ℕ, Option, length, map, Some, IfOk, OnOk};
ghost use Rattle.std.specs.List.{AllByRecursion};
ghost use Rattle.njs_shared.specs.Heap.{sizes};
ghost use Rattle.njs_shared.specs.Fits.{FitsValue};
ghost use Rattle.njs_clone.specs.Content.{content};
ghost use Rattle.njs_code.specs.declared.op.Kind.TheVariants as Kind;
ghost use Rattle.njs_meaning.specs.Errors.{first_count};
ghost use Rattle.njs_meaning.specs.Replies.{Known};
ghost use Rattle.njs_meaning.specs.Running.{Calls};
ghost use Rattle.njs_convert.specs.Tells.{Extends, FitsAnswer};
ghost use Rattle.njs_interp.specs.Sits.{Ready, SlotsFrom};
ghost use Rattle.njs_interp.specs.Tells.{Leaves};
ghost use Rattle.njs_interp.specs.Grown.{Widens, Grown, FunctionsFit};
ghost use Rattle.njs_interp.specs.Held.{MeansHeld, paid_arguments};
ghost use Rattle.njs_interp.specs.Closures.{made_closure, HasSlotFor, CountedIn, NamesIn, ScopeFor, MakesNamed};
ghost use Rattle.njs_interp.specs.Stepping.{CountsAre};
ghost use Rattle.njs_interp.specs.Dispatch.{AsksInCall};

use crate::answers::push_given;
use crate::arguments::arguments;
use crate::functions::{Making, give_name, made, named_scope};
use crate::{At, InCall, Runner, Stacks};
use njs_clone::Machine;
use njs_convert::{Caller, Stop};
use njs_text::{NoMemory, Steps, Text};
use njs_value::{ScopeId, Value};
use std::alloc::Global;
use std::sync::ledger::Ledger;

// The scope in which a function is made: with a name one of its own, below the scope where it stands.
fn scope_for<L: Ledger>(
    alloc: Global,
    machine: &mut Machine<'_>,
    parent: ScopeId,
    name: &Option<Text>,
    steps: &mut Steps<L>,
) -> Result<ScopeId, NoMemory>
    requires { parent.0 < length machine.old.scopes }
    ensures scope { IfOk result (λ scope. ScopeFor name.now parent machine.old machine.new scope) }
    ensures grown { Grown machine.old machine.new }
    ensures steps { steps.old ≤ steps.new }
{
    match name {
        None => Ok(parent),
        Some(_) => named_scope(alloc, machine, parent, steps),
    }
}

// Gives the name of a function the function as its value, if it has one.
fn name_function<L: Ledger>(
    alloc: Global,
    machine: &mut Machine<'_>,
    making: Making,
    name: &Option<Text>,
    function: Value,
    steps: &mut Steps<L>,
) -> Result<(), NoMemory>
    requires scope { making.scope.0 < length machine.old.scopes }
    requires slot { HasSlotFor name.now machine.old making.scope }
    requires function { FitsValue (sizes machine.old) function }
    ensures named { OnOk result (NamesIn name.now making.scope function machine.old machine.new) }
    ensures grown { Grown machine.old machine.new }
    ensures steps { steps.old ≤ steps.new }
{
    match name {
        None => Ok(()),
        Some(_) => give_name(alloc, machine, making.scope, function, steps),
    }
}

// The function, in its scope.
fn function_in<L: Ledger>(
    alloc: Global,
    machine: &mut Machine<'_>,
    making: Making,
    name: &Option<Text>,
    steps: &mut Steps<L>,
) -> Result<Value, Stop>
    requires first { first_count ≤ length machine.old.objects }
    requires scope { making.scope.0 < length machine.old.scopes }
    requires slot { HasSlotFor name.now machine.old making.scope }
    ensures told { MakesNamed making.unit making.number making.params making.scope name.now machine.old machine.new result }
    ensures functions { (counts : ℕ → ℕ → Option (List ℕ)) (slots : List ℕ) → counts making.unit making.number ≡ Some slots → SlotsFrom slots machine.old.scopes making.scope.0 → FunctionsFit counts machine.old machine.new }
    ensures widens { Widens machine.old machine.new }
    ensures value { FitsAnswer (FitsValue (sizes machine.new)) (sizes machine.new) result }
    ensures steps { steps.old ≤ steps.new }
{
    let function = match made(alloc, machine, making, steps) {
        Ok(function) => function,
        Err(stop) => return Err(stop),
    };
    match name_function(alloc, machine, making, name, function, steps) {
        Ok(()) => Ok(function),
        Err(_) => Err(Stop::NoMemory),
    }
}

// The function with a number, in a scope of its own name if it has one; it costs a tick.
fn closure_value<C: Runner<L>, L: Ledger>(
    alloc: Global,
    caller: &mut C,
    machine: &mut Machine<'_>,
    making: Making,
    name: &Option<Text>,
    steps: &mut Steps<L>,
) -> Result<Value, Stop>
    requires may { C.may_call caller.old }
    requires fits { C.fits caller.old machine.old }
    requires first { first_count ≤ length machine.old.objects }
    requires scope { making.scope.0 < length machine.old.scopes }
    requires counts { CountedIn (C.lent caller.old).counts making.unit making.number name.now machine.old.scopes making.scope }
    ensures told { (k : Known) → MeansHeld (C.stands caller.old k machine.old) (C.holds caller.new k machine.new) (C.stopped caller.new k) machine.new.texts result (made_closure making.unit making.number making.params making.scope name.now) }
    ensures value { FitsAnswer (FitsValue (sizes machine.new)) (sizes machine.new) result }
    ensures kept { (calls : Calls) (k : Known) → C.follows caller.old k calls → C.follows caller.new k calls }
    ensures agrees { (k : Known) → C.agrees caller.new k → C.agrees caller.old k }
    ensures may { C.may_call caller.new }
    ensures fits { C.fits caller.new machine.new }
    ensures same { C.lent caller.new ≡ C.lent caller.old }
    ensures spent { C.ticks_of caller.new ≤ C.ticks_of caller.old }
    ensures widens { Widens machine.old machine.new }
    ensures steps { steps.old ≤ steps.new }
{
    let _sizes = machine.sizes();
    let scope = match scope_for(alloc, machine, making.scope, name, steps) {
        Ok(scope) => scope,
        Err(_) => return Err(Stop::NoMemory),
    };
    let _scoped = machine.sizes();
    match caller.charge(1) {
        Ok(()) => {
            let made = function_in(alloc, machine, Making { scope, ..making }, name, steps);
            let _made = machine.sizes();
            made
        }
        Err(stop) => Err(stop),
    }
}

/// Makes the function with a number, whose `length` is so many parameters; a name stands in a scope of its own around it
/// (ECMA-262 5.1 §13): `[] → [function]`
pub(crate) fn closure<C: Runner<L>, L: Ledger>(
    alloc: Global,
    at: &At<'_>,
    call: &InCall<'_>,
    caller: &mut C,
    machine: &mut Machine<'_>,
    stacks: &mut Stacks<'_>,
    number: u32,
    params: u32,
    name: &Option<Text>,
    steps: &mut Steps<L>,
) -> Result<(), Stop>
    requires kind { at.now.op.now.kind ≡ Kind.Closure number params name.now }
    requires ready { Ready at.now.functions.now at.now.function.now at.now.op.now machine.old stacks.old }
    requires counts { CountsAre (C.lent caller.old).counts call.now.unit at.now.functions.now }
    requires may { C.may_call caller.old }
    requires fits { C.fits caller.old machine.old }
    requires first { first_count ≤ length machine.old.objects }
    ensures told { (k : Known) → AsksInCall (C.follows caller.old k) (C.agrees caller.new k) (C.stands caller.old k machine.old) (C.holds caller.new k machine.new) (C.stopped caller.new k) call.now.unit call.now.this call.now.args.now (Kind.Closure number params name.now) machine.old machine.new stacks.old stacks.new result }
    ensures leaves { Leaves at.now.function.now at.now.op.now machine.new stacks.new result }
    ensures kept { (calls : Calls) (k : Known) → C.follows caller.old k calls → C.follows caller.new k calls }
    ensures agrees { (k : Known) → C.agrees caller.new k → C.agrees caller.old k }
    ensures may { C.may_call caller.new }
    ensures fits { C.fits caller.new machine.new }
    ensures same { C.lent caller.new ≡ C.lent caller.old }
    ensures spent { C.ticks_of caller.new ≤ C.ticks_of caller.old }
    ensures widens { Widens machine.old machine.new }
    ensures steps { steps.old ≤ steps.new }
{
    let _op = at.op;
    let _sizes = machine.sizes();
    let making = Making {
        unit: call.unit,
        number,
        params,
        scope: stacks.scopes.top(),
    };
    let given = closure_value(alloc, caller, machine, making, name, steps);
    push_given(stacks, given)
}

// The `arguments` of a call, which cost a tick for each eight, and one.
fn arguments_value<C: Runner<L>, L: Ledger>(
    alloc: Global,
    caller: &mut C,
    machine: &mut Machine<'_>,
    args: &[Value],
    steps: &mut Steps<L>,
) -> Result<Value, Stop>
    requires may { C.may_call caller.old }
    requires fits { C.fits caller.old machine.old }
    requires first { first_count ≤ length machine.old.objects }
    requires args { AllByRecursion (FitsValue (sizes machine.old)) args.now }
    ensures told { (k : Known) → MeansHeld (C.stands caller.old k machine.old) (C.holds caller.new k machine.new) (C.stopped caller.new k) machine.new.texts result (paid_arguments (length args.now) (map (content machine.old.texts) args.now)) }
    ensures value { FitsAnswer (FitsValue (sizes machine.new)) (sizes machine.new) result }
    ensures kept { (calls : Calls) (k : Known) → C.follows caller.old k calls → C.follows caller.new k calls }
    ensures agrees { (k : Known) → C.agrees caller.new k → C.agrees caller.old k }
    ensures may { C.may_call caller.new }
    ensures fits { C.fits caller.new machine.new }
    ensures same { C.lent caller.new ≡ C.lent caller.old }
    ensures spent { C.ticks_of caller.new ≤ C.ticks_of caller.old }
    ensures extends { Extends machine.old machine.new }
    ensures steps { steps.old ≤ steps.new }
{
    let _sizes = machine.sizes();
    match caller.charge(1 + args.len() as u64 / 8) {
        Ok(()) => {
            let object = arguments(alloc, machine, args, steps);
            let _made = machine.sizes();
            object
        }
        Err(stop) => Err(stop),
    }
}

/// The `arguments` of the call (ECMA-262 5.1 §10.6): `[] → [object]`
pub(crate) fn call_arguments<C: Runner<L>, L: Ledger>(
    alloc: Global,
    at: &At<'_>,
    call: &InCall<'_>,
    caller: &mut C,
    machine: &mut Machine<'_>,
    stacks: &mut Stacks<'_>,
    steps: &mut Steps<L>,
) -> Result<(), Stop>
    requires kind { at.now.op.now.kind ≡ Kind.Arguments }
    requires ready { Ready at.now.functions.now at.now.function.now at.now.op.now machine.old stacks.old }
    requires args { AllByRecursion (FitsValue (sizes machine.old)) call.now.args.now }
    requires may { C.may_call caller.old }
    requires fits { C.fits caller.old machine.old }
    requires first { first_count ≤ length machine.old.objects }
    ensures told { (k : Known) → AsksInCall (C.follows caller.old k) (C.agrees caller.new k) (C.stands caller.old k machine.old) (C.holds caller.new k machine.new) (C.stopped caller.new k) call.now.unit call.now.this call.now.args.now Kind.Arguments machine.old machine.new stacks.old stacks.new result }
    ensures leaves { Leaves at.now.function.now at.now.op.now machine.new stacks.new result }
    ensures kept { (calls : Calls) (k : Known) → C.follows caller.old k calls → C.follows caller.new k calls }
    ensures agrees { (k : Known) → C.agrees caller.new k → C.agrees caller.old k }
    ensures may { C.may_call caller.new }
    ensures fits { C.fits caller.new machine.new }
    ensures same { C.lent caller.new ≡ C.lent caller.old }
    ensures spent { C.ticks_of caller.new ≤ C.ticks_of caller.old }
    ensures widens { Widens machine.old machine.new }
    ensures steps { steps.old ≤ steps.new }
{
    let _op = at.op;
    let _sizes = machine.sizes();
    let given = arguments_value(alloc, caller, machine, call.args, steps);
    push_given(stacks, given)
}
