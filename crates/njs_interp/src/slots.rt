// Operations on the slots of scopes (ECMA-262 5.1 §10.2).
ghost use Rattle.std.specs.Prelude.{◌≡◌, ◌≤◌, ◌<◌, [], length};
ghost use Rattle.njs_shared.specs.Heap.{sizes};
ghost use Rattle.njs_shared.specs.Fits.{FitsValue};
ghost use Rattle.njs_clone.specs.Scopes.{slot_count};
ghost use Rattle.njs_code.specs.declared.op.Kind.TheVariants as Kind;
ghost use Rattle.njs_interp.specs.Sits.{Ready};
ghost use Rattle.njs_interp.specs.Tells.{ActsOnHeap, Leaves};
ghost use Rattle.njs_interp.specs.Grown.{Grown};
ghost use Rattle.njs_interp.specs.Slots.{outwards, HasPut, HasEntered};

use crate::operands::{give, take};
use crate::{At, Stacks};
use njs_clone::Machine;
use njs_convert::Stop;
use njs_text::{Steps, Text};
use njs_value::{ScopeId, Value};
use std::alloc::Global;
use std::sync::ledger::Ledger;

const OUTERMOST: ScopeId = ScopeId(0);

// The scope so many scopes out.
fn outwards(machine: &Machine<'_>, scope: ScopeId, up: u32) -> ScopeId
    requires { scope.0 < length machine.now.scopes }
    ensures place { result.0 ≡ outwards up machine.now.scopes scope.0 }
    ensures within { result.0 < length machine.now.scopes }
{
    let mut at = scope;
    for step in 0..up {
        let Some(next) = machine.parent(at) else {
            return at;
        };
        at = next;
    }
    at
}

/// The value of a slot, so many scopes out: `[] → [value]`
pub(crate) fn load(
    at: &At<'_>,
    machine: &Machine<'_>,
    stacks: &mut Stacks<'_>,
    up: u32,
    slot: u32,
) -> Result<(), Stop>
    requires kind { at.now.op.now.kind ≡ Kind.Load up slot }
    requires ready { Ready at.now.functions.now at.now.function.now at.now.op.now machine.now stacks.old }
    ensures told { ActsOnHeap (Kind.Load up slot) machine.now machine.now stacks.old stacks.new result }
    ensures leaves { Leaves at.now.function.now at.now.op.now machine.now stacks.new result }
{
    let _op = at.op;
    let _sizes = machine.sizes();
    let own = stacks.scopes.top();
    let scope = outwards(machine, own, up);
    let value = machine.scope_get(scope, slot);
    give(at, machine, stacks, value)
}

/// The value of a slot of the outermost scope: `[] → [value]`
pub(crate) fn load_global(
    at: &At<'_>,
    machine: &Machine<'_>,
    stacks: &mut Stacks<'_>,
    slot: u32,
) -> Result<(), Stop>
    requires kind { at.now.op.now.kind ≡ Kind.LoadGlobal slot }
    requires ready { Ready at.now.functions.now at.now.function.now at.now.op.now machine.now stacks.old }
    ensures told { ActsOnHeap (Kind.LoadGlobal slot) machine.now machine.now stacks.old stacks.new result }
    ensures leaves { Leaves at.now.function.now at.now.op.now machine.now stacks.new result }
{
    let _op = at.op;
    let _sizes = machine.sizes();
    let value = machine.scope_get(OUTERMOST, slot);
    give(at, machine, stacks, value)
}

// Gives a slot a value.
fn put<L: Ledger>(
    alloc: Global,
    machine: &mut Machine<'_>,
    scope: ScopeId,
    slot: u32,
    value: Value,
    steps: &mut Steps<L>,
) -> Result<(), Stop>
    requires scope { scope.0 < length machine.old.scopes }
    requires slot { slot < slot_count machine.old.scopes scope.0 }
    requires value { FitsValue (sizes machine.old) value }
    ensures put { HasPut scope.0 slot value machine.old machine.new result }
    ensures steps { steps.old ≤ steps.new }
{
    match machine.scope_put(alloc, scope, slot, value, steps) {
        Ok(()) => Ok(()),
        Err(_) => Err(Stop::NoMemory),
    }
}

/// Gives a slot a value, which stays: `[value] → [value]`
pub(crate) fn store<L: Ledger>(
    alloc: Global,
    at: &At<'_>,
    machine: &mut Machine<'_>,
    stacks: &Stacks<'_>,
    up: u32,
    slot: u32,
    steps: &mut Steps<L>,
) -> Result<(), Stop>
    requires kind { at.now.op.now.kind ≡ Kind.Store up slot }
    requires ready { Ready at.now.functions.now at.now.function.now at.now.op.now machine.old stacks.now }
    ensures told { ActsOnHeap (Kind.Store up slot) machine.old machine.new stacks.now stacks.now result }
    ensures leaves { Leaves at.now.function.now at.now.op.now machine.new stacks.now result }
    ensures grown { Grown machine.old machine.new }
    ensures steps { steps.old ≤ steps.new }
{
    let _op = at.op;
    let _sizes = machine.sizes();
    let own = stacks.scopes.top();
    let scope = outwards(machine, own, up);
    let value = stacks.operands.top();
    put(alloc, machine, scope, slot, value, steps)
}

/// Gives a slot of the outermost scope a value, which stays: `[value] → [value]`
pub(crate) fn store_global<L: Ledger>(
    alloc: Global,
    at: &At<'_>,
    machine: &mut Machine<'_>,
    stacks: &Stacks<'_>,
    slot: u32,
    steps: &mut Steps<L>,
) -> Result<(), Stop>
    requires kind { at.now.op.now.kind ≡ Kind.StoreGlobal slot }
    requires ready { Ready at.now.functions.now at.now.function.now at.now.op.now machine.old stacks.now }
    ensures told { ActsOnHeap (Kind.StoreGlobal slot) machine.old machine.new stacks.now stacks.now result }
    ensures leaves { Leaves at.now.function.now at.now.op.now machine.new stacks.now result }
    ensures grown { Grown machine.old machine.new }
    ensures steps { steps.old ≤ steps.new }
{
    let _op = at.op;
    let _sizes = machine.sizes();
    let value = stacks.operands.top();
    put(alloc, machine, OUTERMOST, slot, value, steps)
}

/// Leaves the scope that was entered last.
pub(crate) fn leave(at: &At<'_>, machine: &Machine<'_>, stacks: &mut Stacks<'_>) -> Result<(), Stop>
    requires kind { at.now.op.now.kind ≡ Kind.Leave }
    requires ready { Ready at.now.functions.now at.now.function.now at.now.op.now machine.now stacks.old }
    ensures told { ActsOnHeap Kind.Leave machine.now machine.now stacks.old stacks.new result }
    ensures leaves { Leaves at.now.function.now at.now.op.now machine.now stacks.new result }
{
    let _op = at.op;
    let _sizes = machine.sizes();
    stacks.scopes.pop();
    Ok(())
}

// A scope below another, with one slot that has the value.
fn scope_with<L: Ledger>(
    alloc: Global,
    machine: &mut Machine<'_>,
    parent: ScopeId,
    value: Value,
    steps: &mut Steps<L>,
) -> Result<ScopeId, Stop>
    requires parent { parent.0 < length machine.old.scopes }
    requires value { FitsValue (sizes machine.old) value }
    ensures entered { HasEntered parent value machine.old machine.new result }
    ensures grown { Grown machine.old machine.new }
    ensures steps { steps.old ≤ steps.new }
{
    let scope = match machine.new_scope(alloc, parent, 1, steps) {
        Ok(scope) => scope,
        Err(_) => return Err(Stop::NoMemory),
    };
    match put(alloc, machine, scope, 0, value, steps) {
        Ok(()) => Ok(scope),
        Err(stop) => Err(stop),
    }
}

/// Enters a scope with one name, which has the value (ECMA-262 5.1 §12.14, §13): `[value] → []`
pub(crate) fn enter<L: Ledger>(
    alloc: Global,
    at: &At<'_>,
    machine: &mut Machine<'_>,
    stacks: &mut Stacks<'_>,
    name: &Text,
    steps: &mut Steps<L>,
) -> Result<(), Stop>
    requires kind { at.now.op.now.kind ≡ Kind.Enter name.now }
    requires ready { Ready at.now.functions.now at.now.function.now at.now.op.now machine.old stacks.old }
    ensures told { ActsOnHeap (Kind.Enter name.now) machine.old machine.new stacks.old stacks.new result }
    ensures leaves { Leaves at.now.function.now at.now.op.now machine.new stacks.new result }
    ensures grown { Grown machine.old machine.new }
    ensures steps { steps.old ≤ steps.new }
{
    let own = stacks.scopes.top();
    let value = take(at, machine, stacks);
    let scope = match scope_with(alloc, machine, own, value, steps) {
        Ok(scope) => scope,
        Err(stop) => return Err(stop),
    };
    match stacks.scopes.push(scope) {
        Ok(()) => Ok(()),
        Err(_) => Err(Stop::NoMemory),
    }
}
