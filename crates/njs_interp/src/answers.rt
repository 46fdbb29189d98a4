// Values that parts of operations give.
ghost use Rattle.std.specs.Prelude.{◌≡◌, ◌≤◌, length, Ok, Err};
ghost use Rattle.njs_shared.specs.Heap.{Heap, sizes};
ghost use Rattle.njs_shared.specs.Fits.{FitsValue, FitsHeap};
ghost use Rattle.njs_clone.specs.Content.{content};
ghost use Rattle.njs_meaning.specs.Values.{PlainValue};
ghost use Rattle.njs_meaning.specs.State.{State, Outcome};
ghost use Rattle.njs_meaning.specs.Errors.{first_count};
ghost use Rattle.njs_convert.specs.Tells.{Extends, FitsAnswer};
ghost use Rattle.njs_members.specs.Gains.{KeepsRest};
ghost use Rattle.njs_members.specs.Tells as members;
ghost use Rattle.njs_interp.specs.Outcomes.{MeansOnHeap, AsksNothing, Pushes, ThrowsNoName};

use crate::Stacks;
use njs_clone::Machine;
use njs_convert::{Stop, throw};
use njs_text::Steps;
use njs_value::{HeapStop, Value};
use std::alloc::Global;
use std::sync::ledger::Ledger;

// Puts a value on top.
pub(crate) fn push(stacks: &mut Stacks<'_>, value: Value) -> Result<(), Stop>
    ensures { Pushes (Ok value) stacks.old stacks.new result }
{
    if stacks.operands.push(value).is_err() {
        return Err(Stop::NoMemory);
    }
    Ok(())
}

// Puts a value that was given on top.
pub(crate) fn push_given(stacks: &mut Stacks<'_>, given: Result<Value, Stop>) -> Result<(), Stop>
    ensures { Pushes given stacks.old stacks.new result }
{
    match given {
        Ok(value) => push(stacks, value),
        Err(stop) => Err(stop),
    }
}

// Why a change gave nothing: an error of its cause is thrown, or there was no memory.
fn stopped<L: Ledger>(
    alloc: Global,
    machine: &mut Machine<'_>,
    stop: HeapStop,
    steps: &mut Steps<L>,
) -> Stop
    requires first { first_count ≤ length machine.old.objects }
    requires cause { ThrowsNoName (Err stop) }
    ensures told { (h : Heap) (m : State → Outcome PlainValue) (v : PlainValue) → KeepsRest h machine.old → AsksNothing m → members.Tells {A = Unit {0}} v m h machine.old (Err stop) → MeansOnHeap h machine.new (Err result) m }
    ensures extends { Extends machine.old machine.new }
    ensures fits { FitsAnswer (FitsValue (sizes machine.new)) (sizes machine.new) (Err result) }
    ensures steps { steps.old ≤ steps.new }
{
    let _sizes = machine.sizes();
    match stop {
        HeapStop::Throw(cause) => throw(alloc, machine, cause, steps),
        HeapStop::NoMemory => Stop::NoMemory,
    }
}

// The value of a change that threw nothing; else an error of its cause is thrown.
pub(crate) fn given<L: Ledger>(
    alloc: Global,
    machine: &mut Machine<'_>,
    value: Value,
    done: Result<(), HeapStop>,
    steps: &mut Steps<L>,
) -> Result<Value, Stop>
    requires first { first_count ≤ length machine.old.objects }
    requires value { FitsValue (sizes machine.old) value }
    requires cause { ThrowsNoName done }
    ensures told { (h : Heap) (m : State → Outcome PlainValue) → KeepsRest h machine.old → AsksNothing m → members.Tells (content machine.old.texts value) m h machine.old done → MeansOnHeap h machine.new result m }
    ensures extends { Extends machine.old machine.new }
    ensures fits { FitsAnswer (FitsValue (sizes machine.new)) (sizes machine.new) result }
    ensures steps { steps.old ≤ steps.new }
{
    match done {
        Ok(()) => Ok(value),
        Err(stop) => Err(stopped(alloc, machine, stop, steps)),
    }
}
