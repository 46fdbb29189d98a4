// Errors that an operation throws by itself (ECMA-262 5.1 §8.7.1, §8.7.2, §10.2.1.1.3).
ghost use Rattle.std.specs.Prelude.{◌≡◌, ◌≤◌, ◌<◌, length, Err, IfOk, OnOk};
ghost use Rattle.njs_shared.specs.Heap.{sizes};
ghost use Rattle.njs_shared.specs.Fits.{FitsValue};
ghost use Rattle.njs_code.specs.declared.op.Kind.TheVariants as Kind;
ghost use Rattle.njs_meaning.specs.Errors.{first_count, throw};
ghost use Rattle.njs_meaning.specs.Running.{throw_not_defined};
ghost use Rattle.njs_convert.specs.Tells.{Extends, FitsAnswer};
ghost use Rattle.njs_members.specs.Starts.{text_at};
ghost use Rattle.njs_members.specs.Gains.{GainsTexts};
ghost use Rattle.njs_simul.specs.Step.{fails};
ghost use Rattle.njs_interp.specs.Sits.{Ready};
ghost use Rattle.njs_interp.specs.Tells.{ActsOnHeap, Leaves};
ghost use Rattle.njs_interp.specs.Grown.{Grown};
ghost use Rattle.njs_interp.specs.Outcomes.{MeansOnHeap};
ghost use Rattle.njs_interp.specs.Dispatch.{Continues};

use crate::{At, Stacks};
use njs_clone::Machine;
use njs_code::Failure;
use njs_convert::{Stop, throw};
use njs_text::{NoMemory, Steps, Text};
use njs_value::{Cause, TextId};
use std::alloc::Global;
use std::sync::ledger::Ledger;

// A name as a new text of the machine.
fn add_name(alloc: Global, machine: &mut Machine<'_>, name: &Text) -> Result<TextId, NoMemory>
    ensures name { IfOk result (λ id. text_at machine.new.texts id ≡ name.now) }
    ensures fits { IfOk result (λ id. id.0 < length machine.new.texts) }
    ensures texts { GainsTexts machine.old machine.new }
{
    let _sizes = machine.sizes();
    let copy = match name.copy(alloc) {
        Ok(copy) => copy,
        Err(_) => return Err(NoMemory),
    };
    let id = machine.add_text(copy)?;
    Ok(id)
}

// The error of a name that is bound nowhere.
fn not_defined<L: Ledger>(
    alloc: Global,
    machine: &mut Machine<'_>,
    name: &Text,
    steps: &mut Steps<L>,
) -> Stop
    requires { first_count ≤ length machine.old.objects }
    ensures told { MeansOnHeap machine.old machine.new (Err result) (throw_not_defined name.now) }
    ensures extends { Extends machine.old machine.new }
    ensures fits { FitsAnswer (FitsValue (sizes machine.new)) (sizes machine.new) (Err result) }
    ensures steps { steps.old ≤ steps.new }
{
    let _sizes = machine.sizes();
    let name = match add_name(alloc, machine, name) {
        Ok(name) => name,
        Err(_) => return Stop::NoMemory,
    };
    throw_named(alloc, machine, name, steps)
}

// The same, where the name is a text of the machine.
fn throw_named<L: Ledger>(
    alloc: Global,
    machine: &mut Machine<'_>,
    name: TextId,
    steps: &mut Steps<L>,
) -> Stop
    requires first { first_count ≤ length machine.old.objects }
    requires name { name.0 < length machine.old.texts }
    ensures told { MeansOnHeap machine.old machine.new (Err result) (throw_not_defined (text_at machine.old.texts name)) }
    ensures extends { Extends machine.old machine.new }
    ensures fits { FitsAnswer (FitsValue (sizes machine.new)) (sizes machine.new) (Err result) }
    ensures steps { steps.old ≤ steps.new }
{
    let _sizes = machine.sizes();
    throw(alloc, machine, Cause::NotDefined(name), steps)
}

// The error of a name that can't be assigned.
fn read_only<L: Ledger>(alloc: Global, machine: &mut Machine<'_>, steps: &mut Steps<L>) -> Stop
    requires { first_count ≤ length machine.old.objects }
    ensures told { MeansOnHeap machine.old machine.new (Err result) (throw Cause.ReadOnly) }
    ensures extends { Extends machine.old machine.new }
    ensures fits { FitsAnswer (FitsValue (sizes machine.new)) (sizes machine.new) (Err result) }
    ensures steps { steps.old ≤ steps.new }
{
    let _sizes = machine.sizes();
    throw(alloc, machine, Cause::ReadOnly, steps)
}

// The error of a failure.
fn failed<L: Ledger>(
    alloc: Global,
    machine: &mut Machine<'_>,
    failure: &Failure,
    steps: &mut Steps<L>,
) -> Stop
    requires { first_count ≤ length machine.old.objects }
    ensures told { MeansOnHeap machine.old machine.new (Err result) (fails failure.now) }
    ensures extends { Extends machine.old machine.new }
    ensures fits { FitsAnswer (FitsValue (sizes machine.new)) (sizes machine.new) (Err result) }
    ensures steps { steps.old ≤ steps.new }
{
    match failure {
        Failure::NotDefined(name) => not_defined(alloc, machine, name, steps),
        Failure::ReadOnly => read_only(alloc, machine, steps),
    }
}

/// Throws.
pub(crate) fn fail<L: Ledger>(
    alloc: Global,
    at: &At<'_>,
    machine: &mut Machine<'_>,
    stacks: &Stacks<'_>,
    failure: &Failure,
    steps: &mut Steps<L>,
) -> Result<(), Stop>
    requires kind { at.now.op.now.kind ≡ Kind.Fail failure.now }
    requires ready { Ready at.now.functions.now at.now.function.now at.now.op.now machine.old stacks.now }
    requires first { first_count ≤ length machine.old.objects }
    ensures told { ActsOnHeap (Kind.Fail failure.now) machine.old machine.new stacks.now stacks.now result }
    ensures goes { Continues at.now.op.now.kind result }
    ensures leaves { Leaves at.now.function.now at.now.op.now machine.new stacks.now result }
    ensures grown { Grown machine.old machine.new }
    ensures steps { steps.old ≤ steps.new }
{
    let _op = at.op;
    let _sizes = machine.sizes();
    Err(failed(alloc, machine, failure, steps))
}
