// Members of values (ECMA-262 5.1 §8.7, §11.2.1, §11.4.1, §11.13).
ghost use Rattle.std.specs.Prelude.{◌≡◌, ◌≤◌, length, true, Err, IfOk, OnErr};
ghost use Rattle.njs_shared.specs.Heap.{sizes};
ghost use Rattle.njs_shared.specs.Fits.{FitsValue};
ghost use Rattle.njs_clone.specs.Content.{content};
ghost use Rattle.njs_clone.specs.StandsFor.{plain_objects};
ghost use Rattle.njs_meaning.specs.State.{Gives};
ghost use Rattle.njs_meaning.specs.Errors.{first_count};
ghost use Rattle.njs_meaning.specs.Members.{with_members, get_member, put_member, delete_member};
ghost use Rattle.njs_convert.specs.Tells.{Extends, FitsAnswer};
ghost use Rattle.njs_members.specs.Gains.{GainsTexts};
ghost use Rattle.njs_simul.specs.Step.{name_in};
ghost use Rattle.njs_interp.specs.Sits.{Ready};
ghost use Rattle.njs_interp.specs.Grown.{Grown};
ghost use Rattle.njs_interp.specs.Tells.{ActsOnHeap, Leaves};
ghost use Rattle.njs_interp.specs.Outcomes.{MeansOnHeap, Moves, read_member};

use crate::answers::{given, push_given};
use crate::names::name_of;
use crate::taken::{show_two, take_one, take_three, take_two};
use crate::{At, Stacks};
use njs_clone::Machine;
use njs_code::Kind;
use njs_convert::Stop;
use njs_members::{delete_member, get_member, has_members, put_member};
use njs_text::{NoMemory, Steps};
use njs_value::{Cause, HeapStop, Value};
use std::alloc::Global;
use std::sync::ledger::Ledger;

// What a name reads, where there is memory for it.
fn read(
    alloc: Global,
    machine: &mut Machine<'_>,
    base: Value,
    name: Value,
) -> Result<Value, NoMemory>
    requires first { first_count ≤ length machine.old.objects }
    requires base { FitsValue (sizes machine.old) base }
    requires name { FitsValue (sizes machine.old) name }
    ensures value { IfOk result (λ v. content machine.new.texts v ≡ get_member (name_in (content machine.old.texts name)) (content machine.old.texts base) (plain_objects machine.old)) }
    ensures fits { IfOk result (FitsValue (sizes machine.new)) }
    ensures texts { GainsTexts machine.old machine.new }
{
    let _sizes = machine.sizes();
    let name = match name_of(machine, name) {
        Ok(name) => name,
        Err(_) => return Err(NoMemory),
    };
    get_member(alloc, machine, base, name)
}

// The value that a name reads.
fn member_of(
    alloc: Global,
    machine: &mut Machine<'_>,
    base: Value,
    name: Value,
) -> Result<Value, Stop>
    requires first { first_count ≤ length machine.old.objects }
    requires base { FitsValue (sizes machine.old) base }
    requires name { FitsValue (sizes machine.old) name }
    ensures told { MeansOnHeap machine.old machine.new result (read_member (name_in (content machine.old.texts name)) (content machine.old.texts base)) }
    ensures extends { Extends machine.old machine.new }
    ensures fits { FitsAnswer (FitsValue (sizes machine.new)) (sizes machine.new) result }
    ensures memory { OnErr result (result ≡ Err Stop.NoMemory) }
{
    let _sizes = machine.sizes();
    match read(alloc, machine, base, name) {
        Ok(value) => Ok(value),
        Err(_) => Err(Stop::NoMemory),
    }
}

// A value that has members.
fn with_members<L: Ledger>(
    alloc: Global,
    machine: &mut Machine<'_>,
    base: Value,
    steps: &mut Steps<L>,
) -> Result<Value, Stop>
    requires first { first_count ≤ length machine.old.objects }
    requires base { FitsValue (sizes machine.old) base }
    ensures told { MeansOnHeap machine.old machine.new result (with_members (content machine.old.texts base) (Gives (content machine.old.texts base))) }
    ensures extends { Extends machine.old machine.new }
    ensures fits { FitsAnswer (FitsValue (sizes machine.new)) (sizes machine.new) result }
    ensures steps { steps.old ≤ steps.new }
{
    let done = if has_members(base) {
        Ok(())
    } else {
        Err(HeapStop::Throw(Cause::NullBase))
    };
    given(alloc, machine, base, done, steps)
}

// Gives a member its value.
fn with_member<L: Ledger>(
    alloc: Global,
    machine: &mut Machine<'_>,
    base: Value,
    name: Value,
    value: Value,
    steps: &mut Steps<L>,
) -> Result<Value, Stop>
    requires first { first_count ≤ length machine.old.objects }
    requires base { FitsValue (sizes machine.old) base }
    requires name { FitsValue (sizes machine.old) name }
    requires value { FitsValue (sizes machine.old) value }
    ensures told { MeansOnHeap machine.old machine.new result (put_member (name_in (content machine.old.texts name)) (content machine.old.texts base) (content machine.old.texts value)) }
    ensures extends { Extends machine.old machine.new }
    ensures fits { FitsAnswer (FitsValue (sizes machine.new)) (sizes machine.new) result }
    ensures steps { steps.old ≤ steps.new }
{
    let _sizes = machine.sizes();
    let name = match name_of(machine, name) {
        Ok(name) => name,
        Err(_) => return Err(Stop::NoMemory),
    };
    let done = put_member(alloc, machine, base, name, value, steps);
    given(alloc, machine, value, done, steps)
}

// Deletes a member.
fn without_member<L: Ledger>(
    alloc: Global,
    machine: &mut Machine<'_>,
    base: Value,
    name: Value,
    steps: &mut Steps<L>,
) -> Result<Value, Stop>
    requires first { first_count ≤ length machine.old.objects }
    requires base { FitsValue (sizes machine.old) base }
    requires name { FitsValue (sizes machine.old) name }
    ensures told { MeansOnHeap machine.old machine.new result (delete_member (name_in (content machine.old.texts name)) (content machine.old.texts base)) }
    ensures extends { Extends machine.old machine.new }
    ensures fits { FitsAnswer (FitsValue (sizes machine.new)) (sizes machine.new) result }
    ensures steps { steps.old ≤ steps.new }
{
    let _sizes = machine.sizes();
    let name = match name_of(machine, name) {
        Ok(name) => name,
        Err(_) => return Err(Stop::NoMemory),
    };
    let done = delete_member(alloc, machine, base, name, steps);
    given(alloc, machine, Value::Bool(true), done, steps)
}

/// Throws where the value has no members: `[base] → [base]`
pub(crate) fn base<L: Ledger>(
    alloc: Global,
    at: &At<'_>,
    machine: &mut Machine<'_>,
    stacks: &mut Stacks<'_>,
    steps: &mut Steps<L>,
) -> Result<(), Stop>
    requires kind { at.now.op.now.kind ≡ Kind.Base }
    requires ready { Ready at.now.functions.now at.now.function.now at.now.op.now machine.old stacks.old }
    requires first { first_count ≤ length machine.old.objects }
    ensures told { ActsOnHeap Kind.Base machine.old machine.new stacks.old stacks.new result }
    ensures leaves { Leaves at.now.function.now at.now.op.now machine.new stacks.new result }
    ensures grown { Grown machine.old machine.new }
    ensures steps { steps.old ≤ steps.new }
{
    let base = take_one(at, machine, stacks);
    let given = with_members(alloc, machine, base, steps);
    push_given(stacks, given)
}

/// The value of a member: `[base, name] → [value]`
pub(crate) fn get(
    alloc: Global,
    at: &At<'_>,
    machine: &mut Machine<'_>,
    stacks: &mut Stacks<'_>,
) -> Result<(), Stop>
    requires kind { at.now.op.now.kind ≡ Kind.Get }
    requires ready { Ready at.now.functions.now at.now.function.now at.now.op.now machine.old stacks.old }
    requires first { first_count ≤ length machine.old.objects }
    ensures told { ActsOnHeap Kind.Get machine.old machine.new stacks.old stacks.new result }
    ensures leaves { Leaves at.now.function.now at.now.op.now machine.new stacks.new result }
    ensures grown { Grown machine.old machine.new }
{
    let (base, name) = take_two(at, machine, stacks);
    let given = member_of(alloc, machine, base, name);
    push_given(stacks, given)
}

/// The same, over its base and name: `[base, name] → [base, name, value]`
pub(crate) fn get_kept(
    alloc: Global,
    at: &At<'_>,
    machine: &mut Machine<'_>,
    stacks: &mut Stacks<'_>,
) -> Result<(), Stop>
    requires kind { at.now.op.now.kind ≡ Kind.GetKept }
    requires ready { Ready at.now.functions.now at.now.function.now at.now.op.now machine.old stacks.old }
    requires first { first_count ≤ length machine.old.objects }
    ensures told { ActsOnHeap Kind.GetKept machine.old machine.new stacks.old stacks.new result }
    ensures leaves { Leaves at.now.function.now at.now.op.now machine.new stacks.new result }
    ensures grown { Grown machine.old machine.new }
{
    let (base, name) = show_two(at, machine, stacks);
    let given = member_of(alloc, machine, base, name);
    push_given(stacks, given)
}

/// The same, over its base alone: `[base, name] → [base, value]`
pub(crate) fn method(
    alloc: Global,
    at: &At<'_>,
    machine: &mut Machine<'_>,
    stacks: &mut Stacks<'_>,
) -> Result<(), Stop>
    requires kind { at.now.op.now.kind ≡ Kind.Method }
    requires ready { Ready at.now.functions.now at.now.function.now at.now.op.now machine.old stacks.old }
    requires first { first_count ≤ length machine.old.objects }
    ensures told { ActsOnHeap Kind.Method machine.old machine.new stacks.old stacks.new result }
    ensures leaves { Leaves at.now.function.now at.now.op.now machine.new stacks.new result }
    ensures grown { Grown machine.old machine.new }
{
    let (base, name) = show_two(at, machine, stacks);
    stacks.operands.pop();
    let given = member_of(alloc, machine, base, name);
    push_given(stacks, given)
}

/// Gives a member its value: `[base, name, value] → [value]`
pub(crate) fn put<L: Ledger>(
    alloc: Global,
    at: &At<'_>,
    machine: &mut Machine<'_>,
    stacks: &mut Stacks<'_>,
    steps: &mut Steps<L>,
) -> Result<(), Stop>
    requires kind { at.now.op.now.kind ≡ Kind.Put }
    requires ready { Ready at.now.functions.now at.now.function.now at.now.op.now machine.old stacks.old }
    requires first { first_count ≤ length machine.old.objects }
    ensures told { ActsOnHeap Kind.Put machine.old machine.new stacks.old stacks.new result }
    ensures leaves { Leaves at.now.function.now at.now.op.now machine.new stacks.new result }
    ensures grown { Grown machine.old machine.new }
    ensures steps { steps.old ≤ steps.new }
{
    let (base, name, value) = take_three(at, machine, stacks);
    let given = with_member(alloc, machine, base, name, value, steps);
    push_given(stacks, given)
}

/// Deletes a member: `[base, name] → [true]`
pub(crate) fn delete<L: Ledger>(
    alloc: Global,
    at: &At<'_>,
    machine: &mut Machine<'_>,
    stacks: &mut Stacks<'_>,
    steps: &mut Steps<L>,
) -> Result<(), Stop>
    requires kind { at.now.op.now.kind ≡ Kind.DeleteMember }
    requires ready { Ready at.now.functions.now at.now.function.now at.now.op.now machine.old stacks.old }
    requires first { first_count ≤ length machine.old.objects }
    ensures told { ActsOnHeap Kind.DeleteMember machine.old machine.new stacks.old stacks.new result }
    ensures leaves { Leaves at.now.function.now at.now.op.now machine.new stacks.new result }
    ensures grown { Grown machine.old machine.new }
    ensures steps { steps.old ≤ steps.new }
{
    let (base, name) = take_two(at, machine, stacks);
    let given = without_member(alloc, machine, base, name, steps);
    push_given(stacks, given)
}
