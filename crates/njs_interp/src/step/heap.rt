// Operations on the heap, by families.
ghost use Rattle.std.specs.Prelude.{◌≡◌, ◌≤◌, length};
ghost use Rattle.njs_shared.specs.Heap.{sizes};
ghost use Rattle.njs_shared.specs.Fits.{FitsValue};
ghost use Rattle.njs_meaning.specs.Errors.{first_count};
ghost use Rattle.njs_interp.specs.declared.families.Family.TheVariants as family;
ghost use Rattle.njs_interp.specs.Sits.{Ready};
ghost use Rattle.njs_interp.specs.Tells.{ActsOnHeap, ActsInCall, Leaves};
ghost use Rattle.njs_interp.specs.Grown.{Grown};
ghost use Rattle.njs_interp.specs.Dispatch.{Continues, family_of, OnHeapAlone};

use crate::families::{Family, family_of};
use crate::{
    At, InCall, Stacks, endings, failing, listed, literals, members, operands, slots, updates,
};
use njs_clone::Machine;
use njs_code::Kind;
use njs_convert::Stop;
use njs_text::Steps;
use std::alloc::Global;
use std::sync::ledger::Ledger;

// Operations that put a value on top.
fn constant(
    alloc: Global,
    at: &At<'_>,
    call: &InCall<'_>,
    machine: &mut Machine<'_>,
    stacks: &mut Stacks<'_>,
) -> Result<(), Stop>
    requires family { family_of at.now.op.now.kind ≡ family.Constant }
    requires ready { Ready at.now.functions.now at.now.function.now at.now.op.now machine.old stacks.old }
    requires this { FitsValue (sizes machine.old) call.now.this }
    ensures told { ActsInCall call.now.unit call.now.this call.now.args.now at.now.op.now.kind machine.old machine.new stacks.old stacks.new result }
    ensures leaves { Leaves at.now.function.now at.now.op.now machine.new stacks.new result }
    ensures grown { Grown machine.old machine.new }
{
    match &at.op.kind {
        Kind::Undefined => operands::undefined(at, machine, stacks),
        Kind::Null => operands::null(at, machine, stacks),
        Kind::Bool(truth) => operands::truth(at, machine, stacks, *truth),
        Kind::Num(number) => operands::number(at, machine, stacks, *number),
        Kind::Str(text) => operands::text(alloc, at, machine, stacks, text),
        Kind::This => operands::this(at, machine, stacks, call.unit, call.this, call.args),
        _ => unreachable!(),
    }
}

// Operations that move operands.
fn operand(at: &At<'_>, machine: &Machine<'_>, stacks: &mut Stacks<'_>) -> Result<(), Stop>
    requires family { family_of at.now.op.now.kind ≡ family.Operand }
    requires ready { Ready at.now.functions.now at.now.function.now at.now.op.now machine.now stacks.old }
    ensures told { ActsOnHeap at.now.op.now.kind machine.now machine.now stacks.old stacks.new result }
    ensures leaves { Leaves at.now.function.now at.now.op.now machine.now stacks.new result }
{
    match &at.op.kind {
        Kind::Tuck(under) => operands::tuck(at, machine, stacks, *under),
        Kind::Drop => operands::drop_top(at, machine, stacks),
        Kind::Nip => operands::nip(at, machine, stacks),
        Kind::Receiver => operands::receiver(at, machine, stacks),
        _ => unreachable!(),
    }
}

// Operations on the slots of scopes.
fn slot<L: Ledger>(
    alloc: Global,
    at: &At<'_>,
    machine: &mut Machine<'_>,
    stacks: &mut Stacks<'_>,
    steps: &mut Steps<L>,
) -> Result<(), Stop>
    requires family { family_of at.now.op.now.kind ≡ family.Slot }
    requires ready { Ready at.now.functions.now at.now.function.now at.now.op.now machine.old stacks.old }
    ensures told { ActsOnHeap at.now.op.now.kind machine.old machine.new stacks.old stacks.new result }
    ensures leaves { Leaves at.now.function.now at.now.op.now machine.new stacks.new result }
    ensures grown { Grown machine.old machine.new }
    ensures steps { steps.old ≤ steps.new }
{
    match &at.op.kind {
        Kind::Load { up, slot } => slots::load(at, machine, stacks, *up, *slot),
        Kind::Store { up, slot } => slots::store(alloc, at, machine, stacks, *up, *slot, steps),
        Kind::LoadGlobal(slot) => slots::load_global(at, machine, stacks, *slot),
        Kind::StoreGlobal(slot) => slots::store_global(alloc, at, machine, stacks, *slot, steps),
        Kind::Enter(name) => slots::enter(alloc, at, machine, stacks, name, steps),
        Kind::Leave => slots::leave(at, machine, stacks),
        _ => unreachable!(),
    }
}

// Operations on members.
fn member<L: Ledger>(
    alloc: Global,
    at: &At<'_>,
    machine: &mut Machine<'_>,
    stacks: &mut Stacks<'_>,
    steps: &mut Steps<L>,
) -> Result<(), Stop>
    requires family { family_of at.now.op.now.kind ≡ family.Member }
    requires ready { Ready at.now.functions.now at.now.function.now at.now.op.now machine.old stacks.old }
    requires first { first_count ≤ length machine.old.objects }
    ensures told { ActsOnHeap at.now.op.now.kind machine.old machine.new stacks.old stacks.new result }
    ensures leaves { Leaves at.now.function.now at.now.op.now machine.new stacks.new result }
    ensures grown { Grown machine.old machine.new }
    ensures steps { steps.old ≤ steps.new }
{
    match &at.op.kind {
        Kind::Base => members::base(alloc, at, machine, stacks, steps),
        Kind::Get => members::get(alloc, at, machine, stacks),
        Kind::GetKept => members::get_kept(alloc, at, machine, stacks),
        Kind::Method => members::method(alloc, at, machine, stacks),
        Kind::Put => members::put(alloc, at, machine, stacks, steps),
        Kind::DeleteMember => members::delete(alloc, at, machine, stacks, steps),
        _ => unreachable!(),
    }
}

// Operations that make objects and numbers.
fn made<L: Ledger>(
    alloc: Global,
    at: &At<'_>,
    machine: &mut Machine<'_>,
    stacks: &mut Stacks<'_>,
    steps: &mut Steps<L>,
) -> Result<(), Stop>
    requires family { family_of at.now.op.now.kind ≡ family.Made }
    requires ready { Ready at.now.functions.now at.now.function.now at.now.op.now machine.old stacks.old }
    requires first { first_count ≤ length machine.old.objects }
    ensures told { ActsOnHeap at.now.op.now.kind machine.old machine.new stacks.old stacks.new result }
    ensures leaves { Leaves at.now.function.now at.now.op.now machine.new stacks.new result }
    ensures grown { Grown machine.old machine.new }
    ensures steps { steps.old ≤ steps.new }
{
    match &at.op.kind {
        Kind::NewArray => literals::new_array(alloc, at, machine, stacks, steps),
        Kind::NewObject => literals::new_object(alloc, at, machine, stacks, steps),
        Kind::Define(name) => literals::define(alloc, at, machine, stacks, name, steps),
        Kind::Step(op) => updates::update(alloc, at, machine, stacks, *op, steps),
        _ => unreachable!(),
    }
}

// Operations on lists of names.
fn on_list(at: &At<'_>, machine: &mut Machine<'_>, stacks: &mut Stacks<'_>) -> Result<(), Stop>
    requires family { family_of at.now.op.now.kind ≡ family.Listed }
    requires ready { Ready at.now.functions.now at.now.function.now at.now.op.now machine.old stacks.old }
    ensures told { ActsOnHeap at.now.op.now.kind machine.old machine.new stacks.old stacks.new result }
    ensures leaves { Leaves at.now.function.now at.now.op.now machine.new stacks.new result }
    ensures grown { Grown machine.old machine.new }
{
    match &at.op.kind {
        Kind::NextName => listed::next_name(at, machine, stacks),
        Kind::DropList => listed::drop_list(at, machine, stacks),
        _ => unreachable!(),
    }
}

// Ends of parts of the code, come to from above.
fn end(at: &At<'_>, machine: &Machine<'_>, stacks: &mut Stacks<'_>) -> Result<(), Stop>
    requires family { family_of at.now.op.now.kind ≡ family.End }
    requires ready { Ready at.now.functions.now at.now.function.now at.now.op.now machine.now stacks.old }
    ensures told { ActsOnHeap at.now.op.now.kind machine.now machine.now stacks.old stacks.new result }
    ensures leaves { Leaves at.now.function.now at.now.op.now machine.now stacks.new result }
{
    match &at.op.kind {
        Kind::EndBody { labels, past } => endings::end_body(at, machine, stacks, labels, *past),
        Kind::EndSwitch => endings::end_switch(at, machine, stacks),
        Kind::EndBlock => endings::end_block(at, machine, stacks),
        Kind::Finally => endings::finally(at, machine, stacks),
        _ => unreachable!(),
    }
}

// The operation that throws by itself.
fn throwing<L: Ledger>(
    alloc: Global,
    at: &At<'_>,
    machine: &mut Machine<'_>,
    stacks: &mut Stacks<'_>,
    steps: &mut Steps<L>,
) -> Result<(), Stop>
    requires family { family_of at.now.op.now.kind ≡ family.Failing }
    requires ready { Ready at.now.functions.now at.now.function.now at.now.op.now machine.old stacks.old }
    requires first { first_count ≤ length machine.old.objects }
    ensures told { ActsOnHeap at.now.op.now.kind machine.old machine.new stacks.old stacks.new result }
    ensures leaves { Leaves at.now.function.now at.now.op.now machine.new stacks.new result }
    ensures goes { Continues at.now.op.now.kind result }
    ensures grown { Grown machine.old machine.new }
    ensures steps { steps.old ≤ steps.new }
{
    match &at.op.kind {
        Kind::Fail(failure) => failing::fail(alloc, at, machine, stacks, failure, steps),
        _ => unreachable!(),
    }
}

/// Does an operation on the heap.
pub(crate) fn on_heap<L: Ledger>(
    alloc: Global,
    at: &At<'_>,
    call: &InCall<'_>,
    machine: &mut Machine<'_>,
    stacks: &mut Stacks<'_>,
    steps: &mut Steps<L>,
) -> Result<(), Stop>
    requires alone { OnHeapAlone (family_of at.now.op.now.kind) }
    requires ready { Ready at.now.functions.now at.now.function.now at.now.op.now machine.old stacks.old }
    requires first { first_count ≤ length machine.old.objects }
    requires this { FitsValue (sizes machine.old) call.now.this }
    ensures told { ActsInCall call.now.unit call.now.this call.now.args.now at.now.op.now.kind machine.old machine.new stacks.old stacks.new result }
    ensures goes { Continues at.now.op.now.kind result }
    ensures leaves { Leaves at.now.function.now at.now.op.now machine.new stacks.new result }
    ensures grown { Grown machine.old machine.new }
    ensures steps { steps.old ≤ steps.new }
{
    match family_of(&at.op.kind) {
        Family::Constant => constant(alloc, at, call, machine, stacks),
        Family::Operand => operand(at, machine, stacks),
        Family::Slot => slot(alloc, at, machine, stacks, steps),
        Family::Member => member(alloc, at, machine, stacks, steps),
        Family::Made => made(alloc, at, machine, stacks, steps),
        Family::Listed => on_list(at, machine, stacks),
        Family::End => end(at, machine, stacks),
        Family::Failing => throwing(alloc, at, machine, stacks, steps),
        Family::Jump | Family::Leading | Family::Asked | Family::Called => unreachable!(),
    }
}
