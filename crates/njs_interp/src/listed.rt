// Names that are taken from a list, and lists that are dropped (ECMA-262 5.1 §12.6.4).
ghost use Rattle.std.specs.Prelude.{◌≡◌, ◌<◌, ◌++◌, ◌∷◌, [], length, reverse, drop, slice_get, IfOk};
ghost use Rattle.njs_shared.specs.Heap.{sizes};
ghost use Rattle.njs_shared.specs.Fits.{FitsValue};
ghost use Rattle.njs_clone.specs.Content.{content};
ghost use Rattle.njs_code.specs.declared.op.Kind.TheVariants as Kind;
ghost use Rattle.njs_members.specs.Gains.{GainsTexts};
ghost use Rattle.njs_interp.specs.Sits.{Ready, Sits};
ghost use Rattle.njs_interp.specs.Tells.{ActsOnHeap, Leaves};
ghost use Rattle.njs_interp.specs.Grown.{Grown};
ghost use Rattle.njs_interp.specs.NextNames.{named_by, NameTaken};

use crate::answers::push;
use crate::operators::text_value;
use crate::{At, Listing, Stacks};
use njs_clone::Machine;
use njs_convert::Stop;
use njs_text::{NoMemory, Text};
use njs_value::Value;
use std::alloc::Global;

// Takes the next name of a list.
fn take_name(listing: &mut Listing) -> Option<Text>
    ensures value { listing.new.value ≡ listing.old.value }
    ensures names { reverse listing.new.names.items ≡ drop 1 (reverse listing.old.names.items) }
    ensures next { result ≡ slice_get (reverse listing.old.names.items) 0 }
{
    listing.names.pop()
}

// Takes the next name of the list on top.
fn take_next(at: &At<'_>, machine: &Machine<'_>, stacks: &mut Stacks<'_>) -> Option<Text>
    requires kind { at.now.op.now.kind ≡ Kind.NextName }
    requires ready { Ready at.now.functions.now at.now.function.now at.now.op.now machine.now stacks.old }
    ensures taken { NameTaken stacks.old stacks.new result }
    ensures sits { Sits machine.now at.now.function.now.slots at.now.op.now.depth stacks.new }
{
    let top = stacks.lists.len() - 1;
    take_name(&mut stacks.lists[top])
}

// A name as a value.
fn name_value(machine: &mut Machine<'_>, name: Option<Text>) -> Result<Value, NoMemory>
    ensures shows { IfOk result (λ v. content machine.new.texts v ≡ named_by name) }
    ensures fits { IfOk result (FitsValue (sizes machine.new)) }
    ensures texts { GainsTexts machine.old machine.new }
{
    match name {
        None => Ok(Value::Undefined),
        Some(name) => text_value(machine, name),
    }
}

/// Takes the next name of the list: `[] → [name]`
pub(crate) fn next_name(
    at: &At<'_>,
    machine: &mut Machine<'_>,
    stacks: &mut Stacks<'_>,
) -> Result<(), Stop>
    requires kind { at.now.op.now.kind ≡ Kind.NextName }
    requires ready { Ready at.now.functions.now at.now.function.now at.now.op.now machine.old stacks.old }
    ensures told { ActsOnHeap Kind.NextName machine.old machine.new stacks.old stacks.new result }
    ensures leaves { Leaves at.now.function.now at.now.op.now machine.new stacks.new result }
    ensures grown { Grown machine.old machine.new }
{
    let _sizes = machine.sizes();
    let name = take_next(at, machine, stacks);
    match name_value(machine, name) {
        Ok(value) => push(stacks, value),
        Err(_) => Err(Stop::NoMemory),
    }
}

// Takes the list on top.
fn take_last(lists: &mut Vec<Listing>) -> Listing
    requires { 0 < length lists.old.items }
    ensures { lists.old.items ≡ lists.new.items ++ result ∷ [] }
{
    lists.pop().unwrap()
}

/// Drops the list.
pub(crate) fn drop_list(
    at: &At<'_>,
    machine: &Machine<'_>,
    stacks: &mut Stacks<'_>,
) -> Result<(), Stop>
    requires kind { at.now.op.now.kind ≡ Kind.DropList }
    requires ready { Ready at.now.functions.now at.now.function.now at.now.op.now machine.now stacks.old }
    ensures told { ActsOnHeap Kind.DropList machine.now machine.now stacks.old stacks.new result }
    ensures leaves { Leaves at.now.function.now at.now.op.now machine.now stacks.new result }
{
    let _op = at.op;
    let _sizes = machine.sizes();
    take_last(&mut stacks.lists);
    Ok(())
}
