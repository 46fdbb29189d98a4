// The names that `for in` lists (ECMA-262 5.1 §12.6.4).
ghost use Rattle.std.specs.Prelude.{◌≡◌, ◌≤◌, ◌<◌, ◌++◌, length, false, IfOk, OnOk};
ghost use Rattle.std.specs.List.{list_any};
ghost use Rattle.std.specs.Option.{option_map_or};
ghost use Rattle.std.specs.Fmt.{decimal};
ghost use Rattle.njs_props.specs.Names.{same_name};
ghost use Rattle.njs_props.specs.Props.{property};
ghost use Rattle.njs_shared.specs.Heap.{sizes};
ghost use Rattle.njs_shared.specs.Fits.{FitsValue};
ghost use Rattle.njs_clone.specs.Content.{content};
ghost use Rattle.njs_clone.specs.StandsFor.{plain_objects};
ghost use Rattle.njs_meaning.specs.Errors.{first_count};
ghost use Rattle.njs_meaning.specs.Members.{names_in, chain_from, index_names, visible_names, listed_names};
ghost use Rattle.njs_members.specs.Listed.{indices_of, own_names_of, hidden_by, is_visible, plain_object};

use crate::found::has_within;
use crate::own::{has_own, length_of};
use crate::starts::start_of;
use njs_clone::Machine;
use njs_ops::{Prim, text_of};
use njs_shared::Object;
use njs_text::{List, NoMemory, Text};
use njs_value::{ObjId, Value};
use std::alloc::Global;

fn index_name(alloc: Global, index: usize) -> Result<Text, NoMemory>
    requires { index < 1048576 }
    ensures { IfOk result (λ name. name ≡ decimal index) }
{
    text_of(alloc, Prim::Num(index as i64))
}

// Adds the indices of a text.
fn add_indices(alloc: Global, text: &Text, names: &mut Vec<Text>) -> Result<(), NoMemory>
    ensures { OnOk result (names.new.items ≡ names.old.items ++ index_names 0 text.now) }
{
    for index in 0..length_of(text) as usize {
        names.push(index_name(alloc, index)?)?;
    }
    Ok(())
}

// Adds the names that a value has itself and that are listed.
fn add_own(
    alloc: Global,
    machine: &Machine<'_>,
    base: Value,
    names: &mut Vec<Text>,
) -> Result<(), NoMemory>
    requires { FitsValue (sizes machine.now) base }
    ensures { OnOk result (names.new.items ≡ names.old.items ++ indices_of (content machine.now.texts base)) }
{
    match base {
        Value::Str(text) => add_indices(alloc, machine.text(text), names),
        Value::Undefined | Value::Null | Value::Bool(_) | Value::Num(_) | Value::Obj(_) => Ok(()),
    }
}

// A value whose members are listed, and how many objects of its chain went before.
#[derive(Clone, Copy)]
struct Walk {
    base: Value,
    start: ObjId,
    depth: u32,
}

// Whether the value itself or an object that went before has a name.
fn is_hidden(machine: &Machine<'_>, walk: Walk, name: &Text) -> bool
    requires base { FitsValue (sizes machine.now) walk.base }
    requires start { walk.start.0 < length machine.now.objects }
    ensures { result ≡ list_any (same_name name.now) (hidden_by (content machine.now.texts walk.base) (plain_objects machine.now) walk.start.0 walk.depth) }
{
    has_own(machine, walk.base, name) || has_within(machine, walk.start, name, walk.depth)
}

fn is_enumerable(object: &Object, name: &Text) -> bool
    ensures { result ≡ option_map_or (λ p. p.flags.enumerable) (property name.now object.now.props) false }
{
    match object.props.get(name) {
        None => false,
        Some((_, flags)) => flags.enumerable,
    }
}

// Whether a name of an object is listed.
fn is_visible(machine: &Machine<'_>, walk: Walk, object: &Object, name: &Text) -> bool
    requires base { FitsValue (sizes machine.now) walk.base }
    requires start { walk.start.0 < length machine.now.objects }
    ensures { result ≡ is_visible (hidden_by (content machine.now.texts walk.base) (plain_objects machine.now) walk.start.0 walk.depth) (plain_object machine.now object.now) name.now }
{
    is_enumerable(object, name) && !is_hidden(machine, walk, name)
}

// Adds the names of an object that are listed.
fn add_visible(
    alloc: Global,
    machine: &Machine<'_>,
    walk: Walk,
    object: &Object,
    names: &mut Vec<Text>,
) -> Result<(), NoMemory>
    requires base { FitsValue (sizes machine.now) walk.base }
    requires start { walk.start.0 < length machine.now.objects }
    ensures { OnOk result (names.new.items ≡ names.old.items ++ visible_names (hidden_by (content machine.now.texts walk.base) (plain_objects machine.now) walk.start.0 walk.depth) (plain_object machine.now object.now)) }
{
    let mut keys = object.props.keys(alloc)?;
    keys.retain(
        |name: &Text| -> bool
            requires base { FitsValue (sizes machine.now) walk.base }
            requires start { walk.start.0 < length machine.now.objects }
            ensures { result ≡ is_visible (hidden_by (content machine.entry.now.texts walk.base) (plain_objects machine.entry.now) walk.start.0 walk.depth) (plain_object machine.entry.now object.entry.now) name.now }
        { is_visible(machine, walk, object, name) },
    );
    names.append(&mut keys)?;
    Ok(())
}

// Adds the names that are listed of the objects on the chain.
fn add_inherited(
    alloc: Global,
    machine: &Machine<'_>,
    base: Value,
    start: ObjId,
    names: &mut Vec<Text>,
) -> Result<(), NoMemory>
    requires base { FitsValue (sizes machine.now) base }
    requires start { start.0 < length machine.now.objects }
    ensures { OnOk result (names.new.items ≡ names.old.items ++ listed_names (own_names_of (content machine.now.texts base)) (chain_from (plain_objects machine.now) start.0)) }
{
    let mut at = start;
    for depth in 0..machine.sizes().0 {
        let walk = Walk { base, start, depth };
        let object = machine.object(at);
        add_visible(alloc, machine, walk, object, names)?;
        let Some(up) = object.prototype else {
            return Ok(());
        };
        at = up;
    }
    Ok(())
}

/// The names that `for in` goes through (ECMA-262 5.1 §12.6.4): the indices of a text, and the enumerable names along the
/// chain of prototypes that nothing nearer hides, object by object, array indices rising and then the others in order of
/// creation.
pub fn names_in(alloc: Global, machine: &Machine<'_>, base: Value) -> Result<List<Text>, NoMemory>
    requires first { first_count ≤ length machine.now.objects }
    requires base { FitsValue (sizes machine.now) base }
    ensures { IfOk result (λ names. names ≡ names_in (content machine.now.texts base) (plain_objects machine.now)) }
{
    let mut names = Vec::new(alloc);
    add_own(alloc, machine, base, &mut names)?;
    if let Some(start) = start_of(machine, base) {
        add_inherited(alloc, machine, base, start, &mut names)?;
    }
    Ok(List::from_vec(names))
}
