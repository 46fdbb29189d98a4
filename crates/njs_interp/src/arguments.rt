// The `arguments` of a call (ECMA-262 5.1 §10.6).
ghost use Rattle.std.specs.Prelude.{◌≡◌, ◌≤◌, ◌<◌, ◌++◌, ◌∷◌, [], length, map, true, Some, Err, IfOk, OnErr, OnOk, pos};
ghost use Rattle.std.specs.List.{AllByRecursion};
ghost use Rattle.std.specs.Fmt.{decimal};
ghost use Rattle.njs_props.specs.Names.{length_name};
ghost use Rattle.njs_shared.specs.Heap.{sizes};
ghost use Rattle.njs_shared.specs.Fits.{FitsValue};
ghost use Rattle.njs_clone.specs.Content.{content};
ghost use Rattle.njs_meaning.specs.Errors.{first_count};
ghost use Rattle.njs_convert.specs.Tells.{Extends, FitsAnswer};
ghost use Rattle.njs_interp.specs.Outcomes.{MeansOnHeap};
ghost use Rattle.njs_interp.specs.Counting.{numbered_values, arguments_props, made_arguments};

use crate::functions::{HIDDEN, length_text};
use njs_clone::Machine;
use njs_convert::Stop;
use njs_meaning::Prototype;
use njs_ops::{Prim, text_of};
use njs_props::PropMap;
use njs_shared::Inner;
use njs_text::{NoMemory, Steps, Text};
use njs_value::{Class, Flags, ObjId, Value};
use std::alloc::Global;
use std::sync::ledger::Ledger;

const ALL_FLAGS: Flags = Flags {
    writable: true,
    enumerable: true,
    configurable: true,
};

fn index_name(alloc: Global, index: usize) -> Result<Text, NoMemory>
    requires { index < 4294967295 }
    ensures { IfOk result (λ name. name ≡ decimal index) }
{
    text_of(alloc, Prim::Num(index as i64))
}

// The arguments by their indices.
fn numbered(alloc: Global, args: &[Value]) -> Result<PropMap<Value>, NoMemory>
    requires { length args.now < 4294967295 }
    ensures { IfOk result (λ props. props ≡ numbered_values 0 args.now) }
{
    let mut props = PropMap::new(alloc);
    for place in 0..args.len() {
        let name = index_name(alloc, place)?;
        props.insert(name, args[place], ALL_FLAGS)?;
    }
    Ok(props)
}

fn small_count(args: &[Value]) -> u32
    requires { length args.now < 4294967295 }
    ensures { result ≡ length args.now }
{
    args.len() as u32
}

fn count_of(args: &[Value]) -> Value
    requires { length args.now < 4294967295 }
    ensures { result ≡ Value.Num (pos (length args.now)) }
{
    Value::Num(i64::from(small_count(args)))
}

// The same, and their count.
fn arguments_props(alloc: Global, args: &[Value]) -> Result<PropMap<Value>, NoMemory>
    requires { length args.now < 4294967295 }
    ensures { IfOk result (λ props. props ≡ arguments_props args.now) }
{
    let mut props = numbered(alloc, args)?;
    props.insert(length_text(), count_of(args), HIDDEN)?;
    Ok(props)
}

fn arguments_object<L: Ledger>(
    alloc: Global,
    machine: &mut Machine<'_>,
    args: &[Value],
    steps: &mut Steps<L>,
) -> Result<Value, Stop>
    requires first { first_count ≤ length machine.old.objects }
    requires few { length args.now < 4294967295 }
    requires args { AllByRecursion (FitsValue (sizes machine.old)) args.now }
    ensures told { MeansOnHeap machine.old machine.new result (made_arguments (map (content machine.old.texts) args.now)) }
    ensures extends { Extends machine.old machine.new }
    ensures fits { FitsAnswer (FitsValue (sizes machine.new)) (sizes machine.new) result }
    ensures memory { OnErr result (result ≡ Err Stop.NoMemory) }
    ensures steps { steps.old ≤ steps.new }
{
    let _sizes = machine.sizes();
    let props = match arguments_props(alloc, args) {
        Ok(props) => props,
        Err(_) => return Err(Stop::NoMemory),
    };
    let up = ObjId(Prototype::Object.place());
    match machine.new_object_with(Class::Arguments, Some(up), props, Inner::Plain, steps) {
        Ok(object) => Ok(Value::Obj(object)),
        Err(_) => Err(Stop::NoMemory),
    }
}

/// The object of the arguments of a call. The ticks that it costs are charged by who calls it.
pub(crate) fn arguments<L: Ledger>(
    alloc: Global,
    machine: &mut Machine<'_>,
    args: &[Value],
    steps: &mut Steps<L>,
) -> Result<Value, Stop>
    requires first { first_count ≤ length machine.old.objects }
    requires args { AllByRecursion (FitsValue (sizes machine.old)) args.now }
    ensures told { MeansOnHeap machine.old machine.new result (made_arguments (map (content machine.old.texts) args.now)) }
    ensures extends { Extends machine.old machine.new }
    ensures fits { FitsAnswer (FitsValue (sizes machine.new)) (sizes machine.new) result }
    ensures memory { OnErr result (result ≡ Err Stop.NoMemory) }
    ensures steps { steps.old ≤ steps.new }
{
    // No memory holds so many properties.
    if args.len() >= 4_294_967_295 {
        return Err(Stop::NoMemory);
    }
    arguments_object(alloc, machine, args, steps)
}
