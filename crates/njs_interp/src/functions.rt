// Functions that are made (ECMA-262 5.1 §13, §13.2).
ghost use Rattle.std.specs.Prelude.{◌≡◌, ◌≤◌, ◌<◌, [], ◌∷◌, length, true, false, Some, Err, IfOk, OnOk, OnErr, codes, pos};
ghost use Rattle.std.specs.Option.{ForSome};
ghost use Rattle.njs_props.specs.Names.{length_name};
ghost use Rattle.njs_value.specs.declared.Class.TheVariants as class;
ghost use Rattle.njs_shared.specs.Heap.{sizes};
ghost use Rattle.njs_shared.specs.Fits.{FitsValue};
ghost use Rattle.njs_clone.specs.Created.{with_object_of};
ghost use Rattle.njs_clone.specs.Gives.{GivesAt, define_in};
ghost use Rattle.njs_meaning.specs.Functions.{prototype_name};
ghost use Rattle.njs_meaning.specs.Errors.{first_count};
ghost use Rattle.njs_convert.specs.Tells.{FitsAnswer};
ghost use Rattle.njs_interp.specs.Outcomes.{MeansOnHeap};
ghost use Rattle.njs_interp.specs.Making.{length_props, constructor_props, prototype_desc, made_function, MakesFunction, MakesScope, NamesFunction};
ghost use Rattle.njs_interp.specs.Grown.{Grown};
ghost use Rattle.njs_clone.specs.Scopes.{slot_count};

use njs_clone::{Machine, operations_go_by_content};
use njs_convert::Stop;
use njs_meaning::Prototype;
use njs_props::PropMap;
use njs_shared::Inner;
use njs_text::{NoMemory, Steps, Text};
use njs_value::{Class, Desc, Flags, HeapStop, ObjId, ScopeId, Value};
use std::alloc::Global;
use std::sync::ledger::Ledger;

const NO_FLAGS: Flags = Flags {
    writable: false,
    enumerable: false,
    configurable: false,
};

pub(crate) const HIDDEN: Flags = Flags {
    writable: true,
    enumerable: false,
    configurable: true,
};

/// A function of a script that is made: its module, its number there, its parameters, and the scope that it is made in.
#[derive(Clone, Copy)]
pub struct Making {
    pub unit: u32,
    pub number: u32,
    pub params: u32,
    pub scope: ScopeId,
}

pub(crate) fn length_text() -> Text
    ensures { result ≡ length_name }
{
    Text::fixed("length")
}

pub(crate) fn prototype_text() -> Text
    ensures { result ≡ prototype_name }
{
    Text::fixed("prototype")
}

fn constructor_text() -> Text
    ensures { result ≡ codes "constructor" }
{
    Text::fixed("constructor")
}

// The properties that the object of a function begins with.
fn length_props(alloc: Global, params: u32) -> Result<PropMap<Value>, NoMemory>
    ensures { IfOk result (λ props. props ≡ length_props params) }
{
    let mut props = PropMap::new(alloc);
    props.insert(length_text(), Value::Num(i64::from(params)), NO_FLAGS)?;
    Ok(props)
}

// The properties of the object under `prototype`.
fn constructor_props(alloc: Global, function: ObjId) -> Result<PropMap<Value>, NoMemory>
    ensures { IfOk result (λ props. props ≡ constructor_props function) }
{
    let mut props = PropMap::new(alloc);
    props.insert(constructor_text(), Value::Obj(function), HIDDEN)?;
    Ok(props)
}

// The object of a function, without its `prototype`.
fn function_object<L: Ledger>(
    alloc: Global,
    machine: &mut Machine<'_>,
    making: Making,
    steps: &mut Steps<L>,
) -> Result<ObjId, NoMemory>
    requires first { first_count ≤ length machine.old.objects }
    requires scope { making.scope.0 < length machine.old.scopes }
    ensures number { IfOk result (λ object. object.0 ≡ length machine.old.objects) }
    ensures ok { OnOk result (machine.new ≡ record machine.old { objects = with_object_of class.Function (Some (record { 0 = 1 })) (length_props making.params) (Inner.Script making.unit making.number making.scope) machine.old.objects }) }
    ensures err { OnErr result (machine.new ≡ machine.old) }
    ensures steps { steps.old ≤ steps.new }
{
    let _sizes = machine.sizes();
    let props = match length_props(alloc, making.params) {
        Ok(props) => props,
        Err(_) => return Err(NoMemory),
    };
    let inner = Inner::Script {
        module: making.unit,
        code: making.number,
        scope: making.scope,
    };
    let up = ObjId(Prototype::Function.place());
    machine.new_object_with(Class::Function, Some(up), props, inner, steps)
}

// The object under the `prototype` of a function.
fn prototype_object<L: Ledger>(
    alloc: Global,
    machine: &mut Machine<'_>,
    function: ObjId,
    steps: &mut Steps<L>,
) -> Result<ObjId, NoMemory>
    requires first { first_count ≤ length machine.old.objects }
    requires function { function.0 < length machine.old.objects }
    ensures number { IfOk result (λ object. object.0 ≡ length machine.old.objects) }
    ensures ok { OnOk result (machine.new ≡ record machine.old { objects = with_object_of class.Object (Some (record { 0 = 0 })) (constructor_props function) Inner.Plain machine.old.objects }) }
    ensures err { OnErr result (machine.new ≡ machine.old) }
    ensures steps { steps.old ≤ steps.new }
{
    let _sizes = machine.sizes();
    let props = match constructor_props(alloc, function) {
        Ok(props) => props,
        Err(_) => return Err(NoMemory),
    };
    let up = ObjId(Prototype::Object.place());
    machine.new_object_with(Class::Object, Some(up), props, Inner::Plain, steps)
}

// Gives a function its `prototype`.
fn set_prototype<L: Ledger>(
    alloc: Global,
    machine: &mut Machine<'_>,
    function: ObjId,
    prototype: ObjId,
    steps: &mut Steps<L>,
) -> Result<(), HeapStop>
    requires function { function.0 < length machine.old.objects }
    requires prototype { prototype.0 < length machine.old.objects }
    ensures gives { GivesAt (define_in machine.old function.0 prototype_name (prototype_desc prototype)) function.0 machine.old machine.new result }
    ensures steps { steps.old ≤ steps.new }
{
    let desc = Desc {
        value: Some(Value::Obj(prototype)),
        writable: Some(true),
        enumerable: Some(false),
        configurable: Some(false),
    };
    machine.define(alloc, function, &prototype_text(), desc, steps)
}

/// A function, and the object under its `prototype`, which comes next (ECMA-262 5.1 §13.2). The tick that it costs is charged
/// by who calls it.
pub(crate) fn made<L: Ledger>(
    alloc: Global,
    machine: &mut Machine<'_>,
    making: Making,
    steps: &mut Steps<L>,
) -> Result<Value, Stop>
    requires first { first_count ≤ length machine.old.objects }
    requires scope { making.scope.0 < length machine.old.scopes }
    ensures told { MeansOnHeap machine.old machine.new result (made_function making.unit making.number making.params making.scope) }
    ensures makes { MakesFunction making.unit making.number making.scope machine.old machine.new }
    ensures fits { FitsAnswer (FitsValue (sizes machine.new)) (sizes machine.new) result }
    ensures memory { OnErr result (result ≡ Err Stop.NoMemory) }
    ensures steps { steps.old ≤ steps.new }
{
    operations_go_by_content();
    let function = match function_object(alloc, machine, making, steps) {
        Ok(function) => function,
        Err(_) => return Err(Stop::NoMemory),
    };
    let prototype = match prototype_object(alloc, machine, function, steps) {
        Ok(prototype) => prototype,
        Err(_) => return Err(Stop::NoMemory),
    };
    match set_prototype(alloc, machine, function, prototype, steps) {
        Ok(()) => Ok(Value::Obj(function)),
        Err(_) => Err(Stop::NoMemory),
    }
}

/// The scope of a function's own name (ECMA-262 5.1 §13), below another: one slot, which is undefined at first.
pub(crate) fn named_scope<L: Ledger>(
    alloc: Global,
    machine: &mut Machine<'_>,
    parent: ScopeId,
    steps: &mut Steps<L>,
) -> Result<ScopeId, NoMemory>
    requires { parent.0 < length machine.old.scopes }
    ensures number { IfOk result (λ scope. scope.0 ≡ length machine.old.scopes) }
    ensures told { OnOk result (MakesScope parent machine.old machine.new) }
    ensures grown { Grown machine.old machine.new }
    ensures steps { steps.old ≤ steps.new }
{
    let made = machine.new_scope(alloc, parent, 1, steps)?;
    Ok(made)
}

/// Gives the name in such a scope the function as its value.
pub(crate) fn give_name<L: Ledger>(
    alloc: Global,
    machine: &mut Machine<'_>,
    scope: ScopeId,
    function: Value,
    steps: &mut Steps<L>,
) -> Result<(), NoMemory>
    requires scope { scope.0 < length machine.old.scopes }
    requires slot { 0 < slot_count machine.old.scopes scope.0 }
    requires function { FitsValue (sizes machine.old) function }
    ensures told { OnOk result (NamesFunction scope.0 function machine.old machine.new) }
    ensures grown { Grown machine.old machine.new }
    ensures steps { steps.old ≤ steps.new }
{
    machine.scope_put(alloc, scope, 0, function, steps)?;
    Ok(())
}
